//! Tokens and strings as Ghostscript 10.00 reads them.

use ps_scan::{PsKind, integer_value, next_token, string_value};
use std::process::Abort;
use std::test::Fail;

/// The tokens of a text are these, and then nothing is left.
fn reads(rt: &impl Abort, text: &str, want: &[(PsKind, &str)]) {
    let text = text.as_bytes();
    let mut at = 0;
    for row in want {
        match next_token(text, at) {
            Ok(Some(token)) => {
                assert_eq!(rt; token.kind, row.0);
                assert_eq!(rt; &text[token.from..token.to], row.1.as_bytes());
                at = token.to;
            }
            _ => assert!(rt; false, "no token"),
        }
    }
    assert_eq!(rt; next_token(text, at), Ok(None));
}

#[test]
fn tokens(rt: HostRuntime) {
    use PsKind::{Close, Integer, LiteralName, Name, Open, Str};
    reads(
        &rt,
        "abc/def(g)12",
        &[
            (Name, "abc"),
            (LiteralName, "/def"),
            (Str, "(g)"),
            (Integer, "12"),
        ],
    );
    reads(
        &rt,
        "/a/b/ /",
        &[
            (LiteralName, "/a"),
            (LiteralName, "/b"),
            (LiteralName, "/"),
            (LiteralName, "/"),
        ],
    );
    reads(
        &rt,
        "a%c(\nb%\x0c+ 1-",
        &[(Name, "a"), (Name, "b"), (Name, "+"), (Name, "1-")],
    );
    reads(
        &rt,
        "{[<<>>]}",
        &[
            (Open, "{"),
            (Name, "["),
            (Name, "<<"),
            (Name, ">>"),
            (Name, "]"),
            (Close, "}"),
        ],
    );
    reads(
        &rt,
        "<4 1>(a(b)\\))x",
        &[(Str, "<4 1>"), (Str, "(a(b)\\))"), (Name, "x")],
    );
    for text in ["<zz>", ">", ")", "(a", "<4", " (a(b)"] {
        assert!(rt; next_token(text.as_bytes(), 0).is_err(), "{text}");
    }
}

#[test]
fn integers(rt: HostRuntime) {
    for (text, want) in [
        ("+2", 2),
        ("-3", -3),
        ("16#ff", 255),
        ("8#17", 15),
        ("36#Zz", 1295),
        ("-2147483648", i32::MIN),
        ("16#ffffffff", -1),
    ] {
        assert_eq!(rt; integer_value(text.as_bytes()), Some(want), "{text}");
    }
    for text in [
        "-",
        "1-",
        "0x1",
        "16#g",
        "1#1",
        "37#1",
        "#1",
        "16#1#1",
        "-16#1",
        "2147483648",
    ] {
        assert_eq!(rt; integer_value(text.as_bytes()), None, "{text}");
    }
}

#[test]
fn strings(rt: HostRuntime) -> Result<(), Fail> {
    for (token, want) in [
        ("(a(b)c)", "a(b)c"),
        ("(a\\)b)", "a)b"),
        ("(\\n\\r\\t\\b\\f\\\\\\(\\))", "\n\r\t\x08\x0c\\()"),
        ("(\\053\\53\\5\\0533\\400)", "++\x05+3\0"),
        ("(\\8\\q)", "8q"),
        ("(a\\\nb\\\r\nc\\\rd)", "abcd"),
        ("(x\r\ny\rz\n\r)", "x\ny\nz\n\n"),
        ("(\\1\\12\\123\\1234)", "\x01\nSS4"),
        ("<>", ""),
        ("<41 6F\n7>", "Aop"),
    ] {
        let value = string_value(rt.alloc(), token.as_bytes())?;
        assert_eq!(rt; value.as_slice(), want.as_bytes(), "{token}");
    }
    Ok(())
}
