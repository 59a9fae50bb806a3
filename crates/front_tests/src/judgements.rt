// Expressions among a few names.

use crate::lexing::tokens_of;
use c_discard::{discard_expr, discard_typed};
use c_expr::parse_expr;
use c_judge::{ExprFault, Mode, Symbol, check_expr};
use c_tree::{CType, Member, StructDef, Typed};
use c_trees::expression::Expr;
use ldb_words::{Many, Text};
use std::alloc::{AllocError, Global};
use std::rc::Rc;
use test_rows::append;

/// The type of some letters: `c`, `i`, `u` and `v` are the types without a part, `s` and `o` the structs, and behind a type `^` is a pointer to it and `3` an array of three.
fn type_of(alloc: Global, letters: &[u8]) -> Result<CType, AllocError> {
    let mut t = CType::Void;
    for letter in letters {
        t = match *letter {
            b'c' => CType::Char,
            b'i' => CType::Int,
            b'u' => CType::Unsigned,
            b's' => CType::Struct(0),
            b'o' => CType::Struct(1),
            b'^' => CType::Pointer(Rc::new(alloc, t)?),
            b'3' => CType::Array(Rc::new(alloc, t)?, 3),
            _ => CType::Void,
        };
    }
    Ok(t)
}

/// The names, each with the letters of its type, and how it is declared: as an object, `register`, or a function of that result.
const NAMES: [(&[u8], &[u8], u8); 14] = [
    (b"x", b"i", b'o'),
    (b"u", b"u", b'o'),
    (b"c", b"c", b'o'),
    (b"p", b"i^", b'o'),
    (b"q", b"c^", b'o'),
    (b"a", b"i3", b'o'),
    (b"s", b"s", b'o'),
    (b"t", b"s", b'o'),
    (b"z", b"s^", b'o'),
    (b"o", b"o^", b'o'),
    (b"r", b"i", b'r'),
    (b"f", b"i", b'f'),
    (b"g", b"v", b'f'),
    (b"x", b"i^", b'o'),
];

fn names(alloc: Global) -> Result<Vec<Symbol>, AllocError> {
    let mut names = Vec::new(alloc);
    for (name, letters, how) in &NAMES {
        names.push(Symbol {
            name: Text::from_slice(alloc, name)?,
            ctype: type_of(alloc, letters)?,
            register: *how == b'r',
            function: *how == b'f',
        })?;
    }
    Ok(names)
}

/// `struct pair { int left; char right; }` and `struct open`, which is not complete.
fn structs(alloc: Global) -> Result<Vec<StructDef>, AllocError> {
    let mut members = Many::new(alloc);
    members.push(Member {
        name: Text::from_slice(alloc, b"left")?,
        at: 0,
        ctype: CType::Int,
    })?;
    members.push(Member {
        name: Text::from_slice(alloc, b"right")?,
        at: 4,
        ctype: CType::Char,
    })?;
    let mut defs = Vec::new(alloc);
    defs.push(StructDef {
        tag: Text::from_slice(alloc, b"pair")?,
        size: 8,
        members,
    })?;
    defs.push(StructDef {
        tag: Text::from_slice(alloc, b"open")?,
        size: 0,
        members: Many::new(alloc),
    })?;
    Ok(defs)
}

/// The type of an expression among the names, or why it is refused.
fn judged(alloc: Global, e: &Expr, mode: Mode) -> Result<String, AllocError> {
    let names = names(alloc)?;
    let defs = structs(alloc)?;
    if names.len() > 100 || defs.len() > 100 {
        return Err(AllocError);
    }
    match check_expr(alloc, e, &names, &defs, mode) {
        Ok(typed) => String::from_str(alloc, kind_of_typed(typed)),
        Err(ExprFault::Scope { .. }) => String::from_str(alloc, "scope"),
        Err(ExprFault::Rule { rule }) => format!(in alloc; "rule {rule}"),
        Err(ExprFault::Forbidden { at }) => format!(in alloc; "forbidden {at}"),
        Err(ExprFault::NoMemory) => Err(AllocError),
    }
}

/// The kind of the type of a checked expression.
fn kind_of_typed(typed: Typed) -> &'static str {
    let kind = kind_of(&c_judge::head_of(&typed).ctype);
    discard_typed(typed);
    kind
}

fn kind_of(t: &CType) -> &'static str {
    match t {
        CType::Char => "char",
        CType::Int => "int",
        CType::Unsigned => "unsigned",
        CType::Void => "void",
        CType::Pointer(_) => "pointer",
        CType::Array(_, _) => "array",
        CType::Struct(_) => "struct",
    }
}

/// Appends the type of a text's expression, as a value or as an assignment, or why it is refused.
pub fn append_judgement(
    alloc: Global,
    kind: &str,
    text: &[u8],
    out: &mut Vec<u8>,
) -> Result<(), AllocError> {
    let mode = if kind == "value" {
        Mode::Value
    } else {
        Mode::Assign
    };
    let Ok(found) = tokens_of(alloc, text) else {
        return append(out, "no tokens");
    };
    match parse_expr(alloc, text, &found) {
        Ok(e) => {
            let told = judged(alloc, &e, mode);
            discard_expr(e);
            append(out, told?.as_str())
        }
        Err(_) => append(out, "no tree"),
    }
}
