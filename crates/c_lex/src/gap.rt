// White space and comments.
ghost use Rattle.std.specs.Prelude.{◌≡◌, ◌≤◌, ◌+◌, length, drop, IfSome};
ghost use Rattle.c_lex.specs.Grammar.{comment_end, gap_of};

use crate::bytes::{is_blank, starts_with};

/// Where the first `*/` from the third byte on ends.
fn comment_end(text: &[u8]) -> Option<usize>
    ensures value { result ≡ comment_end 2 (drop 2 text.now) }
    ensures within { IfSome result (λ n. n ≤ length text.now) }
    ensures some { IfSome result (λ n. 2 ≤ n) }
{
    let mut at = 2;
    while at < text.len() {
        if text[at] == b'*' && starts_with(b'/', &text[at + 1..]) {
            return Some(at + 2);
        }
        at += 1;
    }
    None
}

/// How long the white space or the comment at the front is, if there is one.
pub fn gap_of(text: &[u8]) -> Option<usize>
    ensures value { result ≡ gap_of text.now }
    ensures within { IfSome result (λ n. n ≤ length text.now) }
    ensures some { IfSome result (λ n. 1 ≤ n) }
{
    match text {
        [] => None,
        [b, behind @ ..] => {
            if is_blank(*b) {
                Some(1)
            } else if *b == b'/' && starts_with(b'*', behind) {
                comment_end(text)
            } else {
                None
            }
        }
    }
}
