//! Objects that are read from a text, a token at a time (PostScript Language Reference Manual, 3.2).

ghost use Rattle.ps_store.specs.Store.{closed_part, bytes_of};
ghost use Rattle.std.specs.Prelude.{◌≡◌, ◌≤◌, length, IfOk, IfErr, drop, []};
ghost use Rattle.ps_run.specs.Scan.{object_of, naming_text, name_text, reading, reading_object, read_token, closed};
ghost use Rattle.ps_step.specs.declared.fault.PsFault.TheVariants.{NoMemory as OutOfMemory};
ghost use Rattle.ps_run.specs.Reads.{Makes, Places, ReadsToken, Reads};

use ps_scan::{PsKind, PsToken, integer_value, next_token, string_value};
use ps_step::fault::{PsError, PsFault};
use ps_step::marks::mark_depth;
use ps_step::stack::Stack;
use ps_store::{NameText, PsObj, PsStore, StringId};
use std::alloc::Global;

/// How reading goes on after a token.
#[derive(Clone, Copy)]
pub enum Progress {
    /// Procedures are open.
    More,
    /// An object is whole.
    Whole(PsObj),
    /// The text is at its end.
    Nothing,
}

/// A name of these characters.
fn name_object(
    store: &mut PsStore,
    name: Option<NameText>,
    executable: bool,
) -> Result<PsObj, PsFault>
    ensures makes { Makes result store.old store.new (naming_text store.old name executable) }
    ensures closed { closed_part store.new ≡ closed_part store.old }
{
    match name {
        Some(name) => {
            let t = store.make_name(name.as_slice())?;
            Ok(PsObj::Name(t, executable))
        }
        None => Err(PsFault::Error(PsError::LimitCheck)),
    }
}

/// The characters of a token that is a name, if there are at most 127.
fn name_text(word: &[u8]) -> Option<NameText>
    ensures { result ≡ name_text word.now }
{
    NameText::new(word)
}

/// The object of a token that is no brace.
fn token_object(
    store: &mut PsStore,
    t: StringId,
    token: PsToken,
    alloc: Global,
) -> Result<PsObj, PsFault>
    requires ordered { token.from ≤ token.to }
    requires within { token.to ≤ length (bytes_of store.old t) }
    ensures makes { Makes result store.old store.new (object_of store.old (bytes_of store.old t) token) }
    ensures closed { closed_part store.new ≡ closed_part store.old }
{
    let word = &store.string_get(t)[token.from..token.to];
    match token.kind {
        PsKind::Integer => match integer_value(word) {
            Some(n) => Ok(PsObj::Int(n)),
            None => Err(PsFault::Error(PsError::SyntaxError)),
        },
        PsKind::Name => {
            let name = name_text(word);
            name_object(store, name, true)
        }
        PsKind::LiteralName => {
            let name = name_text(literal_text(word));
            name_object(store, name, false)
        }
        PsKind::Str => {
            let text = string_value(alloc, word)?;
            let made = store.make_string(&text)?;
            Ok(PsObj::Str(made, false))
        }
        PsKind::Open | PsKind::Close => Err(PsFault::Error(PsError::SyntaxError)),
    }
}

/// The characters behind the slash of a literal name.
fn literal_text(word: &[u8]) -> &[u8]
    ensures { result.now ≡ drop 1 word.now }
{
    match word {
        [] => &[],
        [_, rest @ ..] => rest,
    }
}

/// Puts an object that was made into the innermost open procedure, if there is one.
fn place(xs: &mut Stack<PsObj>, x: PsObj) -> Result<Progress, PsFault>
    ensures ok { IfOk result (λ progress. Places progress x xs.old xs.new) }
    ensures err { IfErr result (λ e. e ≡ OutOfMemory) }
{
    if xs.len() == 0 {
        return Ok(Progress::Whole(x));
    }
    xs.push(x)?;
    Ok(Progress::More)
}

/// Closes the innermost procedure.
fn close(store: &mut PsStore, xs: &mut Stack<PsObj>, at: usize) -> Result<Progress, PsFault>
    ensures reads { ReadsToken result store.new xs.new at (closed xs.old at store.old) }
    ensures closed { closed_part store.new ≡ closed_part store.old }
{
    let Some(count) = mark_depth(xs) else {
        return Err(PsFault::Error(PsError::SyntaxError));
    };
    let a = store.make_array_of(xs.topmost(count))?;
    xs.take(count + 1);
    place(xs, PsObj::Array(a, true))
}

/// Reads a token that was found.
fn read_found(
    store: &mut PsStore,
    t: StringId,
    xs: &mut Stack<PsObj>,
    token: PsToken,
) -> Result<Progress, PsFault>
    requires ordered { token.from ≤ token.to }
    requires within { token.to ≤ length (bytes_of store.old t) }
    ensures reads { ReadsToken result store.new xs.new token.to (read_token store.old (bytes_of store.old t) xs.old token) }
    ensures closed { closed_part store.new ≡ closed_part store.old }
{
    match token.kind {
        PsKind::Open => {
            xs.push(PsObj::Mark)?;
            Ok(Progress::More)
        }
        PsKind::Close => close(store, xs, token.to),
        _ => {
            let x = token_object(store, t, token, xs.allocator())?;
            place(xs, x)
        }
    }
}

/// Reads the next token of a text.
fn read_next(
    store: &mut PsStore,
    t: StringId,
    xs: &mut Stack<PsObj>,
    at: &mut usize,
) -> Result<Progress, PsFault>
    ensures reads { ReadsToken result store.new xs.new at.new (reading store.old t xs.old at.old) }
    ensures closed { closed_part store.new ≡ closed_part store.old }
{
    let text = store.string_get(t);
    if *at > text.len() {
        return Err(PsFault::Error(PsError::SyntaxError));
    }
    match next_token(text, *at) {
        Err(_) => Err(PsFault::Error(PsError::SyntaxError)),
        Ok(Some(token)) => {
            *at = token.to;
            read_found(store, t, xs, token)
        }
        Ok(None) => {
            if xs.len() == 0 {
                Ok(Progress::Nothing)
            } else {
                Err(PsFault::Error(PsError::SyntaxError))
            }
        }
    }
}

#[tactic(auto, using(crate::proofs::Readings::any_token))]
/// Reads an object from a place of a text on, and the place behind it.
pub fn read_object(
    store: &mut PsStore,
    t: StringId,
    start: usize,
    mut xs: Stack<PsObj>,
) -> Result<Option<(PsObj, usize)>, PsFault>
    requires { xs ≡ [] }
    ensures reads { Reads result store.new (reading_object store.old t start) }
    ensures closed { closed_part store.new ≡ closed_part store.old }
{
    let turns = store.string_get(t).len() + 1;
    let mut left = turns;
    let mut at = start;
    while left > 0 {
        left -= 1;
        match read_next(store, t, &mut xs, &mut at) {
            Ok(Progress::More) => {}
            Ok(Progress::Whole(x)) => return Ok(Some((x, at))),
            Ok(Progress::Nothing) => return Ok(None),
            Err(fault) => return Err(fault),
        }
    }
    Err(PsFault::Error(PsError::SyntaxError))
}
