// Expressions as initializers of static objects (C90 6.5.7).
ghost use Rattle.std.specs.Prelude.{◌≡◌, ◌+◌, ◌++◌, ◌||◌, [], ◌∷◌, length, map, option_map, IfOk, OnOk, Some};
ghost use Rattle.c_trees.specs.Initializers.{Value};
ghost use Rattle.c_typing.specs.Plain.{plain, Pointer, Array};
ghost use Rattle.c_judge.specs.Judgement.{judged};
ghost use Rattle.c_judge.specs.Places.{place_of};
ghost use Rattle.c_mentions.specs.Tags.{now};
ghost use Rattle.c_scope.specs.Findings.{asked};
ghost use Rattle.c_scope.specs.Environment as around;
ghost use Rattle.c_scope.specs.Environment.{scope_of};
ghost use Rattle.c_scope.specs.Declarators.{constant};
ghost use Rattle.c_scope.specs.Spelling.{is_number};
ghost use Rattle.c_mentions.specs.Literals.{in_tree, texts};
ghost use Rattle.c_initial.specs.Initials.{number, spot, is_characters, is_spot, address_found, value_found, late_of, late_in, initial_found};
ghost use Rattle.c_initial.specs.Begins.{kept_as, bits_of, characters, character, spot_begin, address_begin, value_begins, strings_of_value, begins_of, strings_of};
ghost use Rattle.c_initial.specs.Spots.{spot_of};
ghost use Rattle.c_initial.specs.Starts.{begins_of_row, begins_in, late_place, given_of, with_more, Adds, IsBegin};
ghost use Rattle.c_initial.specs.Valued.{is_zero, pointer_begin, IsArray};
ghost use Rattle.c_scope.specs.Here.{environment_of};

use crate::constants::{constant_in, number_in};
use crate::initials::{fits, text_of};
use crate::spots::{StaticPlace, is_spot, spot};
use crate::starts::{Begin, Initialized, LatePlace};
use crate::zeros::add_zeros;
use c_judge::{Constant, converted, place_of, same};
use c_mentions::in_tree;
use c_scope::{Environment, Refusal};
use c_tree::{CType, TooBig, size_of};
use c_trees::expression::Expr;
use ldb_words::Text;
use std::alloc::{AllocError, Global};

/// What an integer of a type keeps of a number.
fn kept_as(t: &CType, n: u32) -> u32
    ensures { result ≡ kept_as (plain t.now) n }
{
    match converted(t, Constant::Number(n)) {
        Constant::Number(kept) => kept,
        Constant::Variable | Constant::Undefined => n,
    }
}

/// A constant expression as the initializer of an integer.
fn integer<'a>(
    alloc: Global,
    here: &Environment<'a>,
    t: &CType,
    e: &'a Expr,
) -> Result<Begin<'a>, Refusal>
    ensures { IsBegin (asked is_number 11 (place_of e.now).at (constant (judged (scope_of (environment_of here.now)) e.now))) (bits_of (plain t.now) (number (environment_of here.now) e.now)) result }
{
    match constant_in(alloc, here, e) {
        Ok(Constant::Number(n)) => Ok(Begin::Bits(kept_as(t, n))),
        Ok(Constant::Variable | Constant::Undefined) => Err(Refusal::Rule {
            rule: 11,
            at: place_of(e).at,
        }),
        Err(why) => Err(why),
    }
}

/// Whether a constant is 0.
fn is_zero(c: Constant) -> bool
    ensures { result ≡ is_zero c }
{
    match c {
        Constant::Number(n) => n == 0,
        Constant::Variable | Constant::Undefined => false,
    }
}

/// Whether a string may stand where a pointer to this type does.
fn is_characters(t: &CType, text: Option<&Text>) -> bool
    ensures { (v : around.Environment) → result ≡ is_characters v (plain t.now) (option_map now text.entry) }
{
    match text {
        None => false,
        Some(_) => same(t, &CType::Char),
    }
}

/// Whether a pointer to this type may hold a constant, a string or a place.
fn may_point(t: &CType, c: Constant, text: Option<&Text>, s: Option<StaticPlace>) -> bool
    ensures { (v : around.Environment) → result ≡ (is_zero c || is_characters v (plain t.now) (option_map now text.entry) || is_spot v (plain t.now) (option_map spot_of s.entry)) }
{
    if is_zero(c) {
        return true;
    }
    if is_characters(t, text) {
        return true;
    }
    is_spot(t, s)
}

/// What a pointer holds at first: a place, or nothing.
#[tactic(auto, using(c_scope::proofs::Sizes::size_of_plain))]
fn place_begin<'a>(
    here: &Environment<'a>,
    s: Option<StaticPlace<'a, '_>>,
) -> Result<Begin<'a>, AllocError>
    ensures { IfOk result (λ b. spot_begin (environment_of here.now) (option_map spot_of s.entry) ≡ begins_of_row b) }
{
    match s {
        None => Ok(Begin::Bits(0)),
        Some(s) => match size_of(s.ctype, here.defs.defs()) {
            Ok(size) => Ok(Begin::Within(s.name, u64::from(s.items) * u64::from(size))),
            Err(TooBig) => Err(AllocError),
        },
    }
}

/// What a pointer holds at first: the null pointer, the string with the number `k`, or a place.
fn pointer_begin<'a>(
    here: &Environment<'a>,
    k: u32,
    c: Option<u32>,
    text: Option<&Text>,
    s: Option<StaticPlace<'a, '_>>,
) -> Result<Begin<'a>, AllocError>
    ensures { IfOk result (λ b. pointer_begin (environment_of here.now) k c (option_map now text.entry) (option_map spot_of s.entry) ≡ begins_of_row b) }
{
    match c {
        Some(_) => Ok(Begin::Bits(0)),
        None => match text {
            Some(_) => Ok(Begin::Text(k)),
            None => place_begin(here, s),
        },
    }
}

/// An expression as the initializer of a pointer to a type. Where it is a string, the string has the number `k`.
fn pointer<'a>(
    alloc: Global,
    here: &Environment<'a>,
    k: u32,
    target: &CType,
    e: &'a Expr,
    s: Option<StaticPlace<'a, '_>>,
) -> Result<Begin<'a>, Refusal>
    requires { option_map spot_of s ≡ spot (environment_of here.now) e.now }
    ensures { IsBegin (address_found (environment_of here.now) (plain target.now) e.now) (address_begin (environment_of here.now) k e.now (number (environment_of here.now) e.now)) result }
{
    match constant_in(alloc, here, e) {
        Err(why) => Err(why),
        Ok(c) => {
            let text = text_of(e);
            if !may_point(target, c, text, s) {
                return Err(Refusal::Rule {
                    rule: 12,
                    at: place_of(e).at,
                });
            }
            Ok(pointer_begin(here, k, number_in(c), text, s)?)
        }
    }
}

/// Adds characters, each as a `char` keeps it.
#[tactic(auto, using(std::proofs::lemmas::Grind::common_steps, crate::proofs::Runs::begins_more))]
fn add_characters(begins: &mut Vec<Begin>, text: &[u8]) -> Result<(), AllocError>
    ensures { OnOk result (begins_in begins.new.items ≡ begins_in begins.old.items ++ map character text.now) }
{
    for c in text {
        begins.push(Begin::Bits(kept_as(&CType::Char, u32::from(*c))))?;
    }
    Ok(())
}

/// Adds the characters of a string as an array of so many items, with zeros behind them.
fn add_string(begins: &mut Vec<Begin>, n: u32, text: &Text) -> Result<(), AllocError>
    ensures { OnOk result (begins_in begins.new.items ≡ begins_in begins.old.items ++ characters n (Some text.now)) }
{
    add_characters(begins, text.as_bytes())?;
    add_zeros(begins, u64::from(n).saturating_sub(text.len() as u64))
}

/// Adds what an array of so many items holds, whose initializer is an expression.
fn add_array(begins: &mut Vec<Begin>, item: &CType, n: u32, e: &Expr) -> Result<(), Refusal>
    ensures { IsArray (plain item.now) n e.now (begins_in begins.old.items) (begins_in begins.new.items) result }
{
    match text_of(e) {
        None => Err(Refusal::Rule {
            rule: 13,
            at: place_of(e).at,
        }),
        Some(text) => {
            if !fits(item, n, Some(text)) {
                return Err(Refusal::Rule {
                    rule: 13,
                    at: place_of(e).at,
                });
            }
            add_string(begins, n, text)?;
            Ok(())
        }
    }
}

/// Adds the strings of an expression.
fn add_strings<'a>(
    alloc: Global,
    strings: &mut Vec<&'a Text>,
    e: &'a Expr,
) -> Result<(), AllocError>
    ensures { OnOk result (map now strings.new.items ≡ map now strings.old.items ++ texts (in_tree e.now)) }
{
    let mut found = Vec::new(alloc);
    in_tree(&mut found, e)?;
    for literal in &found {
        strings.push(literal.text)?;
    }
    Ok(())
}

/// Adds a leaf and the strings of the expression that gives it.
#[tactic(auto, using(std::proofs::lemmas::Grind::common_steps, crate::proofs::Runs::begins_more))]
fn add_leaf<'a>(
    alloc: Global,
    out: &mut Initialized<'a>,
    b: Begin<'a>,
    e: &'a Expr,
) -> Result<(), AllocError>
    ensures { OnOk result (given_of out.new ≡ with_more (given_of out.old) (begins_of_row b.entry) (texts (in_tree e.now)) []) }
{
    out.begins.push(b)?;
    add_strings(alloc, &mut out.strings, e)
}

/// Adds a place that only the program's end tells to be within its object.
fn add_late<'a>(
    late: &mut Vec<LatePlace<'a>>,
    at: u32,
    s: Option<StaticPlace<'a, '_>>,
) -> Result<(), AllocError>
    ensures { (v : around.Environment) → OnOk result (map late_place late.new.items ≡ map late_place late.old.items ++ late_of v at (option_map spot_of s.entry)) }
{
    match s {
        None => Ok(()),
        Some(s) => {
            if s.bound != 0 {
                return Ok(());
            }
            late.push(LatePlace {
                name: s.name,
                items: s.items,
                at,
            })?;
            Ok(())
        }
    }
}

/// The number of the next string.
fn next_string(first: u32, strings: usize) -> Result<u32, AllocError>
    ensures { IfOk result (λ k. k ≡ first + strings) }
{
    let Ok(more) = u32::try_from(strings) else {
        return Err(AllocError);
    };
    match first.checked_add(more) {
        None => Err(AllocError),
        Some(k) => Ok(k),
    }
}

/// Adds what an expression gives, but for the place that it tells.
fn add_object<'a>(
    alloc: Global,
    here: &Environment<'a>,
    first: u32,
    out: &mut Initialized<'a>,
    t: &CType,
    e: &'a Expr,
    s: Option<StaticPlace<'a, '_>>,
) -> Result<(), Refusal>
    requires { option_map spot_of s ≡ spot (environment_of here.now) e.now }
    ensures { Adds (value_found (environment_of here.now) (plain t.now) e.now) (given_of out.old) (value_begins (environment_of here.now) (first + length (given_of out.old).strings) (plain t.now) e.now) (strings_of_value (environment_of here.now) (plain t.now) e.now) [] (given_of out.new) result }
{
    match t {
        CType::Pointer(target) => {
            let k = next_string(first, out.strings.len())?;
            let b = pointer(alloc, here, k, target, e, s)?;
            add_leaf(alloc, out, b, e)?;
            Ok(())
        }
        CType::Array(item, n) => add_array(&mut out.begins, item, *n, e),
        CType::Struct(_) => Err(Refusal::Rule {
            rule: 13,
            at: place_of(e).at,
        }),
        CType::Char | CType::Int | CType::Unsigned | CType::Void => {
            let b = integer(alloc, here, t, e)?;
            add_leaf(alloc, out, b, e)?;
            Ok(())
        }
    }
}

/// Adds what an expression gives as the initializer of an object of a type.
pub fn add_value<'a>(
    alloc: Global,
    here: &Environment<'a>,
    first: u32,
    out: &mut Initialized<'a>,
    t: &CType,
    e: &'a Expr,
) -> Result<(), Refusal>
    ensures { Adds (initial_found (environment_of here.now) (plain t.now) (Value e.now)) (given_of out.old) (begins_of (environment_of here.now) (first + length (given_of out.old).strings) (plain t.now) (Value e.now)) (strings_of (environment_of here.now) (plain t.now) (Value e.now)) (late_in (environment_of here.now) (Value e.now)) (given_of out.new) result }
{
    let s = spot(alloc, here, e)?;
    add_object(alloc, here, first, out, t, e, s)?;
    add_late(&mut out.late, place_of(e).at, s)?;
    Ok(())
}
