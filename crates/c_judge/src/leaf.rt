// Names, constants and strings.
ghost use Rattle.std.specs.Prelude.{◌≡◌, ℕ, List, Some};
ghost use Rattle.c_trees.specs.Expressions as tree;
ghost use Rattle.c_typing.specs.Plain.{plain};
ghost use Rattle.c_symbol.specs.declared.symbol.LeafKind.TheVariants as kind;
ghost use Rattle.c_judge.specs.Judgement.{spec_type, folded, integer_type, leaf_of, named};
ghost use Rattle.c_typing.specs.declared.constant.Constant.TheVariants.{Number};
ghost use Rattle.c_judge.specs.Elaboration.{IsConstant, IsLiteral, IsNamed};
ghost use Rattle.c_judge.specs.Answers.{Known};
ghost use Rattle.c_judge.specs.Judges.{Judges, Makes, Tells, scope_of};
ghost use Rattle.c_defs.specs.Numbers.{number_in};

use crate::fault::Fault;
use crate::operators::{head, part_of};
use crate::part::{Facts, Part};
use crate::scope::Scope;
use crate::types::{array_of, copied};
use c_lex::{Integer, Place};
use c_symbol::LeafKind;
use c_tree::{CType, Typed};
use c_trees::expression::Spec;
use c_typing::Constant;
use ldb_words::Text;
use std::alloc::Global;

/// A name that is not declared.
pub fn unknown(alloc: Global, name: &Text) -> Fault
    ensures { Tells name.now result }
{
    match Text::from_slice(alloc, name.as_bytes()) {
        Ok(name) => Fault::Unknown { name },
        Err(_) => Fault::NoMemory,
    }
}

/// The number of a name.
pub fn number_of<'a, 'n>(v: &Scope<'a, 'n>, name: &'n Text) -> Option<u32>
    ensures { result ≡ number_in v.now.names.now name.now }
{
    v.names.find(name.as_bytes())
}

/// A name, which denotes an object.
fn name<'a, 'n>(alloc: Global, v: &Scope<'a, 'n>, at: Place, text: &'n Text) -> Result<Part, Fault>
    ensures { Judges (scope_of v.now) (tree.Leaf at kind.Name text.now) result }
{
    match number_of(v, text) {
        None => Err(unknown(alloc, text)),
        Some(n) => numbered(alloc, v, at, n),
    }
}

/// What has a number, which is an object.
fn numbered<'a, 'n>(alloc: Global, v: &Scope<'a, 'n>, at: Place, n: u32) -> Result<Part, Fault>
    ensures { (text : List ℕ) → Makes (named (scope_of v.now) at.at text (Some n)) (IsNamed n) at result }
{
    let Some(symbol) = v.rows.get(n as usize) else {
        return Err(Fault::Rule {
            rule: 21,
            at: at.at,
        });
    };
    if symbol.function {
        return Err(Fault::Rule {
            rule: 21,
            at: at.at,
        });
    }
    let t = copied(&symbol.ctype)?;
    let facts = Facts {
        lvalue: true,
        register: symbol.register,
        string: false,
        constant: Constant::Variable,
    };
    part_of(alloc, Typed::Name(head(at, t), n), facts)
}

/// A constant of an integer type, by its bits.
#[tactic(auto, using(crate::proofs::Wholly::makes_part))]
fn constant(alloc: Global, at: Place, t: CType, n: u32) -> Result<Part, Fault>
    ensures { Makes (Known (folded (Number n) (plain t))) (IsConstant n) at result }
{
    let facts = Facts {
        lvalue: false,
        register: false,
        string: false,
        constant: Constant::Number(n),
    };
    part_of(alloc, Typed::Constant(head(at, t), n), facts)
}

/// An integer constant.
fn integer(alloc: Global, at: Place, i: Integer) -> Result<Part, Fault>
    ensures { Makes (Known (folded (Number i.value) (integer_type i))) (IsConstant i.value) at result }
{
    if i.is_unsigned {
        return constant(alloc, at, CType::Unsigned, i.value);
    }
    constant(alloc, at, CType::Int, i.value)
}

/// A string, which is an array of its characters and a NUL.
#[tactic(auto, using(crate::proofs::Wholly::makes_part))]
fn string<'a, 'n>(
    alloc: Global,
    v: &Scope<'a, 'n>,
    at: Place,
    text: &'n Text,
) -> Result<Part, Fault>
    ensures { Makes (leaf_of (scope_of v.now) at.at kind.Text text.now) (IsLiteral ((scope_of v.now).literal at.at)) at result }
{
    if text.len() >= 1_048_576 {
        return Err(Fault::Rule { rule: 1, at: at.at });
    }
    let n = v.literals.get(&at.at).copied().unwrap_or(0);
    let t = array_of(alloc, CType::Char, text.len() as u32 + 1)?;
    let facts = Facts {
        lvalue: true,
        register: false,
        string: true,
        constant: Constant::Variable,
    };
    part_of(alloc, Typed::Literal(head(at, t), n), facts)
}

/// A name, a constant or a string.
#[tactic(auto, using(crate::proofs::Named::integer_judges, crate::proofs::Named::character_judges, crate::proofs::Named::string_judges))]
pub fn leaf<'a, 'n>(
    alloc: Global,
    v: &Scope<'a, 'n>,
    at: Place,
    kind: LeafKind,
    text: &'n Text,
) -> Result<Part, Fault>
    ensures { Judges (scope_of v.now) (tree.Leaf at kind text.now) result }
{
    match kind {
        LeafKind::Name => name(alloc, v, at, text),
        LeafKind::Constant(i) => integer(alloc, at, i),
        LeafKind::Character(c) => constant(alloc, at, CType::Int, c.cast_unsigned()),
        LeafKind::Text => string(alloc, v, at, text),
    }
}

/// The type that a type's name begins with.
pub fn spec_type<'a, 'n>(v: &Scope<'a, 'n>, spec: &'n Spec) -> CType
    ensures { plain result ≡ spec_type (scope_of v.now) spec.now }
{
    match spec {
        Spec::Char => CType::Char,
        Spec::Int => CType::Int,
        Spec::Unsigned | Spec::UnsignedInt => CType::Unsigned,
        Spec::Void => CType::Void,
        Spec::Struct(tag) => match v.tags.find(tag.as_bytes()) {
            Some(s) => CType::Struct(s),
            None => CType::Struct(v.incomplete),
        },
    }
}
