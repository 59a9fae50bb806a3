//! Comparison of objects (PostScript Language Reference Manual, 8.2, `eq` and `lt`).

ghost use Rattle.std.specs.Prelude.{◌≡◌};
ghost use Rattle.ps_step.specs.Compare.{same_part, same_plain, same_object, order_of, holds, characters_of, relation_of};

use crate::fault::PsError;
use ps_store::{Part, PsObj, PsStore, StringId};
use std::cmp::Ordering;

/// An order of two objects.
#[derive(Clone, Copy)]
pub enum Relation {
    Lt,
    Le,
    Gt,
    Ge,
}

/// Whether both are the same part.
pub fn same_part(a: Part, b: Part) -> bool
    ensures { result ≡ same_part a b }
{
    match (a, b) {
        (Part::Table, Part::Table) | (Part::Command, Part::Command) => true,
        _ => false,
    }
}

/// Whether two objects that are no strings and no names are equal.
fn same_plain(a: PsObj, b: PsObj) -> bool
    ensures { result ≡ same_plain a b }
{
    match (a, b) {
        (PsObj::Int(x), PsObj::Int(y)) => x == y,
        (PsObj::Bool(x), PsObj::Bool(y)) => x == y,
        (PsObj::Array(x, _), PsObj::Array(y, _)) => {
            same_part(x.part, y.part) && x.index == y.index
        }
        (PsObj::Dict(x), PsObj::Dict(y)) => same_part(x.part, y.part) && x.index == y.index,
        (PsObj::Op(x), PsObj::Op(y)) => x == y,
        (PsObj::Mark, PsObj::Mark) | (PsObj::Null, PsObj::Null) => true,
        _ => false,
    }
}

/// The characters of a string or a name.
fn characters_of(x: PsObj) -> Option<StringId>
    ensures { result ≡ characters_of x }
{
    match x {
        PsObj::Name(t, _) | PsObj::Str(t, _) => Some(t),
        _ => None,
    }
}

/// Whether two objects are equal. Strings and names are compared by their characters.
pub fn same_object(store: &PsStore, a: PsObj, b: PsObj) -> bool
    ensures { result ≡ same_object store.now a b }
{
    match (characters_of(a), characters_of(b)) {
        (Some(t), Some(u)) => store.same_bytes(t, u),
        _ => same_plain(a, b),
    }
}

/// The order of two integers, or of two strings.
pub fn order_of(store: &PsStore, a: PsObj, b: PsObj) -> Result<Ordering, PsError>
    ensures { result ≡ order_of store.now a b }
{
    match (a, b) {
        (PsObj::Int(x), PsObj::Int(y)) => Ok(x.cmp(&y)),
        (PsObj::Str(t, _), PsObj::Str(u, _)) => Ok(store.string_get(t).cmp(store.string_get(u))),
        _ => Err(PsError::TypeCheck),
    }
}

impl Relation {
    /// Whether the relation holds of two objects with this order.
    fn holds(self, order: Ordering) -> bool
        ensures { result ≡ holds self order }
    {
        match (self, order) {
            (Relation::Lt, Ordering::Less) | (Relation::Gt, Ordering::Greater) => true,
            (Relation::Lt, _) | (Relation::Gt, _) => false,
            (Relation::Le, Ordering::Greater) | (Relation::Ge, Ordering::Less) => false,
            (Relation::Le, _) | (Relation::Ge, _) => true,
        }
    }

    /// What the operator makes of two objects.
    pub fn apply(self, store: &PsStore, a: PsObj, b: PsObj) -> Result<PsObj, PsError>
        ensures { result ≡ relation_of self store.now a b }
    {
        let order = order_of(store, a, b)?;
        Ok(PsObj::Bool(self.holds(order)))
    }
}
