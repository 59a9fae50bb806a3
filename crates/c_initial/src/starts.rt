// What static objects hold at first (C90 6.5.7).
ghost use Rattle.std.specs.Prelude.{◌≡◌, ◌+◌, IfOk};
ghost use Rattle.c_trees.specs.Initializers.{Braces, with_items};
ghost use Rattle.c_typing.specs.Plain.{plain};
ghost use Rattle.c_scope.specs.Here.{environment_of};
ghost use Rattle.c_initial.specs.Initials.{bound_set, with_bound};
ghost use Rattle.c_initial.specs.Starts.{IsInitialized};

use crate::initials::text_of;
use crate::starting::add_initial;
use c_judge::Fault;
use c_lex::Place;
use c_scope::{Environment, fault_of};
use c_tree::CType;
use c_trees::declaration::{Initial, InitialNode};
use ldb_words::Text;
use std::alloc::{AllocError, Global};

/// What leaves of a static object hold at first. One leaf: the bits of a number, in a pointer 0 for the null pointer; so many bytes past the begin
/// of the object of a name; or a string by its number. Or a run of so many leaves, each with the bits 0.
#[derive(Clone, Copy)]
pub enum Begin<'a> {
    Bits(u32),
    Within(&'a Text, u64),
    Text(u32),
    Zeros(u64),
}

/// A place in the object of a name, whose bound is not told yet: how many items stand before it, and where its initializer begins.
#[derive(Clone, Copy)]
pub struct LatePlace<'a> {
    pub name: &'a Text,
    pub items: u32,
    pub at: u32,
}

/// What an initializer gives: what the leaves of its object hold at first, in their order; the strings among them; and the places that only the
/// program's end tells to be within their objects.
#[derive(Drop)]
pub struct Initialized<'a> {
    pub begins: Vec<Begin<'a>>,
    pub strings: Vec<&'a Text>,
    pub late: Vec<LatePlace<'a>>,
}

/// What an initializer of an object of a type gives, where the first of its strings has the number `first`. Answers the first rule that is broken.
pub fn initial<'a>(
    alloc: Global,
    here: &Environment<'a>,
    first: u32,
    t: &CType,
    i: &'a Initial,
) -> Result<Initialized<'a>, Fault>
    ensures { IsInitialized (environment_of here.now) first (plain t.now) i.now result }
{
    let mut out = Initialized {
        begins: Vec::new(alloc),
        strings: Vec::new(alloc),
        late: Vec::new(alloc),
    };
    match add_initial(alloc, here, first, &mut out, t, i) {
        Ok(()) => Ok(out),
        Err(why) => Err(fault_of(why)),
    }
}

/// So many items, as a bound.
fn as_bound(n: usize) -> Result<u32, AllocError>
    ensures { IfOk result (λ m. m ≡ n) }
{
    match u32::try_from(n) {
        Err(_) => Err(AllocError),
        Ok(n) => Ok(n),
    }
}

/// The characters of a string and the NUL.
fn with_nul(n: u32) -> Result<u32, AllocError>
    ensures { IfOk result (λ m. m ≡ n + 1) }
{
    match n.checked_add(1) {
        None => Err(AllocError),
        Some(m) => Ok(m),
    }
}

/// The bound that a list in braces sets.
fn list_bound(item: &CType, at: Place, items: &[Initial]) -> Result<u32, AllocError>
    ensures { IfOk result (λ n. n ≡ bound_set (plain item.now) (with_items (Braces at) items.now)) }
{
    as_bound(items.len())
}

/// The bound that an initializer of an array of such items sets.
fn bound_set(item: &CType, i: &Initial) -> Result<u32, AllocError>
    ensures { IfOk result (λ n. n ≡ bound_set (plain item.now) i.now) }
{
    match &i.node {
        InitialNode::Value(e) => match text_of(e) {
            None => Ok(0),
            Some(text) => with_nul(as_bound(text.len())?),
        },
        InitialNode::Braces(at, items) => list_bound(item, *at, items),
    }
}

/// The type of an object whose initializer sets the bound where none is written.
#[tactic(auto, using(crate::proofs::Braced::bound_kept, crate::proofs::Braced::bound_given))]
pub fn with_initial_bound(t: CType, i: &Initial) -> Result<CType, AllocError>
    ensures { IfOk result (λ u. plain u ≡ with_bound (plain t) i.now) }
{
    match t {
        CType::Array(item, n) => {
            if n != 0 {
                return Ok(CType::Array(item, n));
            }
            let n = bound_set(&item, i)?;
            Ok(CType::Array(item, n))
        }
        CType::Char => Ok(CType::Char),
        CType::Int => Ok(CType::Int),
        CType::Unsigned => Ok(CType::Unsigned),
        CType::Void => Ok(CType::Void),
        CType::Pointer(t) => Ok(CType::Pointer(t)),
        CType::Struct(s) => Ok(CType::Struct(s)),
    }
}
