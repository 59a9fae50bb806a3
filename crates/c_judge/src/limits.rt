// How deep and how large types may be, and types that are made of others within these limits.
ghost use Rattle.std.specs.Prelude.{◌≡◌, Some, None};
ghost use Rattle.c_typing.specs.Plain.{plain};
ghost use Rattle.c_typing.specs.Values.{size_of as bytes_of};
ghost use Rattle.c_judge.specs.Judgement.{limited, pointer, pointers, array, bounded};
ghost use Rattle.c_judge.specs.Parts.{IsWithinSize, IsBound, judged_of};
ghost use Rattle.c_judge.specs.Judges.{Denotes};

use crate::fault::Fault;
use crate::part::Part;
use crate::types::{array_of, is_complete, is_void, pointer_to};
use c_defs::StructsView;
use c_tree::{CType, StructDef, size_of};
use c_typing::Constant;
use std::alloc::Global;

/// The size of a type, where it is at most 1,048,576 bytes.
#[tactic(auto, using(crate::proofs::Sizes::size_of_plain))]
pub fn size_within(defs: &[StructDef], t: &CType) -> Option<u32>
    ensures { IsWithinSize (bytes_of defs.now (plain t.now)) result }
{
    size_of(t, defs).ok()
}

/// A type that is at most 64 deep and has at most 1,048,576 bytes.
pub fn limited(defs: &StructsView<'_, '_>, at: u32, t: CType) -> Result<CType, Fault>
    ensures { Denotes (limited defs.now at (plain t)) result }
{
    if defs.is_shallow(&t) && size_within(defs.defs(), &t).is_some() {
        return Ok(t);
    }
    Err(Fault::Rule { rule: 1, at })
}

/// A pointer to a type, which is not `void`.
pub fn pointer(alloc: Global, defs: &StructsView<'_, '_>, at: u32, t: CType) -> Result<CType, Fault>
    ensures { Denotes (pointer defs.now at (plain t)) result }
{
    if is_void(&t) {
        return Err(Fault::Rule { rule: 9, at });
    }
    limited(defs, at, pointer_to(alloc, t)?)
}

/// So many pointers, each to the one before.
#[tactic(auto, using(crate::proofs::Pointing::pointers_next, crate::proofs::Pointing::pointers_fail))]
pub fn pointers(
    alloc: Global,
    defs: &StructsView<'_, '_>,
    at: u32,
    n: u64,
    t: CType,
) -> Result<CType, Fault>
    ensures { Denotes (pointers defs.now at n (plain t)) result }
{
    let mut t = t;
    let mut left = n;
    'pointing: while left > 0 {
        t = match pointer(alloc, defs, at, t) {
            Ok(t) => t,
            Err(f) => return Err(f),
        };
        left -= 1;
    }
    Ok(t)
}

/// An array bound: from 1 to 1,048,576.
fn bound(constant: Constant) -> Option<u32>
    ensures { IsBound constant result }
{
    match constant {
        Constant::Number(n) => {
            if n >= 1 && n <= 1_048_576 {
                return Some(n);
            }
            None
        }
        Constant::Variable | Constant::Undefined => None,
    }
}

/// So many items of a complete type.
pub fn array(
    alloc: Global,
    defs: &StructsView<'_, '_>,
    at: u32,
    t: CType,
    n: u32,
) -> Result<CType, Fault>
    ensures { Denotes (array defs.now at (plain t) n) result }
{
    if !is_complete(defs.defs(), &t) {
        return Err(Fault::Rule { rule: 2, at });
    }
    limited(defs, at, array_of(alloc, t, n)?)
}

/// So many items of a type, by a bound that is a part and begins at its own place.
pub fn bounded(
    alloc: Global,
    defs: &StructsView<'_, '_>,
    at: u32,
    bound_at: u32,
    t: CType,
    x: &Part,
) -> Result<CType, Fault>
    ensures { Denotes (bounded defs.now at bound_at (plain t) (judged_of x.now)) result }
{
    let Some(n) = bound(x.facts.constant) else {
        return Err(Fault::Rule {
            rule: 2,
            at: bound_at,
        });
    };
    array(alloc, defs, at, t, n)
}
