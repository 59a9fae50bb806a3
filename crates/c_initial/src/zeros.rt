// Zeros in static objects: one for each leaf without an initializer (C90 6.5.7).
ghost use Rattle.std.specs.Prelude.{◌≡◌, ◌<◌, ◌*◌, ◌^◌, ◌++◌, replicate, OnOk};
ghost use Rattle.c_typing.specs.Plain.{plain};
ghost use Rattle.c_defs.specs.Depths.{deepest};
ghost use Rattle.c_defs.specs.Leaves.{leaf_count};
ghost use Rattle.c_initial.specs.Begins.{Bits, rest};
ghost use Rattle.c_initial.specs.Starts.{begins_in};

use crate::starts::Begin;
use c_defs::StructsView;
use c_tree::CType;
use std::alloc::AllocError;

/// Adds so many zeros, as one run.
#[tactic(auto, using(crate::proofs::Runs::begins_more))]
pub fn add_zeros(begins: &mut Vec<Begin>, n: u64) -> Result<(), AllocError>
    ensures { OnOk result (begins_in begins.new.items ≡ begins_in begins.old.items ++ replicate n (Bits 0)) }
{
    if n == 0 {
        return Ok(());
    }
    begins.push(Begin::Zeros(n))?;
    Ok(())
}

/// Adds the zeros of so many items of an array.
fn add_items(
    defs: &StructsView<'_, '_>,
    begins: &mut Vec<Begin>,
    item: &CType,
    n: u64,
) -> Result<(), AllocError>
    requires { n < 2 ^ 32 }
    ensures { OnOk result (begins_in begins.new.items ≡ begins_in begins.old.items ++ replicate (n * leaf_count defs.now deepest (plain item.now)) (Bits 0)) }
{
    let leaves = defs.leaf_count(item)?;
    add_zeros(begins, n * u64::from(leaves))
}

/// Adds the zeros of an aggregate's parts behind its first `k`.
#[tactic(auto, using(crate::proofs::Runs::zeros_of_rest))]
pub fn add_rest(
    defs: &StructsView<'_, '_>,
    begins: &mut Vec<Begin>,
    t: &CType,
    k: usize,
) -> Result<(), AllocError>
    ensures { OnOk result (begins_in begins.new.items ≡ begins_in begins.old.items ++ rest defs.now (plain t.now) k) }
{
    match t {
        CType::Array(item, n) => add_items(
            defs,
            begins,
            item,
            u64::from(*n).saturating_sub(k as u64),
        ),
        CType::Struct(s) => add_zeros(begins, u64::from(defs.leaves_behind(*s, k)?)),
        CType::Char | CType::Int | CType::Unsigned | CType::Void | CType::Pointer(_) => Ok(()),
    }
}
