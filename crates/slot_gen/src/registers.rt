// Locals in registers: the first eight scalars of a function that are `register`.
ghost use Rattle.std.specs.Prelude.{◌≡◌, IfOk};
ghost use Rattle.slot_gen.specs.Expressions.{wants_register as wants, registers_from, register_at, if_register};

use crate::translate::is_scalar;
use c_tree::Local;
use std::alloc::{AllocError, Global};

/// How many locals of a function are in registers at most.
const MOST: u32 = 8;

/// Whether a local may be in a register.
fn wants_register(local: &Local) -> bool
    ensures { result ≡ wants local.now }
{
    local.register && is_scalar(&local.ctype)
}

/// The register of each local.
pub fn registers(alloc: Global, locals: &[Local]) -> Result<Vec<Option<u32>>, AllocError>
    ensures { IfOk result (λ table. table.items ≡ registers_from locals.now 0) }
{
    let mut table = Vec::new(alloc);
    let mut taken = 0;
    for local in locals {
        if wants_register(local) && taken < MOST {
            table.push(Some(taken))?;
            taken += 1;
        } else {
            table.push(None)?;
        }
    }
    Ok(table)
}

/// The local itself, where it is in a register.
pub fn in_register(table: &[Option<u32>], local: u32) -> Option<u32>
    ensures { result ≡ if_register local (register_at table.now local) }
{
    match table.get(local as usize) {
        Some(Some(_)) => Some(local),
        Some(None) | None => None,
    }
}
