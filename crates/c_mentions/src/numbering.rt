// The numbers of string literals.
ghost use Rattle.std.specs.Prelude.{◌≡◌, ◌+◌, ◌<◌, ◌^◌, ℕ, length, map, IfOk, OnOk, Some, nat_eq};
ghost use Rattle.std.specs.BTreeMap.{get};
ghost use Rattle.std.specs.Map.{update};
ghost use Rattle.std.specs.Ordering.{nat_cmp};
ghost use Rattle.c_judge.specs.Scope.{or_else_number};
ghost use Rattle.c_mentions.specs.Literals.{literal, number_at};

use crate::literals::Literal;
use std::alloc::{AllocError, Global};
use std::collections::BTreeMap;

/// The numbers of literals by where they begin, where the first of them has the number `first` and the others follow. Of two that begin at one
/// offset the first counts.
pub fn literal_numbers(
    alloc: Global,
    first: u32,
    literals: &[Literal],
) -> Result<BTreeMap<u32, u32>, AllocError>
    requires { first + length literals.now < 2 ^ 32 }
    ensures { IfOk result (λ m. (at : ℕ) → or_else_number 0 (get nat_cmp m at) ≡ number_at first (map literal literals.now) at) }
{
    let mut numbers = BTreeMap::new(alloc);
    let mut i = literals.len();
    'numbering: while i > 0 {
        i -= 1;
        set(&mut numbers, literals[i].at, first + i as u32)?;
    }
    Ok(numbers)
}

/// Gives the literal at an offset this number.
fn set(numbers: &mut BTreeMap<u32, u32>, at: u32, number: u32) -> Result<(), AllocError>
    ensures { OnOk result ((k : ℕ) → get nat_cmp numbers.new k ≡ update nat_eq (get nat_cmp numbers.old) at (Some number) k) }
{
    match numbers.insert(at, number) {
        Ok(_) => Ok(()),
        Err(_) => Err(AllocError),
    }
}
