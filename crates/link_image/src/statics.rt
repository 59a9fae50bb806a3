// The bytes of static objects, each at its address.

ghost use Rattle.std.specs.Prelude.{◌≡◌, ◌-◌, ◌++◌, List, ℕ, OnOk, IfOk, IfErr, length};
ghost use Rattle.machine_state.specs.Regions.{zeros};
ghost use Rattle.machine_state.specs.declared.layout.TheConstants.{DATA as FIRST_STATIC};
ghost use Rattle.obj_placed.specs.Placed.{all_statics, cut, placed_statics};
ghost use Rattle.std.specs.List.{AllByRecursion};
ghost use Rattle.link_image.specs.Conditions.{IsFault};
ghost use Rattle.link_image.specs.Tables.{HasStatics, address_in, entry_in, linked_entry};
ghost use Rattle.link_image.specs.Linked.{addresses_from, next_address, data_from};

use crate::addresses::Addresses;
use crate::fault::LinkFault;
use crate::patch::patched_statics;
use crate::sizes::{behind, end_of};
use machine_state::DATA;
use obj_file::{Object, StaticDef};
use std::alloc::{AllocError, Global};

/// Zeros up to an address.
#[tactic(auto, unfolding(machine_state::specs::Regions::zeros))]
fn fill(statics: &mut Vec<u8>, address: u32) -> Result<(), AllocError>
    ensures { OnOk result (statics.new.items ≡ statics.old.items ++ zeros (address - FIRST_STATIC - length statics.old.items)) }
{
    let offset = address.saturating_sub(DATA) as usize;
    if statics.len() < offset {
        statics.resize(offset, 0)?;
    }
    Ok(())
}

/// The bytes of a static object at its address.
fn add_static(statics: &mut Vec<u8>, address: u32, bytes: &[u8]) -> Result<(), AllocError>
    ensures { OnOk result (statics.new.items ≡ statics.old.items ++ zeros (address - FIRST_STATIC - length statics.old.items) ++ bytes.now) }
{
    fill(statics, address)?;
    statics.extend_from_slice(bytes)?;
    Ok(())
}

/// The bytes of static objects, which lie one after another in these, the first at this address, and the address that the next would have.
fn add_statics(
    statics: &mut Vec<u8>,
    first: u32,
    rows: &[StaticDef],
    bytes: &[u8],
) -> Result<u32, AllocError>
    ensures bytes { OnOk result (statics.new.items ≡ statics.old.items ++ data_from (length statics.old.items) (addresses_from first rows.now) (cut rows.now bytes.now)) }
    ensures next { IfOk result (λ n. n ≡ next_address first rows.now) }
{
    let mut at = first;
    let mut from: usize = 0;
    for row in rows {
        let end = end_of(from, row.bytes.len())?;
        if bytes.len() < end {
            return Err(AllocError);
        }
        add_static(statics, at, &bytes[from..end])?;
        from = end;
        at = behind(at, row)?;
    }
    Ok(at)
}

/// The bytes of the static objects of some objects.
pub fn statics_of<'a>(
    alloc: Global,
    addresses: &Addresses<'a>,
    objects: &'a [Object],
) -> Result<Vec<u8>, LinkFault>
    requires { (t : List ℕ) → entry_in addresses.now t ≡ linked_entry objects.now t }
    ensures bytes { IfOk result (λ v. v.items ≡ data_from 0 (addresses_from FIRST_STATIC (all_statics objects.now)) (placed_statics (address_in addresses.now) objects.now)) }
    ensures taken { IfOk result (λ _. AllByRecursion (HasStatics (entry_in addresses.now)) objects.now) }
    ensures fault { IfErr result (λ f. IsFault objects.now f) }
{
    let mut statics = Vec::new(alloc);
    let mut at = DATA;
    for object in objects {
        let bytes = match patched_statics(alloc, addresses, object) {
            Ok(bytes) => bytes,
            Err(fault) => return Err(fault),
        };
        at = add_statics(&mut statics, at, object.statics.as_slice(), &bytes)?;
    }
    Ok(statics)
}
