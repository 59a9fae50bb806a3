// Static objects and their addresses.

ghost use Rattle.std.specs.Prelude.{◌≡◌, ◌+◌, [], ◌∷◌, ◌++◌, OnOk, IfOk, IfErr, true, length, nat_le};
ghost use Rattle.obj_placed.specs.Placed.{all_statics};
ghost use Rattle.machine_state.specs.declared.layout.TheConstants.{DATA as FIRST_STATIC, DATA_SIZE as MOST_STATIC};
ghost use Rattle.link_image.specs.Linked.{anchors_from, next_address};
ghost use Rattle.link_image.specs.Conditions.{are_fitting};
ghost use Rattle.link_image.specs.Tables.{IsUnfit};

use crate::fault::LinkFault;
use crate::sizes::behind;
use ldb_words::Text;
use machine_state::{DATA, DATA_SIZE};
use obj_file::{Object, StaticDef};
use std::alloc::{AllocError, Global};

/// Whether a static object at this address lies in the data region.
fn is_fitting(at: u32, row: &StaticDef) -> bool
    ensures { result ≡ nat_le (at + length row.now.bytes) (FIRST_STATIC + MOST_STATIC) }
{
    let end = DATA as usize + DATA_SIZE;
    match (at as usize).checked_add(row.bytes.len()) {
        Some(behind) => behind <= end,
        None => false,
    }
}

/// The name of a static object, with its address.
fn add_anchor(
    alloc: Global,
    anchors: &mut Vec<(Text, u32)>,
    at: u32,
    row: &StaticDef,
) -> Result<(), AllocError>
    ensures { OnOk result (anchors.new.items ≡ anchors.old.items ++ (row.now.name, at) ∷ []) }
{
    let name = Text::from_slice(alloc, row.name.as_bytes())?;
    anchors.push((name, at))?;
    Ok(())
}

/// Static objects, the first at this address, and the address that the next would have.
fn add_anchors(
    alloc: Global,
    anchors: &mut Vec<(Text, u32)>,
    first: u32,
    rows: &[StaticDef],
) -> Result<u32, LinkFault>
    ensures anchors { OnOk result (anchors.new.items ≡ anchors.old.items ++ anchors_from first rows.now) }
    ensures next { IfOk result (λ n. n ≡ next_address first rows.now) }
    ensures fit { IfOk result (λ _. are_fitting first rows.now ≡ true) }
    ensures fault { IfErr result (λ f. IsUnfit first rows.now f) }
{
    let mut at = first;
    for row in rows {
        if !is_fitting(at, row) {
            return Err(LinkFault::Statics);
        }
        add_anchor(alloc, anchors, at, row)?;
        at = behind(at, row)?;
    }
    Ok(at)
}

/// The static objects of some objects, in order of place.
pub fn anchors_of(alloc: Global, objects: &[Object]) -> Result<Vec<(Text, u32)>, LinkFault>
    ensures anchors { IfOk result (λ v. v.items ≡ anchors_from FIRST_STATIC (all_statics objects.now)) }
    ensures fit { IfOk result (λ _. are_fitting FIRST_STATIC (all_statics objects.now) ≡ true) }
    ensures fault { IfErr result (λ f. IsUnfit FIRST_STATIC (all_statics objects.now) f) }
{
    let mut anchors = Vec::new(alloc);
    let mut at = DATA;
    for object in objects {
        at = match add_anchors(alloc, &mut anchors, at, object.statics.as_slice()) {
            Ok(next) => next,
            Err(fault) => return Err(fault),
        };
    }
    Ok(anchors)
}
