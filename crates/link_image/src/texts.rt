// The texts of objects, one after another.

ghost use Rattle.std.specs.Prelude.{◌≡◌, ◌++◌, List, ℕ, IfOk, IfErr};
ghost use Rattle.obj_placed.specs.Placed.{placed_texts};
ghost use Rattle.machine_state.specs.declared.layout.TheConstants.{TEXT as FIRST_TEXT};
ghost use Rattle.std.specs.List.{AllByRecursion};
ghost use Rattle.link_image.specs.Conditions.{IsFault};
ghost use Rattle.link_image.specs.Tables.{HasText, address_in, entry_in, linked_entry};

use crate::addresses::Addresses;
use crate::fault::LinkFault;
use crate::patch::patched_text;
use crate::sizes::{size_of, sum};
use machine_state::TEXT;
use obj_file::Object;
use std::alloc::Global;

/// The texts of objects, one after another.
pub fn text_of<'a>(
    alloc: Global,
    addresses: &Addresses<'a>,
    objects: &'a [Object],
) -> Result<Vec<u8>, LinkFault>
    requires { (t : List ℕ) → entry_in addresses.now t ≡ linked_entry objects.now t }
    ensures text { IfOk result (λ v. v.items ≡ placed_texts (address_in addresses.now) FIRST_TEXT objects.now) }
    ensures taken { IfOk result (λ _. AllByRecursion (HasText (entry_in addresses.now)) objects.now) }
    ensures fault { IfErr result (λ f. IsFault objects.now f) }
{
    let mut text = Vec::new(alloc);
    let mut base = TEXT;
    for object in objects {
        let placed = match patched_text(alloc, addresses, object, base) {
            Ok(placed) => placed,
            Err(fault) => return Err(fault),
        };
        text.extend_from_slice(&placed)?;
        base = sum(base, size_of(object.text.as_bytes())?)?;
    }
    Ok(text)
}
