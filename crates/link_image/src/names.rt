// The address of each name.

ghost use Rattle.std.specs.Prelude.{◌≡◌, ◌++◌, List, ℕ, OnOk, IfOk, map};
ghost use Rattle.obj_placed.specs.Placed.{named_at, text_names, all_statics};
ghost use Rattle.machine_state.specs.declared.layout.TheConstants.{TEXT as FIRST_TEXT, DATA as FIRST_STATIC};
ghost use Rattle.link_image.specs.Tables.{entry_in, seen, linked_entry};
ghost use Rattle.link_image.specs.Linked.{anchors_from, next_address};

use crate::addresses::Addresses;
use crate::sizes::{behind, size_of, sum};
use machine_state::{DATA, TEXT};
use obj_file::{Name, Object, StaticDef};
use std::alloc::{AllocError, Global};

/// The names of a text that begins at an address.
fn add_names<'a>(
    addresses: &mut Addresses<'a>,
    base: u32,
    names: &'a [Name],
) -> Result<(), AllocError>
    ensures { OnOk result ((t : List ℕ) → entry_in addresses.new t ≡ seen (entry_in addresses.old t) (map (named_at base) names.now) t) }
{
    for name in names {
        addresses.define(name.name.as_bytes(), sum(base, name.at)?)?;
    }
    Ok(())
}

/// The names of texts, which stand one after another.
fn add_texts<'a>(addresses: &mut Addresses<'a>, objects: &'a [Object]) -> Result<(), AllocError>
    ensures { OnOk result ((t : List ℕ) → entry_in addresses.new t ≡ seen (entry_in addresses.old t) (text_names FIRST_TEXT objects.now) t) }
{
    let mut base = TEXT;
    for object in objects {
        add_names(addresses, base, object.names.as_slice())?;
        base = sum(base, size_of(object.text.as_bytes())?)?;
    }
    Ok(())
}

/// Static objects, the first at this address, and the address that the next would have.
fn add_statics<'a>(
    addresses: &mut Addresses<'a>,
    first: u32,
    rows: &'a [StaticDef],
) -> Result<u32, AllocError>
    ensures addresses { OnOk result ((t : List ℕ) → entry_in addresses.new t ≡ seen (entry_in addresses.old t) (anchors_from first rows.now) t) }
    ensures next { IfOk result (λ n. n ≡ next_address first rows.now) }
{
    let mut at = first;
    for row in rows {
        addresses.define(row.name.as_bytes(), at)?;
        at = behind(at, row)?;
    }
    Ok(at)
}

/// The static objects of all objects.
fn add_all_statics<'a>(
    addresses: &mut Addresses<'a>,
    objects: &'a [Object],
) -> Result<(), AllocError>
    ensures { OnOk result ((t : List ℕ) → entry_in addresses.new t ≡ seen (entry_in addresses.old t) (anchors_from FIRST_STATIC (all_statics objects.now)) t) }
{
    let mut at = DATA;
    for object in objects {
        at = add_statics(addresses, at, object.statics.as_slice())?;
    }
    Ok(())
}

/// The address of each name in some objects.
pub fn addresses_of<'a>(alloc: Global, objects: &'a [Object]) -> Result<Addresses<'a>, AllocError>
    ensures { IfOk result (λ a. (t : List ℕ) → entry_in a t ≡ linked_entry objects.now t) }
{
    let mut addresses = Addresses::new(alloc);
    add_texts(&mut addresses, objects)?;
    add_all_statics(&mut addresses, objects)?;
    Ok(addresses)
}
