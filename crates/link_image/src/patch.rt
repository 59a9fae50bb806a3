// Texts and static bytes with each use patched.

ghost use Rattle.std.specs.Prelude.{◌≡◌, ◌+◌, ◌≤◌, ◌++◌, IfOk, IfErr, OnOk, true, false, length, drop, if◌then◌else◌};
ghost use Rattle.std.specs.List.{AllByRecursion};
ghost use Rattle.machine_state.specs.Regions.{number_of, bytes_of};
ghost use Rattle.obj_placed.specs.Patched.{patched_at, patched_by, patched, stands_in};
ghost use Rattle.obj_placed.specs.Placed.{joined, placed_text, placed_bytes};
ghost use Rattle.link_image.specs.Conditions.{has_form};
ghost use Rattle.link_image.specs.Tables.{address_in, entry_in, IsTaken, HasText, HasStatics, IsUseFault, IsUsesFault};

use crate::addresses::Addresses;
use crate::fault::LinkFault;
use crate::field::{order_of, patched_word};
use byteorder::{BigEndian, ByteOrder, LittleEndian};
use ldb_words::Order;
use obj_file::{Form, Object, StaticDef, Use};
use std::alloc::{AllocError, Global};

/// The word in the first four bytes.
fn word(order: Order, bytes: &[u8]) -> u32
    requires { 4 ≤ length bytes.now }
    ensures { result ≡ number_of order 4 bytes.now }
{
    match order {
        Order::Little => LittleEndian::read_u32(bytes),
        Order::Big => BigEndian::read_u32(bytes),
    }
}

/// Writes a word over the first four bytes.
fn write_word(order: Order, bytes: &mut [u8], value: u32)
    requires { 4 ≤ length bytes.old }
    ensures { bytes.new ≡ bytes_of order 4 value ++ drop 4 bytes.old }
{
    match order {
        Order::Little => LittleEndian::write_u32(bytes, value),
        Order::Big => BigEndian::write_u32(bytes, value),
    }
}

/// Patches a use of an address in bytes that begin at an address.
#[tactic(auto, unfolding(obj_placed::specs::Patched::patched_at))]
fn patch(target: u8, base: u32, address: u32, place: &Use, bytes: &mut [u8])
    requires { place.now.at + 4 ≤ length bytes.old }
    ensures { bytes.new ≡ patched_at target base address place.now bytes.old }
{
    let order = order_of(target);
    let at = place.at as usize;
    let old = word(order, &bytes[at..]);
    let stands = base.wrapping_add(place.at);
    let new = patched_word(
        target,
        place.form,
        stands,
        address.wrapping_add(place.add),
        old,
    );
    write_word(order, &mut bytes[at..], new);
}

/// Whether a use stands in the text, or else in the static objects.
fn stands_in(in_text: bool, place: &Use) -> bool
    ensures { result ≡ stands_in in_text place.now }
{
    if in_text {
        place.in_text
    } else {
        !place.in_text
    }
}

/// Whether a use of a form may stand there: in static objects only one of a word may.
fn has_form(in_text: bool, form: Form) -> bool
    ensures { result ≡ has_form in_text form }
{
    match form {
        Form::Word => true,
        Form::High | Form::Low | Form::Jump => in_text,
    }
}

/// Patches a use, if it stands there, in bytes that begin at an address.
fn patch_here<'a>(
    alloc: Global,
    addresses: &Addresses<'a>,
    target: u8,
    base: u32,
    in_text: bool,
    place: &'a Use,
    bytes: &mut [u8],
) -> Result<(), LinkFault>
    ensures bytes { OnOk result (bytes.new ≡ (if stands_in in_text place.now then patched_by target base (address_in addresses.now place.now.name) place.now bytes.old else bytes.old)) }
    ensures taken { OnOk result (IsTaken (entry_in addresses.now) in_text (length bytes.old) place.now) }
    ensures fault { IfErr result (λ f. IsUseFault (entry_in addresses.now) in_text (length bytes.old) place.now f) }
{
    if !stands_in(in_text, place) {
        return Ok(());
    }
    if bytes.len() < place.at as usize + 4 {
        return Err(LinkFault::Uses);
    }
    if !has_form(in_text, place.form) {
        return Err(LinkFault::Uses);
    }
    match addresses.address_of(alloc, place.name.as_bytes()) {
        Ok(address) => {
            patch(target, base, address, place, bytes);
            Ok(())
        }
        Err(fault) => Err(fault),
    }
}

/// Patches the uses that stand in the text, or those that do not, in bytes that begin at an address.
fn patch_all<'a>(
    alloc: Global,
    addresses: &Addresses<'a>,
    object: &'a Object,
    in_text: bool,
    base: u32,
    bytes: &mut [u8],
) -> Result<(), LinkFault>
    ensures bytes { OnOk result (bytes.new ≡ patched object.now.target base (address_in addresses.now) in_text object.now.uses bytes.old) }
    ensures taken { OnOk result (AllByRecursion (IsTaken (entry_in addresses.now) in_text (length bytes.old)) object.now.uses) }
    ensures fault { IfErr result (λ f. IsUsesFault (entry_in addresses.now) in_text (length bytes.old) object.now f) }
{
    for place in object.uses.as_slice() {
        match patch_here(alloc, addresses, object.target, base, in_text, place, bytes) {
            Ok(()) => {}
            Err(fault) => return Err(fault),
        }
    }
    Ok(())
}

/// The text of an object, which begins at an address.
#[tactic(auto, unfolding(obj_placed::specs::Placed::placed_text))]
pub fn patched_text<'a>(
    alloc: Global,
    addresses: &Addresses<'a>,
    object: &'a Object,
    base: u32,
) -> Result<Vec<u8>, LinkFault>
    ensures text { IfOk result (λ v. v.items ≡ placed_text (address_in addresses.now) base object.now) }
    ensures taken { IfOk result (λ _. HasText (entry_in addresses.now) object.now) }
    ensures fault { IfErr result (λ f. IsUsesFault (entry_in addresses.now) true (length object.now.text) object.now f) }
{
    let mut text = Vec::from_slice(alloc, object.text.as_bytes())?;
    patch_all(alloc, addresses, object, true, base, &mut text)?;
    Ok(text)
}

/// The bytes of static objects, one after another.
fn joined(alloc: Global, statics: &[StaticDef]) -> Result<Vec<u8>, AllocError>
    ensures { IfOk result (λ v. v.items ≡ joined statics.now) }
{
    let mut bytes = Vec::new(alloc);
    for row in statics {
        bytes.extend_from_slice(row.bytes.as_bytes())?;
    }
    Ok(bytes)
}

/// The bytes of an object's static objects, one after another.
#[tactic(auto, unfolding(obj_placed::specs::Placed::placed_bytes))]
pub fn patched_statics<'a>(
    alloc: Global,
    addresses: &Addresses<'a>,
    object: &'a Object,
) -> Result<Vec<u8>, LinkFault>
    ensures bytes { IfOk result (λ v. v.items ≡ placed_bytes (address_in addresses.now) object.now) }
    ensures taken { IfOk result (λ _. HasStatics (entry_in addresses.now) object.now) }
    ensures fault { IfErr result (λ f. IsUsesFault (entry_in addresses.now) false (length (joined object.now.statics)) object.now f) }
{
    let mut bytes = joined(alloc, object.statics.as_slice())?;
    patch_all(alloc, addresses, object, false, 0, &mut bytes)?;
    Ok(bytes)
}
