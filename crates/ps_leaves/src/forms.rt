// The forms of pointers.

ghost use Rattle.ps_store.specs.Store.{closed_part};
ghost use Rattle.std.specs.Prelude.{◌≡◌, ◌<◌, ◌++◌, OnOk, decimal};
ghost use Rattle.ps_append.specs.Appending.{Appends};
ghost use Rattle.ps_leaves.specs.Forms.{hex_digit, hex_text, activation_text, pointer_text, pointer_text_of};

use ldb_words::Text;
use ps_places::top_word;
use ps_step::fault::PsFault;
use ps_step::machine::PsCore;
use ps_store::PsStore;
use std::alloc::{AllocError, Global};
use table_model::Found;

/// A hexadecimal digit of a number below 16, in lower case.
fn hex_digit(n: u8) -> u8
    requires { n < 16 }
    ensures { result ≡ hex_digit n }
{
    if n < 10 { 48 + n } else { 87 + n }
}

/// Adds so many hexadecimal digits. It is as deep as it adds digits.
fn append_hex(out: &mut Text, digits: u32, n: u32) -> Result<(), AllocError>
    ensures { OnOk result (out.new ≡ out.old ++ hex_text digits n) }
{
    if digits == 0 {
        return Ok(());
    }
    append_hex(out, digits - 1, n / 16)?;
    out.push(hex_digit((n % 16) as u8))
}

/// Adds a number in decimal digits.
fn append_decimal(alloc: Global, out: &mut Text, n: u32) -> Result<(), AllocError>
    ensures { OnOk result (out.new ≡ out.old ++ decimal n) }
{
    let digits = format!(in alloc; "{n}")?;
    out.append(digits.as_bytes())
}

/// Adds the number of an activation, if there is one.
fn append_activation(
    alloc: Global,
    out: &mut Text,
    activation: Option<u32>,
) -> Result<(), AllocError>
    ensures { OnOk result (out.new ≡ out.old ++ activation_text activation) }
{
    match activation {
        None => Ok(()),
        Some(n) => {
            out.append(b"@")?;
            append_decimal(alloc, out, n)
        }
    }
}

/// Adds the form of a pointer, where its object was looked for.
fn append_pointer(
    alloc: Global,
    store: &PsStore,
    out: &mut Text,
    pointer: u32,
    found: Option<Found>,
) -> Result<(), AllocError>
    ensures { OnOk result (out.new ≡ out.old ++ pointer_text store.now pointer found) }
{
    if pointer == 0 {
        return out.append(b"0");
    }
    match found {
        None => {
            out.append(b"?")?;
            append_hex(out, 8, pointer)
        }
        Some(o) => {
            out.append(b"&")?;
            out.append(store.string_get(o.label))?;
            append_activation(alloc, out, o.activation)?;
            out.append(b"+")?;
            append_decimal(alloc, out, o.at)
        }
    }
}

/// `PutPointer`, where a pointer's object was looked for: the form of the pointer. An error leaves all as it was.
pub fn put_pointer(core: &mut PsCore, found: Option<Found>, out: &mut Text) -> Result<(), PsFault>
    ensures does { Appends 1 (pointer_text_of found core.old) out.old core.old result out.new core.new }
    ensures closed { closed_part core.new.store ≡ closed_part core.old.store }
{
    let pointer = top_word(core)?;
    append_pointer(core.operands.allocator(), &core.store, out, pointer, found)?;
    core.operands.take(1);
    Ok(())
}
