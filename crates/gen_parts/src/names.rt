// The names that an object gives, each a letter and a number. Names of the sources may be those of several static functions or objects.

ghost use Rattle.std.specs.Prelude.{◌≡◌, IfOk};
ghost use Rattle.gen_parts.specs.Names.{numbered, function_name as name_of_function, object_name as name_of_object, mover_name as name_of_mover, ascending_name as name_of_ascending, descending_name as name_of_descending};

use itoa::Buffer;
use ldb_words::Text;
use std::alloc::{AllocError, Global};

/// A letter and a number.
fn numbered(alloc: Global, letter: u8, number: u32) -> Result<Text, AllocError>
    ensures { IfOk result (λ t. t ≡ numbered letter number) }
{
    let mut name = Text::from_slice(alloc, &[letter])?;
    let mut digits = Buffer::new();
    name.append(digits.format(number).as_bytes())?;
    Ok(name)
}

/// The name of a function.
pub fn function_name(alloc: Global, number: u32) -> Result<Text, AllocError>
    ensures { IfOk result (λ t. t ≡ name_of_function number) }
{
    numbered(alloc, b'f', number)
}

/// The name of a static object, or of a string, which are numbered after the objects.
pub fn object_name(alloc: Global, number: u32) -> Result<Text, AllocError>
    ensures { IfOk result (λ t. t ≡ name_of_object number) }
{
    numbered(alloc, b'g', number)
}

/// The name of the code that copies a struct.
pub fn mover_name(alloc: Global, number: u32) -> Result<Text, AllocError>
    ensures { IfOk result (λ t. t ≡ name_of_mover number) }
{
    numbered(alloc, b'm', number)
}

/// The name of the code that copies a struct from its first leaf on.
pub fn ascending_name(alloc: Global, number: u32) -> Result<Text, AllocError>
    ensures { IfOk result (λ t. t ≡ name_of_ascending number) }
{
    numbered(alloc, b'a', number)
}

/// The name of the code that copies a struct from its last leaf back.
pub fn descending_name(alloc: Global, number: u32) -> Result<Text, AllocError>
    ensures { IfOk result (λ t. t ≡ name_of_descending number) }
{
    numbered(alloc, b'd', number)
}
