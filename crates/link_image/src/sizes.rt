// Sizes and addresses.

ghost use Rattle.std.specs.Prelude.{◌≡◌, ◌+◌, IfOk, length};
ghost use Rattle.link_image.specs.Linked.{room_of};

use obj_file::StaticDef;
use std::alloc::AllocError;

/// A sum of sizes or addresses.
pub fn sum(a: u32, b: u32) -> Result<u32, AllocError>
    ensures { IfOk result (λ n. n ≡ a + b) }
{
    a.checked_add(b).ok_or(AllocError)
}

/// How many bytes there are.
pub fn size_of(bytes: &[u8]) -> Result<u32, AllocError>
    ensures { IfOk result (λ n. n ≡ length bytes.now) }
{
    u32::try_from(bytes.len()).map_err(|_| AllocError)
}

/// The address behind a static object and 4 free bytes, a multiple of 4.
pub fn behind(at: u32, row: &StaticDef) -> Result<u32, AllocError>
    ensures { IfOk result (λ n. n ≡ at + room_of row.now) }
{
    let size = size_of(row.bytes.as_bytes())?;
    let room = size.checked_next_multiple_of(4).ok_or(AllocError)?;
    sum(at, sum(room, 4)?)
}

/// The offset behind so many bytes.
pub fn end_of(from: usize, size: usize) -> Result<usize, AllocError>
    ensures { IfOk result (λ n. n ≡ from + size) }
{
    from.checked_add(size).ok_or(AllocError)
}
