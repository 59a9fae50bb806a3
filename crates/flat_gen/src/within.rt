// What the code of a function is made within.

ghost use Rattle.std.specs.Prelude.{◌≡◌, ◌+◌, ◌*◌, Some, slice_get, IfOk};
ghost use Rattle.flat_gen.specs.Codes.{or_zero, register_in};

use crate::layout::Layout;
use slot_ir::{Home, SlotCode, SlotFunction, SlotLocal};
use std::alloc::AllocError;

/// A function of slot code, its layout, and where the flat code of each place in its slot code begins.
#[derive(Drop)]
pub struct Within<'a> {
    pub slots: &'a SlotCode,
    pub function: &'a SlotFunction,
    pub layout: &'a Layout,
    pub starts: &'a [u32],
}

impl<'a> Within<'a> {
    /// Where a temporary lies.
    pub fn temporary(&self, number: u32) -> Result<u32, AllocError>
        ensures { IfOk result (λ n. n ≡ self.now.layout.now.temporaries + number * 4) }
    {
        let bytes = number.checked_mul(4).ok_or(AllocError)?;
        self.layout.temporaries.checked_add(bytes).ok_or(AllocError)
    }

    /// A local.
    pub fn local(&self, number: u32) -> Result<&'a SlotLocal, AllocError>
        ensures { IfOk result (λ r. slice_get self.now.function.now.locals number ≡ Some r.now) }
    {
        self.function
            .locals
            .as_slice()
            .get(number as usize)
            .ok_or(AllocError)
    }

    /// Where a local lies.
    pub fn local_at(&self, number: u32) -> Result<u32, AllocError>
        ensures { IfOk result (λ n. n ≡ or_zero (slice_get self.now.layout.now.locals number)) }
    {
        self.layout
            .locals
            .as_slice()
            .get(number as usize)
            .copied()
            .ok_or(AllocError)
    }

    /// The register that a local is in.
    pub fn register(&self, number: u32) -> Result<u8, AllocError>
        ensures { IfOk result (λ n. n ≡ register_in (slice_get self.now.function.now.locals number)) }
    {
        match self.local(number)?.home {
            Home::Register(register) => Ok(register),
            Home::Block => Err(AllocError),
        }
    }

    /// Where the flat code of a place begins; 0 where that is not known.
    pub fn start(&self, place: u32) -> u32
        ensures { result ≡ or_zero (slice_get self.now.starts.now place) }
    {
        match self.starts.get(place as usize) {
            Some(start) => *start,
            None => 0,
        }
    }
}
