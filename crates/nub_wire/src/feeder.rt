// A reader of frames from bytes that come in pieces.

ghost use Rattle.std.specs.Prelude.{◌≡◌, ◌≤◌, ◌+◌, ◌<◌, ◌++◌, [], length, take, min, ◌^◌, ◌-◌};
ghost use Rattle.nub_wire.specs.Feeding.{Feeds, nothing_fed, EndsNoSooner};

use crate::front::{Front, awaited, judge};
use crate::message::Msg;
use arrayvec::ArrayVec;
use std::marker::Model;

/// What came of a piece: no whole frame yet; a message, at whose last byte so many bytes of the piece were used; or
/// bytes that begin no frame, and where in all bytes fed they stand.
#[derive(Drop)]
pub enum Fed {
    NotYet,
    Msg { msg: Msg, used: usize },
    BadFrame { at: u64 },
}

/// The bytes of the frame that has begun, how many more decide something about it, where it began in all bytes fed,
/// and whether bytes began no frame.
#[derive(Drop)]
pub struct Feeder {
    held: ArrayVec<u8, 1027>,
    missing: usize,
    start: u64,
    is_bad: bool,
}

impl Model for Feeder {
    ghost use Rattle.nub_wire.specs.Feeding.{Feeding};
    ghost use Rattle.nub_wire.specs.Held.{IsFeeding};

    ghost Value = { Feeding };

    ghost view = { λ f. record { held = f.held.items; start = f.start; is_bad = f.is_bad } };

    ghost invariant = { λ f. IsFeeding f.held.items f.missing f.is_bad };
}

impl Feeder {
    /// It has been fed nothing.
    pub fn new() -> Feeder
        ensures { result ≡ nothing_fed }
    {
        Feeder {
            held: ArrayVec::new(),
            missing: 1,
            start: 0,
            is_bad: false,
        }
    }

    /// Takes bytes of a piece up to the end of a frame. After bytes that begin no frame it takes none.
    pub fn feed(&mut self, piece: &[u8]) -> Fed
        ensures { Feeds self.old piece.now result self.new }
    {
        if self.is_bad {
            return Fed::BadFrame { at: self.start };
        }
        for (index, byte) in piece.iter().enumerate() {
            self.held.push(*byte);
            if self.missing > 1 {
                self.missing -= 1;
                continue;
            }
            match judge(&self.held) {
                Front::Part => self.missing = awaited(&self.held),
                Front::Nothing => {
                    self.held.clear();
                    self.is_bad = true;
                    return Fed::BadFrame { at: self.start };
                }
                Front::Whole(msg) => {
                    self.start = self.start.saturating_add(self.held.len() as u64);
                    self.held.clear();
                    return Fed::Msg {
                        msg,
                        used: index + 1,
                    };
                }
            }
        }
        Fed::NotYet
    }

    /// How many bytes have to come at least before the frame that has begun is whole: 1 to 1,027.
    pub fn to_come(&self) -> usize
        ensures some { 1 ≤ result }
        ensures fits { result ≤ 1027 }
        ensures sooner { EndsNoSooner self.now.held result }
    {
        left_at_least(self.held.as_slice()).clamp(1, 1027)
    }
}

/// How many bytes a frame has at least behind these, by its length as far as they tell it.
fn left_at_least(bytes: &[u8]) -> usize
    ensures { EndsNoSooner bytes.now result }
{
    match bytes {
        [high, low, rest @ ..] => {
            (256 * usize::from(*high) + usize::from(*low)).saturating_sub(rest.len())
        }
        _ => 3_usize.saturating_sub(bytes.len()),
    }
}
