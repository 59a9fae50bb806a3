// The memory of one side of a link.

ghost use Rattle.std.specs.Prelude.{◌≡◌, ◌<◌, ◌^◌};
ghost use Rattle.abs_mem.specs.WireMeaning.{size_of, fetched_by, stored_by};

use crate::memory::{AbsMem, MemFault};
use frame_bytes::{Place, Space};
use ldb_words::{Kind, Order};
use nub_wire::{Link, Msg, Side, Size, answers_at_rest};
use wire_talk::{TalkFault, ask};

/// How many bytes a kind takes.
fn size_of(kind: Kind) -> Size
    ensures { result ≡ size_of kind }
{
    match kind {
        Kind::Byte => Size::Byte,
        Kind::Word | Kind::Address => Size::Word,
    }
}

/// What a fetch answers, by the reply.
fn fetched_by(place: Place, asked: Result<Msg, TalkFault>) -> Result<u32, MemFault>
    ensures { result ≡ fetched_by place asked }
{
    match asked {
        Ok(Msg::Word { value }) => Ok(value),
        Ok(_) => Err(MemFault::Outside { place }),
        Err(TalkFault::LinkFault) => Err(MemFault::LinkFault),
        Err(TalkFault::BadReply { frame }) => Err(MemFault::BadReply { frame }),
    }
}

/// What a store answers, by the reply.
fn stored_by(place: Place, asked: Result<Msg, TalkFault>) -> Result<(), MemFault>
    ensures { result ≡ stored_by place asked }
{
    match asked {
        Ok(Msg::Done) => Ok(()),
        Ok(_) => Err(MemFault::Outside { place }),
        Err(TalkFault::LinkFault) => Err(MemFault::LinkFault),
        Err(TalkFault::BadReply { frame }) => Err(MemFault::BadReply { frame }),
    }
}

/// A number of 32 bits is one.
fn fits_word(_at: u32)
    ensures { _at < 2 ^ 32 }
{}

/// The memory of one side of a link.
#[derive(Drop)]
pub struct Wire<L> {
    pub link: L,
    pub side: Side,
    pub order: Order,
}

impl<L: Link + Drop> AbsMem for Wire<L> {
    ghost use Rattle.abs_mem.specs.WireMeaning.{WireRest, wire_seen, WireLeads, wire_stays, wire_goes_on};

    ghost Rest = { WireRest };

    ghost seen = { λ w. wire_seen L.conduct (L.world w.link) (L.faults w.link) w.side w.order };

    ghost leads = { λ a o b. WireLeads L.took L.gave a.link a.side o b.link b.side };

    fn fetch(&mut self, place: Place, kind: Kind) -> Result<u32, MemFault> {
        answers_at_rest();
        match place.space {
            Space::Memory => {
                let address = place.at;
                fits_word(address);
                let size = size_of(kind);
                let asked = ask(&mut self.link, self.side, &Msg::Fetch { address, size });
                fetched_by(place, asked)
            }
            Space::Registers => Err(MemFault::Outside { place }),
            Space::Immediate => Err(MemFault::Outside { place }),
        }
    }

    fn store(&mut self, place: Place, kind: Kind, value: u32) -> Result<(), MemFault> {
        answers_at_rest();
        match place.space {
            Space::Memory => {
                let address = place.at;
                fits_word(address);
                let size = size_of(kind);
                fits_word(value);
                let message = Msg::Store {
                    address,
                    size,
                    value,
                };
                let asked = ask(&mut self.link, self.side, &message);
                stored_by(place, asked)
            }
            Space::Registers => Err(MemFault::Outside { place }),
            Space::Immediate => Err(MemFault::Outside { place }),
        }
    }

    ghost stays = { λ m. wire_stays L.took L.gave m.link m.side };

    ghost goes_on = { λ a b c o x y. wire_goes_on L.took L.gave a.link b.link c.link a.side b.side c.side o x y };
}
