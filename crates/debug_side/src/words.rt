// Words that are put where they can be.

ghost use Rattle.std.specs.Prelude.{◌≡◌, ◌⊎◌, map};
ghost use Rattle.ldb_words.specs.Word.{sum_of};
ghost use Rattle.machine_state.specs.declared.layout.TheConstants.{MIPS, SPARC};
ghost use Rattle.break_plant.specs.Planted.{noop_of, in_memory};
ghost use Rattle.debug_side.specs.Wrote.{Puts, LedTalk, where_it_can, word_put, words_put, words_put_back, passed};
ghost use Rattle.debug_side.specs.Meant.{address_of};

use abs_mem::{AbsMem, MemFault};
use break_plant::unplant;
use frame_bytes::{Place, Space};
use ldb_words::Kind;
use table_points::Point;
use wire_talk::TalkFault;

/// How far into a context block the word of the pc stands, and that of the next pc: they are words 34 and 35.
const PC_OFFSET: u32 = 136;

const NEXT_PC_OFFSET: u32 = 140;

/// What a store answers where nothing is to be done about a place that is outside.
fn where_it_can(stored: Result<(), MemFault>) -> Result<(), TalkFault>
    ensures { result ≡ where_it_can stored }
{
    match stored {
        Ok(()) => Ok(()),
        Err(MemFault::Outside { .. }) => Ok(()),
        Err(MemFault::LinkFault) => Err(TalkFault::LinkFault),
        Err(MemFault::BadReply { frame }) => Err(TalkFault::BadReply { frame }),
    }
}

/// Puts a word at an address, if it is in the memory.
pub fn put_word<M: AbsMem>(m: &mut M, at: u32, word: u32) -> Result<(), TalkFault>
    ensures meaning { Puts (M.seen m.old) result (λ b r. r ≡ word_put b.order word at b.regions) (M.seen m.new) }
    ensures calls { LedTalk M.leads m.old result m.new }
{
    let space = Space::Memory;
    where_it_can(m.store(Place { space, at }, Kind::Word, word))
}

/// Puts the no-op of a target back at an address, if it is in the memory.
fn put_noop<M: AbsMem>(target: u8, m: &mut M, at: u32) -> Result<(), TalkFault>
    requires known { (target ≡ MIPS) ⊎ (target ≡ SPARC) }
    ensures meaning { Puts (M.seen m.old) result (λ b r. r ≡ word_put b.order (noop_of target) at b.regions) (M.seen m.new) }
    ensures calls { LedTalk M.leads m.old result m.new }
{
    where_it_can(unplant(target, m, at))
}

/// Puts the no-op back at each of some points, at the first first.
pub fn unplant_all<M: AbsMem>(target: u8, m: &mut M, points: &[Point]) -> Result<(), TalkFault>
    requires known { (target ≡ MIPS) ⊎ (target ≡ SPARC) }
    ensures meaning { Puts (M.seen m.old) result (λ b r. r ≡ words_put b.order (noop_of target) (map address_of points.now) b.regions) (M.seen m.new) }
    ensures calls { LedTalk M.leads m.old result m.new }
{
    for point in points {
        match put_noop(target, m, point.at) {
            Ok(()) => {}
            Err(fault) => return Err(fault),
        }
    }
    Ok(())
}

/// Puts the no-op back at each of some points, at the last first.
pub fn unplant_back<M: AbsMem>(target: u8, m: &mut M, points: &[Point]) -> Result<(), TalkFault>
    requires known { (target ≡ MIPS) ⊎ (target ≡ SPARC) }
    ensures meaning { Puts (M.seen m.old) result (λ b r. r ≡ words_put_back b.order (noop_of target) (map address_of points.now) b.regions) (M.seen m.new) }
    ensures calls { LedTalk M.leads m.old result m.new }
{
    let mut left = points.len();
    while left > 0 {
        match put_noop(target, m, points[left - 1].at) {
            Ok(()) => {}
            Err(fault) => return Err(fault),
        }
        left -= 1;
    }
    Ok(())
}

/// A sum modulo 2^32.
fn word_sum(left: u32, right: u32) -> u32
    ensures { result ≡ sum_of left right }
{
    left.wrapping_add(right)
}

/// Puts the next pc of a context block behind the no-op at an address.
fn put_next_pc<M: AbsMem>(context: u32, m: &mut M, at: u32) -> Result<(), TalkFault>
    ensures meaning { Puts (M.seen m.old) result (λ b r. r ≡ word_put b.order (sum_of at 8) (sum_of context NEXT_PC_OFFSET) b.regions) (M.seen m.new) }
    ensures calls { LedTalk M.leads m.old result m.new }
{
    let place = word_sum(context, NEXT_PC_OFFSET);
    let next_pc = word_sum(at, 8);
    put_word(m, place, next_pc)
}

/// Puts the pc of a context block at the end of the no-op at an address.
fn put_pc<M: AbsMem>(context: u32, m: &mut M, at: u32) -> Result<(), TalkFault>
    ensures meaning { Puts (M.seen m.old) result (λ b r. r ≡ word_put b.order (sum_of at 4) (sum_of context PC_OFFSET) b.regions) (M.seen m.new) }
    ensures calls { LedTalk M.leads m.old result m.new }
{
    let place = word_sum(context, PC_OFFSET);
    let pc = word_sum(at, 4);
    put_word(m, place, pc)
}

/// Puts the pc and the next pc of a context block past the no-op at which a side stands, if it stands at one.
pub fn pass_no_op<M: AbsMem>(
    context: u32,
    m: &mut M,
    stands_at: Option<u32>,
) -> Result<(), TalkFault>
    ensures meaning { Puts (M.seen m.old) result (λ b r. r ≡ passed context stands_at b.order b.regions) (M.seen m.new) }
    ensures calls { LedTalk M.leads m.old result m.new }
{
    match stands_at {
        None => Ok(()),
        Some(at) => match put_pc(context, m, at) {
            Err(fault) => Err(fault),
            Ok(()) => put_next_pc(context, m, at),
        },
    }
}
