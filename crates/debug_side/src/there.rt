// Words that are read of a target, and put back where others were written.

ghost use Rattle.std.specs.Prelude.{◌≡◌, IfOk, IfErr};
ghost use Rattle.debug_side.specs.Wrote.{Puts};
ghost use Rattle.debug_side.specs.There.{AreRead, FailsToRead, Reads, put_there, all_there};

use crate::words::put_word;
use abs_mem::{AbsMem, MemFault};
use frame_bytes::{Place, Space};
use ldb_words::Kind;
use std::alloc::Global;
use table_points::Point;
use wire_talk::TalkFault;

/// What stands at an address of a target: a word, where the address is in its memory.
#[derive(Clone, Copy)]
pub struct WordThere {
    pub at: u32,
    pub word: Option<u32>,
}

/// Why it isn't read what stands at some addresses.
#[derive(Drop)]
pub enum ReadFault {
    Talk(TalkFault),
    NoMemory,
}

/// What stands at an address.
fn word_there<M: AbsMem>(m: &mut M, at: u32) -> Result<WordThere, TalkFault>
    ensures { Reads at (M.seen m.old) result (M.seen m.new) }
{
    let space = Space::Memory;
    match m.fetch(Place { space, at }, Kind::Word) {
        Ok(word) => Ok(WordThere {
            at,
            word: Some(word),
        }),
        Err(MemFault::Outside { .. }) => Ok(WordThere { at, word: None }),
        Err(MemFault::LinkFault) => Err(TalkFault::LinkFault),
        Err(MemFault::BadReply { frame }) => Err(TalkFault::BadReply { frame }),
    }
}

/// What stands at some points.
pub fn words_there<M: AbsMem>(
    alloc: Global,
    m: &mut M,
    points: &[Point],
) -> Result<Vec<WordThere>, ReadFault>
    ensures read { IfOk result (λ words. AreRead points.now words.items (M.seen m.old) (M.seen m.new)) }
    ensures fails { IfErr result (λ fault. FailsToRead fault (M.seen m.old) (M.seen m.new)) }
{
    let mut words = Vec::new(alloc);
    for point in points {
        let word = match word_there(m, point.at) {
            Ok(word) => word,
            Err(fault) => return Err(ReadFault::Talk(fault)),
        };
        match words.push(word) {
            Ok(()) => {}
            Err(_) => return Err(ReadFault::NoMemory),
        }
    }
    Ok(words)
}

/// Puts back what stood at an address.
fn put_there<M: AbsMem>(m: &mut M, there: WordThere) -> Result<(), TalkFault>
    ensures { Puts (M.seen m.old) result (λ b r. r ≡ put_there b.order there b.regions) (M.seen m.new) }
{
    match there.word {
        Some(word) => put_word(m, there.at, word),
        None => Ok(()),
    }
}

/// Puts back what stood at some addresses, at the first first.
pub fn put_words<M: AbsMem>(m: &mut M, words: &[WordThere]) -> Result<(), TalkFault>
    ensures { Puts (M.seen m.old) result (λ b r. r ≡ all_there b.order words.now b.regions) (M.seen m.new) }
{
    for there in words {
        match put_there(m, *there) {
            Ok(()) => {}
            Err(fault) => return Err(fault),
        }
    }
    Ok(())
}
