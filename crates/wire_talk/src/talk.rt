// An exchange.

ghost use Rattle.std.specs.Prelude.{◌≡◌, ◌<◌, ◌≤◌, ◌+◌, ◌^◌, ◌++◌, [], Some, length, IfOk, OnErr};
ghost use Rattle.ldb_edge.specs.Count.{CountsFailure};
ghost use Rattle.nub_wire.specs.Delivery.{World, LinkSide, OnWorlds, Receives, side_of};
ghost use Rattle.nub_wire.specs.Spelling.{MsgFits};
ghost use Rattle.nub_wire.specs.Calls.{took_on, gave_on};
ghost use Rattle.wire_talk.specs.Talk.{IsShort, CountsTalk, SendsAll, Talks, SentWorld, Reads, ReadsTold, Judged, HearsNext, HearsNextTold, TellsReply};

use crate::fault::TalkFault;
use arrayvec::ArrayVec;
use ldb_edge::Failed;
use nub_wire::{Fed, Feeder, Heard, Link, Msg, Side, encode, hear};

/// Sends a whole frame.
pub fn send_all<L: Link>(link: &mut L, side: Side, frame: &[u8]) -> Result<(), TalkFault>
    requires some { 0 < length frame.now }
    requires short { length frame.now ≤ 4096 }
    ensures calls { SendsAll (took_on L.took side) frame.now link.old result link.new }
    ensures cause { CountsTalk (L.faults link.old) result (L.faults link.new) }
    ensures told { (w : World) (s : LinkSide) → L.world link.old ≡ Some w → side_of side w ≡ Some s → s.sent ≡ [] → SentWorld side frame.now w result (L.world link.new) }
{
    let mut done = 0;
    while done < frame.len() {
        let taken = match link.send(side, &frame[done..]) {
            Ok(taken) => taken,
            Err(_) => return Err(TalkFault::LinkFault),
        };
        if taken == 0 {
            return Err(TalkFault::BadReply {
                frame: ArrayVec::new(),
            });
        }
        done += taken;
    }
    Ok(())
}

/// Answers of a nub, at most so many bytes; none where none come.
fn next_piece<L: Link>(link: &mut L, side: Side, most: usize) -> Result<ArrayVec<u8, 1027>, Failed>
    requires fits { most ≤ 1027 }
    ensures call { IfOk result (λ p. L.gave link.old side most p.items link.new) }
    ensures world { IfOk result (λ p. OnWorlds (Receives L.conduct side most p.items) (L.world link.old) (L.world link.new)) }
    ensures bound { IfOk result (λ p. length p.items ≤ most) }
    ensures err { OnErr result (L.world link.new ≡ L.world link.old) }
    ensures cause { CountsFailure (L.faults link.old) (L.faults link.new) result }
{
    let mut bytes = [0u8; 1027];
    let count = link.receive(side, &mut bytes[..most])?;
    let mut piece = ArrayVec::new();
    let _ = piece.try_extend_from_slice(&bytes[..count]);
    Ok(piece)
}

/// Adds bytes to what was read of a frame.
fn append(frame: &mut ArrayVec<u8, 1027>, bytes: &[u8])
    requires { length frame.old.items + length bytes.now ≤ 1027 }
    ensures { frame.new.items ≡ frame.old.items ++ bytes.now }
{
    let _ = frame.try_extend_from_slice(bytes);
}

/// Reads one frame, and nothing behind it.
fn read_frame<L: Link>(link: &mut L, side: Side) -> Result<Msg, TalkFault>
    ensures calls { Reads (took_on L.took side) (gave_on L.gave side) link.old result link.new }
    ensures fits { IfOk result (λ r. MsgFits r) }
    ensures cause { CountsTalk (L.faults link.old) result (L.faults link.new) }
    ensures told { (w : World) → L.world link.old ≡ Some w → ReadsTold L.conduct side w result (L.world link.new) }
{
    let mut feeder = Feeder::new();
    let mut frame: ArrayVec<u8, 1027> = ArrayVec::new();
    'pieces: loop {
        let most = feeder.to_come().min(1027 - frame.len());
        let piece = match next_piece(link, side, most) {
            Ok(piece) => piece,
            Err(_) => return Err(TalkFault::LinkFault),
        };
        if piece.is_empty() {
            return Err(TalkFault::BadReply {
                frame: ArrayVec::new(),
            });
        }
        let bytes = piece.as_slice();
        append(&mut frame, bytes);
        match feeder.feed(bytes) {
            Fed::NotYet => {}
            Fed::BadFrame { .. } => return Err(TalkFault::BadReply { frame }),
            Fed::Msg { msg, .. } => return Ok(msg),
        }
    }
}

/// A frame where the reply to `asked` is owed, of which `printed` bytes of output came: it goes on, or is bad.
fn judged(asked: &Msg, printed: u64, reply: Msg) -> Result<Msg, TalkFault>
    requires { printed < 2 ^ 32 }
    ensures { Judged asked.now printed reply result }
{
    match hear(asked, printed, &reply) {
        Heard::Bad => Err(TalkFault::BadReply {
            frame: encode(&reply),
        }),
        _ => Ok(reply),
    }
}

/// Hears the next frame of the reply to `asked`, of which `printed` bytes of output came.
pub fn hear_next<L: Link>(
    link: &mut L,
    side: Side,
    asked: &Msg,
    printed: u64,
) -> Result<Msg, TalkFault>
    requires { printed < 2 ^ 32 }
    ensures calls { HearsNext (took_on L.took side) (gave_on L.gave side) asked.now printed link.old result link.new }
    ensures fits { IfOk result (λ r. MsgFits r) }
    ensures cause { CountsTalk (L.faults link.old) result (L.faults link.new) }
    ensures told { (w : World) → L.world link.old ≡ Some w → HearsNextTold L.conduct side asked.now printed w result (L.world link.new) }
{
    match read_frame(link, side) {
        Err(fault) => Err(fault),
        Ok(reply) => judged(asked, printed, reply),
    }
}

/// Sends a message to a nub, and hears its reply, which is one frame.
pub fn ask<L: Link>(link: &mut L, side: Side, message: &Msg) -> Result<Msg, TalkFault>
    requires { IsShort message.now }
    ensures calls { Talks (took_on L.took side) (gave_on L.gave side) message.now link.old result link.new }
    ensures fits { IfOk result (λ r. MsgFits r) }
    ensures cause { CountsTalk (L.faults link.old) result (L.faults link.new) }
    ensures told { (w : World) → L.world link.old ≡ Some w → TellsReply L.conduct side message.now w result (L.world link.new) }
{
    let frame = encode(message);
    match send_all(link, side, frame.as_slice()) {
        Err(fault) => Err(fault),
        Ok(()) => hear_next(link, side, message, 0),
    }
}
