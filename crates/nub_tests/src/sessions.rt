// Sessions over two images, which are answered alike whatever the schedule.

use crate::append_bytes;
use near_link::{Entry, NearLink, schedule_of};
use nub_wire::{Fed, Feeder, Msg, Side, encode};
use obj_file::{Image, read_image};
use std::alloc::{AllocError, Global};
use test_rows::{append, part};
use wire_talk::{Resumption, TalkFault, ask};

/// The images that the last row named.
#[derive(Drop)]
pub struct Sessions {
    alloc: Global,
    images: Vec<Image>,
}

/// Appends the frame of a reply, or says that it was bad, and its frame.
fn append_reply(
    alloc: Global,
    reply: &Result<Msg, TalkFault>,
    out: &mut Vec<u8>,
) -> Result<(), AllocError> {
    match reply {
        Ok(message) => append_bytes(alloc, encode(message).as_slice(), out),
        Err(TalkFault::BadReply { frame }) => {
            append(out, "bad")?;
            append_bytes(alloc, frame.as_slice(), out)
        }
        Err(TalkFault::LinkFault) => append(out, "failed"),
    }
}

/// Appends all that a resume tells, up to 1,000 messages.
fn append_run(
    alloc: Global,
    link: &mut NearLink,
    side: Side,
    begun: Result<Resumption, TalkFault>,
    out: &mut Vec<u8>,
) -> Result<(), AllocError> {
    let mut run = match begun {
        Ok(run) => run,
        Err(fault) => return append_reply(alloc, &Err(fault), out),
    };
    for _message in 0..1000 {
        let reply = run.next(link, side);
        append_reply(alloc, &reply, out)?;
        match reply {
            Ok(Msg::Output { .. }) => {}
            _ => return Ok(()),
        }
    }
    Ok(())
}

/// Appends what both nubs tell of a resume that was sent to both.
fn append_both(
    alloc: Global,
    link: &mut NearLink,
    turns: u32,
    out: &mut Vec<u8>,
) -> Result<(), AllocError> {
    let first = Resumption::begin(link, Side::First, turns);
    let second = Resumption::begin(link, Side::Second, turns);
    append_run(alloc, link, Side::First, first, out)?;
    append(out, ",")?;
    append_run(alloc, link, Side::Second, second, out)
}

/// Appends the replies to the message of a frame, which is sent to the first nub, the second, or, of a resume, to both.
fn append_exchange(
    alloc: Global,
    link: &mut NearLink,
    to: u8,
    frame: &[u8],
    out: &mut Vec<u8>,
) -> Result<(), AllocError> {
    let side = if to == 0 { Side::First } else { Side::Second };
    match Feeder::new().feed(frame) {
        Fed::Msg {
            msg: Msg::Resume { turns },
            ..
        } => {
            if to == 2 {
                return append_both(alloc, link, turns, out);
            }
            let begun = Resumption::begin(link, side, turns);
            append_run(alloc, link, side, begun, out)
        }
        Fed::Msg { msg, .. } => {
            let reply = ask(link, side, &msg);
            append_reply(alloc, &reply, out)
        }
        _ => append(out, "no message"),
    }
}

impl Sessions {
    pub fn new(alloc: Global) -> Sessions {
        Sessions {
            alloc,
            images: Vec::new(alloc),
        }
    }

    /// Reads the images of a row.
    fn read(&mut self, pieces: &[Vec<u8>]) -> Result<(), AllocError> {
        self.images = Vec::new(self.alloc);
        for piece in pieces {
            if let Ok(image) = read_image(self.alloc, piece.as_slice()) {
                self.images.push(image)?;
            }
        }
        Ok(())
    }

    /// What a session of messages answers under a schedule. The first byte of each message says to which nub it goes.
    fn replies(&self, schedule: Vec<Entry>, messages: &[Vec<u8>]) -> Result<Vec<u8>, AllocError> {
        let alloc = self.alloc;
        let mut out = Vec::new(alloc);
        let images = self.images.as_slice();
        if images.len() != 2 {
            return Ok(out);
        }
        let mut link = NearLink::new(alloc, images, schedule)?;
        for message in messages {
            if let [to, frame @ ..] = message.as_slice() {
                append(&mut out, " ")?;
                append_exchange(alloc, &mut link, *to, frame, &mut out)?;
            }
        }
        Ok(out)
    }

    /// Appends what a session answers without a schedule, or the first of so many schedules under which it answers otherwise.
    fn append_alike(
        &self,
        count: u8,
        messages: &[Vec<u8>],
        out: &mut Vec<u8>,
    ) -> Result<(), AllocError> {
        let alloc = self.alloc;
        let told = self.replies(Vec::new(alloc), messages)?;
        for seed in 0..count {
            let schedule = schedule_of(alloc, u64::from(seed), true)?;
            let other = self.replies(schedule, messages)?;
            if other.as_slice() != told.as_slice() {
                append(out, format!(in alloc; "under {seed}: ")?.as_str())?;
                return out.extend_from_slice(other.as_slice());
            }
        }
        out.extend_from_slice(told.as_slice())
    }

    /// Appends the answer to a row about sessions.
    pub fn answer(
        &mut self,
        kind: &str,
        pieces: &[Vec<u8>],
        out: &mut Vec<u8>,
    ) -> Result<(), AllocError> {
        if kind == "images" {
            return self.read(pieces);
        }
        let count = part(pieces, 0).first().copied().unwrap_or(0);
        let messages = pieces.get(1..).unwrap_or(&[]);
        self.append_alike(count, messages, out)
    }
}
