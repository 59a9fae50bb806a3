// Targets behind links, and their tables.

use crate::asking::{Asking, Behind};
use abs_mem::{AbsMem, Joined, Wire};
use frame_bytes::{Place, Space};
use ldb_words::{Kind, Order};
use machine_state::TEXT;
use near_link::{FaultyLink, Mishap, NearLink};
use nub_wire::Side;
use obj_file::read_image;
use ps_run::{NoDialect, PsCore, PsFault, Steps, run};
use ps_store::{PsObj, PsStore};
use std::alloc::{AllocError, Global};
use test_rows::{Subject, append, numbers, part};

/// The most steps of a table.
const MOST_STEPS: u32 = 10_000_000;

/// What the rows are about: the target and words of the last image, the words that were set since, by pairs of an address and a
/// number, its table, and its memory.
#[derive(Drop)]
pub struct Targets {
    alloc: Global,
    words: Vec<u32>,
    made: Vec<u32>,
    table: PsStore,
    memory: Option<Behind>,
}

/// The bytes of the image of a target and words.
fn image_bytes(alloc: Global, target: u8, words: &[u32]) -> Result<Vec<u8>, AllocError> {
    let head = [0x4c, 0x44, 0x42, 0x49, 1, target, 0, 0];
    let mut image = Vec::from_slice(alloc, &head)?;
    let length = u32::try_from(words.len()).unwrap_or(0).wrapping_mul(4);
    for field in [TEXT, length, 0] {
        image.extend_from_slice(&field.to_be_bytes())?;
    }
    for word in words {
        let four = if target == 1 {
            word.to_le_bytes()
        } else {
            word.to_be_bytes()
        };
        image.extend_from_slice(&four)?;
    }
    Ok(image)
}

/// Runs the text of a table in a new store, whose top is then the dictionary that it leaves; says which error came.
fn table_of(alloc: Global, text: &[u8], out: &mut Vec<u8>) -> Result<PsStore, AllocError> {
    let mut store = PsStore::new(alloc)?;
    let Ok(t) = store.make_string(text) else {
        append(out, "no text")?;
        return Ok(store);
    };
    let mut core = PsCore::new(alloc, store)?;
    let mut steps = Steps {
        taken: 0,
        limit: MOST_STEPS,
    };
    match run(&mut core, &mut NoDialect, PsObj::Str(t, true), &mut steps) {
        Ok(()) => {}
        Err(PsFault::Error(error)) => append(out, error.name())?,
        Err(_) => append(out, "spent")?,
    }
    let top = core.operands.get(0);
    let mut store = core.into_store();
    if let Some(PsObj::Dict(d)) = top {
        store.set_top(d);
    }
    store.close_all();
    Ok(store)
}

impl Targets {
    pub fn new(alloc: Global) -> Result<Targets, AllocError> {
        Ok(Targets {
            alloc,
            words: Vec::new(alloc),
            made: Vec::new(alloc),
            table: PsStore::new(alloc)?,
            memory: None,
        })
    }

    /// The target's number.
    fn target(&self) -> u8 {
        match self.words.first() {
            Some(1) => 1,
            _ => 2,
        }
    }

    /// A memory behind a new link to the image, of which the call with a number goes wrong.
    fn behind(&self, call: u64, how: Mishap) -> Result<Option<Behind>, AllocError> {
        let target = self.target();
        let bytes = image_bytes(self.alloc, target, self.words.get(1..).unwrap_or(&[]))?;
        let Ok(image) = read_image(self.alloc, bytes.as_slice()) else {
            return Ok(None);
        };
        let near = NearLink::new(self.alloc, &[image], Vec::new(self.alloc))?;
        let link = FaultyLink::new(near, call, how);
        let order = if target == 1 {
            Order::Little
        } else {
            Order::Big
        };
        let wire = Wire {
            link,
            side: Side::First,
            order,
        };
        Ok(Some(Joined::new(wire, order)))
    }

    /// Sets the words that were set.
    fn set_all(made: &[u32], memory: &mut Behind) {
        for pair in made.chunks(2) {
            if let [at, value] = pair {
                let space = Space::Memory;
                let _ = memory.store(Place { space, at: *at }, Kind::Word, *value);
            }
        }
    }

    /// Appends how a row is answered where one call of the link goes wrong, for each of so many calls: how often as it is, with a
    /// failure, with a bad reply, or otherwise. The row is the second and third of the parts, and without these `frames`.
    fn append_mishaps(&self, parts: &[Vec<u8>], out: &mut Vec<u8>) -> Result<(), AllocError> {
        let given = numbers(self.alloc, part(parts, 0))?;
        let how = match given.first() {
            Some(0) => Mishap::Fail,
            Some(1) => Mishap::Silent,
            _ => Mishap::Done,
        };
        let kind = match std::str::from_utf8(part(parts, 1)) {
            Ok("") | Err(_) => "frames",
            Ok(kind) => kind,
        };
        let asked = numbers(self.alloc, part(parts, 2))?;
        let mut counts = [0u32; 4];
        let right = self.answer_over(u64::MAX, how, kind, asked.as_slice())?;
        for call in 0..given.get(1).copied().unwrap_or(0) {
            let text = self.answer_over(u64::from(call), how, kind, asked.as_slice())?;
            let which = if text.as_slice() == right.as_slice() {
                0
            } else if text.as_slice().ends_with(b"failed") {
                1
            } else if text.as_slice().ends_with(b"bad") {
                2
            } else {
                3
            };
            counts[which] = counts[which].wrapping_add(1);
        }
        let [same, failed, bad, other] = counts;
        append(
            out,
            format!(in self.alloc;
                "{same} as they are, {failed} failed, {bad} bad, {other} otherwise"
            )?.as_str(),
        )
    }

    /// The answer of a row over a link of which the call with a number goes wrong, counted behind the words that were set.
    fn answer_over(
        &self,
        call: u64,
        how: Mishap,
        kind: &str,
        given: &[u32],
    ) -> Result<Vec<u8>, AllocError> {
        let mut out = Vec::new(self.alloc);
        // a store takes two calls of the link, a send and a receive
        let before = u64::try_from(self.made.len()).unwrap_or(0);
        if let Some(mut memory) = self.behind(call.saturating_add(before), how)? {
            Targets::set_all(self.made.as_slice(), &mut memory);
            let mut asking = Asking {
                alloc: self.alloc,
                target: self.target(),
                table: &self.table,
                memory: &mut memory,
            };
            asking.append_asked(kind, given, &mut out)?;
        }
        Ok(out)
    }

    /// Appends the answer of a row that makes something.
    fn make(
        &mut self,
        kind: &str,
        text: &[u8],
        given: &[u32],
        out: &mut Vec<u8>,
    ) -> Result<(), AllocError> {
        match kind {
            "target" => {
                self.words = Vec::from_slice(self.alloc, given)?;
                self.made = Vec::new(self.alloc);
                self.memory = self.behind(u64::MAX, Mishap::Fail)?;
                Ok(())
            }
            "table" => {
                self.table = table_of(self.alloc, text, out)?;
                Ok(())
            }
            _ => {
                self.made.extend_from_slice(given)?;
                if let Some(memory) = &mut self.memory {
                    Targets::set_all(given, memory);
                }
                Ok(())
            }
        }
    }
}

impl Subject for Targets {
    fn answer(
        &mut self,
        kind: &str,
        parts: &[Vec<u8>],
        out: &mut Vec<u8>,
    ) -> Result<(), AllocError> {
        let text = part(parts, 0);
        match kind {
            "table" => return self.make(kind, text, &[], out),
            "mishaps" => return self.append_mishaps(parts, out),
            "target" | "set" => {
                let given = numbers(self.alloc, text)?;
                return self.make(kind, text, given.as_slice(), out);
            }
            _ => {}
        }
        let given = numbers(self.alloc, text)?;
        let target = self.target();
        let Some(memory) = &mut self.memory else {
            return append(out, "no target");
        };
        let mut asking = Asking {
            alloc: self.alloc,
            target,
            table: &self.table,
            memory,
        };
        asking.append_asked(kind, given.as_slice(), out)
    }
}
