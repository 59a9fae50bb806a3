// What is asked of a memory, and its answers as texts.

ghost use Rattle.std.specs.Prelude.{◌≡◌, ◌⊎◌};
ghost use Rattle.machine_state.specs.declared.layout.TheConstants.{MIPS, SPARC};

use abs_mem::{AbsMem, Joined, Locate, MemFault, WalkFault, Wire};
use break_plant::{PlantFault, plant, resume_pc, unplant};
use frame_bytes::{Frame, Place, Space};
use ldb_words::Kind;
use locate::Locator;
use machine_state::{CONTEXT, MIPS, SPARC};
use near_link::FaultyLink;
use nub_wire::Msg;
use ps_store::PsStore;
use stack_walk::{first, row_of_target, up};
use std::alloc::{AllocError, Global};
use test_rows::{append, append_escaped};
use wire_talk::{Resumption, TalkFault};

/// The memory of a target behind a link of which one call may go wrong.
pub type Behind = Joined<Wire<FaultyLink>>;

/// What is asked of a target: its number, its table and its memory.
#[derive(Drop)]
pub struct Asking<'a> {
    pub alloc: Global,
    pub target: u8,
    pub table: &'a PsStore,
    pub memory: &'a mut Behind,
}

/// The place of two numbers: a space (0 memory, 1 registers, 2 immediate) and where in it.
fn place_of(space: u32, at: u32) -> Place {
    let space = match space {
        0 => Space::Memory,
        1 => Space::Registers,
        _ => Space::Immediate,
    };
    Place { space, at }
}

/// The kind of a number: 0 a byte, else a word.
fn kind_of(kind: u32) -> Kind {
    if kind == 0 { Kind::Byte } else { Kind::Word }
}

/// The target of a number: 1 the MIPS, else the SPARC.
fn known(target: u8) -> u8
    ensures { (result ≡ MIPS) ⊎ (result ≡ SPARC) }
{
    if target == MIPS { MIPS } else { SPARC }
}

/// How a fault of a memory is told.
fn fault_text(fault: &MemFault) -> &'static str {
    match fault {
        MemFault::Outside { .. } => "outside",
        MemFault::LinkFault => "failed",
        MemFault::BadReply { .. } => "bad",
    }
}

/// How a fault of a walk is told.
fn walk_text(fault: &WalkFault) -> &'static str {
    match fault {
        WalkFault::Memory(fault) => fault_text(fault),
        WalkFault::Shape { missing: true } => "missing",
        WalkFault::Shape { missing: false } => "type",
        WalkFault::Unforced { .. } => "unforced",
    }
}

impl<'a> Asking<'a> {
    /// Appends the number at a place.
    pub fn append_fetched(&mut self, given: &[u32], out: &mut Vec<u8>) -> Result<(), AllocError> {
        let [space, at, kind] = given else {
            return append(out, "no place");
        };
        match self.memory.fetch(place_of(*space, *at), kind_of(*kind)) {
            Ok(value) => append(out, format!(in self.alloc; "{value:x}")?.as_str()),
            Err(fault) => append(out, fault_text(&fault)),
        }
    }

    /// Appends whether a number was put at a place.
    pub fn append_stored(&mut self, given: &[u32], out: &mut Vec<u8>) -> Result<(), AllocError> {
        let [space, at, kind, value] = given else {
            return append(out, "no place");
        };
        match self
            .memory
            .store(place_of(*space, *at), kind_of(*kind), *value)
        {
            Ok(()) => append(out, "done"),
            Err(fault) => append(out, fault_text(&fault)),
        }
    }

    /// Appends each frame's pc and base, and why there is no more.
    pub fn append_frames(&mut self, out: &mut Vec<u8>) -> Result<(), AllocError> {
        let row = row_of_target(self.target);
        let mut next = first(row, CONTEXT, self.table, self.memory);
        for _frame in 0..20_000 {
            match next {
                Err(fault) => return append(out, walk_text(&fault)),
                Ok(None) => return append(out, "end"),
                Ok(Some(frame)) => {
                    let (pc, base) = (frame.pc, frame.base);
                    append(out, format!(in self.alloc; "{pc:x}+{base:x} ")?.as_str())?;
                    next = up(row, &frame, self.table, self.memory);
                }
            }
        }
        append(out, "more")
    }

    /// The frame with a number, 0 being the innermost.
    fn frame_at(&mut self, number: u32) -> Option<Frame> {
        let row = row_of_target(self.target);
        let mut next = first(row, CONTEXT, self.table, self.memory);
        for _frame in 0..number {
            next = match next {
                Ok(Some(frame)) => up(row, &frame, self.table, self.memory),
                _ => return None,
            };
        }
        match next {
            Ok(found) => found,
            Err(_) => None,
        }
    }

    /// Chooses the frame with a number, and appends its pc.
    pub fn append_chosen(&mut self, number: u32, out: &mut Vec<u8>) -> Result<(), AllocError> {
        let frame = self.frame_at(number);
        self.memory.set_frame(frame.as_ref());
        match frame {
            Some(frame) => {
                let pc = frame.pc;
                append(out, format!(in self.alloc; "{pc:x}")?.as_str())
            }
            None => append(out, "none"),
        }
    }

    /// Appends to which object an address belongs: its label, for a local its activation, where in it and of how many bytes.
    pub fn append_found(&mut self, address: u32, out: &mut Vec<u8>) -> Result<(), AllocError> {
        let mut locator = Locator {
            target: self.target,
            context: CONTEXT,
        };
        match locator.find(self.table, self.memory, address) {
            Err(fault) => append(out, walk_text(&fault)),
            Ok(None) => append(out, "none"),
            Ok(Some(found)) => {
                append_escaped(self.alloc, out, self.table.string_get(found.label))?;
                if let Some(activation) = found.activation {
                    append(out, format!(in self.alloc; "@{activation}")?.as_str())?;
                }
                let (at, size) = (found.at, found.size);
                append(out, format!(in self.alloc; "+{at} of {size}")?.as_str())?;
                append(out, if found.literal { " literal" } else { "" })
            }
        }
    }

    /// Appends whether the break word was put at an address, or the no-op back.
    pub fn append_planted(
        &mut self,
        is_planting: bool,
        at: u32,
        out: &mut Vec<u8>,
    ) -> Result<(), AllocError> {
        let done = if is_planting {
            plant(known(self.target), self.memory, at)
        } else {
            match unplant(known(self.target), self.memory, at) {
                Ok(()) => Ok(()),
                Err(fault) => Err(PlantFault::Memory(fault)),
            }
        };
        match done {
            Ok(()) => append(out, "done"),
            Err(PlantFault::NotNoop { word, .. }) => {
                append(out, format!(in self.alloc; "word {word:x}")?.as_str())
            }
            Err(PlantFault::Memory(fault)) => append(out, fault_text(&fault)),
        }
    }

    /// Resumes for so many turns, from past the no-op at an address if there is one, and appends how that ended.
    fn append_resumed(
        &mut self,
        past: Option<u32>,
        turns: u32,
        out: &mut Vec<u8>,
    ) -> Result<Option<u32>, AllocError> {
        if let Some(at) = past {
            let (pc, next_pc) = resume_pc(at);
            let _ = self
                .memory
                .store(place_of(0, CONTEXT + 136), Kind::Word, pc);
            let _ = self
                .memory
                .store(place_of(0, CONTEXT + 140), Kind::Word, next_pc);
        }
        let wire = &mut self.memory.below.below.below;
        let side = wire.side;
        let Ok(mut run) = Resumption::begin(&mut wire.link, side, turns) else {
            append(out, "failed")?;
            return Ok(None);
        };
        for _message in 0..1_000_000 {
            match run.next(&mut wire.link, side) {
                Ok(Msg::Output { .. }) => {}
                Ok(Msg::Stopped { pc, .. }) => return Ok(Some(pc)),
                Ok(_) => {
                    append(out, "ended")?;
                    return Ok(None);
                }
                Err(TalkFault::LinkFault) => {
                    append(out, "failed")?;
                    return Ok(None);
                }
                Err(TalkFault::BadReply { .. }) => {
                    append(out, "bad")?;
                    return Ok(None);
                }
            }
        }
        Ok(None)
    }

    /// Plants a breakpoint, resumes so often, and appends the address of the last stop.
    pub fn append_stops(
        &mut self,
        at: u32,
        count: u32,
        out: &mut Vec<u8>,
    ) -> Result<(), AllocError> {
        if plant(known(self.target), self.memory, at).is_err() {
            return append(out, "not planted");
        }
        let mut past = None;
        for _stop in 0..count {
            match self.append_resumed(past, 1_000_000, out)? {
                None => return Ok(()),
                Some(pc) => past = Some(pc),
            }
        }
        if unplant(known(self.target), self.memory, at).is_err() {
            return append(out, "still planted");
        }
        match past {
            Some(pc) => append(out, format!(in self.alloc; "{pc:x}")?.as_str()),
            None => append(out, "none"),
        }
    }

    /// Appends the answer of a row of this kind with these numbers.
    pub fn append_asked(
        &mut self,
        kind: &str,
        given: &[u32],
        out: &mut Vec<u8>,
    ) -> Result<(), AllocError> {
        let first = given.first().copied().unwrap_or(0);
        match kind {
            "frames" => self.append_frames(out),
            "frame" => self.append_chosen(first, out),
            "fetch" => self.append_fetched(given, out),
            "store" => self.append_stored(given, out),
            "find" => self.append_found(first, out),
            "plant" => self.append_planted(true, first, out),
            "unplant" => self.append_planted(false, first, out),
            "stops" => self.append_stops(first, given.get(1).copied().unwrap_or(1), out),
            _ => append(out, "no such row"),
        }
    }
}
