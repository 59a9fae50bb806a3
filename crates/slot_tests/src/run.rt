// A slow interpreter of slot code, written from what each operator does. Objects lie in an array of bytes, the lowest byte of a word first, a pointer is
// an address there, and the null pointer is 0.

use ldb_words::{
    Kind, Undef, Way, add_checked, div_checked, extend_byte, extend_half, mul_checked, neg_checked,
    rem_checked, shift_checked, sub_checked,
};
use slot_ir::{Access, PointerOp, SlotCode, SlotOp, SlotValue, UnaryWordOp, WordOp};
use std::alloc::{AllocError, Global};

/// The steps after which a run is given up.
const MOST_STEPS: u32 = 2_000_000;

/// How many bytes there are for objects, and how many words for temporaries and for the places of locals.
const ROOM: usize = 1_048_576;

/// The lowest address of an object.
const LOWEST: u32 = 16;

/// Why a run ends.
#[derive(Clone, Copy, PartialEq, Eq, Debug)]
pub enum End {
    /// With an exit number.
    Exit(u32),
    /// At an undefined calculation.
    Undefined,
    /// At an operator that names what is not there, or a place where nothing is.
    Stuck,
    /// After too many steps.
    TooLong,
}

/// An activation: its function, the place of its next operator, where its temporaries, the places of its locals and its objects begin, and the caller's temporary for its result.
#[derive(Clone, Copy, Drop)]
struct Frame {
    function: u32,
    pc: u32,
    temps: u32,
    places: u32,
    objects: u32,
    result: u32,
}

/// A run: its bytes, of which those from `free` on are used by nothing, the places of objects and strings, its temporaries, the places of locals, its activations, how much of the input was taken, what was written, and how it ended.
#[derive(Drop)]
pub struct Run {
    bytes: Vec<u8>,
    free: u32,
    objects: Vec<u32>,
    strings: Vec<u32>,
    temps: Vec<u32>,
    places: Vec<u32>,
    here: Frame,
    outer: Vec<Frame>,
    taken: usize,
    output: Vec<u8>,
    end: Option<End>,
}

fn truth(b: bool) -> u32 {
    if b { 1 } else { 0 }
}

/// The word at an index, or 0.
fn word(words: &[u32], at: u32) -> u32 {
    words.get(at as usize).copied().unwrap_or(0)
}

fn width_of(kind: Kind) -> u32 {
    match kind {
        Kind::Byte => 1,
        _ => 4,
    }
}

/// A value of a width and sign.
fn extended(access: Access, v: u32) -> u32 {
    match access {
        Access::SignedByte => extend_byte(v & 0xff),
        Access::UnsignedByte => v & 0xff,
        Access::SignedHalf => extend_half(v & 0xffff),
        Access::UnsignedHalf => v & 0xffff,
        Access::Word | Access::Pointer => v,
    }
}

fn compared(op: WordOp, x: u32, y: u32) -> Option<bool> {
    let (a, b) = (x.cast_signed(), y.cast_signed());
    match op {
        WordOp::Equal => Some(x == y),
        WordOp::Unequal => Some(x != y),
        WordOp::Less => Some(a < b),
        WordOp::Greater => Some(a > b),
        WordOp::LessEqual => Some(a <= b),
        WordOp::GreaterEqual => Some(a >= b),
        WordOp::LessUnsigned => Some(x < y),
        WordOp::GreaterUnsigned => Some(x > y),
        WordOp::LessEqualUnsigned => Some(x <= y),
        WordOp::GreaterEqualUnsigned => Some(x >= y),
        _ => None,
    }
}

fn signed(op: WordOp, a: i32, b: i32) -> Option<Result<i32, Undef>> {
    match op {
        WordOp::Add => Some(add_checked(a, b)),
        WordOp::Subtract => Some(sub_checked(a, b)),
        WordOp::Multiply => Some(mul_checked(a, b)),
        WordOp::Divide => Some(div_checked(a, b)),
        WordOp::Remainder => Some(rem_checked(a, b)),
        _ => None,
    }
}

fn unsigned(op: WordOp, x: u32, y: u32) -> Result<u32, Undef> {
    match op {
        WordOp::Or => Ok(x | y),
        WordOp::Xor => Ok(x ^ y),
        WordOp::And => Ok(x & y),
        WordOp::ShiftLeft => shift_checked(x, y, Way::Left),
        WordOp::ShiftRight => shift_checked(x, y, Way::RightSigned),
        WordOp::ShiftRightUnsigned => shift_checked(x, y, Way::RightUnsigned),
        WordOp::AddUnsigned => Ok(x.wrapping_add(y)),
        WordOp::SubtractUnsigned => Ok(x.wrapping_sub(y)),
        WordOp::MultiplyUnsigned => Ok(x.wrapping_mul(y)),
        WordOp::DivideUnsigned => x.checked_div(y).ok_or(Undef::Division),
        _ => x.checked_rem(y).ok_or(Undef::Division),
    }
}

fn on_words(op: WordOp, x: u32, y: u32) -> Result<u32, Undef> {
    if let Some(holds) = compared(op, x, y) {
        return Ok(truth(holds));
    }
    match signed(op, x.cast_signed(), y.cast_signed()) {
        Some(Ok(n)) => Ok(n.cast_unsigned()),
        Some(Err(why)) => Err(why),
        None => unsigned(op, x, y),
    }
}

fn unary(op: UnaryWordOp, x: u32) -> Result<u32, Undef> {
    match op {
        UnaryWordOp::Plus => Ok(x),
        UnaryWordOp::Minus => neg_checked(x.cast_signed()).map(|n| n.cast_unsigned()),
        UnaryWordOp::MinusUnsigned => Ok(0u32.wrapping_sub(x)),
        UnaryWordOp::Complement => Ok(!x),
        UnaryWordOp::Not => Ok(truth(x == 0)),
        UnaryWordOp::Truth => Ok(truth(x != 0)),
    }
}

fn is_so(op: PointerOp, x: u32, y: u32) -> bool {
    match op {
        PointerOp::Equal => x == y,
        PointerOp::Unequal => x != y,
        PointerOp::Less => x < y,
        PointerOp::Greater => x > y,
        PointerOp::LessEqual => x <= y,
        PointerOp::GreaterEqual => x >= y,
    }
}

impl Run {
    /// Before the first step of a program.
    pub fn new(alloc: Global, code: &SlotCode) -> Result<Run, AllocError> {
        let main = Frame {
            function: code.main,
            pc: 0,
            temps: 0,
            places: 0,
            objects: LOWEST,
            result: 0,
        };
        let mut run = Run {
            bytes: vec![in alloc; 0; ROOM]?,
            free: LOWEST,
            objects: Vec::new(alloc),
            strings: Vec::new(alloc),
            temps: vec![in alloc; 0; ROOM]?,
            places: vec![in alloc; 0; ROOM]?,
            here: main,
            outer: Vec::new(alloc),
            taken: 0,
            output: Vec::new(alloc),
            end: None,
        };
        run.add_statics(code)?;
        run.open(code);
        Ok(run)
    }

    /// Goes on to the end, which it tells with what was written.
    pub fn go(mut self, code: &SlotCode, input: &[u8]) -> Result<(End, Vec<u8>), AllocError> {
        for _step in 0..MOST_STEPS {
            self.step(code, input)?;
            if let Some(end) = self.end {
                return Ok((end, self.output));
            }
        }
        Ok((End::TooLong, self.output))
    }

    // ---- bytes

    /// The address of new bytes, a multiple of 4.
    fn room(&mut self, size: u32) -> u32 {
        let at = self.free.saturating_add(3) & 0xffff_fffc;
        self.free = at.saturating_add(size);
        at
    }

    fn load(&mut self, width: u32, at: u32) -> u32 {
        let mut value: u32 = 0;
        for i in 0..width {
            let byte = self.bytes.get(at.saturating_add(i) as usize).copied();
            value |= u32::from(byte.unwrap_or(0)).wrapping_shl(i.wrapping_mul(8));
        }
        if at < LOWEST || at >= self.free {
            self.end = Some(End::Stuck);
        }
        value
    }

    fn store(&mut self, width: u32, at: u32, value: u32) {
        for i in 0..width {
            let byte = value.wrapping_shr(i.wrapping_mul(8)) & 0xff;
            if let Some(kept) = self.bytes.get_mut(at.saturating_add(i) as usize) {
                *kept = u8::try_from(byte).unwrap_or(0);
            }
        }
        if at < LOWEST || at >= self.free {
            self.end = Some(End::Stuck);
        }
    }

    /// The address of a static object.
    fn object(&self, number: u32) -> u32 {
        word(&self.objects, number)
    }

    /// The address of a string.
    fn string(&self, number: u32) -> u32 {
        word(&self.strings, number)
    }

    /// Makes the strings and the static objects.
    fn add_statics(&mut self, code: &SlotCode) -> Result<(), AllocError> {
        for text in code.strings.as_slice() {
            let at = self.room(u32::try_from(text.len()).unwrap_or(0).saturating_add(1));
            self.strings.push(at)?;
            let mut next = at;
            for byte in text.as_bytes() {
                self.store(1, next, u32::from(*byte));
                next = next.saturating_add(1);
            }
        }
        for object in code.objects.as_slice() {
            let at = self.room(object.size);
            self.objects.push(at)?;
        }
        let mut number: u32 = 0;
        for object in code.objects.as_slice() {
            let at = self.object(number);
            for start in object.start.as_slice() {
                let value = match start.value {
                    SlotValue::Number(n) => n,
                    SlotValue::Null => 0,
                    SlotValue::Object { object, offset } => {
                        self.object(object).saturating_add(offset)
                    }
                    SlotValue::Str(k) => self.string(k),
                };
                self.store(u32::from(start.width), at.saturating_add(start.at), value);
            }
            number = number.saturating_add(1);
        }
        Ok(())
    }

    // ---- activations

    /// Makes the places of the locals of the activation that begins.
    fn open(&mut self, code: &SlotCode) {
        self.here.objects = self.free;
        let function = code.functions.as_slice().get(self.here.function as usize);
        let Some(function) = function else {
            self.end = Some(End::Stuck);
            return;
        };
        let mut at = self.here.places;
        for local in function.locals.as_slice() {
            let place = self.room(local.size);
            if let Some(kept) = self.places.get_mut(at as usize) {
                *kept = place;
            }
            at = at.saturating_add(1);
        }
    }

    /// The temporary at an index of all.
    fn temp_at(&self, at: u32) -> u32 {
        word(&self.temps, at)
    }

    fn temp(&self, i: u32) -> u32 {
        self.temp_at(self.here.temps.saturating_add(i))
    }

    fn set(&mut self, i: u32, value: u32) {
        let at = self.here.temps.saturating_add(i) as usize;
        if let Some(temp) = self.temps.get_mut(at) {
            *temp = value;
        }
    }

    /// The place of a local.
    fn local(&self, x: u32) -> u32 {
        word(&self.places, self.here.places.saturating_add(x))
    }

    fn call(&mut self, code: &SlotCode, at: u32, f: u32, count: u32) -> Result<(), AllocError> {
        let functions = code.functions.as_slice();
        let (Some(from), Some(to)) = (
            functions.get(self.here.function as usize),
            functions.get(f as usize),
        ) else {
            self.end = Some(End::Stuck);
            return Ok(());
        };
        let locals = u32::try_from(from.locals.len()).unwrap_or(0);
        let caller = self.here;
        self.outer.push(caller)?;
        self.here = Frame {
            function: f,
            pc: 0,
            temps: caller.temps.saturating_add(from.temporaries),
            places: caller.places.saturating_add(locals),
            objects: 0,
            result: at,
        };
        self.open(code);
        let given = caller.temps.saturating_add(at);
        for (i, local) in (0..count).zip(to.locals.as_slice()) {
            let value = extended(local.access, self.temp_at(given.saturating_add(i)));
            let width = if local.size == 1 { 1 } else { 4 };
            self.store(width, self.local(i), value);
        }
        Ok(())
    }

    fn give_back(&mut self, at: u32) {
        let value = self.temp(at);
        let result = self.here.result;
        self.free = self.here.objects;
        match self.outer.pop() {
            None => self.end = Some(End::Exit(value)),
            Some(frame) => {
                self.here = frame;
                self.set(result, value);
            }
        }
    }

    // ---- operators

    fn step(&mut self, code: &SlotCode, input: &[u8]) -> Result<(), AllocError> {
        let function = code.functions.as_slice().get(self.here.function as usize);
        let pc = self.here.pc;
        let op = match function {
            Some(function) => function.code.as_slice().get(pc as usize).copied(),
            None => None,
        };
        let Some(op) = op else {
            self.end = Some(End::Stuck);
            return Ok(());
        };
        self.here.pc = pc.saturating_add(1);
        match op {
            SlotOp::Call {
                at,
                function,
                arguments,
            } => return self.call(code, at, function, arguments),
            SlotOp::PutChar { at } => {
                let byte = self.temp(at) & 0xff;
                self.output.push(u8::try_from(byte).unwrap_or(0))?;
                self.set(at, byte);
            }
            SlotOp::GetChar { to } => {
                let byte = match input.get(self.taken) {
                    Some(byte) => u32::from(*byte),
                    None => u32::MAX,
                };
                self.taken = self.taken.saturating_add(1);
                self.set(to, byte);
            }
            SlotOp::Move { to, from, shape } => self.copy(code, to, from, shape),
            SlotOp::Zero { local } => self.zero(code, local),
            _ => self.flow(op),
        }
        Ok(())
    }

    /// Copies the leaves of a struct.
    fn copy(&mut self, code: &SlotCode, to: u32, from: u32, shape: u32) {
        let Some(shape) = code.structs.as_slice().get(shape as usize) else {
            self.end = Some(End::Stuck);
            return;
        };
        let (to, from) = (self.temp(to), self.temp(from));
        for leaf in shape.leaves.as_slice() {
            let width = width_of(leaf.kind);
            let value = self.load(width, from.saturating_add(leaf.at));
            self.store(width, to.saturating_add(leaf.at), value);
        }
    }

    /// Makes a local's object, with zeros.
    fn zero(&mut self, code: &SlotCode, x: u32) {
        let function = code.functions.as_slice().get(self.here.function as usize);
        let local = match function {
            Some(function) => function.locals.as_slice().get(x as usize),
            None => None,
        };
        let Some(local) = local else {
            self.end = Some(End::Stuck);
            return;
        };
        let at = self.local(x);
        for i in 0..local.size {
            self.store(1, at.saturating_add(i), 0);
        }
    }

    fn flow(&mut self, op: SlotOp) {
        match op {
            SlotOp::Jump { place } => self.here.pc = place,
            SlotOp::JumpIfZero { at, place } => self.jump(self.temp(at) == 0, place),
            SlotOp::JumpIfNotZero { at, place } => self.jump(self.temp(at) != 0, place),
            SlotOp::JumpIfEqual { at, bits, place } => self.jump(self.temp(at) == bits, place),
            SlotOp::Return { at } => self.give_back(at),
            SlotOp::Exit { at } => self.end = Some(End::Exit(self.temp(at))),
            SlotOp::Stop { .. } | SlotOp::Leave { .. } => {}
            _ => self.access(op),
        }
    }

    fn jump(&mut self, jumps: bool, place: u32) {
        if jumps {
            self.here.pc = place;
        }
    }

    /// An operator on objects and addresses.
    fn access(&mut self, op: SlotOp) {
        match op {
            SlotOp::StaticAddress { to, object } => self.set(to, self.object(object)),
            SlotOp::TextAddress { to, string } => self.set(to, self.string(string)),
            SlotOp::LocalAddress { to, local } => self.set(to, self.local(local)),
            SlotOp::Load {
                to,
                from,
                kind,
                access,
            } => {
                let value = self.load(width_of(kind), self.temp(from));
                self.set(to, extended(access, value));
            }
            SlotOp::Store { at, from, kind } => {
                self.store(width_of(kind), self.temp(at), self.temp(from));
            }
            SlotOp::ReadRegister {
                to,
                local,
                kind,
                access,
            } => {
                let value = self.load(width_of(kind), self.local(local));
                self.set(to, extended(access, value));
            }
            SlotOp::WriteRegister { from, local, kind } => {
                self.store(width_of(kind), self.local(local), self.temp(from));
            }
            _ => self.compute(op),
        }
    }

    /// An operator on temporaries.
    fn compute(&mut self, op: SlotOp) {
        match op {
            SlotOp::Const { to, bits } => self.set(to, bits),
            SlotOp::Null { to } => self.set(to, 0),
            SlotOp::Take { to, from } => self.set(to, self.temp(from)),
            SlotOp::Convert { at, access } => self.set(at, extended(access, self.temp(at))),
            SlotOp::Unary { at, op } => self.finish(at, unary(op, self.temp(at))),
            SlotOp::Binary {
                to,
                left,
                right,
                op,
            } => self.finish(to, on_words(op, self.temp(left), self.temp(right))),
            SlotOp::Compare {
                to,
                left,
                right,
                op,
            } => self.set(to, truth(is_so(op, self.temp(left), self.temp(right)))),
            SlotOp::Offset { at, bytes } => self.set(at, self.temp(at).wrapping_add(bytes)),
            SlotOp::Index {
                to,
                pointer,
                index,
                size,
                back,
                ..
            } => {
                let bytes = self.temp(index).wrapping_mul(size);
                let at = self.temp(pointer);
                self.set(
                    to,
                    if back {
                        at.wrapping_sub(bytes)
                    } else {
                        at.wrapping_add(bytes)
                    },
                );
            }
            SlotOp::Distance {
                to,
                left,
                right,
                size,
            } => {
                let bytes = self.temp(left).wrapping_sub(self.temp(right)).cast_signed();
                let items = div_checked(bytes, size.cast_signed());
                self.finish(to, items.map(|n| n.cast_unsigned()));
            }
            _ => self.end = Some(End::Stuck),
        }
    }

    fn finish(&mut self, to: u32, value: Result<u32, Undef>) {
        match value {
            Ok(value) => self.set(to, value),
            Err(_) => self.end = Some(End::Undefined),
        }
    }
}
