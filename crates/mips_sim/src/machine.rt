// The machine.

ghost use Rattle.std.specs.Prelude.{◌≡◌, ◌<◌, ◌+◌, ◌*◌, ◌^◌, ◌⊎◌, length, is_ok, None, IfOk, vec_len};
ghost use Rattle.ldb_words.specs.Word.{sign_extended};
ghost use Rattle.machine_state.specs.declared.layout.TheConstants.{MIPS};

use ldb_words::{
    Event, FaultKind, Order, Outside, WindowFault, div_checked, extend_byte, extend_half,
    product_signed, rem_checked,
};
use machine_state::{CONTEXT_WORDS, FIRST_STACK_POINTER, MIPS, Memory, Width, width_from};
use mips_isa::{Decoded, Insn, Register, Target, is_hazard};
use obj_file::Image;
use std::alloc::{AllocError, Global};
use std::marker::Model;

/// How many bytes of input a machine takes in all.
const INPUT_SIZE: usize = 0x0100_0000;

/// How many words that were fetched are kept decoded: those of 16,384 bytes of text.
const SLOTS: usize = 4096;

/// Slots for decoded words, which hold the word 0 at first.
fn decoded_zeros(alloc: Global, count: usize) -> Result<Vec<Decoded>, AllocError>
    ensures { IfOk result (λ slots. vec_len slots ≡ count) }
{
    let mut slots = Vec::with_capacity(alloc, count)?;
    for _slot in 0..count {
        slots.push(Decoded::new(0))?;
    }
    Ok(slots)
}

/// A halfword, extended by its sign to a word.
#[inline(always)]
fn extended(half: u16) -> u32
    ensures { result ≡ sign_extended 16 half }
{
    i32::from(half.cast_signed()).cast_unsigned()
}

/// An R3000 with its memory, input and output.
#[derive(Drop)]
pub struct Machine {
    registers: [u32; 32],
    hi: u32,
    lo: u32,
    pc: u32,
    next_pc: u32,
    in_slot: bool,
    loaded: u8,
    wait: u8,
    memory: Memory,
    slots: Vec<Decoded>,
    input: Vec<u8>,
    taken: usize,
    put: Option<u8>,
}

impl Model for Machine {
    ghost use Rattle.std.specs.Prelude.{◌≡◌, ◌≤◌, [], ◌∷◌, ◌^◌, drop, length, vec_len, vec_capacity};
    ghost use Rattle.machine_state.specs.State.{MachineState};
    ghost use Rattle.machine_state.specs.declared.layout.TheConstants.{MIPS};
    ghost use Rattle.std.specs.Prelude.{slice_index};

    ghost Value = { MachineState };

    ghost view = { λ m. record {
      target = MIPS;
      registers = m.registers;
      special = m.hi ∷ m.lo ∷ [];
      pc = m.pc;
      next_pc = m.next_pc;
      facts = record { in_slot = m.in_slot; loaded = m.loaded; wait = m.wait };
      memory = m.memory;
      left = drop m.taken m.input.items;
      given = vec_len m.input;
      put = m.put;
    } };

    ghost invariant = { λ m. (slice_index m.registers 0 ≡ 0) × (m.taken ≤ vec_len m.input) × (vec_len m.input ≤ 2 ^ 24) × (2 ^ 24 ≤ vec_capacity m.input) × (vec_len m.slots ≡ 4096) };
}

impl Machine {
    ghost use Rattle.mips_isa.specs.Codec.{insn_of};
    ghost use Rattle.mips_isa.specs.Loaded.{first_state, restored_state, mips_behaviour};
    ghost use Rattle.ldb_words.specs.Word.{signed, sum_of, product_signed};
    ghost use Rattle.machine_state.specs.Widths.{width_of};
    ghost use Rattle.machine_state.specs.Regions.{load_of, store_of, read_of, write_of};
    ghost use Rattle.machine_state.specs.State.{order_of, with_memory, given_input};
    ghost use Rattle.ldb_words.specs.declared.kinds.Order.TheVariants.{Little};
    ghost use Rattle.machine_state.specs.Step.{moved, jumps, sign_loaded, stores, reads_input, requests};
    ghost use Rattle.mips_isa.specs.Step.{register, with_register, writes, writes_special, reads_special, divides_signed, divides_unsigned, branches, jump_target, address, loads, writes_product, act, step_of};

    /// The machine at the start of an image.
    #[tactic(auto, unfolding(mips_isa::specs::Loaded::first_state))]
    pub fn new(alloc: Global, image: &Image) -> Result<Machine, AllocError>
        requires { image.now.target ≡ MIPS }
        ensures { IfOk result (λ m. m ≡ first_state image.now.entry image.now.text image.now.statics) }
    {
        let memory = Memory::new(alloc, image.text(), image.statics())?;
        let input = Vec::with_capacity(alloc, INPUT_SIZE)?;
        let mut registers = [0; 32];
        registers[29] = FIRST_STACK_POINTER;
        let entry = image.entry();
        Ok(Machine {
            registers,
            hi: 0,
            lo: 0,
            pc: entry,
            next_pc: entry.wrapping_add(4),
            in_slot: false,
            loaded: 0,
            wait: 0,
            memory,
            slots: decoded_zeros(alloc, SLOTS)?,
            input,
            taken: 0,
            put: None,
        })
    }

    /// The target byte of this machine, which is always that of the MIPS.
    pub fn target(&self) -> u8
        ensures target { result ≡ self.now.target }
        ensures mips { result ≡ MIPS }
    {
        let _machine = &self.registers;
        MIPS
    }

    /// What a register holds.
    fn register(&self, at: Register) -> u32
        ensures { result ≡ register self.now at }
    {
        self.registers[at.number() as usize]
    }

    /// Leaves a value in a register, but for `$0`.
    #[tactic(auto, unfolding(mips_isa::specs::Step::with_register))]
    fn set_register(&mut self, at: Register, value: u32)
        ensures { self.new ≡ with_register at value self.old }
    {
        let number = at.number();
        if number != 0 {
            self.registers[number as usize] = value;
        }
    }

    /// Goes on to the next instruction.
    #[tactic(auto, unfolding(machine_state::specs::Step::moved))]
    fn advance(&mut self)
        ensures { self.new ≡ moved self.old }
    {
        self.pc = self.next_pc;
        self.next_pc = self.next_pc.wrapping_add(4);
        self.in_slot = false;
        self.loaded = 0;
        if self.wait > 0 {
            self.wait -= 1;
        }
        self.put = None;
    }

    /// Leaves a value in a register and goes on.
    #[tactic(auto, unfolding(mips_isa::specs::Step::writes))]
    fn write_register(&mut self, at: Register, value: u32) -> Event
        ensures { writes at value self.old ≡ (result, self.new) }
    {
        self.advance();
        self.set_register(at, value);
        Event::Went
    }

    /// Leaves HI and LO and goes on.
    #[tactic(auto, unfolding(mips_isa::specs::Step::writes_special))]
    fn write_special(&mut self, high: u32, low: u32) -> Event
        ensures { writes_special high low self.old ≡ (result, self.new) }
    {
        self.advance();
        self.hi = high;
        self.lo = low;
        Event::Went
    }

    /// Moves HI or LO to a register; the next two instructions may not write them.
    #[tactic(auto, unfolding(mips_isa::specs::Step::reads_special))]
    fn read_special(&mut self, at: Register, value: u32) -> Event
        ensures { reads_special at value self.old ≡ (result, self.new) }
    {
        self.advance();
        self.set_register(at, value);
        self.wait = 2;
        Event::Went
    }

    /// A signed quotient in LO and remainder in HI.
    #[tactic(auto, unfolding(mips_isa::specs::Step::divides_signed))]
    fn divide_signed(&mut self, a: i32, b: i32) -> Event
        ensures { divides_signed a b self.old ≡ (result, self.new) }
    {
        match (div_checked(a, b), rem_checked(a, b)) {
            (Ok(quotient), Ok(remainder)) => {
                self.write_special(remainder.cast_unsigned(), quotient.cast_unsigned())
            }
            _ => Event::Fault(FaultKind::Division),
        }
    }

    /// An unsigned quotient in LO and remainder in HI.
    #[tactic(auto, unfolding(mips_isa::specs::Step::divides_unsigned))]
    fn divide_unsigned(&mut self, a: u32, b: u32) -> Event
        ensures { divides_unsigned a b self.old ≡ (result, self.new) }
    {
        if b == 0 {
            Event::Fault(FaultKind::Division)
        } else {
            self.write_special(a % b, a / b)
        }
    }

    /// Goes to a target after the delay slot, in which the machine stands.
    #[tactic(auto, unfolding(machine_state::specs::Step::jumps))]
    fn jump(&mut self, target: u32) -> Event
        ensures { jumps target self.old ≡ (result, self.new) }
    {
        self.next_pc = target;
        self.in_slot = true;
        Event::Went
    }

    /// Goes by a signed number of instructions from the delay slot, if the branch is taken.
    #[tactic(auto, unfolding(mips_isa::specs::Step::branches))]
    fn branch(&mut self, taken: bool, offset: u16) -> Event
        ensures { branches taken offset self.old ≡ (result, self.new) }
    {
        let target = if taken {
            self.pc.wrapping_add(4).wrapping_add(extended(offset) << 2)
        } else {
            self.next_pc.wrapping_add(4)
        };
        self.advance();
        self.jump(target)
    }

    /// The address of a word within the delay slot's 256 MiB.
    #[tactic(auto, unfolding(mips_isa::specs::Step::jump_target))]
    fn jump_target(&self, target: Target) -> u32
        ensures { result ≡ jump_target self.now target }
    {
        (self.pc.wrapping_add(4) >> 28 << 28) + (target.index() << 2)
    }

    /// The address of a load or store.
    fn address(&self, base: Register, offset: u16) -> u32
        ensures { result ≡ address self.now base offset }
    {
        self.register(base).wrapping_add(extended(offset))
    }

    /// Leaves what was loaded in a register, which the next instruction may not read.
    #[tactic(auto, unfolding(mips_isa::specs::Step::leaves_loaded))]
    fn finish_load(&mut self, at: Register, outcome: Result<u32, FaultKind>) -> Event
        ensures { loads at outcome self.old ≡ (result, self.new) }
    {
        match outcome {
            Err(kind) => Event::Fault(kind),
            Ok(value) => {
                self.advance();
                self.set_register(at, value);
                self.loaded = at.number();
                Event::Went
            }
        }
    }

    /// Stores the lowest bytes of a word.
    #[tactic(auto, unfolding(machine_state::specs::Step::stores))]
    fn store(&mut self, at: u32, width: Width, value: u32) -> Event
        ensures { stores (store_of Little self.old.memory at (width_of width) value) self.old ≡ (result, self.new) }
    {
        match self.memory.store(Order::Little, at, width, value) {
            Err(kind) => Event::Fault(kind),
            Ok(()) => {
                self.advance();
                Event::Went
            }
        }
    }

    /// Goes to an address after the delay slot.
    fn jump_to(&mut self, target: u32) -> Event
        ensures { jumps target (moved self.old) ≡ (result, self.new) }
    {
        self.advance();
        self.jump(target)
    }

    /// Goes to an address after the delay slot, and leaves the address after that in a register.
    fn jump_and_link(&mut self, at: Register, target: u32) -> Event
        ensures { jumps target (with_register at (sum_of self.old.pc 8) (moved self.old)) ≡ (result, self.new) }
    {
        let back = self.pc.wrapping_add(8);
        self.advance();
        self.set_register(at, back);
        self.jump(target)
    }

    /// The product of two words, as numbers with a sign, in HI and LO.
    fn multiply_signed(&mut self, a: u32, b: u32) -> Event
        ensures { writes_product (product_signed a b) self.old ≡ (result, self.new) }
    {
        let bits = product_signed(a, b);
        self.write_special((bits >> 32) as u32, (bits & 0xffff_ffff) as u32)
    }

    /// The product of two words, as numbers without a sign, in HI and LO.
    fn multiply_unsigned(&mut self, a: u32, b: u32) -> Event
        ensures { writes_product (a * b) self.old ≡ (result, self.new) }
    {
        let bits = u64::from(a) * u64::from(b);
        self.write_special((bits >> 32) as u32, (bits & 0xffff_ffff) as u32)
    }

    /// Loads a number without a sign.
    fn load(&mut self, register: Register, at: u32, width: Width) -> Event
        ensures { loads register (load_of Little self.old.memory at (width_of width)) self.old ≡ (result, self.new) }
    {
        let loaded = self.memory.load(Order::Little, at, width);
        self.finish_load(register, loaded)
    }

    /// Loads a byte with its sign.
    fn load_signed_byte(&mut self, register: Register, at: u32) -> Event
        ensures { loads register (sign_loaded 8 (load_of Little self.old.memory at 1)) self.old ≡ (result, self.new) }
    {
        let loaded = match self.memory.load(Order::Little, at, Width::Byte) {
            Err(kind) => Err(kind),
            Ok(value) => Ok(extend_byte(value)),
        };
        self.finish_load(register, loaded)
    }

    /// Loads a halfword with its sign.
    fn load_signed_half(&mut self, register: Register, at: u32) -> Event
        ensures { loads register (sign_loaded 16 (load_of Little self.old.memory at 2)) self.old ≡ (result, self.new) }
    {
        let loaded = match self.memory.load(Order::Little, at, Width::Half) {
            Err(kind) => Err(kind),
            Ok(value) => Ok(extend_half(value)),
        };
        self.finish_load(register, loaded)
    }

    /// The next byte of the input in `$2`, or -1 at the end.
    #[tactic(auto, unfolding(machine_state::specs::Step::reads_input))]
    fn read_input(&mut self)
        ensures { self.new ≡ reads_input (with_register 2) self.old }
    {
        let two = Register::new(2);
        if self.taken < self.input.len() {
            let byte = self.input[self.taken];
            self.taken += 1;
            self.set_register(two, u32::from(byte));
        } else {
            self.set_register(two, 0xffff_ffff);
        }
    }

    /// Does the request that `$2` numbers.
    #[tactic(auto, unfolding(machine_state::specs::Step::requests, machine_state::specs::Step::puts))]
    fn request(&mut self) -> Event
        ensures { requests (with_register 2) (register self.old 2) (register self.old 4) self.old ≡ (result, self.new) }
    {
        let number = self.registers[2];
        let argument = self.registers[4];
        match number {
            1 => {
                self.advance();
                self.read_input();
                Event::Request(1)
            }
            2 => {
                let byte = (argument & 0xff) as u8;
                self.advance();
                self.set_register(Register::new(2), u32::from(byte));
                self.put = Some(byte);
                Event::Request(2)
            }
            3..=5 => {
                self.advance();
                Event::Request(number as u8)
            }
            _ => Event::Fault(FaultKind::Request),
        }
    }

    /// The instruction of a word, decoded anew and kept in a slot.
    #[inline(never)]
    fn decode_into(&mut self, at: usize, word: u32) -> Option<Insn>
        requires { at < 4096 }
        ensures insn { result ≡ insn_of word }
        ensures kept { self.new ≡ self.old }
    {
        let fresh = Decoded::new(word);
        let insn = fresh.insn();
        self.slots[at] = fresh;
        insn
    }

    /// The instruction of a word, taken from the slot of pc where that holds it.
    #[inline(always)]
    fn instruction(&mut self, word: u32) -> Option<Insn>
        ensures insn { result ≡ insn_of word }
        ensures kept { self.new ≡ self.old }
    {
        let at = (self.pc >> 2 & 0xfff) as usize;
        let slot = &self.slots[at];
        if slot.word() == word {
            return slot.insn();
        }
        self.decode_into(at, word)
    }

    /// What an instruction does.
    #[tactic(auto, unfolding(mips_isa::specs::Step::act))]
    #[inline(always)]
    fn act(&mut self, insn: &Insn) -> Event
        ensures { act insn.now self.old ≡ (result, self.new) }
    {
        match insn {
            Insn::Sll { rd, rt, shamt } => self.write_register(
                *rd,
                self.register(*rt) << shamt.bits(),
            ),
            Insn::Srl { rd, rt, shamt } => self.write_register(
                *rd,
                self.register(*rt) >> shamt.bits(),
            ),
            Insn::Sra { rd, rt, shamt } => self.write_register(
                *rd,
                (self.register(*rt).cast_signed() >> shamt.bits()).cast_unsigned(),
            ),
            Insn::Sllv { rd, rt, rs } => self.write_register(
                *rd,
                self.register(*rt).wrapping_shl(self.register(*rs)),
            ),
            Insn::Srlv { rd, rt, rs } => self.write_register(
                *rd,
                self.register(*rt).wrapping_shr(self.register(*rs)),
            ),
            Insn::Srav { rd, rt, rs } => self.write_register(
                *rd,
                (self.register(*rt).cast_signed() >> (self.register(*rs) % 32)).cast_unsigned(),
            ),
            Insn::Jr { rs } => self.jump_to(self.register(*rs)),
            Insn::Jalr { rd, rs } => self.jump_and_link(*rd, self.register(*rs)),
            Insn::Syscall => self.request(),
            Insn::Break => Event::Break,
            Insn::Mfhi { rd } => self.read_special(*rd, self.hi),
            Insn::Mthi { rs } => self.write_special(self.register(*rs), self.lo),
            Insn::Mflo { rd } => self.read_special(*rd, self.lo),
            Insn::Mtlo { rs } => self.write_special(self.hi, self.register(*rs)),
            Insn::Mult { rs, rt } => self.multiply_signed(self.register(*rs), self.register(*rt)),
            Insn::Multu { rs, rt } => self.multiply_unsigned(
                self.register(*rs),
                self.register(*rt),
            ),
            Insn::Div { rs, rt } => self.divide_signed(
                self.register(*rs).cast_signed(),
                self.register(*rt).cast_signed(),
            ),
            Insn::Divu { rs, rt } => self.divide_unsigned(self.register(*rs), self.register(*rt)),
            Insn::Addu { rd, rs, rt } => self.write_register(
                *rd,
                self.register(*rs).wrapping_add(self.register(*rt)),
            ),
            Insn::Subu { rd, rs, rt } => self.write_register(
                *rd,
                self.register(*rs).wrapping_sub(self.register(*rt)),
            ),
            Insn::And { rd, rs, rt } => self.write_register(
                *rd,
                self.register(*rs) & self.register(*rt),
            ),
            Insn::Or { rd, rs, rt } => self.write_register(
                *rd,
                self.register(*rs) | self.register(*rt),
            ),
            Insn::Xor { rd, rs, rt } => self.write_register(
                *rd,
                self.register(*rs) ^ self.register(*rt),
            ),
            Insn::Nor { rd, rs, rt } => self.write_register(
                *rd,
                !(self.register(*rs) | self.register(*rt)),
            ),
            Insn::Slt { rd, rs, rt } => self.write_register(
                *rd,
                u32::from(self.register(*rs).cast_signed() < self.register(*rt).cast_signed()),
            ),
            Insn::Sltu { rd, rs, rt } => self.write_register(
                *rd,
                u32::from(self.register(*rs) < self.register(*rt)),
            ),
            Insn::Bltz { rs, offset } => self.branch(self.register(*rs) > 0x7fff_ffff, *offset),
            Insn::Bgez { rs, offset } => self.branch(self.register(*rs) < 0x8000_0000, *offset),
            Insn::J { target } => self.jump_to(self.jump_target(*target)),
            Insn::Jal { target } => self.jump_and_link(
                Register::new(31),
                self.jump_target(*target),
            ),
            Insn::Beq { rs, rt, offset } => self.branch(
                self.register(*rs) == self.register(*rt),
                *offset,
            ),
            Insn::Bne { rs, rt, offset } => self.branch(
                self.register(*rs) != self.register(*rt),
                *offset,
            ),
            Insn::Blez { rs, offset } => self.branch(
                self.register(*rs) == 0 || self.register(*rs) > 0x7fff_ffff,
                *offset,
            ),
            Insn::Bgtz { rs, offset } => self.branch(
                self.register(*rs) > 0 && self.register(*rs) < 0x8000_0000,
                *offset,
            ),
            Insn::Addiu { rt, rs, immediate } => self.write_register(
                *rt,
                self.register(*rs).wrapping_add(extended(*immediate)),
            ),
            Insn::Slti { rt, rs, immediate } => self.write_register(
                *rt,
                u32::from(self.register(*rs).cast_signed() < extended(*immediate).cast_signed()),
            ),
            Insn::Sltiu { rt, rs, immediate } => self.write_register(
                *rt,
                u32::from(self.register(*rs) < extended(*immediate)),
            ),
            Insn::Andi { rt, rs, immediate } => self.write_register(
                *rt,
                self.register(*rs) & u32::from(*immediate),
            ),
            Insn::Ori { rt, rs, immediate } => self.write_register(
                *rt,
                self.register(*rs) | u32::from(*immediate),
            ),
            Insn::Xori { rt, rs, immediate } => self.write_register(
                *rt,
                self.register(*rs) ^ u32::from(*immediate),
            ),
            Insn::Lui { rt, immediate } => self.write_register(*rt, u32::from(*immediate) << 16),
            Insn::Lb { rt, base, offset } => self.load_signed_byte(
                *rt,
                self.address(*base, *offset),
            ),
            Insn::Lh { rt, base, offset } => self.load_signed_half(
                *rt,
                self.address(*base, *offset),
            ),
            Insn::Lw { rt, base, offset } => self.load(
                *rt,
                self.address(*base, *offset),
                Width::Word,
            ),
            Insn::Lbu { rt, base, offset } => self.load(
                *rt,
                self.address(*base, *offset),
                Width::Byte,
            ),
            Insn::Lhu { rt, base, offset } => self.load(
                *rt,
                self.address(*base, *offset),
                Width::Half,
            ),
            Insn::Sb { rt, base, offset } => self.store(
                self.address(*base, *offset),
                Width::Byte,
                self.register(*rt),
            ),
            Insn::Sh { rt, base, offset } => self.store(
                self.address(*base, *offset),
                Width::Half,
                self.register(*rt),
            ),
            Insn::Sw { rt, base, offset } => self.store(
                self.address(*base, *offset),
                Width::Word,
                self.register(*rt),
            ),
        }
    }

    /// One step: the fault of pc, no such word, a hazard, and then what the instruction does.
    #[tactic(auto, unfolding(mips_isa::specs::Step::step_of))]
    #[inline(always)]
    pub fn step(&mut self) -> Event
        ensures { step_of self.old ≡ (result, self.new) }
    {
        let word = match self.memory.fetch(Order::Little, self.pc) {
            Err(kind) => return Event::Fault(kind),
            Ok(word) => word,
        };
        let Some(insn) = self.instruction(word) else {
            return Event::Fault(FaultKind::Illegal);
        };
        if is_hazard(&insn, self.in_slot, self.loaded, self.wait) {
            return Event::Fault(FaultKind::Hazard);
        }
        self.act(&insn)
    }

    /// The number in 1, 2 or 4 bytes at an address, or Outside exactly where they are not all in a
    /// region or the address is not a multiple of their count.
    pub fn read(&self, at: u32, width: u8) -> Result<u32, Outside>
        requires { (width ≡ 1) ⊎ ((width ≡ 2) ⊎ (width ≡ 4)) }
        ensures value { result ≡ read_of (order_of self.now) self.now.memory at width }
        ensures order { order_of self.now ≡ Little }
    {
        self.memory.read(Order::Little, at, width_from(width))
    }

    /// Writes the lowest 1, 2 or 4 bytes of a number at an address, or nothing where that is Outside.
    pub fn write(&mut self, at: u32, width: u8, value: u32) -> Result<(), Outside>
        requires { (width ≡ 1) ⊎ ((width ≡ 2) ⊎ (width ≡ 4)) }
        ensures { with_memory (write_of (order_of self.old) self.old.memory at width value) self.old ≡ (is_ok result, self.new) }
    {
        self.memory
            .write(Order::Little, at, width_from(width), value)
    }

    /// Appends input, if it is at most 16,777,216 bytes in all; else nothing is appended.
    pub fn give(&mut self, bytes: &[u8]) -> bool
        ensures { given_input bytes.now self.old ≡ (result, self.new) }
    {
        if bytes.len() > INPUT_SIZE - self.input.len() {
            return false;
        }
        self.input.extend_from_slice(bytes).is_ok()
    }

    /// Takes the byte that the last step put.
    pub fn written(&mut self) -> Option<u8>
        ensures byte { result ≡ self.old.put }
        ensures taken { self.new ≡ record self.old { put = None } }
    {
        self.put.take()
    }

    /// The argument of the last request, which stands in `$4`.
    pub fn argument(&self) -> u32
        ensures { result ≡ register self.now 4 }
    {
        self.registers[4]
    }

    /// Saves the registers in the context block. There are no windows to flush, so this is done always.
    #[tactic(auto, unfolding(mips_isa::specs::Loaded::saved_state))]
    pub fn save(&mut self) -> Result<(), WindowFault>
        ensures { mips_behaviour.saved self.old ≡ (is_ok result, self.new) }
    {
        let mut words = [0; CONTEXT_WORDS];
        words[..32].copy_from_slice(&self.registers);
        words[32] = self.hi;
        words[33] = self.lo;
        words[34] = self.pc;
        words[35] = self.next_pc;
        self.memory.save(Order::Little, &words);
        Ok(())
    }

    /// Takes the registers from the context block, but for `$0`.
    #[tactic(auto, unfolding(mips_isa::specs::Loaded::restored_state))]
    pub fn restore(&mut self)
        ensures { self.new ≡ restored_state self.old }
    {
        let words = self.memory.saved(Order::Little);
        if words[34] != self.pc || words[35] != self.next_pc {
            self.in_slot = false;
            self.loaded = 0;
            self.wait = 0;
        }
        self.registers.copy_from_slice(&words[..32]);
        self.registers[0] = 0;
        self.hi = words[32];
        self.lo = words[33];
        self.pc = words[34];
        self.next_pc = words[35];
    }
}
