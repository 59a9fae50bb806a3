// The machine and its steps.

mod context;

ghost use Rattle.std.specs.Prelude.{◌≡◌, ◌<◌, ◌*◌, ◌⊎◌, is_ok, IfOk};

use crate::windows::{REGISTERS, place_of, window_above, window_below, window_place};
use ldb_words::{Event, FaultKind, Order, Outside, extend_byte, extend_half, product_signed};
use machine_state::{FIRST_STACK_POINTER, Memory, SPARC, Width, width_from};
use obj_file::Image;
use sparc_isa::{
    Condition, Decoded, Displacement22, Displacement30, Insn, Operand, Register, ShiftOperand,
    TrapOperand, is_hazard, quotient_signed, quotient_unsigned, subtraction_codes,
};
use std::alloc::{AllocError, Global};
use std::marker::Model;

/// How many bytes of input a machine takes in all.
const INPUT_SIZE: usize = 0x0100_0000;

/// How many slots there are for decoded words.
const SLOTS: usize = 4096;

/// Slots for decoded words, which hold zeros at first.
fn decoded_zeros(alloc: Global) -> Result<Vec<Decoded>, AllocError> {
    let mut slots = Vec::with_capacity(alloc, SLOTS)?;
    for _slot in 0..SLOTS {
        slots.push(Decoded::new(0))?;
    }
    Ok(slots)
}

/// A SPARC V8 with its windows, memory, input and output.
#[derive(Drop)]
pub struct Machine {
    registers: [u32; REGISTERS],
    y: u32,
    codes: u8,
    current: u8,
    invalid: u8,
    pc: u32,
    next_pc: u32,
    in_slot: bool,
    wait: u8,
    memory: Memory,
    input: Vec<u8>,
    taken: usize,
    put: Option<u8>,
    slots: Vec<Decoded>,
}

impl Model for Machine {
    ghost use Rattle.std.specs.Prelude.{◌≡◌, ◌<◌, ◌≤◌, [], ◌∷◌, ◌^◌, drop, length, slice_index, vec_len, vec_capacity};
    ghost use Rattle.machine_state.specs.declared.layout.TheConstants.{SPARC};
    ghost use Rattle.machine_state.specs.State.{MachineState};

    ghost Value = { MachineState };

    ghost view = { λ m. record {
      target = SPARC;
      registers = m.registers;
      special = m.y ∷ m.codes ∷ m.current ∷ m.invalid ∷ [];
      pc = m.pc;
      next_pc = m.next_pc;
      facts = record { in_slot = m.in_slot; loaded = 0; wait = m.wait };
      memory = m.memory;
      left = drop m.taken m.input.items;
      given = vec_len m.input;
      put = m.put;
    } };

    ghost invariant = { λ m. (m.current < 8) × (m.invalid < 8) × (slice_index m.registers 0 ≡ 0) × (m.taken ≤ vec_len m.input) × (vec_len m.input ≤ 2 ^ 24) × (2 ^ 24 ≤ vec_capacity m.input) };
}

impl Machine {
    ghost use Rattle.ldb_words.specs.Word.{product_signed};
    ghost use Rattle.machine_state.specs.declared.layout.TheConstants.{SPARC};
    ghost use Rattle.machine_state.specs.State.{order_of, with_memory, given_input};
    ghost use Rattle.machine_state.specs.Widths.{width_of};
    ghost use Rattle.machine_state.specs.Regions.{load_of, store_of, read_of, write_of};
    ghost use Rattle.ldb_words.specs.declared.kinds.Order.TheVariants.{Big};
    ghost use Rattle.sparc_isa.specs.Arithmetic.{quotient_unsigned, quotient_signed};
    ghost use Rattle.sparc_isa.specs.Codec.{insn_of};
    ghost use Rattle.sparc_isa.specs.Loaded.{first_state};
    ghost use Rattle.machine_state.specs.Step.{moved, jumps, sign_loaded, stores, reads_input};
    ghost use Rattle.sparc_isa.specs.Step.{value, distance, trap_number, address, dividend, writes, multiplies, divides, subtracts, writes_y, skips, branches, calls, jumps_linked, loads, saves, restores, traps, traps_if, act, step_of};
    ghost use Rattle.sparc_isa.specs.Windows.{register, with_register, window_words, spills, fills};

    /// The machine at the start of an image for SPARC.
    #[tactic(auto, unfolding(sparc_isa::specs::Loaded::first_state, sparc_isa::specs::Windows::place_of))]
    pub fn new(alloc: Global, image: &Image) -> Result<Machine, AllocError>
        requires { image.now.target ≡ SPARC }
        ensures { IfOk result (λ m. m ≡ first_state image.now.entry image.now.text image.now.statics) }
    {
        let memory = Memory::new(alloc, image.text(), image.statics())?;
        let input = Vec::with_capacity(alloc, INPUT_SIZE)?;
        let slots = decoded_zeros(alloc)?;
        let mut registers = [0; REGISTERS];
        registers[134] = FIRST_STACK_POINTER;
        let entry = image.entry();
        Ok(Machine {
            registers,
            y: 0,
            codes: 0,
            current: 0,
            invalid: 1,
            pc: entry,
            next_pc: entry.wrapping_add(4),
            in_slot: false,
            wait: 0,
            memory,
            input,
            taken: 0,
            put: None,
            slots,
        })
    }

    /// The target byte of this machine, which is always that of the SPARC.
    pub fn target(&self) -> u8
        ensures target { result ≡ self.now.target }
        ensures sparc { result ≡ SPARC }
    {
        let _machine = &self.registers;
        SPARC
    }

    // ---- registers and operands

    /// What a register of the current window holds.
    #[inline(always)]
    fn register(&self, at: Register) -> u32
        ensures { result ≡ register self.now at }
    {
        self.registers[place_of(self.current, at.number())]
    }

    /// Leaves a value in a register of the current window, but for `%g0`.
    #[tactic(auto, unfolding(sparc_isa::specs::Windows::with_register))]
    #[inline(always)]
    fn set_register(&mut self, at: Register, value: u32)
        ensures { self.new ≡ with_register at value self.old }
    {
        let number = at.number();
        if number != 0 {
            self.registers[place_of(self.current, number)] = value;
        }
    }

    /// A register, or an immediate extended by its sign.
    #[inline(always)]
    fn value(&self, operand: &Operand) -> u32
        ensures { result ≡ value self.now operand.now }
    {
        match operand {
            Operand::Register(at) => self.register(*at),
            Operand::Immediate(immediate) => immediate.extended(),
        }
    }

    /// How far to shift.
    #[inline(always)]
    fn distance(&self, count: &ShiftOperand) -> u32
        ensures value { result ≡ distance self.now count.now }
        ensures in_range { result < 32 }
    {
        match count {
            ShiftOperand::Register(at) => self.register(*at) % 32,
            ShiftOperand::Immediate(immediate) => u32::from(immediate.bits()),
        }
    }

    /// The number of a trap.
    #[inline(always)]
    fn trap_number(&self, rs1: Register, operand: &TrapOperand) -> u32
        ensures { result ≡ trap_number self.now rs1 operand.now }
    {
        let value = match operand {
            TrapOperand::Register(at) => self.register(*at),
            TrapOperand::Immediate(number) => u32::from(number.bits()),
        };
        self.register(rs1).wrapping_add(value) % 128
    }

    /// The address of a load, a store or a jump.
    #[inline(always)]
    fn address(&self, rs1: Register, operand: &Operand) -> u32
        ensures { result ≡ address self.now rs1 operand.now }
    {
        self.register(rs1).wrapping_add(self.value(operand))
    }

    /// Y and a register, as 64 bits.
    #[inline(always)]
    fn dividend(&self, rs1: Register) -> u64
        ensures { result ≡ dividend self.now rs1 }
    {
        (u64::from(self.y) << 32) + u64::from(self.register(rs1))
    }

    // ---- going on

    /// Goes on to the next instruction.
    #[tactic(auto, unfolding(machine_state::specs::Step::moved))]
    #[inline(always)]
    fn advance(&mut self)
        ensures { self.new ≡ moved self.old }
    {
        self.pc = self.next_pc;
        self.next_pc = self.next_pc.wrapping_add(4);
        self.in_slot = false;
        self.wait = self.wait.saturating_sub(1);
        self.put = None;
    }

    /// Leaves a value in a register and goes on.
    #[tactic(auto, unfolding(sparc_isa::specs::Step::writes))]
    #[inline(always)]
    fn write_register(&mut self, rd: Register, value: u32) -> Event
        ensures { writes rd value self.old ≡ (result, self.new) }
    {
        self.advance();
        self.set_register(rd, value);
        Event::Went
    }

    /// Leaves the low word of a product in a register and the high word in Y.
    #[tactic(auto, unfolding(sparc_isa::specs::Step::multiplies, sparc_isa::specs::Windows::with_y))]
    fn multiply(&mut self, rd: Register, product: u64) -> Event
        ensures { multiplies rd product self.old ≡ (result, self.new) }
    {
        self.advance();
        self.set_register(rd, (product & 0xffff_ffff) as u32);
        self.y = (product >> 32) as u32;
        Event::Went
    }

    /// The product of two words as numbers without a sign.
    fn multiply_unsigned(&mut self, rd: Register, a: u32, b: u32) -> Event
        ensures { multiplies rd (a * b) self.old ≡ (result, self.new) }
    {
        self.multiply(rd, u64::from(a) * u64::from(b))
    }

    /// The product of two words as numbers with a sign.
    fn multiply_signed(&mut self, rd: Register, a: u32, b: u32) -> Event
        ensures { multiplies rd (product_signed a b) self.old ≡ (result, self.new) }
    {
        self.multiply(rd, product_signed(a, b))
    }

    /// Leaves a quotient without a sign in a register.
    #[tactic(auto, unfolding(sparc_isa::specs::Step::divides))]
    fn divide_unsigned(&mut self, rd: Register, dividend: u64, divisor: u32) -> Event
        ensures { divides rd divisor (quotient_unsigned dividend divisor) self.old ≡ (result, self.new) }
    {
        if divisor == 0 {
            Event::Fault(FaultKind::Division)
        } else {
            self.write_register(rd, quotient_unsigned(dividend, divisor))
        }
    }

    /// Leaves a quotient with a sign in a register.
    #[tactic(auto, unfolding(sparc_isa::specs::Step::divides))]
    fn divide_signed(&mut self, rd: Register, dividend: u64, divisor: u32) -> Event
        ensures { divides rd divisor (quotient_signed dividend divisor) self.old ≡ (result, self.new) }
    {
        if divisor == 0 {
            Event::Fault(FaultKind::Division)
        } else {
            self.write_register(rd, quotient_signed(dividend, divisor))
        }
    }

    /// Leaves a difference in a register, and its codes.
    #[tactic(auto, unfolding(sparc_isa::specs::Step::subtracts, sparc_isa::specs::Windows::with_codes))]
    #[inline(always)]
    fn subtract(&mut self, rd: Register, a: u32, b: u32) -> Event
        ensures { subtracts rd a b self.old ≡ (result, self.new) }
    {
        self.advance();
        self.set_register(rd, a.wrapping_sub(b));
        self.codes = subtraction_codes(a, b);
        Event::Went
    }

    /// Writes Y, which the next three instructions may not read.
    #[tactic(auto, unfolding(sparc_isa::specs::Step::writes_y, sparc_isa::specs::Windows::with_y))]
    fn write_y(&mut self, value: u32) -> Event
        ensures { writes_y value self.old ≡ (result, self.new) }
    {
        self.advance();
        self.y = value;
        self.wait = 3;
        Event::Went
    }

    // ---- control transfers

    /// Goes to a target after the delay slot, in which the machine stands.
    #[tactic(auto, unfolding(machine_state::specs::Step::jumps))]
    #[inline(always)]
    fn jump(&mut self, target: u32) -> Event
        ensures { jumps target self.old ≡ (result, self.new) }
    {
        self.next_pc = target;
        self.in_slot = true;
        Event::Went
    }

    /// Goes to a target and skips the delay slot.
    #[tactic(auto, unfolding(sparc_isa::specs::Step::skips))]
    #[inline(always)]
    fn skip(&mut self, target: u32) -> Event
        ensures { skips target self.old ≡ (result, self.new) }
    {
        self.pc = target;
        self.next_pc = target.wrapping_add(4);
        Event::Went
    }

    /// Goes by a number of words, if the condition holds; the annul bit may skip the delay slot.
    #[tactic(auto, unfolding(sparc_isa::specs::Step::branches))]
    #[inline(always)]
    fn branch(&mut self, annul: bool, condition: Condition, displacement: Displacement22) -> Event
        ensures { branches annul condition displacement self.old ≡ (result, self.new) }
    {
        let taken = condition.holds(self.codes);
        let target = if taken {
            self.pc.wrapping_add(displacement.bytes())
        } else {
            self.next_pc.wrapping_add(4)
        };
        let annulled = annul && !(condition.is_conditional() && taken);
        self.advance();
        if annulled {
            self.skip(target)
        } else {
            self.jump(target)
        }
    }

    /// Goes by a number of words after the delay slot, and leaves the address of the call in `%o7`.
    #[tactic(auto, unfolding(sparc_isa::specs::Step::calls))]
    fn call(&mut self, displacement: Displacement30) -> Event
        ensures { calls displacement self.old ≡ (result, self.new) }
    {
        let from = self.pc;
        let target = from.wrapping_add(displacement.bytes());
        self.advance();
        self.set_register(Register::new(15), from);
        self.jump(target)
    }

    /// Goes to an address after the delay slot, and leaves the address of the jump in a register.
    #[tactic(auto, unfolding(sparc_isa::specs::Step::jumps_linked))]
    fn jump_linked(&mut self, rd: Register, target: u32) -> Event
        ensures { jumps_linked rd target self.old ≡ (result, self.new) }
    {
        let from = self.pc;
        self.advance();
        self.set_register(rd, from);
        self.jump(target)
    }

    // ---- memory

    /// Leaves what was loaded in a register.
    #[inline(always)]
    fn finish_load(&mut self, rd: Register, outcome: Result<u32, FaultKind>) -> Event
        ensures { loads rd outcome self.old ≡ (result, self.new) }
    {
        match outcome {
            Err(kind) => Event::Fault(kind),
            Ok(value) => self.write_register(rd, value),
        }
    }

    /// Loads a number without a sign.
    #[inline(always)]
    fn load(&mut self, rd: Register, at: u32, width: Width) -> Event
        ensures { loads rd (load_of Big self.old.memory at (width_of width)) self.old ≡ (result, self.new) }
    {
        let loaded = self.memory.load(Order::Big, at, width);
        self.finish_load(rd, loaded)
    }

    /// Loads a byte with its sign.
    fn load_signed_byte(&mut self, rd: Register, at: u32) -> Event
        ensures { loads rd (sign_loaded 8 (load_of Big self.old.memory at 1)) self.old ≡ (result, self.new) }
    {
        let loaded = match self.memory.load(Order::Big, at, Width::Byte) {
            Err(kind) => Err(kind),
            Ok(value) => Ok(extend_byte(value)),
        };
        self.finish_load(rd, loaded)
    }

    /// Loads a halfword with its sign.
    fn load_signed_half(&mut self, rd: Register, at: u32) -> Event
        ensures { loads rd (sign_loaded 16 (load_of Big self.old.memory at 2)) self.old ≡ (result, self.new) }
    {
        let loaded = match self.memory.load(Order::Big, at, Width::Half) {
            Err(kind) => Err(kind),
            Ok(value) => Ok(extend_half(value)),
        };
        self.finish_load(rd, loaded)
    }

    /// Stores the lowest bytes of a word.
    #[tactic(auto, unfolding(machine_state::specs::Step::stores))]
    #[inline(always)]
    fn store(&mut self, at: u32, width: Width, value: u32) -> Event
        ensures { stores (store_of Big self.old.memory at (width_of width) value) self.old ≡ (result, self.new) }
    {
        match self.memory.store(Order::Big, at, width, value) {
            Err(kind) => Event::Fault(kind),
            Ok(()) => {
                self.advance();
                Event::Went
            }
        }
    }

    // ---- windows

    /// The locals and ins of a window.
    fn window(&self, window: u8) -> [u32; 16]
        requires { window < 8 }
        ensures { result ≡ window_words self.now.registers window }
    {
        let start = window_place(window);
        let mut words = [0; 16];
        words.copy_from_slice(&self.registers[start..start + 16]);
        words
    }

    /// Stores a window at its own stack pointer, whose WIM bit is then set.
    #[tactic(auto, unfolding(sparc_isa::specs::Windows::spills, sparc_isa::specs::Windows::with_invalid))]
    fn spill(&mut self, window: u8) -> Event
        requires { window < 8 }
        ensures { spills window self.old ≡ (result, self.new) }
    {
        let words = self.window(window);
        let at = self.registers[place_of(window, 14)];
        match self.memory.store_words(Order::Big, at, &words) {
            Err(_) => Event::Fault(FaultKind::Window),
            Ok(()) => {
                self.put = None;
                self.invalid = window;
                Event::Went
            }
        }
    }

    /// Loads a window from where the current `%i6` points to; the window above it then has the WIM bit.
    #[tactic(auto, unfolding(sparc_isa::specs::Windows::fills, sparc_isa::specs::Windows::with_invalid, machine_state::specs::Regions::overwritten))]
    fn fill(&mut self, window: u8) -> Event
        requires { window < 8 }
        ensures { fills window self.old ≡ (result, self.new) }
    {
        let at = self.register(Register::new(30));
        let mut words = [0; 16];
        match self.memory.load_words(Order::Big, at, &mut words) {
            Err(_) => Event::Fault(FaultKind::Window),
            Ok(()) => {
                let start = window_place(window);
                self.registers[start..start + 16].copy_from_slice(&words);
                self.put = None;
                self.invalid = window_above(window);
                Event::Went
            }
        }
    }

    /// Goes to the window below and leaves a value in its register, or spills the oldest window.
    #[tactic(auto, unfolding(sparc_isa::specs::Step::saves, sparc_isa::specs::Windows::with_current))]
    fn save_window(&mut self, rd: Register, value: u32) -> Event
        ensures { saves rd value self.old ≡ (result, self.new) }
    {
        let window = window_below(self.current);
        if window == self.invalid {
            return self.spill(window_below(window));
        }
        self.advance();
        self.current = window;
        self.set_register(rd, value);
        Event::Went
    }

    /// Goes to the window above and leaves a value in its register, or fills that window.
    #[tactic(auto, unfolding(sparc_isa::specs::Step::restores, sparc_isa::specs::Windows::with_current))]
    fn restore_window(&mut self, rd: Register, value: u32) -> Event
        ensures { restores rd value self.old ≡ (result, self.new) }
    {
        let window = window_above(self.current);
        if window == self.invalid {
            return self.fill(window);
        }
        self.advance();
        self.current = window;
        self.set_register(rd, value);
        Event::Went
    }

    // ---- traps

    /// The next byte of the input in `%o0`, or -1 at the end.
    #[tactic(auto, unfolding(machine_state::specs::Step::reads_input))]
    fn read_input(&mut self)
        ensures { self.new ≡ reads_input (with_register 8) self.old }
    {
        let first_out = Register::new(8);
        if self.taken < self.input.len() {
            let byte = self.input[self.taken];
            self.taken += 1;
            self.set_register(first_out, u32::from(byte));
        } else {
            self.set_register(first_out, 0xffff_ffff);
        }
    }

    /// Does what a trap's number asks for.
    #[tactic(auto, unfolding(sparc_isa::specs::Step::traps, machine_state::specs::Step::requests, machine_state::specs::Step::puts))]
    fn trap(&mut self, number: u32) -> Event
        ensures { traps number self.old ≡ (result, self.new) }
    {
        match number {
            1 => Event::Break,
            17 => {
                self.advance();
                self.read_input();
                Event::Request(1)
            }
            18 => {
                let first_out = Register::new(8);
                let byte = (self.register(first_out) & 0xff) as u8;
                self.advance();
                self.set_register(first_out, u32::from(byte));
                self.put = Some(byte);
                Event::Request(2)
            }
            19..=21 => {
                self.advance();
                Event::Request((number - 16) as u8)
            }
            _ => Event::Fault(FaultKind::Request),
        }
    }

    /// Traps, or goes on where the trap's condition does not hold.
    #[tactic(auto, unfolding(sparc_isa::specs::Step::traps_if))]
    fn trap_if(&mut self, holds: bool, number: u32) -> Event
        ensures { traps_if holds number self.old ≡ (result, self.new) }
    {
        if holds {
            self.trap(number)
        } else {
            self.advance();
            Event::Went
        }
    }

    // ---- the step

    /// What an instruction does.
    #[tactic(auto, unfolding(sparc_isa::specs::Step::act))]
    #[inline(always)]
    fn act(&mut self, insn: &Insn) -> Event
        ensures { act insn.now self.old ≡ (result, self.new) }
    {
        match insn {
            Insn::Call { displacement } => self.call(*displacement),
            Insn::Bicc {
                annul,
                condition,
                displacement,
            } => self.branch(*annul, *condition, *displacement),
            Insn::Sethi { rd, immediate } => self.write_register(*rd, immediate.bits() << 10),
            Insn::Add { rd, rs1, operand } => self.write_register(
                *rd,
                self.register(*rs1).wrapping_add(self.value(operand)),
            ),
            Insn::And { rd, rs1, operand } => self.write_register(
                *rd,
                self.register(*rs1) & self.value(operand),
            ),
            Insn::Or { rd, rs1, operand } => self.write_register(
                *rd,
                self.register(*rs1) | self.value(operand),
            ),
            Insn::Xor { rd, rs1, operand } => self.write_register(
                *rd,
                self.register(*rs1) ^ self.value(operand),
            ),
            Insn::Sub { rd, rs1, operand } => self.write_register(
                *rd,
                self.register(*rs1).wrapping_sub(self.value(operand)),
            ),
            Insn::Andn { rd, rs1, operand } => self.write_register(
                *rd,
                self.register(*rs1) & !self.value(operand),
            ),
            Insn::Orn { rd, rs1, operand } => self.write_register(
                *rd,
                self.register(*rs1) | !self.value(operand),
            ),
            Insn::Xnor { rd, rs1, operand } => self.write_register(
                *rd,
                !(self.register(*rs1) ^ self.value(operand)),
            ),
            Insn::Umul { rd, rs1, operand } => self.multiply_unsigned(
                *rd,
                self.register(*rs1),
                self.value(operand),
            ),
            Insn::Smul { rd, rs1, operand } => self.multiply_signed(
                *rd,
                self.register(*rs1),
                self.value(operand),
            ),
            Insn::Udiv { rd, rs1, operand } => self.divide_unsigned(
                *rd,
                self.dividend(*rs1),
                self.value(operand),
            ),
            Insn::Sdiv { rd, rs1, operand } => self.divide_signed(
                *rd,
                self.dividend(*rs1),
                self.value(operand),
            ),
            Insn::Subcc { rd, rs1, operand } => self.subtract(
                *rd,
                self.register(*rs1),
                self.value(operand),
            ),
            Insn::Sll { rd, rs1, count } => self.write_register(
                *rd,
                self.register(*rs1) << self.distance(count),
            ),
            Insn::Srl { rd, rs1, count } => self.write_register(
                *rd,
                self.register(*rs1) >> self.distance(count),
            ),
            Insn::Sra { rd, rs1, count } => self.write_register(
                *rd,
                (self.register(*rs1).cast_signed() >> self.distance(count)).cast_unsigned(),
            ),
            Insn::Rdy { rd } => self.write_register(*rd, self.y),
            Insn::Wry { rs1, operand } => self.write_y(self.register(*rs1) ^ self.value(operand)),
            Insn::Jmpl { rd, rs1, operand } => self.jump_linked(*rd, self.address(*rs1, operand)),
            Insn::Ticc {
                condition,
                rs1,
                operand,
            } => self.trap_if(condition.holds(self.codes), self.trap_number(*rs1, operand)),
            Insn::Save { rd, rs1, operand } => self.save_window(*rd, self.address(*rs1, operand)),
            Insn::Restore { rd, rs1, operand } => self.restore_window(
                *rd,
                self.address(*rs1, operand),
            ),
            Insn::Ld { rd, rs1, operand } => self.load(
                *rd,
                self.address(*rs1, operand),
                Width::Word,
            ),
            Insn::Ldub { rd, rs1, operand } => self.load(
                *rd,
                self.address(*rs1, operand),
                Width::Byte,
            ),
            Insn::Lduh { rd, rs1, operand } => self.load(
                *rd,
                self.address(*rs1, operand),
                Width::Half,
            ),
            Insn::St { rd, rs1, operand } => self.store(
                self.address(*rs1, operand),
                Width::Word,
                self.register(*rd),
            ),
            Insn::Stb { rd, rs1, operand } => self.store(
                self.address(*rs1, operand),
                Width::Byte,
                self.register(*rd),
            ),
            Insn::Sth { rd, rs1, operand } => self.store(
                self.address(*rs1, operand),
                Width::Half,
                self.register(*rd),
            ),
            Insn::Ldsb { rd, rs1, operand } => self.load_signed_byte(
                *rd,
                self.address(*rs1, operand),
            ),
            Insn::Ldsh { rd, rs1, operand } => self.load_signed_half(
                *rd,
                self.address(*rs1, operand),
            ),
        }
    }

    /// The instruction of a word, taken from the slot of pc where that holds it.
    #[inline(always)]
    fn instruction(&mut self, word: u32) -> Option<Insn>
        ensures insn { result ≡ insn_of word }
        ensures kept { self.new ≡ self.old }
    {
        let at = (self.pc >> 2 & 0xfff) as usize;
        if let Some(slot) = self.slots.get(at) {
            if slot.word() == word {
                return slot.insn();
            }
        }
        let fresh = Decoded::new(word);
        let insn = fresh.insn();
        if let Some(slot) = self.slots.get_mut(at) {
            *slot = fresh;
        }
        insn
    }

    /// One step: the fault of pc, no such word, a hazard, and then what the instruction does.
    #[tactic(auto, unfolding(sparc_isa::specs::Step::step_of))]
    #[inline(always)]
    pub fn step(&mut self) -> Event
        ensures { step_of self.old ≡ (result, self.new) }
    {
        let word = match self.memory.fetch(Order::Big, self.pc) {
            Err(kind) => return Event::Fault(kind),
            Ok(word) => word,
        };
        let Some(insn) = self.instruction(word) else {
            return Event::Fault(FaultKind::Illegal);
        };
        if is_hazard(&insn, self.in_slot, self.wait) {
            return Event::Fault(FaultKind::Hazard);
        }
        self.act(&insn)
    }

    // ---- memory, input and output from outside

    /// The number at an address, in any region.
    pub fn read(&self, at: u32, width: u8) -> Result<u32, Outside>
        requires { (width ≡ 1) ⊎ ((width ≡ 2) ⊎ (width ≡ 4)) }
        ensures { result ≡ read_of (order_of self.now) self.now.memory at width }
    {
        self.memory.read(Order::Big, at, width_from(width))
    }

    /// Writes the lowest bytes of a number at an address, in any region.
    pub fn write(&mut self, at: u32, width: u8, value: u32) -> Result<(), Outside>
        requires { (width ≡ 1) ⊎ ((width ≡ 2) ⊎ (width ≡ 4)) }
        ensures { with_memory (write_of (order_of self.old) self.old.memory at width value) self.old ≡ (is_ok result, self.new) }
    {
        self.memory.write(Order::Big, at, width_from(width), value)
    }

    /// Appends input, if it is at most 16,777,216 bytes in all; else nothing is appended.
    pub fn give(&mut self, bytes: &[u8]) -> bool
        ensures { given_input bytes.now self.old ≡ (result, self.new) }
    {
        if bytes.len() > INPUT_SIZE - self.input.len() {
            return false;
        }
        self.input.extend_from_slice(bytes).is_ok()
    }

    /// Takes the byte that the last step put.
    pub fn written(&mut self) -> Option<u8>
        ensures byte { result ≡ self.old.put }
        ensures taken { self.new ≡ record self.old { put = None } }
    {
        self.put.take()
    }

    /// The argument of the last request, in `%o0`.
    pub fn argument(&self) -> u32
        ensures { result ≡ register self.now 8 }
    {
        self.register(Register::new(8))
    }
}
