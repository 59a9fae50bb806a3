// The flush of the windows, and the context block.

ghost use Rattle.std.specs.Prelude.{◌≡◌, ◌<◌, is_ok, length, take, true, false, OnOk, OnErr};

use crate::machine::Machine;
use crate::windows::{place_of, window_above, window_below, window_place};
use ldb_words::{Order, WindowFault};
use machine_state::CONTEXT_WORDS;
use sparc_isa::Register;

impl Machine {
    ghost use Rattle.machine_state.specs.State.{kept_facts};
    ghost use Rattle.sparc_isa.specs.Loaded.{outs, status_word, block_of, saved_state, restored_from, restored_state};
    ghost use Rattle.sparc_isa.specs.Windows.{with_registers, stored_window, stored_windows, can_store_windows, flush_of};

    /// Whether so many windows, from one on upwards, can each be stored at its own stack pointer.
    #[tactic(auto, using(crate::proofs::Context::can_store_more))]
    fn can_store(&self, count: u8, first: u8) -> bool
        requires { first < 8 }
        ensures { result ≡ can_store_windows count first self.now.registers self.now.memory }
    {
        let mut words = [0; 16];
        let mut window = first;
        for _stored in 0..count {
            let at = self.registers[place_of(window, 14)];
            if self.memory.load_words(Order::Big, at, &mut words).is_err() {
                return false;
            }
            window = window_above(window);
        }
        true
    }

    /// Stores a window at its own stack pointer.
    fn store_window(&mut self, window: u8) -> Result<(), WindowFault>
        requires { window < 8 }
        ensures ok { OnOk result (stored_window window self.old.registers self.old.memory ≡ Ok self.new.memory) }
        ensures err { OnErr result (is_ok (stored_window window self.old.registers self.old.memory) ≡ false) }
        ensures only_memory { self.new ≡ record self.old { memory = self.new.memory } }
    {
        let words = self.window(window);
        let at = self.registers[place_of(window, 14)];
        match self.memory.store_words(Order::Big, at, &words) {
            Err(_) => Err(WindowFault),
            Ok(()) => Ok(()),
        }
    }

    /// Stores so many windows, from one on upwards, each at its own stack pointer.
    #[tactic(auto, using(crate::proofs::Context::stored_more))]
    fn store_windows(&mut self, count: u8, first: u8)
        requires fits { first < 8 }
        requires stored { is_ok (stored_windows count first self.old.registers self.old.memory) ≡ true }
        ensures all { stored_windows count first self.old.registers self.old.memory ≡ Ok self.new.memory }
        ensures only_memory { self.new ≡ record self.old { memory = self.new.memory } }
    {
        let mut window = first;
        for _stored in 0..count {
            if self.store_window(window).is_err() {
                unreachable!();
            }
            window = window_above(window);
        }
    }

    /// Stores each valid window but the current one at its own stack pointer, from the nearest caller on,
    /// and leaves the WIM bit at the window above the current one. Where one cannot be stored it is a
    /// fault, and nothing is changed.
    #[tactic(auto, unfolding(sparc_isa::specs::Windows::flush_of, sparc_isa::specs::Windows::callers, sparc_isa::specs::Windows::with_invalid))]
    pub fn flush_windows(&mut self) -> Result<(), WindowFault>
        ensures { flush_of self.old ≡ (is_ok result, self.new) }
    {
        let callers = (self.invalid + 7 - self.current) % 8;
        let first = window_above(self.current);
        if !self.can_store(callers, first) {
            return Err(WindowFault);
        }
        self.store_windows(callers, first);
        self.invalid = first;
        Ok(())
    }

    /// The globals.
    fn globals(&self) -> [u32; 8]
        ensures { result ≡ take 8 self.now.registers }
    {
        let mut words = [0; 8];
        words.copy_from_slice(&self.registers[..8]);
        words
    }

    /// The outs of the current window.
    fn outs(&self) -> [u32; 8]
        ensures { result ≡ outs self.now }
    {
        let start = window_place(window_below(self.current)) + 8;
        let mut words = [0; 8];
        words.copy_from_slice(&self.registers[start..start + 8]);
        words
    }

    /// The condition codes and the current window's number.
    fn status_word(&self) -> u32
        ensures { result ≡ status_word self.now }
    {
        (u32::from(self.codes) << 20) + u32::from(self.current)
    }

    /// The words of the context block.
    #[tactic(auto, using(crate::proofs::Context::block_words), unfolding(sparc_isa::specs::Loaded::block_of))]
    fn block(&self) -> [u32; CONTEXT_WORDS]
        ensures { result ≡ block_of self.now }
    {
        let globals = self.globals();
        let outs = self.outs();
        let window = self.window(self.current);
        let status = self.status_word();
        let mut words = [0; CONTEXT_WORDS];
        words[..8].copy_from_slice(&globals);
        words[8..16].copy_from_slice(&outs);
        words[16..32].copy_from_slice(&window);
        words[32] = self.y;
        words[33] = status;
        words[34] = self.pc;
        words[35] = self.next_pc;
        words
    }

    /// Flushes the windows, and saves the registers in the context block, also where the flush is a fault.
    #[tactic(auto, unfolding(sparc_isa::specs::Loaded::saved_state, sparc_isa::specs::Loaded::with_block))]
    pub fn save(&mut self) -> Result<(), WindowFault>
        ensures { saved_state self.old ≡ (is_ok result, self.new) }
    {
        let flushed = self.flush_windows();
        let words = self.block();
        self.memory.save(Order::Big, &words);
        flushed
    }

    /// Leaves values in the registers of the current window.
    #[tactic(auto, using(crate::proofs::Context::register_more))]
    fn set_registers(&mut self, words: &[u32])
        requires { length words.now ≡ 32 }
        ensures { self.new ≡ with_registers 0 words.now self.old }
    {
        for (number, word) in words.iter().enumerate() {
            self.set_register(Register::new(number as u8), *word);
        }
    }

    /// Keeps what the steps before left, unless pc or next pc is changed to these.
    fn keep_facts(&mut self, pc: u32, next_pc: u32)
        ensures { self.new ≡ record self.old { facts = kept_facts pc next_pc self.old } }
    {
        if pc != self.pc || next_pc != self.next_pc {
            self.in_slot = false;
            self.wait = 0;
        }
    }

    /// Takes what stands behind the registers in the context block, but for the current window's number.
    fn set_special(&mut self, words: &[u32; CONTEXT_WORDS])
        ensures { self.new ≡ restored_from words.now self.old }
    {
        self.keep_facts(words[34], words[35]);
        self.y = words[32];
        self.codes = ((words[33] >> 20) % 16) as u8;
        self.pc = words[34];
        self.next_pc = words[35];
    }

    /// Takes the registers from the context block, but for the current window's number.
    #[tactic(auto, unfolding(sparc_isa::specs::Loaded::restored_state))]
    pub fn restore(&mut self)
        ensures { self.new ≡ restored_state self.old }
    {
        let words = self.memory.saved(Order::Big);
        self.set_registers(&words[..32]);
        self.set_special(&words);
    }
}
