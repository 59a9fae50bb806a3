// The four regions of a machine's memory.

ghost use Rattle.machine_state.specs.Regions.{zeros};
ghost use Rattle.std.specs.Prelude.{◌≡◌, ℕ, vec_len, ◌-◌, ◌++◌, ◌≤◌, ◌+◌, ◌<◌, ◌^◌, length, MatchOption, OnOk, OnErr, IfOk, IfErr};

use crate::layout::{
    CONTEXT, CONTEXT_SIZE, CONTEXT_WORDS, DATA, DATA_SIZE, STACK, STACK_SIZE, TEXT, Width,
    offset_in,
};
use crate::number::{number, read_words, write_number, write_words};
use ldb_words::{FaultKind, Order, Outside};
use std::alloc::{AllocError, Global};
use std::marker::Model;

/// The bytes of the four regions.
#[derive(Drop)]
pub struct Memory {
    text: Vec<u8>,
    data: Vec<u8>,
    stack: Vec<u8>,
    context: Vec<u8>,
}

impl Model for Memory {
    ghost use Rattle.std.specs.Prelude.{◌≡◌, vec_len};
    ghost use Rattle.machine_state.specs.Regions.{Regions};

    ghost Value = { Regions };

    ghost view = { λ m. record { text_bytes = m.text.items; data_bytes = m.data.items; stack_bytes = m.stack.items; context_bytes = m.context.items } };

    ghost invariant = { λ m. vec_len m.context ≡ 144 };
}

/// Some bytes, and zeros up to a size.
#[tactic(auto, unfolding(crate::specs::Regions::zeros))]
fn padded(alloc: Global, bytes: &[u8], size: usize) -> Result<Vec<u8>, AllocError>
    requires { length bytes.now ≤ size }
    ensures items { IfOk result (λ v. v.items ≡ bytes.now ++ zeros (size - length bytes.now)) }
    ensures len { IfOk result (λ v. vec_len v ≡ size) }
{
    let mut padded = Vec::from_slice(alloc, bytes)?;
    padded.resize(size, 0)?;
    Ok(padded)
}

impl Memory {
    ghost use Rattle.machine_state.specs.Regions.{first_regions, readable, held, fetch_of, load_of, store_of, read_of, write_of, saved_words, words_in, store_words_of, writable, load_words_of};
    ghost use Rattle.machine_state.specs.Widths.{width_of};

    /// The memory at the start: a text, the bytes that the data begin with, and zeros.
    #[tactic(auto, unfolding(crate::specs::Regions::first_regions))]
    pub fn new(alloc: Global, text: &[u8], statics: &[u8]) -> Result<Memory, AllocError>
        requires { length statics.now ≤ DATA_SIZE }
        ensures { IfOk result (λ m. m ≡ first_regions text.now statics.now) }
    {
        let text = Vec::from_slice(alloc, text)?;
        let data = padded(alloc, statics, DATA_SIZE)?;
        let stack = padded(alloc, &[], STACK_SIZE)?;
        let context = padded(alloc, &[], CONTEXT_SIZE)?;
        Ok(Memory {
            text,
            data,
            stack,
            context,
        })
    }

    /// The bytes from an address on, where the program may read `width` of them.
    #[tactic(auto, unfolding(crate::specs::Regions::readable))]
    fn readable(&self, at: u32, width: u32) -> Option<&[u8]>
        ensures bytes { MatchOption result (readable self.now at width ≡ None) (λ s. (readable self.now at width ≡ Some s.now) × (width ≤ length s.now)) }
    {
        if let Some(offset) = offset_in(TEXT, self.text.len(), at, width) {
            Some(&self.text[offset..])
        } else if let Some(offset) = offset_in(DATA, self.data.len(), at, width) {
            Some(&self.data[offset..])
        } else if let Some(offset) = offset_in(STACK, self.stack.len(), at, width) {
            Some(&self.stack[offset..])
        } else {
            None
        }
    }

    /// What a load of the program gives, or the fault that it meets.
    #[tactic(auto, unfolding(crate::specs::Regions::load_of))]
    pub fn load(&self, order: Order, at: u32, width: Width) -> Result<u32, FaultKind>
        ensures value { result ≡ load_of order self.now at (width_of width) }
        ensures fits { IfOk result (λ v. v < 256 ^ width_of width) }
    {
        match self.readable(at, width.bytes()) {
            None => Err(FaultKind::Outside),
            Some(bytes) => {
                if at % width.bytes() == 0 {
                    Ok(number(order, bytes, width))
                } else {
                    Err(FaultKind::Align)
                }
            }
        }
    }

    /// The word of an instruction, which stands in the text, or the fault of its address.
    #[tactic(auto, unfolding(crate::specs::Regions::fetch_of))]
    pub fn fetch(&self, order: Order, at: u32) -> Result<u32, FaultKind>
        ensures { result ≡ fetch_of order self.now at }
    {
        match offset_in(TEXT, self.text.len(), at, 4) {
            None => Err(FaultKind::Outside),
            Some(offset) => {
                if at % 4 == 0 {
                    Ok(number(order, &self.text[offset..], Width::Word))
                } else {
                    Err(FaultKind::Align)
                }
            }
        }
    }

    /// Does a store of the program, or says the fault that it meets.
    #[tactic(auto, unfolding(crate::specs::Regions::store_of, crate::specs::Regions::written, crate::specs::Regions::overwritten))]
    pub fn store(
        &mut self,
        order: Order,
        at: u32,
        width: Width,
        value: u32,
    ) -> Result<(), FaultKind>
        ensures ok { OnOk result (store_of order self.old at (width_of width) value ≡ Ok self.new) }
        ensures err { IfErr result (λ e. store_of order self.old at (width_of width) value ≡ Err e) }
        ensures unchanged { OnErr result (self.new ≡ self.old) }
    {
        if let Some(offset) = offset_in(DATA, self.data.len(), at, width.bytes()) {
            if at % width.bytes() != 0 {
                return Err(FaultKind::Align);
            }
            write_number(&mut self.data[offset..], order, width, value);
            Ok(())
        } else if let Some(offset) = offset_in(STACK, self.stack.len(), at, width.bytes()) {
            if at % width.bytes() != 0 {
                return Err(FaultKind::Align);
            }
            write_number(&mut self.stack[offset..], order, width, value);
            Ok(())
        } else {
            Err(FaultKind::Outside)
        }
    }

    /// The bytes from an address on, where a region has `width` of them.
    #[tactic(auto, unfolding(crate::specs::Regions::held))]
    fn held(&self, at: u32, width: u32) -> Option<&[u8]>
        ensures bytes { MatchOption result (held self.now at width ≡ None) (λ s. (held self.now at width ≡ Some s.now) × (width ≤ length s.now)) }
    {
        if let Some(bytes) = self.readable(at, width) {
            Some(bytes)
        } else if let Some(offset) = offset_in(CONTEXT, self.context.len(), at, width) {
            Some(&self.context[offset..])
        } else {
            None
        }
    }

    /// The number at an address, in any region.
    #[tactic(auto, unfolding(crate::specs::Regions::read_of))]
    pub fn read(&self, order: Order, at: u32, width: Width) -> Result<u32, Outside>
        ensures { result ≡ read_of order self.now at (width_of width) }
    {
        match self.held(at, width.bytes()) {
            None => Err(Outside),
            Some(bytes) => {
                if at % width.bytes() == 0 {
                    Ok(number(order, bytes, width))
                } else {
                    Err(Outside)
                }
            }
        }
    }

    /// Writes the lowest bytes of a number at an address, in any region.
    #[tactic(auto, unfolding(crate::specs::Regions::write_of, crate::specs::Regions::overlaid, crate::specs::Regions::overwritten))]
    pub fn write(&mut self, order: Order, at: u32, width: Width, value: u32) -> Result<(), Outside>
        ensures ok { OnOk result (write_of order self.old at (width_of width) value ≡ Ok self.new) }
        ensures err { IfErr result (λ e. write_of order self.old at (width_of width) value ≡ Err e) }
        ensures unchanged { OnErr result (self.new ≡ self.old) }
    {
        if let Some(offset) = offset_in(TEXT, self.text.len(), at, width.bytes()) {
            if at % width.bytes() != 0 {
                return Err(Outside);
            }
            write_number(&mut self.text[offset..], order, width, value);
            Ok(())
        } else if let Some(offset) = offset_in(DATA, self.data.len(), at, width.bytes()) {
            if at % width.bytes() != 0 {
                return Err(Outside);
            }
            write_number(&mut self.data[offset..], order, width, value);
            Ok(())
        } else if let Some(offset) = offset_in(STACK, self.stack.len(), at, width.bytes()) {
            if at % width.bytes() != 0 {
                return Err(Outside);
            }
            write_number(&mut self.stack[offset..], order, width, value);
            Ok(())
        } else if let Some(offset) = offset_in(CONTEXT, self.context.len(), at, width.bytes()) {
            if at % width.bytes() != 0 {
                return Err(Outside);
            }
            write_number(&mut self.context[offset..], order, width, value);
            Ok(())
        } else {
            Err(Outside)
        }
    }

    /// Writes the words of the context block.
    #[tactic(auto, unfolding(crate::specs::Regions::saved_words))]
    pub fn save(&mut self, order: Order, words: &[u32; CONTEXT_WORDS])
        ensures { self.new ≡ saved_words order words.now self.old }
    {
        write_words(&mut self.context[..], order, words);
    }

    /// The words of the context block.
    pub fn saved(&self, order: Order) -> [u32; CONTEXT_WORDS]
        ensures { result ≡ words_in order CONTEXT_WORDS self.now.context_bytes }
    {
        let mut words = [0; CONTEXT_WORDS];
        read_words(&self.context, order, &mut words);
        words
    }

    /// Stores words one after another where the program may write, as a spill does.
    #[tactic(auto, using(crate::proofs::Words::length_words_bytes), unfolding(crate::specs::Regions::store_words_of, crate::specs::Regions::written, crate::specs::Regions::overwritten))]
    pub fn store_words(&mut self, order: Order, at: u32, words: &[u32; 16]) -> Result<(), FaultKind>
        ensures ok { OnOk result (store_words_of order self.old at words.now ≡ Ok self.new) }
        ensures err { IfErr result (λ e. store_words_of order self.old at words.now ≡ Err e) }
        ensures unchanged { OnErr result (self.new ≡ self.old) }
    {
        if let Some(offset) = offset_in(DATA, self.data.len(), at, 64) {
            if at % 4 != 0 {
                return Err(FaultKind::Align);
            }
            write_words(&mut self.data[offset..], order, words);
            Ok(())
        } else if let Some(offset) = offset_in(STACK, self.stack.len(), at, 64) {
            if at % 4 != 0 {
                return Err(FaultKind::Align);
            }
            write_words(&mut self.stack[offset..], order, words);
            Ok(())
        } else {
            Err(FaultKind::Outside)
        }
    }

    /// The bytes from an address on, where the program may write `width` of them.
    #[tactic(auto, unfolding(crate::specs::Regions::writable))]
    fn writable(&self, at: u32, width: u32) -> Option<&[u8]>
        ensures bytes { MatchOption result (writable self.now at width ≡ None) (λ s. (writable self.now at width ≡ Some s.now) × (width ≤ length s.now)) }
    {
        if let Some(offset) = offset_in(DATA, self.data.len(), at, width) {
            Some(&self.data[offset..])
        } else if let Some(offset) = offset_in(STACK, self.stack.len(), at, width) {
            Some(&self.stack[offset..])
        } else {
            None
        }
    }

    /// Reads words one after another where the program may write, as a fill does; after a fault the
    /// words are as before.
    #[tactic(auto, unfolding(crate::specs::Regions::load_words_of))]
    pub fn load_words(&self, order: Order, at: u32, words: &mut [u32; 16]) -> Result<(), FaultKind>
        ensures ok { OnOk result (load_words_of order self.now at 16 ≡ Ok words.new) }
        ensures err { IfErr result (λ e. load_words_of order self.now at 16 ≡ Err e) }
        ensures unchanged { OnErr result (words.new ≡ words.old) }
    {
        match self.writable(at, 64) {
            None => Err(FaultKind::Outside),
            Some(bytes) => {
                if at % 4 != 0 {
                    return Err(FaultKind::Align);
                }
                read_words(bytes, order, words);
                Ok(())
            }
        }
    }
}
