//! The state of a run, and what all operators do to it.

ghost use Rattle.ps_store.specs.Store.{closed_part};
ghost use Rattle.std.specs.Prelude.{◌≡◌, [], IfOk, OnErr, reverse};
ghost use Rattle.ps_step.specs.State.{pushing, scheduling, calling};
ghost use Rattle.ps_step.specs.Effects.{Does};

use crate::fault::{PsError, PsFault};
use crate::item::Item;
use crate::stack::Stack;
use ps_store::{ArrayId, DictId, PsObj, PsStore};
use std::alloc::{AllocError, Global};

/// The most operands.
pub const MOST_OPERANDS: usize = 100_000;

/// The most items of the execution stack.
pub const MOST_ITEMS: usize = 1_000;

/// The most dictionaries on their stack.
pub const MOST_DICTIONARIES: usize = 64;

/// The state of a run: the store, the operands, the dictionaries in which names are looked up,
/// and what is still to be executed. Each stack has its topmost item last.
#[derive(Drop)]
pub struct PsCore {
    pub store: PsStore,
    pub operands: Stack<PsObj>,
    pub dictionaries: Stack<DictId>,
    pub execution: Stack<Item>,
}

impl PsCore {
    ghost use Rattle.ps_step.specs.declared.item.Item.TheVariants.{Object as Waiting};

    /// The state before a run: the store's base dictionaries, the last one topmost, and no operands.
    pub fn new(alloc: Global, store: PsStore) -> Result<PsCore, AllocError>
        ensures { IfOk result (λ core. core ≡ record { store = store; operands = []; dictionaries = reverse store.base; execution = [] }) }
    {
        let dictionaries = Stack::copy_of(alloc, store.base())?;
        Ok(PsCore {
            store,
            operands: Stack::new(alloc),
            dictionaries,
            execution: Stack::new(alloc),
        })
    }

    /// The store.
    pub fn into_store(self) -> PsStore
        ensures { result ≡ self.store }
    {
        self.store
    }

    /// Puts an object on the execution stack, so that it is executed next once the running operator has ended.
    /// execstackoverflow comes where 1,000 items stand there. An error and want of memory leave the state as it was.
    #[inline(always)]
    pub fn schedule(&mut self, what: PsObj) -> Result<(), PsFault>
        ensures does { Does result self.old self.new (scheduling (Waiting what) self.old) }
        ensures kept { OnErr result (self.new ≡ self.old) }
        ensures closed { closed_part self.new.store ≡ closed_part self.old.store }
    {
        self.schedule_item(Item::Object(what))
    }

    /// Puts an object on top of the operands.
    #[inline(always)]
    pub fn push(&mut self, x: PsObj) -> Result<(), PsFault>
        ensures does { Does result self.old self.new (pushing x self.old) }
        ensures kept { OnErr result (self.new ≡ self.old) }
        ensures closed { closed_part self.new.store ≡ closed_part self.old.store }
    {
        if self.operands.len() >= MOST_OPERANDS {
            return Err(PsFault::Error(PsError::StackOverflow));
        }
        self.operands.push(x)?;
        Ok(())
    }

    /// Puts an item on top of the execution stack.
    #[inline(always)]
    pub(crate) fn schedule_item(&mut self, item: Item) -> Result<(), PsFault>
        ensures does { Does result self.old self.new (scheduling item self.old) }
        ensures kept { OnErr result (self.new ≡ self.old) }
        ensures closed { closed_part self.new.store ≡ closed_part self.old.store }
    {
        if self.execution.len() >= MOST_ITEMS {
            return Err(PsFault::Error(PsError::ExecStackOverflow));
        }
        self.execution.push(item)?;
        Ok(())
    }

    /// Enters a procedure. An empty one has nothing to do.
    #[inline(always)]
    pub fn call(&mut self, a: ArrayId) -> Result<(), PsFault>
        ensures does { Does result self.old self.new (calling a self.old) }
        ensures closed { closed_part self.new.store ≡ closed_part self.old.store }
    {
        if self.store.array_get(a).is_empty() {
            return Ok(());
        }
        self.schedule_item(Item::Procedure(a, 0))
    }
}
