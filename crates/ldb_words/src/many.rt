// Items in order.

use std::alloc::{AllocError, Global};
use std::marker::Model;

/// Some items in order, which contracts see as their list.
#[derive(Drop)]
pub struct Many<T> {
    items: Vec<T>,
}

impl<T> Model for Many<T> {
    ghost use Rattle.std.specs.Prelude.{List};

    ghost Value = { List T };

    ghost view = { λ m. m.items.items };
}

impl<T> Many<T> {
    ghost use Rattle.std.specs.Prelude.{◌≡◌, [], length};

    /// No items.
    pub fn new(alloc: Global) -> Many<T>
        ensures { result ≡ [] }
    {
        Many {
            items: Vec::new(alloc),
        }
    }

    /// The items of a `Vec`.
    pub fn from_vec(items: Vec<T>) -> Many<T>
        ensures { result ≡ items.items }
    {
        Many { items }
    }

    /// The items as a `Vec`.
    pub fn into_vec(self) -> Vec<T>
        ensures { result.items ≡ self }
    {
        self.items
    }

    /// The items.
    pub fn as_slice(&self) -> &[T]
        ensures { result.now ≡ self.now }
    {
        self.items.as_slice()
    }

    /// How many items there are.
    pub fn len(&self) -> usize
        ensures { result ≡ length self.now }
    {
        self.items.len()
    }
}

impl<T: Drop> Many<T> {
    ghost use Rattle.std.specs.Prelude.{◌≡◌, [], ◌∷◌, ◌++◌, OnOk, OnErr};

    /// Adds an item at the end. Where there is no memory for it, it is dropped.
    pub fn push(&mut self, item: T) -> Result<(), AllocError>
        ensures ok { OnOk result (self.new ≡ self.old ++ item ∷ []) }
        ensures err { OnErr result (self.new ≡ self.old) }
    {
        self.items.push(item)?;
        Ok(())
    }
}
