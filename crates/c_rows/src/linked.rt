// Numbers of the names at file scope by their linkage (C90 6.1.2.2).
ghost use Rattle.std.specs.Prelude.{◌≡◌, ℕ, List, Bool, None, Some, OnOk, if◌then◌else◌};
ghost use Rattle.c_rows.specs.Linked.{linked_in, is_linked};

use c_defs::Numbers;
use c_linkage::FileNumbers;
use std::alloc::{AllocError, Global};

/// Numbers of external names, and of the `static` names of each file.
#[derive(Drop)]
pub struct LinkedNumbers<'a> {
    pub externals: Numbers<'a>,
    pub statics: FileNumbers<'a>,
}

impl<'a> LinkedNumbers<'a> {
    /// No names.
    pub fn new(alloc: Global) -> LinkedNumbers<'a>
        ensures { (u : ℕ) (s : Bool) (name : List ℕ) → linked_in result u s name ≡ None }
    {
        LinkedNumbers {
            externals: Numbers::new(alloc),
            statics: FileNumbers::new(alloc),
        }
    }

    /// The number of a name of a file: of a `static` one there, of an external one in any.
    pub fn find(&self, unit: u32, is_static: bool, name: &'a [u8]) -> Option<u32>
        ensures { result ≡ linked_in self.now unit is_static name.now }
    {
        if is_static {
            self.statics.find(unit, name)
        } else {
            self.externals.find(name)
        }
    }

    /// Gives a name of a file this number, also where it had another.
    pub fn set(
        &mut self,
        unit: u32,
        is_static: bool,
        name: &'a [u8],
        number: u32,
    ) -> Result<(), AllocError>
        ensures { OnOk result ((u : ℕ) (s : Bool) (t : List ℕ) → linked_in self.new u s t ≡ (if is_linked unit is_static name.now u s t then Some number else linked_in self.old u s t)) }
    {
        if is_static {
            self.statics.set(unit, name, number)
        } else {
            self.externals.set(name, number)
        }
    }
}
