// The addresses of names.

ghost use Rattle.std.specs.Prelude.{◌≡◌, List, [], ◌∷◌, ℕ, Some, None, OnOk, IfOk, IfErr, false, bytes_eq};
ghost use Rattle.std.specs.Map.{update};
ghost use Rattle.link_image.specs.Tables.{again, entry_in, seen, IsNameFault};

use crate::fault::LinkFault;
use ldb_words::Text;
use std::alloc::{AllocError, Global};
use std::collections::BTreeMap;

/// Where a name stands by its first definition, and whether it has another.
#[derive(Clone, Copy)]
pub struct Entry {
    pub address: u32,
    pub doubled: bool,
}

/// Names with their addresses.
#[derive(Drop)]
pub struct Addresses<'a> {
    of: BTreeMap<&'a [u8], Entry>,
}

/// A name that is defined at an address once more.
fn again(known: Option<Entry>, address: u32) -> Entry
    ensures { Some result ≡ again known address }
{
    match known {
        Some(first) => Entry {
            address: first.address,
            doubled: true,
        },
        None => Entry {
            address,
            doubled: false,
        },
    }
}

impl<'a> Addresses<'a> {
    /// No names.
    pub fn new(alloc: Global) -> Addresses<'a>
        ensures { (t : List ℕ) → entry_in result t ≡ None }
    {
        Addresses {
            of: BTreeMap::new(alloc),
        }
    }

    /// What is known of a name.
    fn find(&self, name: &'a [u8]) -> Option<Entry>
        ensures { result ≡ entry_in self.now name.now }
    {
        self.of.get(&name).copied()
    }

    /// Gives a name this entry, also where it had another.
    fn set(&mut self, name: &'a [u8], entry: Entry) -> Result<(), AllocError>
        ensures { OnOk result ((t : List ℕ) → entry_in self.new t ≡ update bytes_eq (entry_in self.old) name.now (Some entry) t) }
    {
        match self.of.insert(name, entry) {
            Ok(_) => Ok(()),
            Err(_) => Err(AllocError),
        }
    }

    /// A definition of a name more.
    pub fn define(&mut self, name: &'a [u8], address: u32) -> Result<(), AllocError>
        ensures { OnOk result ((t : List ℕ) → entry_in self.new t ≡ seen (entry_in self.old t) ((name.now, address) ∷ []) t) }
    {
        let entry = again(self.find(name), address);
        self.set(name, entry)?;
        Ok(())
    }

    /// The address of a name that is defined once.
    pub fn address_of(&self, alloc: Global, name: &'a [u8]) -> Result<u32, LinkFault>
        ensures once { IfOk result (λ a. entry_in self.now name.now ≡ Some (record { address = a; doubled = false })) }
        ensures fault { IfErr result (λ f. IsNameFault (entry_in self.now name.now) name.now f) }
    {
        let Some(entry) = self.find(name) else {
            let name = Text::from_slice(alloc, name)?;
            return Err(LinkFault::Unresolved { name });
        };
        if entry.doubled {
            let name = Text::from_slice(alloc, name)?;
            return Err(LinkFault::Doubled { name });
        }
        Ok(entry.address)
    }
}
