// Numbers of the names of files.
ghost use Rattle.std.specs.Prelude.{◌≡◌, ℕ, List, IfOk, OnOk, OnErr, None, Some};
ghost use Rattle.std.specs.Option.{IsSome};
ghost use Rattle.c_linkage.specs.FileNumbers.{number_at, with_number};

use c_defs::digest;
use std::alloc::{AllocError, Global};
use std::collections::BTreeMap;

/// Names of files with their numbers. A name is found in the time of a look-up in an ordered map, whose keys mostly differ in the digests of the names.
#[derive(Drop)]
pub struct FileNumbers<'a> {
    of: BTreeMap<(u32, (u32, &'a [u8])), u32>,
}

impl<'a> FileNumbers<'a> {
    /// No names.
    pub fn new(alloc: Global) -> FileNumbers<'a>
        ensures { (u : ℕ) (t : List ℕ) → number_at result u t ≡ None }
    {
        FileNumbers {
            of: BTreeMap::new(alloc),
        }
    }

    /// The number of a name in a file.
    pub fn find(&self, unit: u32, name: &'a [u8]) -> Option<u32>
        ensures { result ≡ number_at self.now unit name.now }
    {
        self.of.get(&(digest(name), (unit, name))).copied()
    }

    /// Gives a name in a file this number, and answers the one that it had before.
    pub fn replace(
        &mut self,
        unit: u32,
        name: &'a [u8],
        number: u32,
    ) -> Result<Option<u32>, AllocError>
        ensures before { IfOk result (λ n. n ≡ number_at self.old unit name.now) }
        ensures ok { OnOk result ((v : ℕ) (t : List ℕ) → number_at self.new v t ≡ with_number (number_at self.old) unit name.now (Some number) v t) }
        ensures err { OnErr result ((v : ℕ) (t : List ℕ) → number_at self.new v t ≡ number_at self.old v t) }
    {
        match self.of.insert((digest(name), (unit, name)), number) {
            Ok(before) => Ok(before),
            Err(_) => Err(AllocError),
        }
    }

    /// Gives a name in a file this number, also where it had another.
    pub fn set(&mut self, unit: u32, name: &'a [u8], number: u32) -> Result<(), AllocError>
        ensures ok { OnOk result ((v : ℕ) (t : List ℕ) → number_at self.new v t ≡ with_number (number_at self.old) unit name.now (Some number) v t) }
        ensures err { OnErr result ((v : ℕ) (t : List ℕ) → number_at self.new v t ≡ number_at self.old v t) }
    {
        match self.replace(unit, name, number) {
            Ok(_) => Ok(()),
            Err(e) => Err(e),
        }
    }

    /// Gives a name in a file, which has a number, the one that it had before.
    pub fn restore(&mut self, unit: u32, name: &'a [u8], before: Option<u32>)
        requires { IsSome (number_at self.old unit name.now) }
        ensures { (v : ℕ) (t : List ℕ) → number_at self.new v t ≡ with_number (number_at self.old) unit name.now before v t }
    {
        let key = (digest(name), (unit, name));
        match before {
            Some(n) => match self.of.insert(key, n) {
                Ok(_) => {}
                Err(_) => unreachable!(),
            },
            None => {
                let _ = self.of.remove(&key);
            }
        }
    }
}
