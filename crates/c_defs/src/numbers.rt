// Numbers of names: which is the first of a list with a name.
ghost use Rattle.std.specs.Prelude.{◌≡◌, List, ℕ, IfOk, OnOk, OnErr, Some, None, bytes_eq};
ghost use Rattle.std.specs.Map.{update};
ghost use Rattle.std.specs.Option.{IsSome};
ghost use Rattle.c_defs.specs.Numbers.{number_in};

use crate::digests::digest;
use std::alloc::{AllocError, Global};
use std::collections::BTreeMap;

/// Names with their numbers. A name is found in the time of a look-up in an ordered map, whose keys mostly differ in their digests.
#[derive(Drop)]
pub struct Numbers<'a> {
    of: BTreeMap<(u32, &'a [u8]), u32>,
}

impl<'a> Numbers<'a> {
    /// No names.
    pub fn new(alloc: Global) -> Numbers<'a>
        ensures { (t : List ℕ) → number_in result t ≡ None }
    {
        Numbers {
            of: BTreeMap::new(alloc),
        }
    }

    /// The number of a name.
    pub fn find(&self, name: &'a [u8]) -> Option<u32>
        ensures { result ≡ number_in self.now name.now }
    {
        self.of.get(&(digest(name), name)).copied()
    }

    /// Gives a name this number, and answers the one that it had before.
    pub fn replace(&mut self, name: &'a [u8], number: u32) -> Result<Option<u32>, AllocError>
        ensures before { IfOk result (λ n. n ≡ number_in self.old name.now) }
        ensures ok { OnOk result ((t : List ℕ) → number_in self.new t ≡ update bytes_eq (number_in self.old) name.now (Some number) t) }
        ensures err { OnErr result ((t : List ℕ) → number_in self.new t ≡ number_in self.old t) }
    {
        match self.of.insert((digest(name), name), number) {
            Ok(before) => Ok(before),
            Err(_) => Err(AllocError),
        }
    }

    /// Gives a name this number, also where it had another.
    pub fn set(&mut self, name: &'a [u8], number: u32) -> Result<(), AllocError>
        ensures ok { OnOk result ((t : List ℕ) → number_in self.new t ≡ update bytes_eq (number_in self.old) name.now (Some number) t) }
        ensures err { OnErr result ((t : List ℕ) → number_in self.new t ≡ number_in self.old t) }
    {
        match self.replace(name, number) {
            Ok(_) => Ok(()),
            Err(e) => Err(e),
        }
    }

    /// Gives a name, which has a number, the one that it had before.
    pub fn restore(&mut self, name: &'a [u8], before: Option<u32>)
        requires { IsSome (number_in self.old name.now) }
        ensures { (t : List ℕ) → number_in self.new t ≡ update bytes_eq (number_in self.old) name.now before t }
    {
        let key = (digest(name), name);
        match before {
            Some(n) => match self.of.insert(key, n) {
                Ok(_) => {}
                Err(_) => unreachable!(),
            },
            None => {
                let _ = self.of.remove(&key);
            }
        }
    }
}
