// Definitions of names at file scope (C90 6.7).
ghost use Rattle.std.specs.Prelude.{◌≡◌, ℕ, List, [], map, not, ◌&&◌, ◌||◌, ◌==◌, bytes_eq, option_map, IfOk, OnOk, None, Some};
ghost use Rattle.std.specs.Map.{update};
ghost use Rattle.c_mentions.specs.Tags.{now};
ghost use Rattle.c_linkage.specs.Names.{defining, twice, AreInOrder};
ghost use Rattle.c_linkage.specs.Known.{known_in, is_body, is_initialized, behind, is_again};

use c_defs::digest;
use ldb_words::Text;
use std::alloc::{AllocError, Global};
use std::collections::BTreeMap;

/// How a declaration defines a name: by a body, with an initializer, or without.
#[derive(Clone, Copy)]
pub enum Manner {
    Body,
    Initialized,
    Tentative,
}

/// A declaration that defines a name in a file.
#[derive(Clone, Copy)]
pub struct Definition<'a> {
    pub name: &'a Text,
    pub unit: u32,
    pub is_static: bool,
    pub manner: Manner,
}

/// What is known of a name's definitions so far: the last file that has one; whether there it has a body, an initializer, and an external definition; and
/// whether a file before that has an external definition.
#[derive(Clone, Copy)]
pub struct Known {
    pub unit: u32,
    pub body: bool,
    pub initialized: bool,
    pub external: bool,
    pub elsewhere: bool,
}

/// What is known of each name, by its digest and itself.
#[derive(Drop)]
pub struct KnownNames<'a> {
    of: BTreeMap<(u32, &'a [u8]), Known>,
}

impl<'a> KnownNames<'a> {
    /// No name is defined.
    fn new(alloc: Global) -> KnownNames<'a>
        ensures { (t : List ℕ) → known_in result t ≡ None }
    {
        KnownNames {
            of: BTreeMap::new(alloc),
        }
    }

    /// What is known of a name.
    fn find(&self, name: &'a [u8]) -> Option<Known>
        ensures { result ≡ known_in self.now name.now }
    {
        self.of.get(&(digest(name), name)).copied()
    }

    /// This is known of a name from now on.
    fn set(&mut self, name: &'a [u8], known: Known) -> Result<(), AllocError>
        ensures { OnOk result ((t : List ℕ) → known_in self.new t ≡ update bytes_eq (known_in self.old) name.now (Some known) t) }
    {
        match self.of.insert((digest(name), name), known) {
            Ok(_) => Ok(()),
            Err(_) => Err(AllocError),
        }
    }
}

/// Whether a definition has a body.
fn is_body(manner: Manner) -> bool
    ensures { result ≡ is_body manner }
{
    match manner {
        Manner::Body => true,
        Manner::Initialized | Manner::Tentative => false,
    }
}

/// Whether a definition has an initializer.
fn is_initialized(manner: Manner) -> bool
    ensures { result ≡ is_initialized manner }
{
    match manner {
        Manner::Initialized => true,
        Manner::Body | Manner::Tentative => false,
    }
}

/// What is known of a name behind a definition of it.
fn behind(known: Option<Known>, d: &Definition) -> Known
    ensures { result ≡ behind known (defining d.now) }
{
    let body = is_body(d.manner);
    let initialized = is_initialized(d.manner);
    let external = !d.is_static;
    match known {
        None => Known {
            unit: d.unit,
            body,
            initialized,
            external,
            elsewhere: false,
        },
        Some(k) => {
            if k.unit == d.unit {
                Known {
                    unit: d.unit,
                    body: k.body || body,
                    initialized: k.initialized || initialized,
                    external: k.external || external,
                    elsewhere: k.elsewhere,
                }
            } else {
                Known {
                    unit: d.unit,
                    body,
                    initialized,
                    external,
                    elsewhere: k.elsewhere || k.external,
                }
            }
        }
    }
}

/// Whether a definition is one too many.
fn is_again(known: Option<Known>, d: &Definition) -> bool
    ensures { result ≡ is_again known (defining d.now) }
{
    match known {
        None => false,
        Some(k) => {
            if k.unit == d.unit {
                is_body(d.manner) && k.body
                    || is_initialized(d.manner) && k.initialized
                    || !d.is_static && k.elsewhere
            } else {
                !d.is_static && (k.external || k.elsewhere)
            }
        }
    }
}

/// The first name that is defined twice: it has two bodies, two initializers in one file, or external definitions in two files. The definitions stand in
/// the order of their files.
pub fn twice<'a>(
    alloc: Global,
    definitions: &[Definition<'a>],
) -> Result<Option<&'a Text>, AllocError>
    requires { AreInOrder (map defining definitions.now) }
    ensures { IfOk result (λ o. option_map now o ≡ twice [] (map defining definitions.now)) }
{
    let mut names = KnownNames::new(alloc);
    for d in definitions {
        let name = d.name.as_bytes();
        let known = names.find(name);
        if is_again(known, d) {
            return Ok(Some(d.name));
        }
        names.set(name, behind(known, d))?;
    }
    Ok(None)
}
