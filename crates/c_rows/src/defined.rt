// Which names the definitions of a program define (C90 6.1.2.2, 6.7).
ghost use Rattle.std.specs.Prelude.{◌≡◌, ◌<◌, ℕ, List, Bool, map, ◌&&◌, ◌||◌, ◌==◌, bytes_eq, slice_get, length, vec_len, IfOk, OnOk, false};
ghost use Rattle.c_linkage.specs.Names.{defining, defines, is_defined, AreWithin};
ghost use Rattle.c_scope.specs.NumberedNames.{has_name};
ghost use Rattle.c_rows.specs.Sets.{in_file, defined_in};

use c_defs::Numbers;
use c_linkage::Definition;
use std::alloc::{AllocError, Global};

/// The names that are defined: as external, and as `static` in each file.
#[derive(Drop)]
pub struct DefinedNames<'a> {
    pub externals: Numbers<'a>,
    pub statics: Vec<Numbers<'a>>,
}

impl<'a> DefinedNames<'a> {
    /// Whether a name of a file is defined: a `static` one in its file, an external one in any.
    pub fn is_defined(&self, unit: u32, is_static: bool, name: &'a [u8]) -> bool
        ensures { result ≡ defined_in self.now unit is_static name.now }
    {
        if is_static {
            match self.statics.get(unit as usize) {
                None => false,
                Some(names) => names.find(name).is_some(),
            }
        } else {
            self.externals.find(name).is_some()
        }
    }

    /// Adds what a definition defines.
    fn add(&mut self, d: &Definition<'a>) -> Result<(), AllocError>
        requires { d.now.unit < vec_len self.old.statics }
        ensures files { vec_len self.new.statics ≡ vec_len self.old.statics }
        ensures names { OnOk result ((u : ℕ) (s : Bool) (name : List ℕ) → defined_in self.new u s name ≡ (defines u s name (defining d.now) || defined_in self.old u s name)) }
    {
        let name = d.name.as_bytes();
        if d.is_static {
            add_in(&mut self.statics, d.unit as usize, name)
        } else {
            add_name(&mut self.externals, name)
        }
    }
}

/// Adds a name to a set.
#[tactic(auto, using(crate::proofs::NamesAdded::name_added))]
fn add_name<'a>(names: &mut Numbers<'a>, name: &'a [u8]) -> Result<(), AllocError>
    ensures { OnOk result ((t : List ℕ) → has_name names.new t ≡ (bytes_eq name.now t || has_name names.old t)) }
{
    names.set(name, 0)
}

/// Adds a name to the set of a file.
fn add_in<'a>(statics: &mut Vec<Numbers<'a>>, unit: usize, name: &'a [u8]) -> Result<(), AllocError>
    requires { unit < vec_len statics.old }
    ensures files { vec_len statics.new ≡ vec_len statics.old }
    ensures names { OnOk result ((u : ℕ) (t : List ℕ) → in_file (slice_get statics.new.items u) t ≡ (((unit == u) && bytes_eq name.now t) || in_file (slice_get statics.old.items u) t)) }
{
    let names = &mut statics[unit];
    add_name(names, name)
}

/// No names in so many files.
fn none<'a>(alloc: Global, units: usize) -> Result<DefinedNames<'a>, AllocError>
    ensures files { IfOk result (λ m. vec_len m.statics ≡ units) }
    ensures names { IfOk result (λ m. (u : ℕ) (s : Bool) (name : List ℕ) → defined_in m u s name ≡ false) }
{
    let mut statics = Vec::new(alloc);
    for _ in 0..units {
        statics.push(Numbers::new(alloc))?;
    }
    Ok(DefinedNames {
        externals: Numbers::new(alloc),
        statics,
    })
}

/// The names that some definitions in so many files define.
pub fn defined_names<'a>(
    alloc: Global,
    units: usize,
    definitions: &[Definition<'a>],
) -> Result<DefinedNames<'a>, AllocError>
    requires { AreWithin units (map defining definitions.now) }
    ensures { IfOk result (λ m. (u : ℕ) (s : Bool) (name : List ℕ) → defined_in m u s name ≡ is_defined (map defining definitions.now) u s name) }
{
    let mut names = none(alloc, units)?;
    for d in definitions {
        names.add(d)?;
    }
    Ok(names)
}
