// Which object or function of a program a name of a file means.
ghost use Rattle.std.specs.Prelude.{◌≡◌, ℕ, List, ◌||◌, map, IfOk, OnOk};
ghost use Rattle.c_linkage.specs.FileNames.{file_name};
ghost use Rattle.c_rows.specs.Fresh.{sees};
ghost use Rattle.c_rows.specs.Placed.{is_static_by, object_by, function_by, has_static, is_static_one};

use crate::linked::LinkedNumbers;
use c_linkage::{FileName, FileNumbers};
use std::alloc::{AllocError, Global};

/// The names that files declare as `static`, and the numbers of the objects and functions that names mean.
#[derive(Drop)]
pub struct Places<'a> {
    pub statics: FileNumbers<'a>,
    pub objects: LinkedNumbers<'a>,
    pub functions: LinkedNumbers<'a>,
}

impl<'a> Places<'a> {
    /// Whether a file declares a name as `static`.
    fn is_static(&self, unit: u32, name: &'a [u8]) -> bool
        ensures { result ≡ is_static_by self.now unit name.now }
    {
        self.statics.find(unit, name).is_some()
    }

    /// The number of the object that a name of a file means.
    pub fn object(&self, unit: u32, name: &'a [u8]) -> Option<u32>
        ensures { result ≡ object_by self.now unit name.now }
    {
        let is_static = self.is_static(unit, name);
        self.objects.find(unit, is_static, name)
    }

    /// The number of the function with a body that a name of a file means.
    pub fn function(&self, unit: u32, name: &'a [u8]) -> Option<u32>
        ensures { result ≡ function_by self.now unit name.now }
    {
        let is_static = self.is_static(unit, name);
        self.functions.find(unit, is_static, name)
    }
}

/// Adds a name where it is `static` in its file.
fn add_static<'s, 'a>(statics: &mut FileNumbers<'s>, f: &'s FileName<'a>) -> Result<(), AllocError>
    ensures { OnOk result ((u : ℕ) (t : List ℕ) → sees statics.new u t ≡ (is_static_one u t (file_name f.now) || sees statics.old u t)) }
{
    if f.is_static {
        statics.set(f.unit, f.name.as_bytes(), 0)?;
    }
    Ok(())
}

/// The names that files declare as `static`.
pub fn static_names<'s, 'a>(
    alloc: Global,
    names: &'s [FileName<'a>],
) -> Result<FileNumbers<'s>, AllocError>
    ensures { IfOk result (λ m. (u : ℕ) (t : List ℕ) → sees m u t ≡ has_static u t (map file_name names.now)) }
{
    let mut statics = FileNumbers::new(alloc);
    for f in names {
        add_static(&mut statics, f)?;
    }
    Ok(statics)
}
