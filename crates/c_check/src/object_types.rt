// The types of a program's objects, as all of their declarations tell them.
ghost use Rattle.std.specs.Prelude.{◌≡◌, map, length, vec_len, IfOk};
ghost use Rattle.c_typing.specs.Plain.{plain};
ghost use Rattle.c_linkage.specs.Names.{defining};
ghost use Rattle.c_file.specs.Files.{State};
ghost use Rattle.c_linkage.specs.Types.{type_or};
ghost use Rattle.c_scope.specs.Here.{meaning_of};
ghost use Rattle.c_file.specs.Made.{object_type};
ghost use Rattle.c_check.specs.TypesTold.{IsToldOf};

use c_judge::copied;
use c_linkage::{Definition, FileName, FileNames};
use c_scope::Meaning;
use c_tree::CType;
use std::alloc::{AllocError, Global};

/// The declaration that tells most of the type of an object. None where its definition is not among the names of its file, which no program has.
fn told<'s, 'a>(names: &'s FileNames<'a>, d: &Definition<'a>) -> Option<&'s FileName<'a>>
    ensures { IsToldOf names.now (defining d.now) result }
{
    let name = d.name.as_bytes();
    let Some(here) = names.here(d.unit, name) else {
        return None;
    };
    if d.is_static {
        return Some(here);
    }
    if here.is_static {
        return None;
    }
    names.external(name)
}

/// A copy of the type of an object.
fn copied_type(meaning: &Meaning) -> Result<CType, AllocError>
    ensures { IfOk result (λ t. plain t ≡ type_or (meaning_of meaning.now)) }
{
    match meaning {
        Meaning::Object { ctype, .. } => copied(ctype),
        Meaning::Function { .. } => Err(AllocError),
    }
}

/// The type of an object.
fn object_type<'a>(names: &FileNames<'a>, d: &Definition<'a>) -> Result<CType, AllocError>
    ensures { IfOk result (λ t. (q : State) → q.names ≡ names.now → plain t ≡ object_type q (defining d.now)) }
{
    match told(&*names, d) {
        None => Err(AllocError),
        Some(f) => copied_type(&f.meaning),
    }
}

/// The types of some objects.
pub fn object_types<'a>(
    alloc: Global,
    names: &FileNames<'a>,
    objects: &[Definition<'a>],
) -> Result<Vec<CType>, AllocError>
    ensures len { IfOk result (λ ts. vec_len ts ≡ length objects.now) }
    ensures types { IfOk result (λ ts. (q : State) → q.names ≡ names.now → map plain ts.items ≡ map (object_type q) (map defining objects.now)) }
{
    let mut types = Vec::new(alloc);
    for d in objects {
        let t = object_type(names, d)?;
        types.push(t)?;
    }
    Ok(types)
}
