// The scope of an expression in a session.
ghost use Rattle.std.specs.Prelude.{◌≡◌, ◌<◌, ◌^◌, [], length, map, IfOk};
ghost use Rattle.c_judge.specs.Scope.{tag_of};
ghost use Rattle.c_defs.specs.Numbers.{Finds};
ghost use Rattle.c_judge.specs.Session.{symbol_name, session};
ghost use Rattle.c_judge.specs.Judges.{scope_of};

use crate::scope::Scope;
use crate::symbol::Symbol;
use c_defs::{Numbers, StructsView};
use c_tree::StructDef;
use std::alloc::{AllocError, Global};
use std::collections::BTreeMap;

/// The numbers of names: the first of a name counts.
pub fn number_names<'a>(alloc: Global, names: &'a [Symbol]) -> Result<Numbers<'a>, AllocError>
    requires { length names.now < 2 ^ 32 }
    ensures { IfOk result (λ m. Finds m (map symbol_name names.now)) }
{
    let mut numbers = Numbers::new(alloc);
    let mut i = names.len();
    'numbering: while i > 0 {
        i -= 1;
        numbers.set(names[i].name.as_bytes(), i as u32)?;
    }
    Ok(numbers)
}

/// The numbers of tags: the first struct with a tag counts.
pub fn number_tags<'a>(alloc: Global, defs: &'a [StructDef]) -> Result<Numbers<'a>, AllocError>
    requires { length defs.now < 2 ^ 32 }
    ensures { IfOk result (λ m. Finds m (map tag_of defs.now)) }
{
    let mut numbers = Numbers::new(alloc);
    let mut i = defs.len();
    'numbering: while i > 0 {
        i -= 1;
        numbers.set(defs[i].tag.as_bytes(), i as u32)?;
    }
    Ok(numbers)
}

/// The scope of an expression among these names and structs, whose numbers are given, where calls are not asked for their arguments.
pub fn session_scope<'a, 'n>(
    names: &'a [Symbol],
    defs: &'a [StructDef],
    numbers: &'a Numbers<'n>,
    tags: &'a Numbers<'n>,
    literals: &'a BTreeMap<u32, u32>,
) -> Scope<'a, 'n>
    requires defs { length defs.now < 2 ^ 32 }
    requires numbers { Finds numbers.now (map symbol_name names.now) }
    requires tags { Finds tags.now (map tag_of defs.now) }
    requires literals { literals.now.entries ≡ [] }
    ensures { scope_of result ≡ session names.now defs.now }
{
    Scope {
        names: numbers,
        tags,
        incomplete: defs.len() as u32,
        rows: names,
        parameters: &[],
        literals,
        defs: StructsView::of(defs),
        asks: false,
    }
}
