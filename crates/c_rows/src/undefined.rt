// Names that are called or declared and not defined, and places past the end of their objects.
ghost use Rattle.std.specs.Prelude.{◌≡◌, option_map, Option, List};
ghost use Rattle.std.specs.List.{find};
ghost use Rattle.c_mentions.specs.Tags.{now};
ghost use Rattle.c_scope.specs.Here.{meaning_of};
ghost use Rattle.c_linkage.specs.Names.{is_here};
ghost use Rattle.c_linkage.specs.FileNames.{file_name};
ghost use Rattle.c_linkage.specs.Bounds.{bound_in, greatest_bound, is_static_in};
ghost use Rattle.c_linkage.specs.Wanted.{called, awaited};
ghost use Rattle.c_rows.specs.Behind.{bound_told, static_told, is_past, is_row_past, is_uncalled, is_row_uncalled, missing_in};

use crate::defined::DefinedNames;
use c_linkage::{Awaited, Called, FileName, FileNames, State, is_built_in};
use c_scope::Meaning;
use c_tree::CType;
use ldb_words::Text;

/// The first of some places that is past its object's end.
pub fn first_past<'a>(names: &FileNames<'a>, late: &[Awaited<'a>]) -> Option<Awaited<'a>>
    ensures { result ≡ find (is_row_past names.now) late.now }
{
    for place in late {
        if is_past(names, place) {
            return Some(*place);
        }
    }
    None
}

/// Whether a place is past its object's end, where a declaration tells the bound.
fn is_past<'a>(names: &FileNames<'a>, l: &Awaited<'a>) -> bool
    ensures { result ≡ is_past names.now (awaited l.now) }
{
    let bound = greatest_bound(names, l);
    bound != 0 && bound < l.place.items
}

/// The bound that the declarations of an object tell, or 0.
fn greatest_bound<'a>(names: &FileNames<'a>, l: &Awaited<'a>) -> u32
    ensures { result ≡ greatest_bound names.now (awaited l.now) }
{
    let name = l.place.name.as_bytes();
    let here = bound_told(names.here(l.unit, name));
    let outside = bound_told(names.external(name));
    if here < outside { outside } else { here }
}

/// The bound that a declaration tells, or 0.
fn bound_told(f: Option<&FileName>) -> u32
    ensures { result ≡ bound_told (option_map (λ g. file_name g.now) f.entry) }
{
    match f {
        None => 0,
        Some(f) => bound_in(&f.meaning),
    }
}

/// The bound of an array, or 0.
fn bound_in(m: &Meaning) -> u32
    ensures { result ≡ bound_in (meaning_of m.now) }
{
    match m {
        Meaning::Object { ctype, .. } => match ctype {
            CType::Array(_, n) => *n,
            CType::Char
            | CType::Int
            | CType::Unsigned
            | CType::Void
            | CType::Pointer(_)
            | CType::Struct(_) => 0,
        },
        Meaning::Function { .. } => 0,
    }
}

/// The first name that has to be defined and is not, or that is used without a visible declaration.
pub fn missing<'b, 'a>(state: &'b State<'a>, defined: &DefinedNames<'a>) -> Option<&'b Text>
    ensures { option_map now result ≡ missing_in defined.now state.now }
{
    match first_uncalled(&state.names, defined, &state.calls) {
        Some(c) => Some(c.name),
        None => match &state.unknown {
            Some(name) => Some(name),
            None => None,
        },
    }
}

/// The first of some names that has to be defined and is not, or is not declared.
fn first_uncalled<'a>(
    names: &FileNames<'a>,
    defined: &DefinedNames<'a>,
    calls: &[Called<'a>],
) -> Option<Called<'a>>
    ensures { result ≡ find (is_row_uncalled defined.now names.now) calls.now }
{
    for c in calls {
        if is_uncalled(names, defined, c) {
            return Some(*c);
        }
    }
    None
}

/// Whether a name that has to be defined is not, or is not declared.
fn is_uncalled<'a>(names: &FileNames<'a>, defined: &DefinedNames<'a>, c: &Called<'a>) -> bool
    ensures { result ≡ is_uncalled defined.now names.now (called c.now) }
{
    let name = c.name.as_bytes();
    let is_static = is_static_in(names, c.unit, name);
    !(c.declared && (is_built_in(name) || defined.is_defined(c.unit, is_static, name)))
}

/// Whether a name is `static` in a file.
fn is_static_in<'a>(names: &FileNames<'a>, unit: u32, name: &'a [u8]) -> bool
    ensures { result ≡ is_static_in names.now unit name.now }
{
    match names.here(unit, name) {
        None => false,
        Some(f) => f.is_static,
    }
}
