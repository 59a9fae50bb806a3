// Rows of a function: its locals, its points, and the names in it that have to be defined.
ghost use Rattle.std.specs.Prelude.{◌≡◌, ◌++◌, map, length, IfOk, OnOk};
ghost use Rattle.c_typing.specs.Programs.{numbers};
ghost use Rattle.c_file.specs.Files.{is_visible, called_all};
ghost use Rattle.c_file.specs.Made.{Each};
ghost use Rattle.c_file.specs.Progress.{IsLocalOf, points_of};
ghost use Rattle.c_linkage.specs.Wanted.{called};
ghost use Rattle.c_mentions.specs.Tags.{now};
ghost use Rattle.c_body.specs.Calls.{called_declarator, called_items, called_spec};
ghost use Rattle.c_body.specs.Walking.{stop_of};
ghost use Rattle.c_scope.specs.Here.{environment_of};

use c_body::{Stop, called_in_declarator, called_in_initial, called_in_spec};
use c_judge::{Symbol, copied};
use c_linkage::Called;
use c_scope::Environment;
use c_tree::{Local, Point};
use c_trees::declaration::{Declarator, FileSpec, Initial};
use ldb_words::{Many, Text};
use std::alloc::{AllocError, Global};

/// The row of a local.
fn local(alloc: Global, s: &Symbol) -> Result<Local, AllocError>
    ensures { IfOk result (λ l. IsLocalOf s.now l) }
{
    let name = Text::from_slice(alloc, s.name.as_bytes())?;
    let ctype = copied(&s.ctype)?;
    Ok(Local {
        name,
        ctype,
        register: s.register,
    })
}

/// The rows of a function's locals.
pub fn locals(alloc: Global, symbols: &[Symbol]) -> Result<Many<Local>, AllocError>
    ensures { IfOk result (λ ls. Each IsLocalOf symbols.now ls) }
{
    let mut found = Many::new(alloc);
    for s in symbols {
        let l = local(alloc, s)?;
        found.push(l)?;
    }
    Ok(found)
}

/// The stopping points of a function stand behind the others.
pub fn add_points(points: &mut Vec<Point>, function: u32, stops: &[Stop]) -> Result<(), AllocError>
    ensures { OnOk result (points.new.items ≡ points.old.items ++ points_of function (map stop_of stops.now)) }
{
    for s in stops {
        points.push(Point {
            function,
            line: s.line,
            column: s.column,
            symbol: s.symbol,
        })?;
    }
    Ok(())
}

/// So many numbers from one on.
pub fn numbers_from(alloc: Global, first: usize, count: usize) -> Result<Many<u32>, AllocError>
    ensures { IfOk result (λ ns. ns ≡ numbers first count) }
{
    let mut found = Many::new(alloc);
    let mut next = first;
    let mut left = count;
    'numbering: while left > 0 {
        let Ok(number) = u32::try_from(next) else {
            return Err(AllocError);
        };
        found.push(number)?;
        next = number as usize + 1;
        left -= 1;
    }
    Ok(found)
}

/// Whether a name is in scope.
fn is_visible<'a>(here: &Environment<'a>, name: &'a Text) -> bool
    ensures { result ≡ is_visible (environment_of here.now).visible name.now }
{
    match here.table.numbers().find(name.as_bytes()) {
        None => false,
        Some(_) => true,
    }
}

/// The names in a body that have to be defined, where this is in scope at file scope.
pub fn add_calls<'a>(
    calls: &mut Vec<Called<'a>>,
    here: &Environment<'a>,
    unit: u32,
    names: &[&'a Text],
) -> Result<(), AllocError>
    ensures { OnOk result (map called calls.new.items ≡ map called calls.old.items ++ called_all unit (environment_of here.now).visible (map now names.now)) }
{
    for name in names {
        let declared = is_visible(here, name);
        calls.push(Called {
            unit,
            name: *name,
            declared,
        })?;
    }
    Ok(())
}

/// The names in the bounds of a declarator that have to be defined.
pub fn add_declarator_calls<'a>(
    alloc: Global,
    calls: &mut Vec<Called<'a>>,
    here: &Environment<'a>,
    d: &'a Declarator,
) -> Result<(), AllocError>
    ensures { OnOk result (map called calls.new.items ≡ map called calls.old.items ++ called_all here.now.unit (environment_of here.now).visible (called_declarator (environment_of here.now) d.now)) }
{
    let mut names = Vec::new(alloc);
    called_in_declarator(&mut names, here, d)?;
    add_calls(calls, here, here.unit, &names)
}

/// Those in the members of the structs that a declaration begins with.
pub fn add_spec_calls<'a>(
    alloc: Global,
    calls: &mut Vec<Called<'a>>,
    here: &Environment<'a>,
    spec: &'a FileSpec,
) -> Result<(), AllocError>
    ensures { OnOk result (map called calls.new.items ≡ map called calls.old.items ++ called_all here.now.unit (environment_of here.now).visible (called_spec (environment_of here.now) spec.now)) }
{
    let mut names = Vec::new(alloc);
    called_in_spec(&mut names, here, spec)?;
    add_calls(calls, here, here.unit, &names)
}

/// Those in what a static object holds at first.
pub fn add_initial_calls<'a>(
    alloc: Global,
    calls: &mut Vec<Called<'a>>,
    here: &Environment<'a>,
    i: &'a Initial,
) -> Result<(), AllocError>
    ensures { OnOk result (map called calls.new.items ≡ map called calls.old.items ++ called_all here.now.unit (environment_of here.now).visible (called_items (environment_of here.now) i.now)) }
{
    let mut names = Vec::new(alloc);
    called_in_initial(&mut names, here, i)?;
    add_calls(calls, here, here.unit, &names)
}
