// Structs are completed at their `}` (C90 6.5.2.3).
ghost use Rattle.std.specs.Prelude.{◌≡◌};
ghost use Rattle.c_scope.specs.Environment.{struct_of};
ghost use Rattle.c_struct.specs.Structs.{completed_found};
ghost use Rattle.c_scope.specs.Refused.{Finds};
ghost use Rattle.c_struct.specs.Laying.{open_of};
ghost use Rattle.c_struct.specs.Opened.{HasNames};
ghost use Rattle.c_typing.specs.Plain.{plain};
ghost use Rattle.c_struct.specs.Completing.{IsLimited, IsEnded};
ghost use Rattle.c_scope.specs.Here.{environment_of};

use crate::laying::row;
use crate::members::{OpenStruct, agrees};
use c_defs::StructsView;
use c_judge::{Fault, limited};
use c_scope::{Environment, Refusal};
use c_tree::{CType, StructDef, members};
use ldb_words::Text;
use std::alloc::Global;

/// The number of the struct that a tag names.
fn struct_number<'a>(here: &Environment<'a>, tag: &'a Text) -> u32
    ensures { result ≡ struct_of (environment_of here.now).tags tag.now }
{
    match here.tags.numbers().find(tag.as_bytes()) {
        None => here.tags.count(),
        Some(n) => n,
    }
}

/// Whether a struct may be completed: it has a member, its tag is not completed yet in this file, and other files complete it in the same way.
fn may_complete<'a>(
    others: &[StructDef],
    here: &Environment<'a>,
    number: u32,
    o: &OpenStruct<'a>,
) -> Result<(), Refusal>
    requires { number ≡ struct_of (environment_of here.now).tags o.now.tag.now }
    ensures { Finds (completed_found others.now (environment_of here.now) (open_of o.now)) result }
{
    if o.members.is_empty() {
        return Err(Refusal::Rule { rule: 3, at: o.at });
    }
    if !members(here.defs.defs(), number).is_empty() || !agrees(others, number, o) {
        return Err(Refusal::Rule { rule: 4, at: o.at });
    }
    Ok(())
}

/// A type that is neither too deep nor too large.
fn within_limits(defs: &StructsView<'_, '_>, at: u32, t: CType) -> Result<CType, Refusal>
    ensures { IsLimited defs.now at (plain t) result }
{
    match limited(defs, at, t) {
        Ok(t) => Ok(t),
        Err(Fault::Rule { rule, at }) => Err(Refusal::Rule { rule, at }),
        Err(Fault::Unknown { .. }) => Err(Refusal::NoMemory),
        Err(Fault::NoMemory) => Err(Refusal::NoMemory),
    }
}

/// Completes a struct, whose row gets its members. Answers its type.
pub fn complete<'a>(
    alloc: Global,
    others: &[StructDef],
    here: &mut Environment<'a>,
    o: OpenStruct<'a>,
) -> Result<CType, Refusal>
    requires { HasNames o }
    ensures ended { IsEnded others.now (environment_of here.old) (open_of o.entry) (environment_of here.new) result }
    ensures table { here.new.table ≡ here.old.table }
    ensures unit { here.new.unit ≡ here.old.unit }
{
    let number = struct_number(here, o.tag);
    if number as usize >= here.defs.len() {
        return Err(Refusal::NoMemory);
    }
    match may_complete(others, here, number, &o) {
        Ok(()) => {}
        Err(why) => return Err(why),
    }
    match row(alloc, &here.defs.view(), &o)? {
        None => Err(Refusal::Rule { rule: 1, at: o.at }),
        Some(row) => {
            here.defs.complete(number, row, o.names);
            within_limits(&here.defs.view(), o.at, CType::Struct(number))
        }
    }
}
