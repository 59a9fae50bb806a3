// The image of a checked program.
ghost use Rattle.std.specs.Prelude.{◌≤◌, IfOk};
ghost use Rattle.c_typing.specs.Programs.{KeepsRules};
ghost use Rattle.link_image.specs.Links.{IsLinked};
ghost use Rattle.slot_formed.specs.Tokens.{program_tokens};
ghost use Rattle.ldb_cc.specs.Built.{IsEmitted, IsImageOf};

use crate::aim::Aim;
use c_tree::Program;
use link_image::link;
use obj_file::{Image, LoaderRows, Object};
use slot_formed::lower_accepted;
use slot_ir::SlotCode;
use std::alloc::{AllocError, Global};

/// The object of a slot code.
fn object_of(alloc: Global, aim: Aim, code: &SlotCode) -> Result<Object, AllocError>
    ensures { IfOk result (λ o. IsEmitted aim code.now o) }
{
    match aim {
        Aim::Mips => {
            let object = mips_gen::emit(alloc, code)?;
            Ok(object)
        }
        Aim::Sparc => {
            let object = sparc_gen::emit(alloc, code)?;
            Ok(object)
        }
    }
}

/// The image of objects and its rows. Objects that don't keep what the linker asks are answered as want of memory.
fn linked(alloc: Global, objects: &[Object]) -> Result<(Image, LoaderRows), AllocError>
    ensures { IfOk result (λ r. IsLinked objects.now r.0 r.1) }
{
    match link(alloc, objects) {
        Ok(linked) => Ok(linked),
        Err(_) => Err(AllocError),
    }
}

/// The image of a program that keeps the rules of checked trees, and the places of its static objects, strings and functions. That the object of its
/// slot code keeps what the linker asks is asked by the linker; what doesn't is answered as want of memory.
pub fn build(alloc: Global, aim: Aim, program: &Program) -> Result<(Image, LoaderRows), AllocError>
    requires rules { KeepsRules program.now }
    requires few { program_tokens program.now ≤ 40000 }
    ensures { IfOk result (λ built. IsImageOf aim program.now built.0 built.1) }
{
    let code = lower_accepted(alloc, program)?;
    let object = object_of(alloc, aim, &code)?;
    let (image, rows) = linked(alloc, &[object])?;
    Ok((image, rows))
}
