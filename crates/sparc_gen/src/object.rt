// The object of a program.
ghost use Rattle.std.specs.Prelude.{ℕ, ◌++◌, length, IfOk};
ghost use Rattle.flat_gen.specs.Codes.{flat_code as flat_code_of};
ghost use Rattle.flat_gen.specs.Words.{IsNarrow};
ghost use Rattle.gen_parts.specs.Links.{IsInOrder, IsCountable, AreOnce, text_names, static_names};
ghost use Rattle.gen_parts.specs.Parts.{IsObjectOf};
ghost use Rattle.sparc_gen.specs.Insns.{insns};
ghost use Rattle.sparc_gen.specs.Coding.{sparc};

use crate::registers::LINKAGE;
use crate::target::Sparc;
use flat_gen::flat_code;
use gen_parts::object_of;
use obj_file::Object;
use slot_ir::SlotCode;
use std::alloc::{AllocError, Global};

/// The SPARC object of a program. Its operators take at most 17 words, its names, functions and uses lie in order in its text, and each of its names is given once.
pub fn emit(alloc: Global, slots: &SlotCode) -> Result<Object, AllocError>
    ensures object { IfOk result (λ o. IsObjectOf sparc slots.now (flat_code_of 132 slots.now) o) }
    ensures order { IfOk result (λ o. IsInOrder o) }
    ensures once { IfOk result (λ o. IsCountable slots.now → AreOnce (text_names o.names ++ static_names o.statics)) }
    ensures words { (frame : ℕ) → IsNarrow (λ o. length (insns frame o)) }
{
    let flat = flat_code(alloc, LINKAGE, slots)?;
    let object = object_of::<Sparc>(alloc, slots, &flat)?;
    Ok(object)
}
