// Whether names at file scope may stand with their types (C90 6.5, 6.7.2).
ghost use Rattle.std.specs.Prelude.{◌≡◌, map, false, IfOk};
ghost use Rattle.c_typing.specs.Plain.{plain};
ghost use Rattle.c_typing.specs.Expressions as typing;
ghost use Rattle.c_judge.specs.Judges.{Gives, Denotes};
ghost use Rattle.c_scope.specs.Findings.{fine, holds};
ghost use Rattle.c_scope.specs.Declarators.{parameter_type};
ghost use Rattle.c_scope.specs.Declarators as spec;
ghost use Rattle.c_linkage.specs.Types.{is_static, is_extern, object_type, may_stand, object_standing, in_limits};
ghost use Rattle.c_scope.specs.Here.{environment_of};
ghost use Rattle.c_scope.specs.Shapes.{parameter_of};

use c_initial::with_initial_bound;
use c_judge::{Fault, copied, is_complete, limited};
use c_scope::{Environment, Parameter};
use c_tree::CType;
use c_trees::declaration::{Initial, Storage};
use ldb_words::Many;
use std::alloc::{AllocError, Global};

/// Whether a storage class is `static`.
pub fn is_static(storage: Storage) -> bool
    ensures { result ≡ is_static storage }
{
    match storage {
        Storage::Static => true,
        Storage::Plain | Storage::Extern => false,
    }
}

/// Whether a storage class is `extern`.
fn is_extern(storage: Storage) -> bool
    ensures { result ≡ is_extern storage }
{
    match storage {
        Storage::Extern => true,
        Storage::Plain | Storage::Static => false,
    }
}

/// A rule holds, or is broken at an offset.
pub fn holds(ok: bool, rule: u8, at: u32) -> Result<(), Fault>
    ensures { Gives (λ _. fine) (holds ok rule at) result }
{
    if ok {
        Ok(())
    } else {
        Err(Fault::Rule { rule, at })
    }
}

/// An object's type with the bound that its initializer sets.
pub fn object_type(t: CType, initial: &Option<Initial>) -> Result<CType, AllocError>
    ensures { IfOk result (λ u. plain u ≡ object_type (plain t) initial.now) }
{
    match initial {
        None => Ok(t),
        Some(i) => with_initial_bound(t, i),
    }
}

/// An object's type is complete, but that an `extern` declaration may leave the bound to another.
fn may_stand(here: &Environment, is_extern: bool, t: &CType, at: u32) -> Result<(), Fault>
    ensures { Gives (λ _. fine) (may_stand (environment_of here.now) is_extern (plain t.now) at) result }
{
    match t {
        CType::Array(_, n) => {
            if *n == 0 {
                holds(is_extern, 2, at)
            } else {
                holds(is_complete(here.defs.defs(), t), 1, at)
            }
        }
        CType::Char
        | CType::Int
        | CType::Unsigned
        | CType::Void
        | CType::Pointer(_)
        | CType::Struct(_) => holds(is_complete(here.defs.defs(), t), 1, at),
    }
}

/// A complete type is within its limits.
#[tactic(auto, using(crate::proofs::Limited::limited_same))]
fn in_limits(here: &Environment, t: CType, at: u32) -> Result<CType, Fault>
    ensures limits { Denotes (in_limits (environment_of here.now) (plain t) at) result }
    ensures same { IfOk result (λ u. plain u ≡ plain t) }
{
    if is_complete(here.defs.defs(), &t) {
        limited(&here.defs.view(), at, t)
    } else {
        Ok(t)
    }
}

/// An object with this type, its initializer's bound included, may stand.
pub fn object_standing(
    here: &Environment,
    storage: Storage,
    t: CType,
    at: u32,
) -> Result<CType, Fault>
    ensures { Gives (λ u. typing.Object (plain u) false) (object_standing (environment_of here.now) storage (plain t) at) result }
{
    match in_limits(here, t, at) {
        Ok(u) => match may_stand(here, is_extern(storage), &u, at) {
            Ok(()) => Ok(u),
            Err(f) => {
                drop(u);
                Err(f)
            }
        },
        Err(f) => Err(f),
    }
}

/// The types of parameters.
pub fn parameter_types(alloc: Global, ps: &[Parameter]) -> Result<Many<CType>, AllocError>
    ensures { IfOk result (λ ts. map plain ts ≡ map parameter_type (map parameter_of ps.now)) }
{
    let mut types = Many::new(alloc);
    for p in ps {
        let t = copied(&p.ctype)?;
        types.push(t)?;
    }
    Ok(types)
}
