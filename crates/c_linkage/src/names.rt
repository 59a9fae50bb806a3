// Types of the declarations of one name at file scope.
ghost use Rattle.std.specs.Prelude.{◌≡◌, [], ◌∷◌, map, not, ◌||◌, ◌&&◌, bytes_eq, codes, IfOk, Bool};
ghost use Rattle.c_typing.specs.Plain.{Plain, plain, Int, Void};
ghost use Rattle.c_typing.specs.Expressions.{Function};
ghost use Rattle.c_typing.specs.Declarations.{built_in};
ghost use Rattle.c_scope.specs.Here.{meaning_of};
ghost use Rattle.c_linkage.specs.Names.{same_all, agree, agree_as, bounded_one, composite, is_built_in, declared_as_built_in, declared_as_main};
ghost use Rattle.c_linkage.specs.Telling.{is_open, is_unbounded};

use c_judge::{copied, same};
use c_scope::Meaning;
use c_tree::CType;
use ldb_words::Many;
use std::alloc::{AllocError, Global};

/// Whether some types are the same as others in their order.
#[tactic(auto, using(crate::proofs::Agreeing::other_count))]
fn same_all(s: &[CType], t: &[CType]) -> bool
    ensures { result ≡ same_all (map plain s.now) (map plain t.now) }
{
    if s.len() != t.len() {
        return false;
    }
    for (i, a) in s.iter().enumerate() {
        if !same(a, &t[i]) {
            return false;
        }
    }
    true
}

/// Whether two types agree: they are the same, but that an empty bound agrees with each (C90 6.1.2.6).
fn agree(s: &CType, t: &CType) -> bool
    ensures { result ≡ agree (plain s.now) (plain t.now) }
{
    match s {
        CType::Array(a, m) => match t {
            CType::Array(b, n) => same(a, b) && (*m == *n || *m == 0 || *n == 0),
            CType::Char
            | CType::Int
            | CType::Unsigned
            | CType::Void
            | CType::Pointer(_)
            | CType::Struct(_) => false,
        },
        CType::Char
        | CType::Int
        | CType::Unsigned
        | CType::Void
        | CType::Pointer(_)
        | CType::Struct(_) => same(s, t),
    }
}

/// Whether two declarations of a name agree: both are objects or both functions, and their types agree.
pub fn agree_as(s: &Meaning, t: &Meaning) -> bool
    ensures { result ≡ agree_as (meaning_of s.now) (meaning_of t.now) }
{
    match s {
        Meaning::Object { ctype: a, .. } => match t {
            Meaning::Object { ctype: b, .. } => agree(a, b),
            Meaning::Function { .. } => false,
        },
        Meaning::Function {
            result: a,
            parameters: taken,
        } => match t {
            Meaning::Object { .. } => false,
            Meaning::Function {
                result: b,
                parameters: others,
            } => same(a, b) && same_all(taken.as_slice(), others.as_slice()),
        },
    }
}

/// The type of two that agree: that which has a bound.
#[tactic(auto, using(crate::proofs::Agreeing::with_a_bound))]
pub fn bounded_one(s: &CType, t: &CType) -> Result<CType, AllocError>
    ensures { IfOk result (λ r. plain r ≡ bounded_one (plain s.now) (plain t.now)) }
{
    match s {
        CType::Array(_, n) => { if *n == 0 { copied(t) } else { copied(s) } }
        CType::Char
        | CType::Int
        | CType::Unsigned
        | CType::Void
        | CType::Pointer(_)
        | CType::Struct(_) => copied(s),
    }
}

/// Whether a type is an array without a bound.
fn is_unbounded(t: &CType) -> bool
    ensures { result ≡ is_unbounded (plain t.now) }
{
    match t {
        CType::Array(_, n) => *n == 0,
        CType::Char
        | CType::Int
        | CType::Unsigned
        | CType::Void
        | CType::Pointer(_)
        | CType::Struct(_) => false,
    }
}

/// Whether a name is an array that tells no bound.
pub fn is_open(m: &Meaning) -> bool
    ensures { result ≡ is_open (meaning_of m.now) }
{
    match m {
        Meaning::Object { ctype, .. } => is_unbounded(ctype),
        Meaning::Function { .. } => false,
    }
}

/// Copies of some types.
fn copied_all(alloc: Global, types: &[CType]) -> Result<Many<CType>, AllocError>
    ensures { IfOk result (λ r. map plain r ≡ map plain types.now) }
{
    let mut copies = Many::new(alloc);
    for t in types {
        let copy = copied(t)?;
        copies.push(copy)?;
    }
    Ok(copies)
}

/// A copy of what a name means.
pub fn copied_meaning(alloc: Global, m: &Meaning) -> Result<Meaning, AllocError>
    ensures { IfOk result (λ r. meaning_of r ≡ meaning_of m.now) }
{
    match m {
        Meaning::Object { ctype, register } => {
            let ctype = copied(ctype)?;
            Ok(Meaning::Object {
                ctype,
                register: *register,
            })
        }
        Meaning::Function { result, parameters } => {
            let parameters = copied_all(alloc, parameters.as_slice())?;
            let result = copied(result)?;
            Ok(Meaning::Function { result, parameters })
        }
    }
}

/// What two declarations of a name that agree tell: the first, with the bound that either has.
pub fn composite(alloc: Global, s: &Meaning, t: &Meaning) -> Result<Meaning, AllocError>
    ensures { IfOk result (λ r. meaning_of r ≡ composite (meaning_of s.now) (meaning_of t.now)) }
{
    match s {
        Meaning::Object { ctype: a, register } => match t {
            Meaning::Object { ctype: b, .. } => {
                let ctype = bounded_one(a, b)?;
                Ok(Meaning::Object {
                    ctype,
                    register: *register,
                })
            }
            Meaning::Function { .. } => copied_meaning(alloc, s),
        },
        Meaning::Function { .. } => copied_meaning(alloc, s),
    }
}

/// Whether a name is a function from these types to `int`.
fn gives_int(m: &Meaning, wanted: &[CType]) -> bool
    ensures { result ≡ agree_as (meaning_of m.now) (Function Int (map plain wanted.now)) }
{
    match m {
        Meaning::Object { .. } => false,
        Meaning::Function { result, parameters } => {
            same(result, &CType::Int) && same_all(parameters.as_slice(), wanted)
        }
    }
}

/// Whether a name is a function from these types to `void`.
fn gives_nothing(m: &Meaning, wanted: &[CType]) -> bool
    ensures { result ≡ agree_as (meaning_of m.now) (Function Void (map plain wanted.now)) }
{
    match m {
        Meaning::Object { .. } => false,
        Meaning::Function { result, parameters } => {
            same(result, &CType::Void) && same_all(parameters.as_slice(), wanted)
        }
    }
}

/// Whether a name is that of a built-in.
pub fn is_built_in(name: &[u8]) -> bool
    ensures { result ≡ is_built_in name.now }
{
    name == b"getchar".as_slice() || name == b"putchar".as_slice() || name == b"exit".as_slice()
}

/// Whether a declaration of a name may stand beside a built-in of that name, which is declared only with its type and as external.
pub fn as_built_in(is_static: bool, name: &[u8], m: &Meaning) -> bool
    ensures { result ≡ declared_as_built_in is_static name.now (meaning_of m.now) }
{
    if name == b"getchar".as_slice() {
        return !is_static && gives_int(m, &[]);
    }
    if name == b"putchar".as_slice() {
        return !is_static && gives_int(m, &[CType::Int]);
    }
    if name == b"exit".as_slice() {
        return !is_static && gives_nothing(m, &[CType::Int]);
    }
    true
}

/// Whether a declaration of a name may be that of `main`, which is `int(void)`.
pub fn as_main(name: &[u8], m: &Meaning) -> bool
    ensures { result ≡ declared_as_main name.now (meaning_of m.now) }
{
    if name == b"main".as_slice() {
        gives_int(m, &[])
    } else {
        true
    }
}
