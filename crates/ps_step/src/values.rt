//! What the operands of operators are read as, and what stands in arrays, strings and dictionaries.

ghost use Rattle.std.specs.Prelude.{◌≡◌};
ghost use Rattle.ps_step.specs.Values.{procedure_of, count_of, array_of, dict_of, string_of, byte_of, as_count, length_of, element_at, byte_at};

use crate::fault::PsError;
use ps_store::{ArrayId, DictId, PsObj, PsStore, StringId};

/// The procedure that an object is.
pub fn procedure_of(object: PsObj) -> Result<ArrayId, PsError>
    ensures { result ≡ procedure_of object }
{
    match object {
        PsObj::Array(a, true) => Ok(a),
        _ => Err(PsError::TypeCheck),
    }
}

/// The count that an object is.
pub fn count_of(object: PsObj) -> Result<u32, PsError>
    ensures { result ≡ count_of object }
{
    match object {
        PsObj::Int(n) => {
            if 0 <= n {
                Ok(n.unsigned_abs())
            } else {
                Err(PsError::RangeCheck)
            }
        }
        _ => Err(PsError::TypeCheck),
    }
}

/// The array that an object is.
pub fn array_of(object: PsObj) -> Result<ArrayId, PsError>
    ensures { result ≡ array_of object }
{
    match object {
        PsObj::Array(a, _) => Ok(a),
        _ => Err(PsError::TypeCheck),
    }
}

/// The dictionary that an object is.
pub fn dict_of(object: PsObj) -> Result<DictId, PsError>
    ensures { result ≡ dict_of object }
{
    match object {
        PsObj::Dict(d) => Ok(d),
        _ => Err(PsError::TypeCheck),
    }
}

/// The string that an object is, and whether it is executable.
pub fn string_of(object: PsObj) -> Result<(StringId, bool), PsError>
    ensures { result ≡ string_of object }
{
    match object {
        PsObj::Str(t, executable) => Ok((t, executable)),
        _ => Err(PsError::TypeCheck),
    }
}

/// The byte that an object is.
pub fn byte_of(object: PsObj) -> Result<u8, PsError>
    ensures { result ≡ byte_of object }
{
    let n = count_of(object)?;
    if n <= 255 {
        Ok(n as u8)
    } else {
        Err(PsError::RangeCheck)
    }
}

/// A count as an integer.
pub fn as_count(n: usize) -> Result<PsObj, PsError>
    ensures { result ≡ as_count n }
{
    if n <= 2_147_483_647 {
        Ok(PsObj::Int(n as i32))
    } else {
        Err(PsError::RangeCheck)
    }
}

/// How many elements, bytes or pairs an object has.
pub fn length_of(store: &PsStore, whole: PsObj) -> Result<usize, PsError>
    ensures { result ≡ length_of store.now whole }
{
    match whole {
        PsObj::Array(a, _) => Ok(store.array_get(a).len()),
        PsObj::Str(t, _) | PsObj::Name(t, _) => Ok(store.string_get(t).len()),
        PsObj::Dict(d) => Ok(store.dict_len(d)),
        _ => Err(PsError::TypeCheck),
    }
}

/// An element of an array.
pub fn element_at(store: &PsStore, a: ArrayId, at: u32) -> Result<PsObj, PsError>
    ensures { result ≡ element_at store.now a at }
{
    match store.array_get(a).get(at as usize) {
        Some(x) => Ok(*x),
        None => Err(PsError::RangeCheck),
    }
}

/// A byte of a string.
pub fn byte_at(store: &PsStore, t: StringId, at: u32) -> Result<PsObj, PsError>
    ensures { result ≡ byte_at store.now t at }
{
    match store.string_get(t).get(at as usize) {
        Some(byte) => Ok(PsObj::Int(i32::from(*byte))),
        None => Err(PsError::RangeCheck),
    }
}
