// How deep and how large types are, and how much there is inside.

use c_tree::{CType, StructDef, members};

/// The largest size of a type.
const LARGEST: u32 = 1_048_576;

/// The most parts of a struct: a type of that size that is 64 deep has no more. A table by hand may tell sizes that are too small for
/// what stands inside; for a walk of such a struct there is no memory, and no time.
const MOST_PARTS: u32 = 67_108_864;

/// Whether a type is a struct.
pub fn is_struct(t: &CType) -> bool {
    match t {
        CType::Struct(_) => true,
        _ => false,
    }
}

/// A size, if it is at most 1,048,576.
fn limited(size: u64) -> Option<u32> {
    if size <= u64::from(LARGEST) {
        Some(size as u32)
    } else {
        None
    }
}

/// The size of a type, if it and each type that it leads to by items and pointers have at most 1,048,576 bytes.
pub fn small_size(defs: &[StructDef], t: &CType) -> Option<u32> {
    match t {
        CType::Char => Some(1),
        CType::Int | CType::Unsigned => Some(4),
        CType::Void => Some(0),
        CType::Pointer(to) => match small_size(defs, to) {
            Some(_) => Some(4),
            None => None,
        },
        CType::Array(item, n) => match small_size(defs, item) {
            Some(size) => limited(u64::from(size).wrapping_mul(u64::from(*n))),
            None => None,
        },
        CType::Struct(s) => match defs.get(*s as usize) {
            Some(def) => limited(u64::from(def.size)),
            None => Some(0),
        },
    }
}

/// How deep a type is, and how many parts it has: itself and those of its item or of its members, a struct counting anew wherever it
/// stands. A pointer to a struct is one part.
#[derive(Clone, Copy)]
pub struct Extent {
    pub depth: u32,
    pub parts: u32,
}

/// What stands for a struct that wasn't asked yet.
pub const UNASKED: Extent = Extent { depth: 0, parts: 0 };

/// The extent of what is around a type alone.
fn around(extent: Extent) -> Extent {
    Extent {
        depth: extent.depth.saturating_add(1),
        parts: extent.parts.saturating_add(1),
    }
}

/// The extent of two members, one beside the other.
fn beside(one: Extent, other: Extent) -> Extent {
    Extent {
        depth: one.depth.max(other.depth),
        parts: one.parts.saturating_add(other.parts),
    }
}

/// Why the extent of a type isn't told: the type is too deep, or has more than 67,108,864 parts.
#[derive(Clone, Copy)]
pub enum Beyond {
    Depth,
    Parts,
}

/// The extent of a type, if it is at most so deep and has at most 67,108,864 parts. Those of structs are remembered.
#[cycle(depth)]
pub fn extent_within(
    defs: &[StructDef],
    extents: &mut Vec<Extent>,
    deep: u32,
    t: &CType,
) -> Result<Extent, Beyond> {
    if deep == 0 {
        return Err(Beyond::Depth);
    }
    match t {
        CType::Char | CType::Int | CType::Unsigned | CType::Void => Ok(around(UNASKED)),
        CType::Pointer(to) => {
            if is_struct(to) {
                return Ok(around(UNASKED));
            }
            let target = extent_within(defs, extents, deep - 1, to)?;
            Ok(around(target))
        }
        CType::Array(item, _) => {
            let item = extent_within(defs, extents, deep - 1, item)?;
            Ok(around(item))
        }
        CType::Struct(s) => struct_extent(defs, extents, deep, *s),
    }
}

/// The extent of a struct, if it is at most so deep and has at most 67,108,864 parts: it is around its members.
#[cycle(depth)]
pub fn struct_extent(
    defs: &[StructDef],
    extents: &mut Vec<Extent>,
    deep: u32,
    s: u32,
) -> Result<Extent, Beyond> {
    if deep == 0 {
        return Err(Beyond::Depth);
    }
    let known = extents.get(s as usize).copied().unwrap_or(UNASKED);
    if known.depth > 0 {
        return if known.depth <= deep {
            Ok(known)
        } else {
            Err(Beyond::Depth)
        };
    }
    let mut inner = UNASKED;
    for member in members(defs, s) {
        match extent_within(defs, extents, deep - 1, &member.ctype) {
            Ok(extent) => inner = beside(inner, extent),
            Err(why) => return Err(why),
        }
    }
    let own = around(inner);
    if own.parts > MOST_PARTS {
        return Err(Beyond::Parts);
    }
    if let Some(place) = extents.get_mut(s as usize) {
        *place = own;
    }
    Ok(own)
}
