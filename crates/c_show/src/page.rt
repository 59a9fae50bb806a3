// A page on which a value is shown leaf by leaf.
ghost use Rattle.std.specs.Prelude.{◌≡◌, ◌++◌, ◌+◌, ◌-◌, ℕ, List, [], Some, map, take, drop, replicate, codes, OnOk, IfOk};
ghost use Rattle.c_tree.specs.Types.{target_of};
ghost use Rattle.c_tree.specs.Layout.{members_of};
ghost use Rattle.c_show.specs.Printed.{put_scalar, put_string, put_array, put_items, put_within, in_braces, leaf_text, is_char, Told};
ghost use Rattle.c_show.specs.Seen.{seen, before_item};

use crate::Held;
use crate::letters::{put_array_text, put_number, put_pointer};
use c_tree::{CType, Member, StructDef, members};
use ldb_words::Text;
use std::alloc::{AllocError, Global};

/// What was written, and how many items may still be.
#[derive(Drop)]
pub struct Page {
    pub text: Text,
    pub room: u32,
}

/// Whether a type is `char`.
fn is_char(t: &CType) -> bool
    ensures { result ≡ is_char (Some t.now) }
{
    matches!(t, CType::Char)
}

/// Whether a type is a pointer to `char`.
fn is_to_char(t: &CType) -> bool
    ensures { result ≡ is_char (target_of t.now) }
{
    match t {
        CType::Pointer(of) | CType::Array(of, _) => is_char(of),
        _ => false,
    }
}

/// Adds what a leaf of a type holds.
fn put_leaf(alloc: Global, text: &mut Text, t: &CType, leaf: &Held) -> Result<(), AllocError>
    ensures { OnOk result (text.new ≡ text.old ++ leaf_text t.now (Told leaf.now)) }
{
    match leaf {
        Held::Number(bits) => put_number(alloc, text, t, *bits),
        Held::Null => text.append(b"0"),
        Held::At {
            label,
            offset,
            string,
        } => put_pointer(
            alloc,
            text,
            is_to_char(t),
            label.as_bytes(),
            *offset,
            string,
        ),
    }
}

/// Adds a scalar, which is the first of the leaves, and gives those behind it.
fn put_scalar<'a>(
    alloc: Global,
    page: &mut Page,
    t: &CType,
    leaves: &'a [Held],
) -> Result<&'a [Held], AllocError>
    ensures { IfOk result (λ more. seen page.new more.now ≡ put_scalar t.now (seen page.old leaves.now)) }
{
    page.room = page.room.saturating_sub(1);
    match leaves {
        [] => Ok(leaves),
        [leaf, more @ ..] => {
            put_leaf(alloc, &mut page.text, t, leaf)?;
            Ok(more)
        }
    }
}

/// The first leaves, or all where there are fewer.
fn front(leaves: &[Held], n: usize) -> &[Held]
    ensures { result.now ≡ take n leaves.now }
{
    if n < leaves.len() {
        &leaves[..n]
    } else {
        leaves
    }
}

/// The leaves behind the first ones.
fn behind(leaves: &[Held], n: usize) -> &[Held]
    ensures { result.now ≡ drop n leaves.now }
{
    if n < leaves.len() { &leaves[n..] } else { &[] }
}

/// Adds a char array of so many leaves, and gives those behind it.
fn put_string<'a>(page: &mut Page, n: u32, leaves: &'a [Held]) -> Result<&'a [Held], AllocError>
    ensures { IfOk result (λ more. seen page.new more.now ≡ put_string n (seen page.old leaves.now)) }
{
    page.room = page.room.saturating_sub(1);
    put_array_text(&mut page.text, front(leaves, n as usize))?;
    Ok(behind(leaves, n as usize))
}

/// Adds what stands before an item of a list.
fn put_separator(page: &mut Page, i: usize) -> Result<(), AllocError>
    ensures { OnOk result (page.new ≡ record page.old { text = page.old.text ++ before_item i }) }
{
    if i == 0 {
        return Ok(());
    }
    page.text.append(b", ")
}

/// Adds the items of an array, and gives the leaves behind them.
#[cycle(show)]
fn put_items<'a>(
    alloc: Global,
    page: &mut Page,
    item: &CType,
    n: u32,
    defs: &[StructDef],
    leaves: &'a [Held],
    deep: u32,
) -> Result<&'a [Held], AllocError>
    ensures { IfOk result (λ more. seen page.new more.now ≡ put_items [] (replicate n (put_within defs.now deep item.now)) (seen page.old leaves.now)) }
{
    let mut leaves = leaves;
    for i in 0..n {
        put_separator(page, i as usize)?;
        if page.room == 0 {
            page.text.append(b"...")?;
            return Ok(leaves);
        }
        leaves = put_within(alloc, page, item, defs, leaves, deep)?;
    }
    Ok(leaves)
}

/// Adds the members of a struct, and gives the leaves behind them.
#[cycle(show)]
fn put_members<'a>(
    alloc: Global,
    page: &mut Page,
    members: &[Member],
    defs: &[StructDef],
    leaves: &'a [Held],
    deep: u32,
) -> Result<&'a [Held], AllocError>
    ensures { IfOk result (λ more. seen page.new more.now ≡ put_items [] (map (λ m. put_within defs.now deep m.ctype) members.now) (seen page.old leaves.now)) }
{
    let mut leaves = leaves;
    for i in 0..members.len() {
        put_separator(page, i)?;
        if page.room == 0 {
            page.text.append(b"...")?;
            return Ok(leaves);
        }
        leaves = put_within(alloc, page, &members[i].ctype, defs, leaves, deep)?;
    }
    Ok(leaves)
}

/// Adds an array, and gives the leaves behind it.
#[cycle(show)]
fn put_array<'a>(
    alloc: Global,
    page: &mut Page,
    item: &CType,
    n: u32,
    defs: &[StructDef],
    leaves: &'a [Held],
    deep: u32,
) -> Result<&'a [Held], AllocError>
    ensures { IfOk result (λ more. seen page.new more.now ≡ put_array item.now n (put_within defs.now deep item.now) (seen page.old leaves.now)) }
{
    if is_char(item) {
        return put_string(page, n, leaves);
    }
    page.text.append(b"{")?;
    let leaves = put_items(alloc, page, item, n, defs, leaves, deep)?;
    page.text.append(b"}")?;
    Ok(leaves)
}

/// Adds a struct, and gives the leaves behind it.
#[cycle(show)]
fn put_struct<'a>(
    alloc: Global,
    page: &mut Page,
    s: u32,
    defs: &[StructDef],
    leaves: &'a [Held],
    deep: u32,
) -> Result<&'a [Held], AllocError>
    ensures { IfOk result (λ more. seen page.new more.now ≡ in_braces (map (λ m. put_within defs.now deep m.ctype) (members_of defs.now s)) (seen page.old leaves.now)) }
{
    page.text.append(b"{")?;
    let leaves = put_members(alloc, page, members(defs, s), defs, leaves, deep)?;
    page.text.append(b"}")?;
    Ok(leaves)
}

/// Adds a value of a type of at most this depth, and gives the leaves behind it.
#[cycle(show)]
pub fn put_within<'a>(
    alloc: Global,
    page: &mut Page,
    t: &CType,
    defs: &[StructDef],
    leaves: &'a [Held],
    deep: u32,
) -> Result<&'a [Held], AllocError>
    ensures { IfOk result (λ more. seen page.new more.now ≡ put_within defs.now deep t.now (seen page.old leaves.now)) }
{
    if deep == 0 {
        return Ok(leaves);
    }
    match t {
        CType::Char | CType::Int | CType::Unsigned | CType::Pointer(_) => {
            put_scalar(alloc, page, t, leaves)
        }
        CType::Void => Ok(leaves),
        CType::Array(item, n) => put_array(alloc, page, item, *n, defs, leaves, deep - 1),
        CType::Struct(s) => put_struct(alloc, page, *s, defs, leaves, deep - 1),
    }
}
