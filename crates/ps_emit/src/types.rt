// Types of a table, and its structs.
ghost use Rattle.std.specs.Prelude.{OnOk};
ghost use Rattle.ps_emit.specs.Grown.{Grows};
ghost use Rattle.ps_emit.specs.Terms.{item as item_code};
ghost use Rattle.ps_emit.specs.Types.{type_code, struct_code, each_struct, structs_code, member_code, each_member, filled_struct, filled_structs, tag_code, tags_code};

use crate::terms::{add_name, add_number, add_string, add_word, following};
use c_tree::{CType, Member, StructDef};
use ldb_words::Text;
use std::alloc::AllocError;

/// Adds a struct by its number.
fn add_struct_number(text: &mut Text, s: u32) -> Result<(), AllocError>
    ensures { OnOk result (Grows (item_code "structs" s) text.old text.new) }
{
    add_word(text, b"structs")?;
    add_number(text, s)?;
    add_word(text, b"get")
}

/// Adds a type.
pub fn add_type(text: &mut Text, t: &CType) -> Result<(), AllocError>
    ensures { OnOk result (Grows (type_code t.now) text.old text.new) }
{
    match t {
        CType::Char => add_word(text, b"char"),
        CType::Int => add_word(text, b"int"),
        CType::Unsigned => add_word(text, b"unsigned"),
        CType::Void => add_word(text, b"null"),
        CType::Pointer(to) => {
            add_type(text, to)?;
            add_word(text, b"PointerTo")
        }
        CType::Array(item, n) => {
            add_type(text, item)?;
            add_number(text, *n)?;
            add_word(text, b"ArrayOf")
        }
        CType::Struct(s) => add_struct_number(text, *s),
    }
}

/// Adds a struct without its members.
fn add_struct(text: &mut Text, def: &StructDef) -> Result<(), AllocError>
    ensures { OnOk result (Grows (struct_code def.now) text.old text.new) }
{
    add_name(text, def.tag.as_bytes())?;
    add_number(text, def.size)?;
    add_word(text, b"NewStruct")
}

/// Adds structs without their members.
fn add_each_struct(text: &mut Text, defs: &[StructDef]) -> Result<(), AllocError>
    ensures { OnOk result (Grows (each_struct defs.now) text.old text.new) }
{
    for def in defs {
        add_struct(text, def)?;
    }
    Ok(())
}

/// Adds the array of structs.
pub fn add_structs(text: &mut Text, defs: &[StructDef]) -> Result<(), AllocError>
    ensures { OnOk result (Grows (structs_code defs.now) text.old text.new) }
{
    add_name(text, b"structs")?;
    add_word(text, b"[")?;
    add_each_struct(text, defs)?;
    add_word(text, b"]")?;
    add_word(text, b"def")
}

/// Adds a member.
fn add_member(text: &mut Text, member: &Member) -> Result<(), AllocError>
    ensures { OnOk result (Grows (member_code member.now) text.old text.new) }
{
    add_word(text, b"[")?;
    add_string(text, member.name.as_bytes())?;
    add_number(text, member.at)?;
    add_type(text, &member.ctype)?;
    add_word(text, b"]")
}

/// Adds members.
fn add_members(text: &mut Text, members: &[Member]) -> Result<(), AllocError>
    ensures { OnOk result (Grows (each_member members.now) text.old text.new) }
{
    for member in members {
        add_member(text, member)?;
    }
    Ok(())
}

/// Puts a struct's members into it.
fn fill_struct(text: &mut Text, s: u32, members: &[Member]) -> Result<(), AllocError>
    ensures { OnOk result (Grows (filled_struct s members.now) text.old text.new) }
{
    add_struct_number(text, s)?;
    add_name(text, b"members")?;
    add_word(text, b"[")?;
    add_members(text, members)?;
    add_word(text, b"]")?;
    add_word(text, b"put")
}

/// Puts the members of structs into them.
pub fn fill_structs(text: &mut Text, defs: &[StructDef]) -> Result<(), AllocError>
    ensures { OnOk result (Grows (filled_structs 0 defs.now) text.old text.new) }
{
    let mut s: u32 = 0;
    for def in defs {
        fill_struct(text, s, def.members.as_slice())?;
        s = following(s)?;
    }
    Ok(())
}

/// Adds a tag and its struct.
fn add_tag(text: &mut Text, s: u32, def: &StructDef) -> Result<(), AllocError>
    ensures { OnOk result (Grows (tag_code s def.now) text.old text.new) }
{
    add_name(text, def.tag.as_bytes())?;
    add_struct_number(text, s)
}

/// Adds the tags of structs, each with its struct.
pub fn add_tags(text: &mut Text, defs: &[StructDef]) -> Result<(), AllocError>
    ensures { OnOk result (Grows (tags_code 0 defs.now) text.old text.new) }
{
    let mut s: u32 = 0;
    for def in defs {
        add_tag(text, s, def)?;
        s = following(s)?;
    }
    Ok(())
}
