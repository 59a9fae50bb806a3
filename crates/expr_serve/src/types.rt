// Types of C as dictionaries that a text makes anew.
ghost use Rattle.std.specs.Prelude.{◌≡◌, suc, length, OnOk, IfOk};
ghost use Rattle.ldb_words.specs.Word.{signed};
ghost use Rattle.ps_text.specs.Code.{Stop, Num};
ghost use Rattle.ps_emit.specs.Grown.{Grows};
ghost use Rattle.expr_serve.specs.Types.{type_code, row_code, each_row, filled_struct, filled_structs, struct_leaves};
ghost use Rattle.expr_serve.specs.Codes.{all_leaves};

use crate::emit::{add_number, add_size, add_word};
use c_tree::{CType, Member, StructDef};
use ldb_words::Text;
use std::alloc::AllocError;

/// Adds a type.
fn add_type(text: &mut Text, t: &CType, defs: &[StructDef]) -> Result<(), AllocError>
    ensures { OnOk result (Grows (type_code defs.now t.now) text.old text.new) }
{
    match t {
        CType::Char => add_word(text, b"c"),
        CType::Int => add_word(text, b"w"),
        CType::Unsigned => add_word(text, b"w"),
        CType::Void => add_word(text, b"null"),
        CType::Pointer(_) => add_word(text, b"p"),
        CType::Array(item, n) => {
            text.append(b"<< /kind /array /size ")?;
            add_size(text, t, defs)?;
            text.append(b"/count ")?;
            add_number(text, *n)?;
            text.append(b"/to ")?;
            add_type(text, item, defs)?;
            add_word(text, b">>")
        }
        CType::Struct(s) => {
            add_number(text, *s)?;
            add_word(text, b"load")
        }
    }
}

/// Adds a member.
fn add_row(text: &mut Text, member: &Member, defs: &[StructDef]) -> Result<(), AllocError>
    ensures { OnOk result (Grows (row_code defs.now member.now) text.old text.new) }
{
    text.append(b"[ () ")?;
    add_number(text, member.at)?;
    add_type(text, &member.ctype, defs)?;
    add_word(text, b"]")
}

/// Adds members.
fn add_rows(text: &mut Text, members: &[Member], defs: &[StructDef]) -> Result<(), AllocError>
    ensures { OnOk result (Grows (each_row defs.now members.now) text.old text.new) }
{
    for member in members {
        add_row(text, member, defs)?;
    }
    Ok(())
}

/// Adds the size and the members of a struct.
fn fill_struct(
    text: &mut Text,
    s: u32,
    def: &StructDef,
    defs: &[StructDef],
) -> Result<(), AllocError>
    ensures { OnOk result (Grows (filled_struct defs.now s def.now) text.old text.new) }
{
    add_number(text, s)?;
    text.append(b"load dup /size ")?;
    add_number(text, def.size)?;
    text.append(b"put /members [ ")?;
    add_rows(text, def.members.as_slice(), defs)?;
    text.append(b"] put ")
}

/// The number behind one, if there is one.
fn following(n: u32) -> Result<u32, AllocError>
    ensures { IfOk result (λ m. m ≡ suc n) }
{
    n.checked_add(1).ok_or(AllocError)
}

/// Adds the sizes and the members of all structs.
fn fill_structs(text: &mut Text, defs: &[StructDef]) -> Result<(), AllocError>
    ensures { OnOk result (Grows (filled_structs defs.now 0 defs.now) text.old text.new) }
{
    let mut s: u32 = 0;
    for def in defs {
        fill_struct(text, s, def, defs)?;
        s = following(s)?;
    }
    Ok(())
}

/// Adds how many structs there are.
fn add_count(text: &mut Text, defs: &[StructDef]) -> Result<(), AllocError>
    ensures { OnOk result (Grows (Num (signed (length defs.now)) Stop) text.old text.new) }
{
    match u32::try_from(defs.len()) {
        Ok(count) => add_number(text, count),
        Err(_) => Err(AllocError),
    }
}

/// Adds that all leaves of a struct are live where a pointer leads.
fn add_struct_leaves(text: &mut Text, s: u32, defs: &[StructDef]) -> Result<(), AllocError>
    ensures { OnOk result (Grows (struct_leaves defs.now s) text.old text.new) }
{
    text.append(
        b"1 dict begin /c << /kind /char /size 1 >> def /w << /kind /int /size 4 >> def /p << /kind /pointer /size 4 /to << /kind /struct >> >> def 0 1 ",
    )?;
    add_count(text, defs)?;
    text.append(b"{ << /kind /struct >> def } for ")?;
    fill_structs(text, defs)?;
    add_number(text, s)?;
    text.append(b"load end Leaf ")
}

/// Adds that all leaves of the struct at a pointer are live.
pub fn add_leaves(text: &mut Text, t: &CType, defs: &[StructDef]) -> Result<(), AllocError>
    ensures { OnOk result (Grows (all_leaves defs.now t.now) text.old text.new) }
{
    match t {
        CType::Struct(s) => add_struct_leaves(text, *s, defs),
        _ => Ok(()),
    }
}
