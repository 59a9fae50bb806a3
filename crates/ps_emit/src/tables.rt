// The table of a program that is placed.
ghost use Rattle.std.specs.Prelude.{◌≡◌, OnOk, IfOk};
ghost use Rattle.ps_emit.specs.Grown.{Grows};
ghost use Rattle.ps_emit.specs.Table.{target_name, anchor_code, anchors_code, top_code, table_text};

use crate::functions::add_units;
use crate::placement::Placement;
use crate::places::add_statics;
use crate::terms::{
    add_anchor_name, add_integer, add_name, add_number, add_string, add_word, following,
};
use crate::types::{add_structs, add_tags, fill_structs};
use crate::words::words_text;
use c_tree::Program;
use ldb_words::Text;
use machine_state::SPARC;
use std::alloc::{AllocError, Global};

/// The name of a target.
fn target_name(target: u8) -> &'static [u8]
    ensures { result.now ≡ target_name target }
{
    if target == SPARC { b"sparc" } else { b"mips" }
}

/// Adds the address of a static object or string under its name.
fn add_anchor(text: &mut Text, k: u32, address: u32) -> Result<(), AllocError>
    ensures { OnOk result (Grows (anchor_code k address) text.old text.new) }
{
    add_anchor_name(text, k)?;
    add_number(text, address)
}

/// Adds the addresses of static objects and strings under their names.
fn add_anchors(text: &mut Text, anchors: &[(Text, u32)]) -> Result<(), AllocError>
    ensures { OnOk result (Grows (anchors_code 0 anchors.now) text.old text.new) }
{
    let mut k: u32 = 0;
    for i in 0..anchors.len() {
        add_anchor(text, k, anchors[i].1)?;
        k = following(k)?;
    }
    Ok(())
}

/// Adds the dictionary that a table leaves.
fn add_top(
    alloc: Global,
    text: &mut Text,
    program: &Program,
    at: &Placement,
) -> Result<(), AllocError>
    ensures { OnOk result (Grows (top_code program.now at.now) text.old text.new) }
{
    add_word(text, b"<<")?;
    add_name(text, b"ldb")?;
    add_integer(text, 1)?;
    add_name(text, b"target")?;
    add_string(text, target_name(at.target))?;
    add_name(text, b"anchors")?;
    add_word(text, b"<<")?;
    add_anchors(text, at.anchors.as_slice())?;
    add_word(text, b">>")?;
    add_name(text, b"structs")?;
    add_word(text, b"<<")?;
    add_tags(text, program.defs.as_slice())?;
    add_word(text, b">>")?;
    add_name(text, b"objects")?;
    add_word(text, b"objects")?;
    add_name(text, b"units")?;
    add_word(text, b"[")?;
    add_units(
        alloc,
        text,
        program,
        at.functions.as_slice(),
        program.units.as_slice(),
    )?;
    add_word(text, b"]")?;
    add_word(text, b">>")
}

/// The table of a program that is placed so.
pub fn table(alloc: Global, program: &Program, at: &Placement) -> Result<Text, AllocError>
    ensures { IfOk result (λ t. t ≡ table_text program.now at.now) }
{
    let mut text = Text::from_slice(alloc, words_text())?;
    add_structs(&mut text, program.defs.as_slice())?;
    fill_structs(&mut text, program.defs.as_slice())?;
    add_statics(&mut text, program)?;
    add_top(alloc, &mut text, program, at)?;
    Ok(text)
}
