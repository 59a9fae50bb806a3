// Objects made into an image.

ghost use Rattle.std.specs.Prelude.{◌≡◌, ◌⊎◌, ◌≤◌, ◌%◌, ◌^◌, IfOk, IfErr, true, length};
ghost use Rattle.std.specs.List.{list_all};
ghost use Rattle.machine_state.specs.declared.layout.TheConstants.{MIPS as KNOWN_MIPS, SPARC as KNOWN_SPARC, TEXT as FIRST_TEXT};
ghost use Rattle.link_image.specs.Conditions.{is_known, is_for, are_for_one, is_sized, IsFault};
ghost use Rattle.link_image.specs.Links.{Links};

use crate::anchors::anchors_of;
use crate::fault::LinkFault;
use crate::inside::{are_for, have_rows_inside, have_whole_words};
use crate::names::addresses_of;
use crate::rows::rows_of;
use crate::statics::statics_of;
use crate::texts::text_of;
use ldb_words::Many;
use machine_state::TEXT;
use obj_file::{Image, LoaderRows, Object};
use std::alloc::Global;

/// How many bytes a text has at most.
const MOST_TEXT: usize = 0x0100_0000;

/// Whether the texts of objects together may be that of an image.
fn is_sized(text: &[u8]) -> bool
    ensures { result ≡ is_sized text.now }
{
    text.len() >= 4 && text.len() <= MOST_TEXT
}

/// The target that all objects are for.
fn target_of(objects: &[Object]) -> Result<u8, LinkFault>
    ensures one { IfOk result (λ t. are_for_one objects.now ≡ true) }
    ensures known { IfOk result (λ t. is_known t ≡ true) }
    ensures each { IfOk result (λ t. list_all (is_for t) objects.now ≡ true) }
    ensures fault { IfErr result (λ f. IsFault objects.now f) }
{
    if objects.is_empty() {
        return Err(LinkFault::Size);
    }
    let target = objects[0].target;
    if are_for(target, objects) {
        Ok(target)
    } else {
        Err(LinkFault::Target)
    }
}

/// The image of some objects, which begins with the first word of the text, and where their static objects and functions
/// stand; or what is wrong with the objects, where no image is made of them.
pub fn link(alloc: Global, objects: &[Object]) -> Result<(Image, LoaderRows), LinkFault>
    ensures { Links objects.now result }
{
    let target = target_of(objects)?;
    if !have_whole_words(objects) {
        return Err(LinkFault::Words);
    }
    if !have_rows_inside(objects) {
        return Err(LinkFault::Rows);
    }
    let anchors = anchors_of(alloc, objects)?;
    let functions = rows_of(alloc, objects)?;
    let addresses = addresses_of(alloc, objects)?;
    let text = text_of(alloc, &addresses, objects)?;
    if !is_sized(&text) {
        return Err(LinkFault::Size);
    }
    let statics = statics_of(alloc, &addresses, objects)?;
    let image = Image::new(target, TEXT, text, statics);
    let rows = LoaderRows {
        anchors: Many::from_vec(anchors),
        functions: Many::from_vec(functions),
    };
    Ok((image, rows))
}
