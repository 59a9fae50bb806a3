// The strings of parts of declarations.
ghost use Rattle.std.specs.Prelude.{◌≡◌, ◌++◌, map, OnOk};
ghost use Rattle.c_mentions.specs.Tags.{now};
ghost use Rattle.c_mentions.specs.Literals.{literal, texts, in_declarator, in_file_spec};

use crate::literals::{Literal, in_declarator, in_file_spec};
use c_trees::declaration::{Declarator, FileSpec};
use ldb_words::Text;
use std::alloc::{AllocError, Global};

/// The texts of some literals, in order.
fn add_texts<'a>(strings: &mut Vec<&'a Text>, found: &[Literal<'a>]) -> Result<(), AllocError>
    ensures { OnOk result (map now strings.new.items ≡ map now strings.old.items ++ texts (map literal found.now)) }
{
    for l in found {
        strings.push(l.text)?;
    }
    Ok(())
}

/// The strings of a declarator.
pub fn strings_in_declarator<'a>(
    alloc: Global,
    strings: &mut Vec<&'a Text>,
    d: &'a Declarator,
) -> Result<(), AllocError>
    ensures { OnOk result (map now strings.new.items ≡ map now strings.old.items ++ texts (in_declarator d.now)) }
{
    let mut found = Vec::new(alloc);
    in_declarator(&mut found, d)?;
    add_texts(strings, &found)
}

/// The strings of the type that a declaration begins with.
pub fn strings_in_spec<'a>(
    alloc: Global,
    strings: &mut Vec<&'a Text>,
    spec: &'a FileSpec,
) -> Result<(), AllocError>
    ensures { OnOk result (map now strings.new.items ≡ map now strings.old.items ++ texts (in_file_spec spec.now)) }
{
    let mut found = Vec::new(alloc);
    in_file_spec(&mut found, spec)?;
    add_texts(strings, &found)
}
