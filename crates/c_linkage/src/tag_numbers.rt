// The tags of a program with their numbers.
ghost use Rattle.std.specs.Prelude.{◌≡◌, ◌∷◌, ◌++◌, [], map, IfOk, OnOk};
ghost use Rattle.c_defs.specs.Numbers.{Finds};
ghost use Rattle.c_mentions.specs.Tags.{now, in_all, in_external, each_once};
ghost use Rattle.c_linkage.specs.FileTags.{externals_of, tags_of};

use c_defs::Numbers;
use c_mentions::in_externals;
use c_trees::unit::Unit;
use ldb_words::Text;
use std::alloc::{AllocError, Global};

/// Tags, each once, with their numbers.
#[derive(Drop)]
pub struct TagList<'a> {
    pub tags: Vec<&'a Text>,
    pub numbers: Numbers<'a>,
}

/// Adds a tag that may be there already.
#[tactic(auto, using(crate::proofs::Once::again))]
fn add<'a>(
    tags: &mut Vec<&'a Text>,
    numbers: &mut Numbers<'a>,
    tag: &'a Text,
) -> Result<(), AllocError>
    requires { Finds numbers.old (map now tags.old.items) }
    ensures tags { OnOk result (map now tags.new.items ≡ each_once (map now tags.old.items) (tag.now ∷ [])) }
    ensures numbers { OnOk result (Finds numbers.new (map now tags.new.items)) }
{
    let name = tag.as_bytes();
    if numbers.find(name).is_some() {
        return Ok(());
    }
    let Ok(number) = u32::try_from(tags.len()) else {
        return Err(AllocError);
    };
    numbers.set(name, number)?;
    tags.push(tag)?;
    Ok(())
}

/// Tags, each once, in the order of their first places. Fails also where there are 2^32.
#[tactic(auto, using(crate::proofs::Once::one_more))]
fn each_once<'a>(alloc: Global, found: &[&'a Text]) -> Result<TagList<'a>, AllocError>
    ensures tags { IfOk result (λ l. map now l.tags.items ≡ each_once [] (map now found.now)) }
    ensures numbers { IfOk result (λ l. Finds l.numbers (map now l.tags.items)) }
{
    let mut tags = Vec::new(alloc);
    let mut numbers = Numbers::new(alloc);
    for tag in found {
        add(&mut tags, &mut numbers, *tag)?;
    }
    Ok(TagList { tags, numbers })
}

/// The tags that some files mention, in order.
fn mentioned<'a>(alloc: Global, units: &'a [Unit]) -> Result<Vec<&'a Text>, AllocError>
    ensures { IfOk result (λ l. map now l.items ≡ in_all (in_all in_external) (map externals_of units.now)) }
{
    let mut found = Vec::new(alloc);
    for unit in units {
        in_externals(&mut found, unit.externals.as_slice())?;
    }
    Ok(found)
}

/// The tags of the structs of a program, each once, in the order of the text, with their numbers.
pub fn tags_of<'a>(alloc: Global, units: &'a [Unit]) -> Result<TagList<'a>, AllocError>
    ensures tags { IfOk result (λ l. map now l.tags.items ≡ tags_of (map externals_of units.now)) }
    ensures numbers { IfOk result (λ l. Finds l.numbers (map now l.tags.items)) }
{
    let found = mentioned(alloc, units)?;
    each_once(alloc, &found)
}
