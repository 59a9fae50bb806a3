// Members of structs (C90 6.5.2.1).
ghost use Rattle.std.specs.Prelude.{◌≡◌, ◌∷◌, ◌++◌, [], map, IfOk, OnOk, not, ◌&&◌};
ghost use Rattle.c_typing.specs.Plain.{plain};
ghost use Rattle.c_typing.specs.Declarations.{is_named};
ghost use Rattle.c_struct.specs.Structs.{written, written_names, object_member, same_members, agrees};
ghost use Rattle.c_struct.specs.Opened.{written_member, members_in, HasNames, Adds};

use c_defs::Numbers;
use c_judge::{Fault, is_complete, same};
use c_tree::{CType, Member, StructDef, members};
use ldb_words::Text;
use std::alloc::{AllocError, Global};

/// A member without where it stands: its name and its type.
#[derive(Drop)]
pub struct WrittenMember<'a> {
    pub name: &'a Text,
    pub ctype: CType,
}

/// A struct whose `}` is still to come: where it begins, its tag, and its members so far, and their numbers by their names.
#[derive(Drop)]
pub struct OpenStruct<'a> {
    pub at: u32,
    pub tag: &'a Text,
    pub members: Vec<WrittenMember<'a>>,
    pub names: Numbers<'a>,
}

/// A struct without members yet.
pub fn opened<'a>(alloc: Global, at: u32, tag: &'a Text) -> OpenStruct<'a>
    ensures begun { result.at ≡ at }
    ensures tagged { result.tag.now ≡ tag.now }
    ensures members { members_in result ≡ [] }
    ensures names { HasNames result }
{
    OpenStruct {
        at,
        tag,
        members: Vec::new(alloc),
        names: Numbers::new(alloc),
    }
}

/// Adds a member at the end.
fn push<'a>(
    members: &mut Vec<WrittenMember<'a>>,
    member: WrittenMember<'a>,
) -> Result<(), AllocError>
    ensures { OnOk result (members.new.items ≡ members.old.items ++ member.entry ∷ []) }
{
    members.push(member)?;
    Ok(())
}

/// Whether a struct has a member with a name.
fn has_member<'a>(o: &OpenStruct<'a>, name: &'a Text) -> bool
    requires { HasNames o.now }
    ensures { result ≡ is_named (written_names (members_in o.now)) name.now }
{
    o.names.find(name.as_bytes()).is_some()
}

/// Adds an object as a member to a struct. Breaks rule 3 where its type is not complete, or another member has its name; then nothing is added.
pub fn add_member<'a>(
    defs: &[StructDef],
    o: &mut OpenStruct<'a>,
    at: u32,
    name: &'a Text,
    ctype: CType,
) -> Result<(), Fault>
    requires { HasNames o.old }
    ensures added { Adds (object_member defs.now (members_in o.old) at name.now (plain ctype)) o.new result }
    ensures place { o.new.at ≡ o.old.at }
    ensures tag { o.new.tag ≡ o.old.tag }
{
    if !is_complete(defs, &ctype) || has_member(o, name) {
        return Err(Fault::Rule { rule: 3, at });
    }
    let Ok(number) = u32::try_from(o.members.len()) else {
        return Err(Fault::NoMemory);
    };
    o.names.set(name.as_bytes(), number)?;
    push(&mut o.members, WrittenMember { name, ctype })?;
    Ok(())
}

/// Whether the members of a struct have these names and types, in this order.
#[tactic(auto, using(crate::proofs::Opening::other_members))]
fn same_members(members: &[Member], others: &[WrittenMember]) -> bool
    ensures { result ≡ same_members (map written members.now) (map written_member others.now) }
{
    if members.len() != others.len() {
        return false;
    }
    for (i, m) in members.iter().enumerate() {
        if m.name.as_bytes() != others[i].name.as_bytes() || !same(&m.ctype, &others[i].ctype) {
            return false;
        }
    }
    true
}

/// Whether the files before complete a struct with these members, or do not complete it.
pub fn agrees(others: &[StructDef], number: u32, o: &OpenStruct) -> bool
    ensures { result ≡ agrees others.now number (members_in o.now) }
{
    let known = members(others, number);
    known.is_empty() || same_members(known, &o.members)
}
