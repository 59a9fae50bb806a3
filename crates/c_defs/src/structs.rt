// The structs of a file, which are completed one after the other.
ghost use Rattle.std.specs.Prelude.{◌≡◌, ◌<◌, [], List, map, length, slice_set, IfOk};
ghost use Rattle.c_tree.specs.Layout.{members_of};
ghost use Rattle.c_defs.specs.Numbers.{Finds};
ghost use Rattle.c_defs.specs.Members.{name_of};
ghost use Rattle.c_defs.specs.Kept.{AreKept, IsKept};

use crate::alignments::any_wide;
use crate::depths::deepest;
use crate::leaf_counts::leaves_of_members;
use crate::numbers::Numbers;
use crate::rows::{StructRow, are_settled};
use crate::view::StructsView;
use c_tree::{Member, StructDef};
use std::alloc::{AllocError, Global};
use std::marker::Model;

/// The deepest that a member may be.
const DEEPEST_MEMBER: u32 = 63;

/// Structs by their numbers, with what is kept of each that was completed here.
#[derive(Drop)]
pub struct Structs<'n> {
    defs: Vec<StructDef>,
    rows: Vec<Option<StructRow<'n>>>,
}

impl<'n> Model for Structs<'n> {
    ghost use Rattle.std.specs.Prelude.{◌≡◌, List, length};
    ghost use Rattle.c_tree.specs.declared.types.StructDef.{StructDef};
    ghost use Rattle.c_tree.specs.contracts.types.CType as ctype;
    ghost use Rattle.std.specs.Coded.{codes};

    ghost Value = { List StructDef };

    ghost coded = { Prim.hlevel (codes, ctype.the_row.coded) };

    ghost use Rattle.c_defs.specs.Kept.{AreKept};

    ghost view = { λ t. t.defs.items };

    ghost invariant = { λ t. AreKept t.defs.items t.rows.items × (length t.rows.items ≡ length t.defs.items) };
}

/// What is kept of a struct with these members, which have these numbers; nothing where it has none, or where it holds a struct of which nothing is
/// kept.
fn row_of<'n>(
    defs: &[StructDef],
    rows: &[Option<StructRow<'n>>],
    members: &[Member],
    numbers: Numbers<'n>,
) -> Option<StructRow<'n>>
    requires kept { AreKept defs.now rows.now }
    requires numbers { Finds numbers (map name_of members.now) }
    ensures { IsKept defs.now rows.now members.now result }
{
    if members.is_empty() || !are_settled(rows, members) {
        return None;
    }
    Some(StructRow {
        deepest: deepest(defs, rows, DEEPEST_MEMBER, members),
        wide: any_wide(defs, rows, DEEPEST_MEMBER, members),
        leaves: leaves_of_members(defs, rows, DEEPEST_MEMBER, members).ok(),
        numbers,
    })
}

/// So many structs of which nothing is kept.
fn none_kept<'n>(alloc: Global, n: usize) -> Result<Vec<Option<StructRow<'n>>>, AllocError>
    ensures { IfOk result (λ rows. (length rows.items ≡ n) × ((defs : List StructDef) → AreKept defs rows.items)) }
{
    let mut rows = Vec::new(alloc);
    for _ in 0..n {
        rows.push(None)?;
    }
    Ok(rows)
}

impl<'n> Structs<'n> {
    /// These structs. Nothing is kept of those that are complete already.
    pub fn new(alloc: Global, defs: Vec<StructDef>) -> Result<Structs<'n>, AllocError>
        ensures { IfOk result (λ t. t ≡ defs.items) }
    {
        let rows = none_kept(alloc, defs.len())?;
        Ok(Structs { defs, rows })
    }

    /// How many there are.
    pub fn len(&self) -> usize
        ensures { result ≡ length self.now }
    {
        self.defs.len()
    }

    /// The structs.
    pub fn defs(&self) -> &[StructDef]
        ensures { result.now ≡ self.now }
    {
        &self.defs
    }

    /// The structs as expressions and declarations see them.
    pub fn view<'a>(&'a self) -> StructsView<'a, 'n>
        ensures { result ≡ self.now }
    {
        StructsView::kept(&self.defs, &self.rows)
    }

    /// Completes a struct that has no members yet, whose members have these numbers by their names.
    pub fn complete(&mut self, s: u32, def: StructDef, numbers: Numbers<'n>)
        requires number { s < length self.old }
        requires incomplete { members_of self.old s ≡ [] }
        requires numbers { Finds numbers (map name_of def.members) }
        ensures { self.new ≡ slice_set self.old s def }
    {
        self.rows[s as usize] = row_of(&self.defs, &self.rows, def.members.as_slice(), numbers);
        self.defs[s as usize] = def;
    }

    /// The structs alone.
    pub fn into_defs(self) -> Vec<StructDef>
        ensures { result.items ≡ self.entry }
    {
        self.defs
    }
}
