// The structs that an expression or a declaration stands among.
ghost use Rattle.std.specs.Prelude.{◌≡◌, if◌then◌else◌, drop, map, IfOk};
ghost use Rattle.c_tree.specs.Layout.{alignment_of, alignment_of_members, members_of};
ghost use Rattle.c_typing.specs.Plain.{plain};
ghost use Rattle.c_defs.specs.Members.{member_number, in_word, name_of};
ghost use Rattle.c_defs.specs.Numbers.{first_number};
ghost use Rattle.c_defs.specs.Depths.{deepest, is_within};
ghost use Rattle.c_defs.specs.Leaves.{leaf_count, leaves_of_members};
ghost use Rattle.c_defs.specs.Kept.{AreKept, bytes_aligned};

use crate::alignments::{any_wide, is_wide};
use crate::depths::depth;
use crate::leaf_counts::{leaf_count, leaves_behind};
use crate::rows::{StructRow, row_at};
use c_tree::{CType, Member, StructDef, members};
use std::alloc::AllocError;
use std::marker::Model;

/// The deepest that a type may be.
const DEEPEST: u32 = 64;

/// Structs by their numbers, and what is kept of them. What isn't kept is found by a walk over a struct's members.
#[derive(Drop)]
pub struct StructsView<'a, 'n> {
    defs: &'a [StructDef],
    rows: &'a [Option<StructRow<'n>>],
}

impl<'a, 'n> Model for StructsView<'a, 'n> {
    ghost use Rattle.std.specs.Prelude.{List};
    ghost use Rattle.c_tree.specs.declared.types.StructDef.{StructDef};
    ghost use Rattle.c_tree.specs.contracts.types.CType as ctype;
    ghost use Rattle.std.specs.Coded.{codes};

    ghost Value = { List StructDef };

    ghost coded = { Prim.hlevel (codes, ctype.the_row.coded) };

    ghost use Rattle.c_defs.specs.Kept.{AreKept};

    ghost view = { λ t. t.defs.now };

    ghost invariant = { λ t. AreKept t.defs.now t.rows.now };
}

impl<'a, 'n> StructsView<'a, 'n> {
    /// Structs of which nothing is kept.
    pub fn of(defs: &'a [StructDef]) -> StructsView<'a, 'n>
        ensures { result ≡ defs.now }
    {
        StructsView { defs, rows: &[] }
    }

    /// Structs with these rows.
    pub(crate) fn kept(
        defs: &'a [StructDef],
        rows: &'a [Option<StructRow<'n>>],
    ) -> StructsView<'a, 'n>
        requires { AreKept defs.now rows.now }
        ensures { result ≡ defs.now }
    {
        StructsView { defs, rows }
    }

    /// The structs.
    pub fn defs(&self) -> &'a [StructDef]
        ensures { result.now ≡ self.now }
    {
        self.defs
    }

    /// Whether a type is at most 64 deep.
    #[tactic(auto, unfolding(crate::specs::Depths::deepest))]
    pub fn is_shallow(&self, t: &CType) -> bool
        ensures { result ≡ is_within self.now deepest (plain t.now) }
    {
        depth(self.defs, self.rows, DEEPEST, t) <= DEEPEST
    }

    /// Whether a type is aligned at 4 bytes. The others are aligned at 1.
    pub fn is_wide(&self, t: &CType) -> bool
        ensures { alignment_of self.now t.now ≡ (if result then 4 else 1) }
    {
        is_wide(self.defs, self.rows, DEEPEST, t)
    }

    /// Whether one of some members is aligned at 4 bytes.
    pub fn any_wide(&self, members: &[Member]) -> bool
        ensures { alignment_of_members (alignment_of self.now) members.now ≡ (if result then 4 else 1) }
    {
        any_wide(self.defs, self.rows, DEEPEST, members)
    }

    /// How many leaves a type has. Where they are 2^32 or more, there is no memory for them.
    #[tactic(auto, unfolding(crate::specs::Depths::deepest))]
    pub fn leaf_count(&self, t: &CType) -> Result<u32, AllocError>
        ensures { IfOk result (λ n. n ≡ leaf_count self.now deepest (plain t.now)) }
    {
        leaf_count(self.defs, self.rows, DEEPEST, t)
    }

    /// How many leaves a struct's members have behind the first `k`. Where they are 2^32 or more, there is no memory for them.
    #[tactic(auto, unfolding(crate::specs::Depths::deepest))]
    pub fn leaves_behind(&self, s: u32, k: usize) -> Result<u32, AllocError>
        ensures { IfOk result (λ n. n ≡ leaves_of_members (leaf_count self.now deepest) (drop k (members_of self.now s))) }
    {
        leaves_behind(self.defs, self.rows, DEEPEST, s, k)
    }

    /// The number of a struct's member with a name.
    pub fn member_number(&self, t: &CType, name: &'n [u8]) -> Option<u32>
        ensures { result ≡ member_number self.now (plain t.now) name.now }
    {
        match t {
            CType::Struct(s) => match row_at(self.rows, *s) {
                Some(row) => row.number(name),
                None => number_among(members(self.defs, *s), name),
            },
            _ => None,
        }
    }
}

/// The number of the first member with a name.
fn number_among(members: &[Member], name: &[u8]) -> Option<u32>
    ensures { result ≡ in_word (first_number (map name_of members.now) name.now) }
{
    for i in 0..members.len() {
        if members[i].name.as_bytes() == name {
            return u32::try_from(i).ok();
        }
    }
    None
}
