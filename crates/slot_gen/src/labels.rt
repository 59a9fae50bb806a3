// The labels of a `switch`.
ghost use Rattle.std.specs.Prelude.{◌≡◌, ◌++◌, OnOk};
ghost use Rattle.slot_gen.specs.Statements.{constants_of, is_default as default_here, targets_at, seek_code};
ghost use Rattle.slot_gen.specs.Emission.{first_default_at};

use crate::emit::put;
use c_tree::Stmt;
use slot_ir::SlotOp;
use std::alloc::AllocError;

/// A comparison for each `case` directly before a statement, which goes to a place.
pub fn put_labels(labels: &mut Vec<SlotOp>, place: u32, s: &Stmt) -> Result<(), AllocError>
    ensures { OnOk result (labels.new.items ≡ labels.old.items ++ seek_code (targets_at place (constants_of s.now))) }
{
    match s {
        Stmt::Case(_, bits, s) => {
            put(
                labels,
                SlotOp::JumpIfEqual {
                    at: 0,
                    bits: *bits,
                    place,
                },
            )?;
            put_labels(labels, place, s)
        }
        Stmt::Default(_, s) => put_labels(labels, place, s),
        _ => Ok(()),
    }
}

/// Whether `default` stands directly before a statement.
pub fn is_default(s: &Stmt) -> bool
    ensures { result ≡ default_here s.now }
{
    match s {
        Stmt::Case(_, _, s) => is_default(s),
        Stmt::Default(_, _) => true,
        _ => false,
    }
}

/// The place of `default`, where it has been met or stands directly before a statement at a place.
pub fn first_default(found: Option<u32>, at: u32, s: &Stmt) -> Option<u32>
    ensures { result ≡ first_default_at found at (default_here s.now) }
{
    match found {
        Some(place) => Some(place),
        None => { if is_default(s) { Some(at) } else { None } }
    }
}
