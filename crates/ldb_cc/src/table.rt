// The table that goes with an image.
ghost use Rattle.std.specs.Prelude.{◌≡◌, IfOk};
ghost use Rattle.ps_emit.specs.Table.{table_text};
ghost use Rattle.ldb_cc.specs.Table.{placement_of};

use crate::aim::Aim;
use c_tree::Program;
use ldb_words::Text;
use obj_file::LoaderRows;
use ps_emit::{Placement, table};
use std::alloc::{AllocError, Global};

/// The table of a program whose static objects, strings and functions have the addresses of these rows.
pub fn table_of(
    alloc: Global,
    aim: Aim,
    program: &Program,
    rows: LoaderRows,
) -> Result<Text, AllocError>
    ensures { IfOk result (λ t. t ≡ table_text program.now (placement_of aim rows)) }
{
    let at = Placement {
        target: aim.target_byte(),
        anchors: rows.anchors,
        functions: rows.functions,
    };
    table(alloc, program, &at)
}
