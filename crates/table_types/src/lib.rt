//! Types of a symbol table: their kinds, how deep they are, and which leaf stands at an offset.
#![tactic(auto)]

mod depth;
mod kinds;
mod leaves;
mod live;

pub use depth::check_type;
pub use kinds::{MemberRow, TypeKind, member_in, type_kind};
pub use leaves::leaf_in;
pub use live::{byte_run, check_found, kind_live, offset_of, type_live};
