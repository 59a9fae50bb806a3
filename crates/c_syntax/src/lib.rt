//! Translation units of C (C90 6.7): which tokens are one, and reading one.
#![tactic(auto)]

mod machine;
mod read;
mod state;

pub use c_expr::{SynFault, parse_expr};
pub use c_trees::statement::{Statement, StatementNode};
pub use c_trees::unit::{External, Unit};
pub use machine::shift;
pub use read::{one_unit, parse_unit};
pub use state::{Kept, Mode, UnitParser};
