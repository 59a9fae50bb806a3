//! Statements of C (C90 6.6): their trees, which tokens are one, and reading a block. Here too are the trees of units, which need no reader.
#![tactic(auto)]

mod block;
mod built;
mod frame;
mod laws;
mod machine;
mod parts;
mod state;
mod value;

pub use block::{Block, Opened};
pub use c_trees::statement::{Head, Statement, StatementNode};
pub use c_trees::unit::{External, Unit};
pub use laws::blocks_are_read;
pub use machine::shift;
pub use state::{
    At, Closer, Control, Frame, Mode, Opener, Optional, Outer, Purpose, Reader, Required,
};
