//! Expressions of C (C90 6.3): their trees, which tokens are one, and reading one.
#![tactic(auto)]

mod boxed;
mod call;
mod declarator;
mod frame;
mod grown;
mod have;
mod inside;
mod levels;
mod machine;
mod name;
mod read;
mod stack;
mod state;
mod want;

pub use boxed::Boxed;
pub use c_trees::expression::{Abstract, Expr, Node, Spec, TypeName};
pub use call::{BuiltCall, GrownCall};
pub use declarator::BuiltAbstract;
pub use frame::{Frame, Least};
pub use grown::{Built, Grown};
pub use inside::{Offered, offer, read_inside};
pub use machine::shift;
pub use read::{one_tree, parse_expr};
pub use stack::Stack;
pub use state::{Mode, Parser, Part, SynFault};
