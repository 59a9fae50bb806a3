//! Bodies of functions: what is found in them, their stopping points, their locals, and what they call.
#![tactic(auto)]

mod around;
mod blocks;
mod body;
mod calls;
mod heads;
mod labels;
mod locals;
mod making;
mod parts;
mod passing;
mod statements;
mod uses;
mod walk;

pub use body::{Body, check_body};
pub use uses::{called_in_declarator, called_in_initial, called_in_spec};
pub use walk::{Counts, Stop};
