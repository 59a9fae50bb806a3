//! How a debugger shows the values of C.
#![tactic(auto)]

mod held;
mod letters;
mod page;
mod value;

pub use held::Held;
pub use value::show;
