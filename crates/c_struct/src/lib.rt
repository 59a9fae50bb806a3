//! Structs: their members, their layout, and the type that a declaration begins with.
#![tactic(auto)]

mod completing;
mod laying;
mod members;
mod specifying;
mod struct_members;

pub use specifying::specified;
