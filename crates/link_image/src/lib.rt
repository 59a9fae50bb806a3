//! Linking: texts one after another, static objects in order, and each use patched with the address of its name.
#![tactic(auto)]

mod addresses;
mod anchors;
mod fault;
mod field;
mod inside;
mod linking;
mod names;
mod patch;
mod rows;
mod sizes;
mod statics;
mod texts;

pub use fault::LinkFault;
pub use linking::link;
