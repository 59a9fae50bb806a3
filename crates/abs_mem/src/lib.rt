//! Memories of a target.
#![tactic(auto)]

mod alias;
mod joined;
mod memory;
mod nomem;
mod register;
mod walk;
mod wire;

pub use alias::Alias;
pub use joined::Joined;
pub use memory::{AbsMem, MemFault};
pub use nomem::NoMem;
pub use register::Register;
pub use walk::{Locate, WalkFault, told};
pub use wire::Wire;
