//! The dialect of PostScript of a command: its operators over the memory of a target.
#![tactic(auto)]

mod asking;
mod dialect;
mod halt;
mod objects;
mod places;
mod texts;
mod view;

pub use asking::frame_numbered;
pub use dialect::Operators;
pub use view::{Standing, View};
