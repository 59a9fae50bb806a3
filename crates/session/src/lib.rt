//! A debugging session: commands over a link to the nubs of one target or of two.
#![tactic(auto)]

mod answers;
mod asked;
mod assigning;
mod both;
mod conversation;
mod line;
mod merging;
mod modes;
mod preparing;
mod replies;
mod resumes;
mod sides;
mod start;
mod undoing;

pub use answers::{Answer, End, StartFault};
pub use conversation::Session;
