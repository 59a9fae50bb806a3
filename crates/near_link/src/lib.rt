//! A link to nubs in this program, with the schedule that delivers its bytes, and a link of which one call goes wrong.
#![tactic(auto)]

mod faulty;
mod laws;
mod machine;
mod near;
mod queue;
mod schedule;
mod side;

pub use faulty::{FaultyLink, Mishap};
pub use laws::near_nubs_fit;
pub use machine::NearMachine;
pub use near::NearLink;
pub use nub_wire::Entry;
pub use schedule::schedule_of;
