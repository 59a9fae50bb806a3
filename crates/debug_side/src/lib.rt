//! One side of a session: its breakpoints, the words that a step puts, and a resume up to the side's event.
#![tactic(auto)]

mod breaks;
mod event;
mod planting;
mod point;
mod resume;
mod there;
mod words;

pub use breaks::{clear_break, set_break};
pub use event::Event;
pub use planting::plant_for_step;
pub use point::{MachineKind, SideRow, may_stay, point_at};
pub use resume::resume_side;
pub use there::{ReadFault, WordThere, put_words, words_there};
pub use words::unplant_all;
