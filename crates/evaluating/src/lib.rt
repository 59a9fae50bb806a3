//! `eval`, `assign` and `code` on one side of a session: the text is read in the chosen frame, its names and tags are told by the
//! table, and the PostScript that is made of it runs over the target.
#![tactic(auto)]

mod apart;
mod commands;
mod depths;
mod dressing;
mod known;
mod leaves;
mod reading;
mod running;
mod showing;
mod storing;

pub use commands::{assignment, coding, evaluating};
pub use storing::{Changes, Leaving, store_all};
