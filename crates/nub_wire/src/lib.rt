//! What a debugger and a nub say to each other: messages, their frames, and a reader of frames in any pieces.
#![tactic(auto)]

mod encoding;
mod ending;
mod feeder;
mod front;
mod laws;
mod link;
mod message;
mod reply;

pub use encoding::encode;
pub use ending::{ending_of, is_final, reply_of};
pub use feeder::{Fed, Feeder};
pub use laws::{
    answers_at_rest, any_pieces, exchange, one_message, quiet_until_sent, replies_are_heard,
    resume_exchange, resumes_are_runs, told_links_answer, turns_add, turns_stop,
};
pub use link::{Entry, Link, Side};
pub use machine_state::Cause;
pub use message::{Chunk, Ending, Msg, Reason, Size};
pub use reply::{Heard, ends_reply, hear};
