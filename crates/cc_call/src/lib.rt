//! The call `cc TARGET IMAGE TABLE SRC..`: sources are read and compiled, and an image and its table are written.
#![tactic(auto)]

mod call;
mod cause;
mod ended;
mod reading;
mod saying;
mod words;
mod writing;

pub use call::{Answer, compile_files};
pub use cause::{is_refusal, refused_line};
pub use ended::Fault;
pub use reading::{Found, names_of, read_all, read_source};
pub use saying::put;
pub use words::{CcRequest, aim_of, all_differ, are_sources, is_count, is_source, read_cc};
