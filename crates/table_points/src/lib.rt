//! Which stopping points of a table are meant by a place or a name, and what a frame's line tells.
#![tactic(auto)]

mod every;
mod named;
mod row;
mod spots;

pub use every::{PointsFault, all_points};
pub use named::function_point;
pub use row::{Point, are_named, is_named, told_frame};
pub use spots::spot_point;
