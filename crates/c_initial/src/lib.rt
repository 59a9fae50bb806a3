//! Initializers of objects at file scope, and what the objects hold at first.
#![tactic(auto)]

mod constants;
mod filled;
mod initials;
mod spots;
mod starting;
mod starts;
mod values;
mod zeros;

pub use filled::initializers_fill_objects;
pub use starts::{Begin, Initialized, LatePlace, initial, with_initial_bound};
