//! Finds the object to which an address belongs.
#![tactic(auto)]

mod form;
mod locals;
mod locator;
mod object;
mod statics;

pub use locator::Locator;
