//! A memory of a target over another, whose fetched values are kept.
#![tactic(auto)]

mod cached;
#[cfg(test)]
mod tests;

pub use cached::Cached;
