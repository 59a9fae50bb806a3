//! The structs of a file, with what is kept of each that is complete: how deep its type is, how it is aligned, how many leaves it has, and its
//! members by their names. So nothing of a struct is found by a walk over its members again.
#![tactic(auto)]

mod alignments;
mod depths;
mod digests;
mod leaf_counts;
mod numbers;
mod rows;
mod structs;
mod view;

pub use digests::digest;
pub use numbers::Numbers;
pub use structs::Structs;
pub use view::StructsView;
