//! What is declared at a place of a source file, and what a declarator declares there.
#![tactic(auto)]

mod bounds;
mod declarator;
mod environment;
mod judging;
mod link;
mod meaning;
mod parameter;
mod refusal;
mod shapes;
mod shaping;
mod struct_tags;
mod table;
mod unnamed;

pub use declarator::{declarator_place, name_in};
pub use environment::Environment;
pub use judging::{judged_in, named_type};
pub use link::Link;
pub use meaning::Meaning;
pub use refusal::{Refusal, fault_of};
pub use shapes::{Parameter, Shape};
pub use shaping::shape;
pub use struct_tags::StructTags;
pub use table::{Mark, Table};
