//! The shared composite objects of a PostScript interpreter: arrays, dictionaries and strings.
#![tactic(auto)]

mod bucket;
mod entries;
mod fault;
mod hashed;
mod key;
mod laws;
mod object;
mod objects;
mod operators;
mod store;
mod texts;

pub use fault::{ReadOnly, StoreFault};
pub use key::{Key, NameText};
pub use laws::{closed_objects_stay, held_objects_stay, making_adds, settling_is_an_order};
pub use object::{ArrayId, DictId, Mark, Pair, Part, PsObj, StringId};
pub use operators::{OPERATOR_NAMES, STANDARD_OPERATORS, operator_number};
pub use store::PsStore;
