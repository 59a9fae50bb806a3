//! Operators of a PostScript dialect on places: how places are made, fetched from and stored to, over any memory of a target.
#![tactic(auto)]

mod access;
mod lack;
mod place;

pub use access::{Trouble, fetch, fetch_of, immediate, store, store_of, troubled};
pub use lack::error_of;
pub use place::{
    absolute, kind_named, leave_place, local, name_of, register, space_name, space_named, text_of,
    top_word,
};
