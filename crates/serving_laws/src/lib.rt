//! What runs of the expression server's texts come to.
#![tactic(auto)]

mod laws;

pub use laws::{
    expressions_are_evaluated, named_places_are_read, run_tables_are_settled, texts_are_evaluated,
    texts_are_served, values_are_left,
};
