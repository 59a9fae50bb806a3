//! What a run of a table does.
#![tactic(auto)]

mod laws;

pub use laws::{
    accepted_types_run, counted_tables_run, definitions_are_made, dictionaries_are_made,
    items_are_pieces, pieces_are_performed, steps_are_taken, tables_are_bounded, tables_are_left,
    tables_are_short, tables_run, tables_run_behind, texts_are_executed, tops_are_left,
    words_are_known,
};
