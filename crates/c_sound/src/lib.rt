//! Accepted programs never come to a value of the wrong shape.
#![tactic(auto)]

mod laws;

pub use laws::{
    accepted_programs_keep_shapes, evaluations_keep_shapes, sessions_follow_fitting_runs,
    sessions_have_answers, stops_have_their_locals, typed_expressions_keep_rules,
};
