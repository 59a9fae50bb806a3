//! Laws of the objects that both generators make: what follows of an object's being the defined one (`IsObjectOf` of `gen_parts`), and no clause of a generator says.
#![tactic(auto)]

mod laws;

pub use laws::{
    objects_are_linkable, rows_lie_inside, static_objects_fit, stopping_points, used_names,
    uses_in_static_objects, uses_lie_inside,
};
