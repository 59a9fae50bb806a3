//! What machines that are watched and objects' meanings come to on small machines, computed from the definitions.
#![tactic(auto)]
