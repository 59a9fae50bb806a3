//! What a session answers over images that are made by hand, computed from the machine session's definitions.
#![tactic(auto)]
