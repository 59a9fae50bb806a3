//! Where slot code takes a value as a pointer, and which code takes no number but 0 there. Definitions alone.
#![tactic(auto)]
