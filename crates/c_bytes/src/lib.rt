//! What an expression of C means over the bytes of a target and its table.
#![tactic(auto)]
