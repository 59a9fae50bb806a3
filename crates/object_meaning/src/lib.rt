//! What an object promises of the slot code that it was made of, wherever it is placed: the definitions of the compiler's second theorem, which is not proved yet. Definitions alone.
#![tactic(auto)]
