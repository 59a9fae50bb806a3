//! What C's operators give on words of 32 bits (C90 6.3.3 to 6.3.12), and the type in which they are done.
#![tactic(auto)]
