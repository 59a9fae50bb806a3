//! Values of C, objects with their leaves, the store that holds them, and the activations of functions.
#![tactic(auto)]
