//! SPARC objects of slot code.
//!
//! Proved of `emit`: the object is the defined one whole. Its text is, word for word, the start, a copy of each struct in their order, and then each function's instructions, operator for operator; its names, uses, rows and static objects are the defined ones (`specs/Coding`, and `specs/` of `gen_parts` and `flat_gen`). An operator of slot code takes at most 17 words, and a call so many more for each argument. The text has whole words; names, functions and the uses in the text lie in order in it, so no word has two uses; and each name is given once (`specs/Links` of `gen_parts`).
//!
//! What follows of these definitions for both targets is in `object_laws`: that each used name is given, that a use in static objects is a word of one of them, that a stopping point is a no-op in its function and stands in no delay slot. Not claimed: that a copy of a struct writes its leaves and no padding.
//! Not claimed either: that anything but want of memory is never answered as such. A frame, a text or an argument too great for its field is answered as `AllocError`, as is a parameter that lies 4,096 bytes or more above the stack pointer.
#![tactic(auto)]

mod frames;
mod instructions;
mod movers;
mod object;
mod operators;
mod registers;
mod target;
mod writing;

pub use object::emit;
