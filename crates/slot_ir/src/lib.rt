//! Slot code: what a function does as operators over numbered temporaries and objects, with its stopping points. It knows no machine and has no addresses.
#![tactic(auto)]

mod code;

pub use code::{
    Access, Home, PointerOp, SlotCode, SlotFunction, SlotItem, SlotLocal, SlotMember, SlotObject,
    SlotOp, SlotStart, SlotStruct, SlotValue, UnaryWordOp, WordOp,
};
