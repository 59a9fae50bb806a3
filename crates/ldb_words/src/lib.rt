//! Machine words: checked arithmetic on 32 bits, kinds of scalars, byte orders, texts, and what a step of a machine answers.
#![tactic(auto)]

mod arithmetic;
mod event;
mod kinds;
mod many;
mod text;
mod word;

pub use arithmetic::{
    add_checked, div_checked, mul_checked, neg_checked, rem_checked, shift_checked, sub_checked,
};
pub use event::{Event, FaultKind, Outside, WindowFault};
pub use kinds::{Kind, Order, Undef, Way};
pub use many::Many;
pub use text::Text;
pub use word::{extend_byte, extend_half, product_signed};
