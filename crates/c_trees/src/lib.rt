//! Trees of C's grammar (C90 6.3 to 6.7): expressions, declarators, initializers, declarations, statements and units, as readers build them and the checker walks them.
#![tactic(auto)]

pub mod declaration;
pub mod expression;
pub mod statement;
pub mod unit;
