// What was read so far, and why there may be no tree.
ghost use Rattle.std.specs.Prelude.{◌≡◌};
ghost use Rattle.c_expr.specs.declared.state.SynFault.TheVariants.{NoMemory};

use crate::declarator::BuiltAbstract;
use crate::frame::Frame;
use crate::grown::Grown;
use crate::stack::Stack;
use c_lex::Place;
use c_symbol::Access;
use std::alloc::AllocError;

/// Why tokens gave no tree.
#[derive(Clone, Copy)]
pub enum SynFault {
    /// They have none. The place is that of the first token at which none can go on, or of the last token where more would have to follow.
    Syntax(Place),
    /// They have one that is higher than 64. The place is where it begins.
    Deep(Place),
    NoMemory,
}

impl From<AllocError> for SynFault {
    ghost from_gives = { λ _ e. e ≡ NoMemory };

    fn from(_: AllocError) -> Self {
        SynFault::NoMemory
    }
}

/// A declarator so far: so many `*` alone, or all that may have only bounds behind it.
#[derive(Drop)]
pub enum Part {
    Front(u64),
    Back(Option<BuiltAbstract>),
}

/// What may come next: the beginning of an expression, what follows one, a member's name, what follows in a type's name, or a tag.
#[derive(Drop)]
pub enum Mode {
    Want,
    Have(Grown),
    Naming(Grown, Access),
    Typing(Part),
    Tagging(Place),
}

/// What was read so far.
#[derive(Drop)]
pub struct Parser {
    pub stack: Stack<Frame>,
    pub mode: Mode,
}
