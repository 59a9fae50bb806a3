// Why an expression is refused.

ghost use Rattle.std.specs.Prelude.{◌≡◌};
ghost use Rattle.expr_serve.specs.declared.fault.Refuse.TheVariants.{NoMemory as Wanting};

use std::alloc::AllocError;

/// Why an expression is refused.
#[derive(Clone, Copy, PartialEq, Eq, Debug)]
pub enum Refuse {
    /// The text is no expression of the grammar with a nesting of at most 64.
    Syntax,
    /// A name of it is not in scope.
    Scope,
    /// A typing rule is broken, or it has a form that is forbidden here.
    Rule,
    NoMemory,
}

impl From<AllocError> for Refuse {
    ghost from_gives = { λ _ e. e ≡ Wanting };

    fn from(_: AllocError) -> Self {
        Refuse::NoMemory
    }
}
