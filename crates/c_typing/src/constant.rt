// What expressions are as constant expressions.

/// What an expression is as a constant expression (C90 6.4).
#[derive(Clone, Copy, Debug, PartialEq, Eq)]
pub enum Constant {
    /// No constant expression: it is not built of constants alone.
    Variable,
    /// One without a value, since an operator in it is undefined.
    Undefined,
    /// The bits of its value.
    Number(u32),
}
