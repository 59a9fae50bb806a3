// What operators of C are in PostScript.
ghost use Rattle.std.specs.Prelude.{◌≡◌};
ghost use Rattle.c_tree.specs.declared.typed.UnaryOp.TheVariants.{Minus};
ghost use Rattle.c_tree.specs.Types.{is_unsigned as unsigned};
ghost use Rattle.c_operators.specs.Arithmetic.{operating_type};
ghost use Rattle.ps_text.specs.Code.{render};
ghost use Rattle.expr_serve.specs.Operators.{on_ints as ints_code, on_unsigned as unsigned_code, on_integers as integers_code, on_pointers as pointers_code, on_one as one_code, conversion as conversion_code};

use c_tree::{BinaryOp, CType, UnaryOp};

/// Whether a type is `unsigned`.
pub fn is_unsigned(t: &CType) -> bool
    ensures { result ≡ unsigned t.now }
{
    match t {
        CType::Unsigned => true,
        _ => false,
    }
}

/// Whether an operator on integers of two types works on `unsigned`: a shift has the type of its left operand (C90 6.3.7).
fn works_on_unsigned(op: BinaryOp, s: &CType, t: &CType) -> bool
    ensures { result ≡ unsigned (operating_type op s.now t.now) }
{
    match op {
        BinaryOp::ShiftLeft | BinaryOp::ShiftRight => is_unsigned(s),
        _ => is_unsigned(s) || is_unsigned(t),
    }
}

/// An operator on two numbers of type `int`.
pub fn on_ints(op: BinaryOp) -> &'static [u8]
    ensures { result.now ≡ render (ints_code op) }
{
    match op {
        BinaryOp::BitOr => b"or ",
        BinaryOp::BitXor => b"xor ",
        BinaryOp::BitAnd => b"and ",
        BinaryOp::Equal => b"eq { 1 } { 0 } ifelse ",
        BinaryOp::Unequal => b"ne { 1 } { 0 } ifelse ",
        BinaryOp::Less => b"lt { 1 } { 0 } ifelse ",
        BinaryOp::Greater => b"gt { 1 } { 0 } ifelse ",
        BinaryOp::LessEqual => b"le { 1 } { 0 } ifelse ",
        BinaryOp::GreaterEqual => b"ge { 1 } { 0 } ifelse ",
        BinaryOp::ShiftLeft => b"ishl ",
        BinaryOp::ShiftRight => b"ishr ",
        BinaryOp::Add => b"iadd ",
        BinaryOp::Subtract => b"isub ",
        BinaryOp::Multiply => b"imul ",
        BinaryOp::Divide => b"idivs ",
        BinaryOp::Remainder => b"irem ",
    }
}

/// An operator on two numbers of type `unsigned`.
fn on_unsigned(op: BinaryOp) -> &'static [u8]
    ensures { result.now ≡ render (unsigned_code op) }
{
    match op {
        BinaryOp::BitOr => b"or ",
        BinaryOp::BitXor => b"xor ",
        BinaryOp::BitAnd => b"and ",
        BinaryOp::Equal => b"eq { 1 } { 0 } ifelse ",
        BinaryOp::Unequal => b"ne { 1 } { 0 } ifelse ",
        BinaryOp::Less => b"ult { 1 } { 0 } ifelse ",
        BinaryOp::Greater => b"exch ult { 1 } { 0 } ifelse ",
        BinaryOp::LessEqual => b"exch ult { 0 } { 1 } ifelse ",
        BinaryOp::GreaterEqual => b"ult { 0 } { 1 } ifelse ",
        BinaryOp::ShiftLeft => b"ishl ",
        BinaryOp::ShiftRight => b"ushr ",
        BinaryOp::Add => b"uadd ",
        BinaryOp::Subtract => b"usub ",
        BinaryOp::Multiply => b"umul ",
        BinaryOp::Divide => b"udivs ",
        BinaryOp::Remainder => b"urem ",
    }
}

/// An operator on two integers of these types.
pub fn on_integers(op: BinaryOp, s: &CType, t: &CType) -> &'static [u8]
    ensures { result.now ≡ render (integers_code op s.now t.now) }
{
    if works_on_unsigned(op, s, t) {
        on_unsigned(op)
    } else {
        on_ints(op)
    }
}

/// An operator on two pointers, but for their difference.
pub fn on_pointers(op: BinaryOp) -> &'static [u8]
    ensures { result.now ≡ render (pointers_code op) }
{
    match op {
        BinaryOp::Less => b"ptrcmp 0 lt { 1 } { 0 } ifelse ",
        BinaryOp::Greater => b"ptrcmp 0 gt { 1 } { 0 } ifelse ",
        BinaryOp::LessEqual => b"ptrcmp 0 le { 1 } { 0 } ifelse ",
        BinaryOp::GreaterEqual => b"ptrcmp 0 ge { 1 } { 0 } ifelse ",
        _ => on_ints(op),
    }
}

/// The operator `-` on one number of a type.
fn negation(t: &CType) -> &'static [u8]
    ensures { result.now ≡ render (one_code Minus t.now) }
{
    if is_unsigned(t) {
        b"0 exch usub "
    } else {
        b"ineg "
    }
}

/// An operator on one number of a type, or for `!` on a pointer.
pub fn on_one(op: UnaryOp, t: &CType) -> &'static [u8]
    ensures { result.now ≡ render (one_code op t.now) }
{
    match op {
        UnaryOp::Plus => b"",
        UnaryOp::Minus => negation(t),
        UnaryOp::Complement => b"not ",
        UnaryOp::Not => b"0 eq { 1 } { 0 } ifelse ",
    }
}

/// A conversion to a type.
pub fn conversion(t: &CType) -> &'static [u8]
    ensures { result.now ≡ render (conversion_code t.now) }
{
    match t {
        CType::Char => b"24 ishl 24 ishr ",
        _ => b"",
    }
}
