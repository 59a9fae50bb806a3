// Operators at the end of a function's code.

ghost use Rattle.std.specs.Prelude.{◌≡◌, ◌+◌, [], ◌∷◌, ◌++◌, IfOk, OnOk, length};
ghost use Rattle.flat_ir.specs.declared.code.Scratch.TheVariants.{A, B};
ghost use Rattle.flat_ir.specs.declared.code.FlatOp.TheVariants.{Get, Put};

use flat_ir::{FlatOp, Scratch};
use std::alloc::AllocError;

/// The next number.
pub fn next(number: u32) -> Result<u32, AllocError>
    ensures { IfOk result (λ n. n ≡ number + 1) }
{
    number.checked_add(1).ok_or(AllocError)
}

/// The place of the next operator.
pub fn place(code: &[FlatOp]) -> Result<u32, AllocError>
    ensures { IfOk result (λ n. n ≡ length code.now) }
{
    u32::try_from(code.len()).map_err(|_| AllocError)
}

/// One more operator.
pub fn put(code: &mut Vec<FlatOp>, op: FlatOp) -> Result<(), AllocError>
    ensures { OnOk result (code.new.items ≡ code.old.items ++ op ∷ []) }
{
    code.push(op)?;
    Ok(())
}

/// A word of the frame in A.
pub fn get_a(code: &mut Vec<FlatOp>, at: u32) -> Result<(), AllocError>
    ensures { OnOk result (code.new.items ≡ code.old.items ++ Get A at ∷ []) }
{
    put(code, FlatOp::Get { to: Scratch::A, at })
}

/// A word of the frame in B.
pub fn get_b(code: &mut Vec<FlatOp>, at: u32) -> Result<(), AllocError>
    ensures { OnOk result (code.new.items ≡ code.old.items ++ Get B at ∷ []) }
{
    put(code, FlatOp::Get { to: Scratch::B, at })
}

/// A in a word of the frame.
pub fn put_a(code: &mut Vec<FlatOp>, at: u32) -> Result<(), AllocError>
    ensures { OnOk result (code.new.items ≡ code.old.items ++ Put A at ∷ []) }
{
    put(
        code,
        FlatOp::Put {
            from: Scratch::A,
            at,
        },
    )
}
