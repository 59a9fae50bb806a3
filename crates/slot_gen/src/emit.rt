// Operators at the end of a function's code.
ghost use Rattle.std.specs.Prelude.{◌≡◌, ℕ, ◌+◌, [], ◌∷◌, ◌++◌, Bool, IfOk, OnOk, length};
ghost use Rattle.slot_gen.specs.Expressions.{cast_code, load_code, store_code, write_code, read_at, write_at, referent_code};
ghost use Rattle.c_tree.specs.declared.rows.Program.{Program};

use crate::translate::{access_of, is_array, kind_of};
use c_tree::{CType, Referent};
use slot_ir::{Access, SlotOp};
use std::alloc::AllocError;

/// The next temporary.
pub fn next(temp: u32) -> Result<u32, AllocError>
    ensures { IfOk result (λ n. n ≡ temp + 1) }
{
    temp.checked_add(1).ok_or(AllocError)
}

/// The place of the next operator.
pub fn place(code: &[SlotOp]) -> Result<u32, AllocError>
    ensures { IfOk result (λ n. n ≡ length code.now) }
{
    u32::try_from(code.len()).map_err(|_| AllocError)
}

/// One more operator.
pub fn put(code: &mut Vec<SlotOp>, op: SlotOp) -> Result<(), AllocError>
    ensures { OnOk result (code.new.items ≡ code.old.items ++ op ∷ []) }
{
    code.push(op)?;
    Ok(())
}

/// A conversion to a type, where one is needed.
pub fn put_cast(code: &mut Vec<SlotOp>, at: u32, t: &CType) -> Result<(), AllocError>
    ensures { OnOk result (code.new.items ≡ code.old.items ++ cast_code at t.now) }
{
    match access_of(t) {
        Access::Word => Ok(()),
        Access::SignedByte => put(
            code,
            SlotOp::Convert {
                at,
                access: Access::SignedByte,
            },
        ),
        Access::UnsignedByte => put(
            code,
            SlotOp::Convert {
                at,
                access: Access::UnsignedByte,
            },
        ),
        Access::SignedHalf => put(
            code,
            SlotOp::Convert {
                at,
                access: Access::SignedHalf,
            },
        ),
        Access::UnsignedHalf => put(
            code,
            SlotOp::Convert {
                at,
                access: Access::UnsignedHalf,
            },
        ),
        Access::Pointer => put(
            code,
            SlotOp::Convert {
                at,
                access: Access::Pointer,
            },
        ),
    }
}

/// What stands at the place in a temporary, but for an array, which is its place.
pub fn put_load(code: &mut Vec<SlotOp>, at: u32, t: &CType) -> Result<(), AllocError>
    ensures { OnOk result (code.new.items ≡ code.old.items ++ load_code at t.now) }
{
    if is_array(t) {
        return Ok(());
    }
    let (kind, access) = (kind_of(t), access_of(t));
    put(
        code,
        SlotOp::Load {
            to: at,
            from: at,
            kind,
            access,
        },
    )
}

/// The same where the place may be a local in a register.
pub fn put_read(
    code: &mut Vec<SlotOp>,
    at: u32,
    register: Option<u32>,
    t: &CType,
) -> Result<(), AllocError>
    ensures place { (p : Program) (f : ℕ) → OnOk result (code.new.items ≡ code.old.items ++ read_at p f at register t.now) }
{
    match register {
        None => put_load(code, at, t),
        Some(local) => {
            let (kind, access) = (kind_of(t), access_of(t));
            put(
                code,
                SlotOp::ReadRegister {
                    to: at,
                    local,
                    kind,
                    access,
                },
            )
        }
    }
}

/// The value in the next temporary is written at the place in this one, and is the value of the assignment.
fn put_store(code: &mut Vec<SlotOp>, at: u32, t: &CType) -> Result<(), AllocError>
    ensures { OnOk result (code.new.items ≡ code.old.items ++ store_code at t.now) }
{
    let from = next(at)?;
    put_cast(code, from, t)?;
    put(
        code,
        SlotOp::Store {
            at,
            from,
            kind: kind_of(t),
        },
    )?;
    put(code, SlotOp::Take { to: at, from })
}

/// The same into a local in a register.
fn put_into_register(
    code: &mut Vec<SlotOp>,
    at: u32,
    local: u32,
    t: &CType,
) -> Result<(), AllocError>
    ensures { OnOk result (code.new.items ≡ code.old.items ++ write_code at local t.now) }
{
    let from = next(at)?;
    put_cast(code, from, t)?;
    put(
        code,
        SlotOp::WriteRegister {
            from,
            local,
            kind: kind_of(t),
        },
    )?;
    put(code, SlotOp::Take { to: at, from })
}

/// The same at a place, or into a local in a register.
pub fn put_write(
    code: &mut Vec<SlotOp>,
    at: u32,
    register: Option<u32>,
    t: &CType,
) -> Result<(), AllocError>
    ensures { (p : Program) (f : ℕ) → OnOk result (code.new.items ≡ code.old.items ++ write_at p f at register t.now) }
{
    match register {
        None => put_store(code, at, t),
        Some(local) => put_into_register(code, at, local, t),
    }
}

/// The address of what a name refers to; nothing where that is no object.
pub fn put_referent(code: &mut Vec<SlotOp>, to: u32, refers: Referent) -> Result<(), AllocError>
    ensures { OnOk result (code.new.items ≡ code.old.items ++ referent_code to refers) }
{
    match refers {
        Referent::Object(object) => put(code, SlotOp::StaticAddress { to, object }),
        Referent::Local(local) => put(code, SlotOp::LocalAddress { to, local }),
        Referent::Function(_) | Referent::Declared => Ok(()),
    }
}
