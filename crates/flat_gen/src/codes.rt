// The flat code of slot operators.
ghost use Rattle.std.specs.Prelude.{◌≡◌, ◌+◌, [], ◌∷◌, ◌++◌, IfOk, OnOk, length, slice_get};
ghost use Rattle.std.specs.Int.{next_multiple_of};
ghost use Rattle.slot_ir.specs.declared.code.SlotOp.TheVariants as slot;
ghost use Rattle.flat_ir.specs.declared.code.Scratch.TheVariants.{A, B};
ghost use Rattle.flat_ir.specs.declared.code.FlatOp.TheVariants.{Set, StaticAddress, FrameAddress, Get, Put, Fill, ReadRegister, WriteRegister, Ask};
ghost use Rattle.flat_gen.specs.Codes.{comparison as comparison_of, temporary, local_at, register_in, passes as passes_of, op_code};

use crate::emit::{get_a, get_b, put, put_a};
use crate::within::Within;
use flat_ir::{FlatOp, Request, Scratch};
use slot_ir::{Access, Home, PointerOp, SlotOp, WordOp};
use std::alloc::AllocError;

/// The comparison of the words of two pointers.
fn comparison(op: PointerOp) -> WordOp
    ensures { result ≡ comparison_of op }
{
    match op {
        PointerOp::Equal => WordOp::Equal,
        PointerOp::Unequal => WordOp::Unequal,
        PointerOp::Less => WordOp::LessUnsigned,
        PointerOp::Greater => WordOp::GreaterUnsigned,
        PointerOp::LessEqual => WordOp::LessEqualUnsigned,
        PointerOp::GreaterEqual => WordOp::GreaterEqualUnsigned,
    }
}

/// A word by its bits in a temporary.
fn set(within: &Within, code: &mut Vec<FlatOp>, to: u32, bits: u32) -> Result<(), AllocError>
    ensures { OnOk result (code.new.items ≡ code.old.items ++ Set A bits ∷ Put A (temporary within.now.slots.now within.now.function.now within.now.layout.now within.now.starts.now to) ∷ []) }
{
    put(
        code,
        FlatOp::Set {
            to: Scratch::A,
            bits,
        },
    )?;
    put_a(code, within.temporary(to)?)
}

/// The address of a static object or a string in a temporary.
fn static_address(
    within: &Within,
    code: &mut Vec<FlatOp>,
    to: u32,
    object: u32,
) -> Result<(), AllocError>
    ensures { OnOk result (code.new.items ≡ code.old.items ++ StaticAddress A object ∷ Put A (temporary within.now.slots.now within.now.function.now within.now.layout.now within.now.starts.now to) ∷ []) }
{
    put(
        code,
        FlatOp::StaticAddress {
            to: Scratch::A,
            object,
        },
    )?;
    put_a(code, within.temporary(to)?)
}

/// The number of a string among the static objects and strings.
fn string_number(within: &Within, string: u32) -> Result<u32, AllocError>
    ensures { IfOk result (λ n. n ≡ length within.now.slots.now.objects + string) }
{
    let objects = u32::try_from(within.slots.objects.len()).map_err(|_| AllocError)?;
    objects.checked_add(string).ok_or(AllocError)
}

/// The address of a local in a temporary.
fn local_address(
    within: &Within,
    code: &mut Vec<FlatOp>,
    to: u32,
    local: u32,
) -> Result<(), AllocError>
    ensures { OnOk result (code.new.items ≡ code.old.items ++ op_code within.now.slots.now within.now.function.now within.now.layout.now within.now.starts.now (slot.LocalAddress to local)) }
{
    put(
        code,
        FlatOp::FrameAddress {
            to: Scratch::A,
            at: within.local_at(local)?,
        },
    )?;
    put_a(code, within.temporary(to)?)
}

/// A register in a temporary.
fn read_register(
    within: &Within,
    code: &mut Vec<FlatOp>,
    to: u32,
    local: u32,
    access: Access,
) -> Result<(), AllocError>
    ensures { OnOk result (code.new.items ≡ code.old.items ++ ReadRegister (register_in (slice_get within.now.function.now.locals local)) access ∷ Put A (temporary within.now.slots.now within.now.function.now within.now.layout.now within.now.starts.now to) ∷ []) }
{
    put(
        code,
        FlatOp::ReadRegister {
            register: within.register(local)?,
            access,
        },
    )?;
    put_a(code, within.temporary(to)?)
}

/// A temporary in A, an operator, and A in a temporary.
fn on_one(
    within: &Within,
    code: &mut Vec<FlatOp>,
    to: u32,
    from: u32,
    op: FlatOp,
) -> Result<(), AllocError>
    ensures { OnOk result (code.new.items ≡ code.old.items ++ Get A (temporary within.now.slots.now within.now.function.now within.now.layout.now within.now.starts.now from) ∷ op ∷ Put A (temporary within.now.slots.now within.now.function.now within.now.layout.now within.now.starts.now to) ∷ []) }
{
    get_a(code, within.temporary(from)?)?;
    put(code, op)?;
    put_a(code, within.temporary(to)?)
}

/// Two temporaries in A and B, and an operator.
fn take_two(
    within: &Within,
    code: &mut Vec<FlatOp>,
    left: u32,
    right: u32,
    op: FlatOp,
) -> Result<(), AllocError>
    ensures { OnOk result (code.new.items ≡ code.old.items ++ Get A (temporary within.now.slots.now within.now.function.now within.now.layout.now within.now.starts.now left) ∷ Get B (temporary within.now.slots.now within.now.function.now within.now.layout.now within.now.starts.now right) ∷ op ∷ []) }
{
    get_a(code, within.temporary(left)?)?;
    get_b(code, within.temporary(right)?)?;
    put(code, op)
}

/// Two temporaries in A and B, an operator, and A in a temporary.
fn on_two(
    within: &Within,
    code: &mut Vec<FlatOp>,
    to: u32,
    left: u32,
    right: u32,
    op: FlatOp,
) -> Result<(), AllocError>
    ensures { OnOk result (code.new.items ≡ code.old.items ++ Get A (temporary within.now.slots.now within.now.function.now within.now.layout.now within.now.starts.now left) ∷ Get B (temporary within.now.slots.now within.now.function.now within.now.layout.now within.now.starts.now right) ∷ op ∷ Put A (temporary within.now.slots.now within.now.function.now within.now.layout.now within.now.starts.now to) ∷ []) }
{
    take_two(within, code, left, right, op)?;
    put_a(code, within.temporary(to)?)
}

/// A temporary in A, and a last operator.
fn end_with(
    within: &Within,
    code: &mut Vec<FlatOp>,
    from: u32,
    op: FlatOp,
) -> Result<(), AllocError>
    ensures { OnOk result (code.new.items ≡ code.old.items ++ Get A (temporary within.now.slots.now within.now.function.now within.now.layout.now within.now.starts.now from) ∷ op ∷ []) }
{
    get_a(code, within.temporary(from)?)?;
    put(code, op)
}

/// A pointer in a temporary moved on by some bytes.
fn offset(within: &Within, code: &mut Vec<FlatOp>, at: u32, bytes: u32) -> Result<(), AllocError>
    ensures { OnOk result (code.new.items ≡ code.old.items ++ op_code within.now.slots.now within.now.function.now within.now.layout.now within.now.starts.now (slot.Offset at bytes)) }
{
    get_a(code, within.temporary(at)?)?;
    put(
        code,
        FlatOp::Set {
            to: Scratch::B,
            bits: bytes,
        },
    )?;
    put(
        code,
        FlatOp::Binary {
            op: WordOp::AddUnsigned,
        },
    )?;
    put_a(code, within.temporary(at)?)
}

/// A jump where a temporary has these bits.
fn jump_if_equal(
    within: &Within,
    code: &mut Vec<FlatOp>,
    at: u32,
    bits: u32,
    place: u32,
) -> Result<(), AllocError>
    ensures { OnOk result (code.new.items ≡ code.old.items ++ op_code within.now.slots.now within.now.function.now within.now.layout.now within.now.starts.now (slot.JumpIfEqual at bits place)) }
{
    get_a(code, within.temporary(at)?)?;
    put(
        code,
        FlatOp::Set {
            to: Scratch::B,
            bits,
        },
    )?;
    put(code, FlatOp::Binary { op: WordOp::Equal })?;
    put(
        code,
        FlatOp::JumpIf {
            zero: false,
            place: within.start(place),
        },
    )
}

/// Temporaries passed as arguments.
fn passes(
    within: &Within,
    code: &mut Vec<FlatOp>,
    at: u32,
    arguments: u32,
) -> Result<(), AllocError>
    ensures { OnOk result (code.new.items ≡ code.old.items ++ passes_of within.now.slots.now within.now.function.now within.now.layout.now within.now.starts.now at arguments) }
{
    for number in 0..arguments {
        let from = at.checked_add(number).ok_or(AllocError)?;
        put(
            code,
            FlatOp::Pass {
                number,
                at: within.temporary(from)?,
            },
        )?;
    }
    Ok(())
}

/// A call, and its result in a temporary.
fn call(
    within: &Within,
    code: &mut Vec<FlatOp>,
    at: u32,
    function: u32,
    arguments: u32,
) -> Result<(), AllocError>
    ensures { OnOk result (code.new.items ≡ code.old.items ++ op_code within.now.slots.now within.now.function.now within.now.layout.now within.now.starts.now (slot.Call at function arguments)) }
{
    passes(within, code, at, arguments)?;
    put(code, FlatOp::Call { function })?;
    put_a(code, within.temporary(at)?)
}

/// Zeros in a local in memory of a size.
fn zero_block(
    within: &Within,
    code: &mut Vec<FlatOp>,
    local: u32,
    size: u32,
) -> Result<(), AllocError>
    ensures { OnOk result (code.new.items ≡ code.old.items ++ FrameAddress A (local_at within.now.slots.now within.now.function.now within.now.layout.now within.now.starts.now local) ∷ Fill (next_multiple_of size 4) ∷ []) }
{
    put(
        code,
        FlatOp::FrameAddress {
            to: Scratch::A,
            at: within.local_at(local)?,
        },
    )?;
    let bytes = size.checked_next_multiple_of(4).ok_or(AllocError)?;
    put(code, FlatOp::Fill { bytes })
}

/// Zero in a register.
fn zero_register(code: &mut Vec<FlatOp>, register: u8) -> Result<(), AllocError>
    ensures { OnOk result (code.new.items ≡ code.old.items ++ Set A 0 ∷ WriteRegister register ∷ []) }
{
    put(
        code,
        FlatOp::Set {
            to: Scratch::A,
            bits: 0,
        },
    )?;
    put(code, FlatOp::WriteRegister { register })
}

/// Zeros in a local.
fn zero(within: &Within, code: &mut Vec<FlatOp>, local: u32) -> Result<(), AllocError>
    ensures { OnOk result (code.new.items ≡ code.old.items ++ op_code within.now.slots.now within.now.function.now within.now.layout.now within.now.starts.now (slot.Zero local)) }
{
    let row = within.local(local)?;
    match row.home {
        Home::Block => zero_block(within, code, local, row.size),
        Home::Register(register) => zero_register(code, register),
    }
}

/// What is asked, and A in a temporary.
fn ask(within: &Within, code: &mut Vec<FlatOp>, to: u32, request: Request) -> Result<(), AllocError>
    ensures { OnOk result (code.new.items ≡ code.old.items ++ Ask request ∷ Put A (temporary within.now.slots.now within.now.function.now within.now.layout.now within.now.starts.now to) ∷ []) }
{
    put(code, FlatOp::Ask { request })?;
    put_a(code, within.temporary(to)?)
}

/// The flat code of an operator.
pub fn emit_op(within: &Within, code: &mut Vec<FlatOp>, op: &SlotOp) -> Result<(), AllocError>
    ensures { OnOk result (code.new.items ≡ code.old.items ++ op_code within.now.slots.now within.now.function.now within.now.layout.now within.now.starts.now op.now) }
{
    match *op {
        SlotOp::Const { to, bits } => set(within, code, to, bits),
        SlotOp::Null { to } => set(within, code, to, 0),
        SlotOp::StaticAddress { to, object } => static_address(within, code, to, object),
        SlotOp::TextAddress { to, string } => {
            static_address(within, code, to, string_number(within, string)?)
        }
        SlotOp::LocalAddress { to, local } => local_address(within, code, to, local),
        SlotOp::Load {
            to,
            from,
            kind: _,
            access,
        } => on_one(within, code, to, from, FlatOp::Load { access }),
        SlotOp::Store { at, from, kind } => {
            take_two(within, code, at, from, FlatOp::Store { kind })
        }
        SlotOp::ReadRegister {
            to,
            local,
            kind: _,
            access,
        } => read_register(within, code, to, local, access),
        SlotOp::WriteRegister {
            from,
            local,
            kind: _,
        } => end_with(
            within,
            code,
            from,
            FlatOp::WriteRegister {
                register: within.register(local)?,
            },
        ),
        SlotOp::Convert { at, access } => on_one(within, code, at, at, FlatOp::Extend { access }),
        SlotOp::Unary { at, op } => on_one(within, code, at, at, FlatOp::Unary { op }),
        SlotOp::Binary {
            to,
            left,
            right,
            op,
        } => on_two(within, code, to, left, right, FlatOp::Binary { op }),
        SlotOp::Compare {
            to,
            left,
            right,
            op,
        } => on_two(
            within,
            code,
            to,
            left,
            right,
            FlatOp::Binary { op: comparison(op) },
        ),
        SlotOp::Index {
            to,
            pointer,
            index,
            size,
            is_unsigned: _,
            back,
        } => on_two(
            within,
            code,
            to,
            pointer,
            index,
            FlatOp::Scale { size, back },
        ),
        SlotOp::Distance {
            to,
            left,
            right,
            size,
        } => on_two(within, code, to, left, right, FlatOp::Apart { size }),
        SlotOp::Offset { at, bytes } => offset(within, code, at, bytes),
        SlotOp::Take { to, from } => {
            get_a(code, within.temporary(from)?)?;
            put_a(code, within.temporary(to)?)
        }
        SlotOp::Jump { place } => put(
            code,
            FlatOp::Jump {
                place: within.start(place),
            },
        ),
        SlotOp::JumpIfZero { at, place } => end_with(
            within,
            code,
            at,
            FlatOp::JumpIf {
                zero: true,
                place: within.start(place),
            },
        ),
        SlotOp::JumpIfNotZero { at, place } => end_with(
            within,
            code,
            at,
            FlatOp::JumpIf {
                zero: false,
                place: within.start(place),
            },
        ),
        SlotOp::JumpIfEqual { at, bits, place } => jump_if_equal(within, code, at, bits, place),
        SlotOp::Call {
            at,
            function,
            arguments,
        } => call(within, code, at, function, arguments),
        SlotOp::Return { at } => end_with(within, code, at, FlatOp::Return),
        SlotOp::Stop { point } => put(code, FlatOp::Stop { point }),
        SlotOp::Move { to, from, shape } => {
            take_two(within, code, to, from, FlatOp::Copy { shape })
        }
        SlotOp::Zero { local } => zero(within, code, local),
        SlotOp::Leave { scope: _ } => Ok(()),
        SlotOp::GetChar { to } => ask(within, code, to, Request::GetChar),
        SlotOp::PutChar { at } => {
            get_a(code, within.temporary(at)?)?;
            ask(within, code, at, Request::PutChar)
        }
        SlotOp::Exit { at } => end_with(
            within,
            code,
            at,
            FlatOp::Ask {
                request: Request::Exit,
            },
        ),
    }
}
