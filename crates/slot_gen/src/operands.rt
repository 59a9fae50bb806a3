// The operators at the end of an expression's code.
ghost use Rattle.std.specs.Prelude.{◌≡◌, suc, [], ◌∷◌, ◌++◌, IfOk, OnOk, option_map, slice_get, if◌then◌else◌};
ghost use Rattle.c_tree.specs.declared.types.CType.TheVariants.{Int};
ghost use Rattle.c_tree.specs.Types.{type_of as tree_type};
ghost use Rattle.c_tree.specs.Layout.{size_of as size, members_of};
ghost use Rattle.c_source.specs.Source.{stepping as stepped, struct_number as number_of, dot_offset as dot, arrow_offset as arrow};
ghost use Rattle.slot_ir.specs.declared.code.SlotOp.TheVariants.{Const, Offset, Move};
ghost use Rattle.slot_gen.specs.Emission.{copies, assigned_at};
ghost use Rattle.slot_gen.specs.Expressions.{register_in, register_inside, register_named, referent_register, name_code, built_in_code, call_code, enter_code, combine_op as combine, update_code, change_code, update_at};

use crate::emit::{next, put, put_cast, put_referent, put_write};
use crate::registers::in_register;
use crate::translate::{
    Operands, access_of, bytes_of, combine_op, is_scalar, is_struct, kind_of, target,
};
use crate::within::Within;
use c_tree::{
    BinaryOp, CType, Head, Member, Referent, StepOp, StructDef, SymbolRow, Typed, members,
};
use slot_ir::SlotOp;
use std::alloc::AllocError;

/// What an expression keeps.
fn head_of(e: &Typed) -> &Head
    ensures { result.now.ctype ≡ tree_type e.now }
{
    match e {
        Typed::Comma(head, _, _)
        | Typed::Assign(head, _, _, _)
        | Typed::Choice(head, _, _, _)
        | Typed::Or(head, _, _)
        | Typed::And(head, _, _)
        | Typed::Binary(head, _, _, _)
        | Typed::Cast(head, _)
        | Typed::Before(head, _, _)
        | Typed::Address(head, _)
        | Typed::Follow(head, _)
        | Typed::Unary(head, _, _)
        | Typed::SizeOf(head, _)
        | Typed::SizeOfType(head, _)
        | Typed::Index(head, _, _)
        | Typed::Call(head, _, _)
        | Typed::Dot(head, _, _)
        | Typed::Arrow(head, _, _)
        | Typed::After(head, _, _)
        | Typed::Name(head, _)
        | Typed::Constant(head, _)
        | Typed::Literal(head, _)
        | Typed::Parens(head, _) => head,
    }
}

/// The type of an expression.
pub fn type_of(e: &Typed) -> &CType
    ensures { result.now ≡ tree_type e.now }
{
    &head_of(e).ctype
}

/// A name by its number.
fn symbol<'a>(within: &Within<'a>, n: u32) -> Option<&'a SymbolRow>
    ensures { option_map (λ r. r.now) result ≡ slice_get within.now.program.now.symbols n }
{
    within.program.symbols.as_slice().get(n as usize)
}

/// The local in a register that a name is.
fn local_named(within: &Within, n: u32) -> Option<u32>
    ensures { result ≡ register_named within.now.program.now within.now.number (slice_get within.now.program.now.symbols n) }
{
    match symbol(within, n) {
        None => None,
        Some(row) => local_referred(within, row.refers),
    }
}

/// The local in a register that is referred to.
fn local_referred(within: &Within, refers: Referent) -> Option<u32>
    ensures { result ≡ referent_register within.now.program.now within.now.number refers }
{
    match refers {
        Referent::Local(x) => in_register(within.registers, x),
        Referent::Object(_) | Referent::Function(_) | Referent::Declared => None,
    }
}

/// The local in a register that an lvalue is, parentheses aside.
fn local_inside(within: &Within, e: &Typed) -> Option<u32>
    ensures { result ≡ register_inside within.now.program.now within.now.number e.now }
{
    match e {
        Typed::Name(_, n) => local_named(within, *n),
        Typed::Parens(_, a) => local_inside(within, a),
        _ => None,
    }
}

/// The local in a register that a scalar lvalue is.
pub fn local_of(within: &Within, e: &Typed) -> Option<u32>
    ensures { result ≡ register_in within.now.program.now within.now.number e.now }
{
    if is_scalar(type_of(e)) {
        local_inside(within, e)
    } else {
        None
    }
}

/// The address of the object that a name denotes.
pub fn put_name(within: &Within, code: &mut Vec<SlotOp>, d: u32, n: u32) -> Result<(), AllocError>
    ensures { OnOk result (code.new.items ≡ code.old.items ++ name_code within.now.program.now within.now.number d (slice_get within.now.program.now.symbols n)) }
{
    match symbol(within, n) {
        None => Ok(()),
        Some(row) => put_referent(code, d, row.refers),
    }
}

/// A binary operator on the values in a temporary and the next one.
pub fn put_combine(
    within: &Within,
    code: &mut Vec<SlotOp>,
    d: u32,
    op: BinaryOp,
    s: &CType,
    t: &CType,
) -> Result<(), AllocError>
    ensures { OnOk result (code.new.items ≡ code.old.items ++ combine within.now.program.now d d (suc d) op s.now t.now ∷ []) }
{
    let at = Operands {
        to: d,
        left: d,
        right: next(d)?,
    };
    put(
        code,
        combine_op(within.program.defs.as_slice(), at, op, s, t)?,
    )
}

/// A compound assignment: the type of its left operand, its operator, the type of its right operand, and whether its value is the new one.
#[derive(Clone, Copy)]
struct Update<'a> {
    pub left: &'a CType,
    pub op: BinaryOp,
    pub right: &'a CType,
    pub new: bool,
}

/// A compound assignment at a place, or to a local in a register.
fn put_update(
    within: &Within,
    code: &mut Vec<SlotOp>,
    d: u32,
    register: Option<u32>,
    update: &Update,
) -> Result<(), AllocError>
    ensures { OnOk result (code.new.items ≡ code.old.items ++ update_at within.now.program.now within.now.number d register update.now.left.now update.now.op update.now.right.now update.now.new) }
{
    match register {
        None => put_update_place(within, code, d, update),
        Some(local) => put_update_register(within, code, d, local, update),
    }
}

/// A compound assignment at a place.
fn put_update_place(
    within: &Within,
    code: &mut Vec<SlotOp>,
    d: u32,
    update: &Update,
) -> Result<(), AllocError>
    ensures { OnOk result (code.new.items ≡ code.old.items ++ update_code within.now.program.now within.now.number d update.now.left.now update.now.op update.now.right.now update.now.new) }
{
    let value = next(d)?;
    let old = next(value)?;
    let (kind, access) = (kind_of(update.left), access_of(update.left));
    put(
        code,
        SlotOp::Load {
            to: old,
            from: d,
            kind,
            access,
        },
    )?;
    put(code, updating(within, value, old, update)?)?;
    put_cast(code, value, update.left)?;
    put(
        code,
        SlotOp::Store {
            at: d,
            from: value,
            kind,
        },
    )?;
    let from = given(update.new, value, old);
    put(code, SlotOp::Take { to: d, from })
}

/// A compound assignment to a local in a register.
fn put_update_register(
    within: &Within,
    code: &mut Vec<SlotOp>,
    d: u32,
    local: u32,
    update: &Update,
) -> Result<(), AllocError>
    ensures { OnOk result (code.new.items ≡ code.old.items ++ change_code within.now.program.now within.now.number d local update.now.left.now update.now.op update.now.right.now update.now.new) }
{
    let value = next(d)?;
    let old = next(value)?;
    let (kind, access) = (kind_of(update.left), access_of(update.left));
    put(
        code,
        SlotOp::ReadRegister {
            to: old,
            local,
            kind,
            access,
        },
    )?;
    put(code, updating(within, value, old, update)?)?;
    put_cast(code, value, update.left)?;
    put(
        code,
        SlotOp::WriteRegister {
            from: value,
            local,
            kind,
        },
    )?;
    let from = given(update.new, value, old);
    put(code, SlotOp::Take { to: d, from })
}

/// Where the value that an assignment gives stands: the new one or the old one.
fn given(new: bool, value: u32, old: u32) -> u32
    ensures { result ≡ if new then value else old }
{
    if new { value } else { old }
}

/// The operator of a compound assignment.
fn updating(within: &Within, value: u32, old: u32, update: &Update) -> Result<SlotOp, AllocError>
    ensures { IfOk result (λ o. o ≡ combine within.now.program.now value old value update.now.op update.now.left.now update.now.right.now) }
{
    let at = Operands {
        to: value,
        left: old,
        right: value,
    };
    combine_op(
        within.program.defs.as_slice(),
        at,
        update.op,
        update.left,
        update.right,
    )
}

/// The binary operator of `++` and `--`.
fn stepping(op: StepOp) -> BinaryOp
    ensures { result ≡ stepped op }
{
    match op {
        StepOp::Up => BinaryOp::Add,
        StepOp::Down => BinaryOp::Subtract,
    }
}

/// Whether an assignment copies a struct.
pub fn is_copy(op: Option<BinaryOp>, t: &CType) -> bool
    ensures { result ≡ copies op t.now }
{
    match op {
        None => is_struct(t),
        Some(_) => false,
    }
}

/// The value in the next temporary is assigned at a place or to a local in a register, with the operator of a compound assignment.
pub fn put_assigned(
    within: &Within,
    code: &mut Vec<SlotOp>,
    d: u32,
    register: Option<u32>,
    left: &CType,
    op: Option<BinaryOp>,
    right: &CType,
) -> Result<(), AllocError>
    ensures { OnOk result (code.new.items ≡ code.old.items ++ assigned_at within.now.program.now within.now.number d register left.now op right.now) }
{
    match op {
        None => put_write(code, d, register, left),
        Some(op) => {
            let update = Update {
                left,
                op,
                right,
                new: true,
            };
            put_update(within, code, d, register, &update)
        }
    }
}

/// `++` or `--`, whose value is the new one or the old one.
pub fn put_step(
    within: &Within,
    code: &mut Vec<SlotOp>,
    d: u32,
    register: Option<u32>,
    left: &CType,
    op: StepOp,
    new: bool,
) -> Result<(), AllocError>
    ensures { OnOk result (code.new.items ≡ code.old.items ++ Const (suc d) 1 ∷ update_at within.now.program.now within.now.number d register left.now (stepped op) Int new) }
{
    let update = Update {
        left,
        op: stepping(op),
        right: &CType::Int,
        new,
    };
    put(
        code,
        SlotOp::Const {
            to: next(d)?,
            bits: 1,
        },
    )?;
    put_update(within, code, d, register, &update)
}

/// The number of a struct type.
fn struct_number(t: &CType) -> u32
    ensures { result ≡ number_of t.now }
{
    match t {
        CType::Struct(s) => *s,
        _ => 0,
    }
}

/// A struct is copied from one place to another, which has no value.
pub fn put_move(code: &mut Vec<SlotOp>, d: u32, t: &CType) -> Result<(), AllocError>
    ensures { OnOk result (code.new.items ≡ code.old.items ++ Move d (suc d) (number_of t.now) ∷ Const d 0 ∷ []) }
{
    put(
        code,
        SlotOp::Move {
            to: d,
            from: next(d)?,
            shape: struct_number(t),
        },
    )?;
    put(code, SlotOp::Const { to: d, bits: 0 })
}

/// The size of a type, as a number.
pub fn put_size(
    within: &Within,
    code: &mut Vec<SlotOp>,
    d: u32,
    t: &CType,
) -> Result<(), AllocError>
    ensures { OnOk result (code.new.items ≡ code.old.items ++ Const d (size within.now.program.now.defs t.now) ∷ []) }
{
    let bits = bytes_of(t, within.program.defs.as_slice())?;
    put(code, SlotOp::Const { to: d, bits })
}

/// A member of a struct, by both numbers.
fn member_of(defs: &[StructDef], s: u32, m: u32) -> Option<&Member>
    ensures { option_map (λ r. r.now) result ≡ slice_get (members_of defs.now s) m }
{
    members(defs, s).get(m as usize)
}

/// The offset of a member of a struct.
fn dot_offset(within: &Within, a: &Typed, m: u32) -> u32
    ensures { result ≡ dot within.now.program.now a.now m }
{
    match member_of(within.program.defs.as_slice(), struct_number(type_of(a)), m) {
        None => 0,
        Some(member) => member.at,
    }
}

/// The offset of a member of a struct that a pointer points to.
fn arrow_offset(within: &Within, a: &Typed, m: u32) -> u32
    ensures { result ≡ arrow within.now.program.now a.now m }
{
    let defs = within.program.defs.as_slice();
    match target(type_of(a)) {
        None => match member_of(defs, 0, m) {
            None => 0,
            Some(member) => member.at,
        },
        Some(of) => match member_of(defs, struct_number(of), m) {
            None => 0,
            Some(member) => member.at,
        },
    }
}

/// A pointer to a struct moved on to one of its members.
pub fn put_dot(
    within: &Within,
    code: &mut Vec<SlotOp>,
    d: u32,
    a: &Typed,
    m: u32,
) -> Result<(), AllocError>
    ensures { OnOk result (code.new.items ≡ code.old.items ++ Offset d (dot within.now.program.now a.now m) ∷ []) }
{
    let bytes = dot_offset(within, a, m);
    put(code, SlotOp::Offset { at: d, bytes })
}

/// The same where an expression is a pointer to a struct.
pub fn put_arrow(
    within: &Within,
    code: &mut Vec<SlotOp>,
    d: u32,
    a: &Typed,
    m: u32,
) -> Result<(), AllocError>
    ensures { OnOk result (code.new.items ≡ code.old.items ++ Offset d (arrow within.now.program.now a.now m) ∷ []) }
{
    let bytes = arrow_offset(within, a, m);
    put(code, SlotOp::Offset { at: d, bytes })
}

/// A call with so many arguments, which stand in the temporaries from this one on.
pub fn put_enter(
    within: &Within,
    code: &mut Vec<SlotOp>,
    d: u32,
    g: u32,
    arguments: usize,
) -> Result<(), AllocError>
    ensures { OnOk result (code.new.items ≡ code.old.items ++ enter_code d (slice_get within.now.program.now.symbols g) arguments) }
{
    match symbol(within, g) {
        None => Ok(()),
        Some(row) => put_call(code, d, row, arguments),
    }
}

/// A call of what a name denotes.
fn put_call(
    code: &mut Vec<SlotOp>,
    d: u32,
    row: &SymbolRow,
    arguments: usize,
) -> Result<(), AllocError>
    ensures { OnOk result (code.new.items ≡ code.old.items ++ call_code d row.now.refers row.now.name arguments) }
{
    match row.refers {
        Referent::Function(function) => {
            let arguments = u32::try_from(arguments).map_err(|_| AllocError)?;
            put(
                code,
                SlotOp::Call {
                    at: d,
                    function,
                    arguments,
                },
            )
        }
        Referent::Declared => put_built_in(code, d, row.name.as_bytes(), arguments),
        Referent::Object(_) | Referent::Local(_) => Ok(()),
    }
}

/// A call of a built-in function.
fn put_built_in(
    code: &mut Vec<SlotOp>,
    d: u32,
    name: &[u8],
    arguments: usize,
) -> Result<(), AllocError>
    ensures { OnOk result (code.new.items ≡ code.old.items ++ built_in_code d name.now arguments) }
{
    if arguments == 0 {
        if name == b"getchar".as_slice() {
            put(code, SlotOp::GetChar { to: d })
        } else {
            Ok(())
        }
    } else if name == b"putchar".as_slice() {
        put(code, SlotOp::PutChar { at: d })
    } else {
        put(code, SlotOp::Exit { at: d })
    }
}
