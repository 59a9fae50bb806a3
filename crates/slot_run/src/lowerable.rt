// Whether slot code is made of a program.
ghost use Rattle.std.specs.Prelude.{◌≡◌, ℕ, ◌+◌, true, Some, IfOk, IfSome, not, ◌&&◌, bytes_eq, codes, slice_get};
ghost use Rattle.std.specs.Int.{next_multiple_of};
ghost use Rattle.c_tree.specs.declared.rows.Function.{Function};
ghost use Rattle.c_tree.specs.Layout.{size_of as bytes_of, leaves_of, alignment_of, alignment_within, alignment_of_members, AreLaid, IsLaidOut};
ghost use Rattle.c_tree.specs.Ordered.{AllLaidOut};
ghost use Rattle.c_source.specs.Begin.{main_from};
ghost use Rattle.slot_gen.specs.Rows.{Fits, AreFitting, AllFitting, IsLowerable};

use c_tree::{
    CType, Function, Leaf, LeafFault, Member, ObjectRow, Program, Start, StructDef, leaves,
    leaves_ascend, members, size_of,
};
use ldb_words::Kind;
use std::alloc::{AllocError, Global};

/// The deepest that a type may be.
const DEEPEST: u32 = 64;

/// Whether a program's structs are laid out, its objects hold at first what their types say, and it has a `main` without parameters. An object of more than 1,048,576 bytes is not looked into.
pub fn is_lowerable(alloc: Global, program: &Program) -> Result<bool, AllocError>
    ensures { IfOk result (λ answer. answer ≡ true → IsLowerable program.now) }
{
    if !are_laid_out(program.defs.as_slice()) {
        return Ok(false);
    }
    if !has_main(program.functions.as_slice()) {
        return Ok(false);
    }
    are_all_fitting(alloc, program, program.objects.as_slice())
}

// ---- structs

/// Whether each struct stands as the layout has it.
fn are_laid_out(defs: &[StructDef]) -> bool
    ensures { result ≡ true → AllLaidOut defs.now }
{
    for def in defs {
        if !is_laid_out(def, defs) {
            return false;
        }
    }
    true
}

/// Whether a struct stands as the layout has it.
fn is_laid_out(def: &StructDef, defs: &[StructDef]) -> bool
    ensures { result ≡ true → IsLaidOut defs.now def.now }
{
    match end_of(def.members.as_slice(), defs) {
        Some(end) => {
            let alignment = largest(def.members.as_slice(), defs, DEEPEST);
            is_next(def.size, end, alignment)
        }
        None => false,
    }
}

/// Where the members of a struct end, if each stands at the least fitting offset.
fn end_of(members: &[Member], defs: &[StructDef]) -> Option<u32>
    ensures { IfSome result (λ end. AreLaid defs.now 0 members.now end) }
{
    let mut from = 0;
    for member in members {
        from = end_of_member(member, defs, from)?;
    }
    Some(from)
}

/// Where a member ends, if it stands at the least fitting offset from this one on.
fn end_of_member(member: &Member, defs: &[StructDef], from: u32) -> Option<u32>
    ensures at { IfSome result (λ end. member.now.at ≡ next_multiple_of from (alignment_of defs.now member.now.ctype)) }
    ensures end { IfSome result (λ end. end ≡ member.now.at + bytes_of defs.now member.now.ctype) }
{
    if !is_next(member.at, from, alignment(&member.ctype, defs, DEEPEST)) {
        return None;
    }
    match size_of(&member.ctype, defs) {
        Ok(size) => member.at.checked_add(size),
        Err(_) => None,
    }
}

/// Whether a number is the least multiple of an alignment from another one on.
fn is_next(at: u32, from: u32, alignment: u32) -> bool
    ensures { result ≡ true → at ≡ next_multiple_of from alignment }
{
    match from.checked_next_multiple_of(alignment) {
        Some(next) => next == at,
        None => false,
    }
}

/// The alignment of a type that is at most so deep.
#[cycle(alignment)]
fn alignment(t: &CType, defs: &[StructDef], deep: u32) -> u32
    ensures { result ≡ alignment_within defs.now deep t.now }
{
    if deep == 0 {
        return 1;
    }
    match t {
        CType::Char | CType::Void => 1,
        CType::Int | CType::Unsigned | CType::Pointer(_) => 4,
        CType::Array(item, _) => alignment(item, defs, deep - 1),
        CType::Struct(s) => largest(members(defs, *s), defs, deep - 1),
    }
}

/// The largest alignment of members whose types are at most so deep.
#[cycle(alignment)]
fn largest(members: &[Member], defs: &[StructDef], deep: u32) -> u32
    ensures { result ≡ alignment_of_members (alignment_within defs.now deep) members.now }
{
    let mut most: u32 = 1;
    for member in members {
        most = most.max(alignment(&member.ctype, defs, deep));
    }
    most
}

// ---- static objects

/// Whether what the objects hold at first fits their types.
fn are_all_fitting(
    alloc: Global,
    program: &Program,
    objects: &[ObjectRow],
) -> Result<bool, AllocError>
    requires { AllLaidOut program.now.defs }
    ensures { IfOk result (λ answer. answer ≡ true → AllFitting program.now objects.now) }
{
    for row in objects {
        if !is_fitting(alloc, program, row)? {
            return Ok(false);
        }
    }
    Ok(true)
}

/// Whether what an object holds at first fits its type.
fn is_fitting(alloc: Global, program: &Program, row: &ObjectRow) -> Result<bool, AllocError>
    requires { AllLaidOut program.now.defs }
    ensures { IfOk result (λ answer. answer ≡ true → AreFitting (leaves_of program.now.defs row.now.ctype) row.now.start) }
{
    leaves_ascend();
    match leaves(alloc, &row.ctype, program.defs.as_slice()) {
        Ok(all) => Ok(are_fitting(&all, row.start.as_slice())),
        Err(LeafFault::TooBig) => Ok(false),
        Err(LeafFault::NoMemory) => Err(AllocError),
    }
}

/// Whether what leaves hold at first fits them.
fn are_fitting(leaves: &[Leaf], starts: &[Start]) -> bool
    ensures { result ≡ true → AreFitting leaves.now starts.now }
{
    for i in 0..leaves.len() {
        if i >= starts.len() {
            return true;
        }
        if !fits(leaves[i].kind, starts[i]) {
            return false;
        }
    }
    true
}

/// Whether a leaf of a kind holds this at first.
fn fits(kind: Kind, start: Start) -> bool
    ensures { result ≡ true → Fits kind start }
{
    match (kind, start) {
        (Kind::Word, Start::Object { .. } | Start::Str(_)) => false,
        _ => true,
    }
}

// ---- `main`

/// Whether there is a `main`, and it has no parameters.
fn has_main(functions: &[Function]) -> bool
    ensures { result ≡ true → (main : Function) × (slice_get functions.now (main_from 0 functions.now) ≡ Some main) × (main.params ≡ 0) }
{
    for function in functions {
        if is_main(function) {
            return function.params == 0;
        }
    }
    false
}

/// Whether a function is external and called `main`.
fn is_main(function: &Function) -> bool
    ensures { result ≡ not function.now.is_static && bytes_eq function.now.name (codes "main") }
{
    !function.is_static && function.name.as_bytes() == b"main".as_slice()
}
