// A made stack of many frames, and a walk over it.

ghost use Rattle.std.specs.Prelude.{◌≤◌};

use abs_mem::{AbsMem, Joined, Wire};
use frame_bytes::{Place, Space};
use ldb_words::{Kind, Order};
use machine_state::{CONTEXT, SPARC};
use near_link::NearLink;
use nub_wire::Side;
use ps_run::{NoDialect, PsCore, Steps, run};
use ps_store::{PsObj, PsStore};
use stack_walk::{first, row_of_target, up};
use std::alloc::{AllocError, Global};
use table_model::TargetRow;

/// A function of the whole text, whose frames have 16 bytes and keep the return address in the last word.
const TABLE: &[u8] =
    b"<< /units [ << /functions [ << /entry 16#400000 /end 16#400008 /frame 16 /saved [ [ 31 -4 ] ] >> ] >> ] >>";

/// The innermost stack pointer on the MIPS, the pointer to the next frame on the SPARC.
const INNERMOST: u32 = 0x7fef_0000;

/// The most frames that are made: those with windows have 64 bytes, and the stack a megabyte.
const MOST: u32 = 16_000;

/// The table.
fn table(alloc: Global) -> Result<Option<PsStore>, AllocError> {
    let mut store = PsStore::new(alloc)?;
    let Ok(text) = store.make_string(TABLE) else {
        return Ok(None);
    };
    let mut core = PsCore::new(alloc, store)?;
    let mut steps = Steps {
        taken: 0,
        limit: 1000,
    };
    let done = run(
        &mut core,
        &mut NoDialect,
        PsObj::Str(text, true),
        &mut steps,
    )
    .is_ok();
    let top = core.operands.get(0);
    let mut store = core.into_store();
    if let Some(PsObj::Dict(d)) = top {
        store.set_top(d);
    }
    Ok(if done { Some(store) } else { None })
}

/// Puts a word, and says whether it was put.
fn put<M: AbsMem>(memory: &mut M, at: u32, value: u32) -> bool {
    let space = Space::Memory;
    memory.store(Place { space, at }, Kind::Word, value).is_ok()
}

/// Puts the words of so many frames that keep their return addresses: the stack pointer, and each frame's return address, of
/// which the outermost is none of the text.
fn put_saving<M: AbsMem>(memory: &mut M, count: u32)
    requires { count ≤ 16000 }
{
    put(memory, CONTEXT + 116, INNERMOST);
    for frame in 0..count {
        let back = if frame + 1 < count { 0x0040_0008 } else { 8 };
        put(memory, INNERMOST + 16 * frame + 12, back);
    }
}

/// Puts the words of so many frames with windows: each frame's pointer to the next one, and the address of its call, of which
/// the outermost is none of the text. The innermost frame has its window in the context block.
fn put_windows<M: AbsMem>(memory: &mut M, count: u32)
    requires { count ≤ 16000 }
{
    for frame in 0..count {
        let outward = INNERMOST + 64 * frame;
        let window = if frame == 0 {
            CONTEXT + 64
        } else {
            outward - 64
        };
        let call = if frame + 1 < count { 0x0040_0000 } else { 0 };
        put(memory, window + 56, outward);
        put(memory, window + 60, call);
    }
}

/// How many frames a walk from the innermost one outwards finds.
fn walk<M: AbsMem>(row: TargetRow, table: &PsStore, memory: &mut M) -> u64 {
    let mut found: u64 = 0;
    let mut next = first(row, CONTEXT, table, memory);
    for _frame in 0..MOST {
        next = match next {
            Ok(Some(frame)) => {
                found = found.wrapping_add(1);
                up(row, &frame, table, memory)
            }
            _ => return found,
        };
    }
    found
}

/// How many frames are found in all by 100 walks over a stack of so many, at most 16,000, on a machine of a target.
pub fn walked(alloc: Global, link: NearLink, target: u8, count: u32) -> Result<u64, AllocError> {
    let Some(table) = table(alloc)? else {
        return Ok(0);
    };
    let order = if target == SPARC {
        Order::Big
    } else {
        Order::Little
    };
    let wire = Wire {
        link,
        side: Side::First,
        order,
    };
    let mut memory = Joined::new(wire, order);
    let count = count.min(MOST);
    if target == SPARC {
        put_windows(&mut memory, count);
    } else {
        put_saving(&mut memory, count);
    }
    let row = row_of_target(target);
    let mut found: u64 = 0;
    for _walk in 0..100 {
        found = found.wrapping_add(walk(row, &table, &mut memory));
    }
    Ok(found)
}
