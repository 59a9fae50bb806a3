// The start of a session.

ghost use Rattle.std.specs.Prelude.{◌≡◌, ◌≤◌, ◌+◌, ℕ, length, IfOk, OnOk, Ok, Option};
ghost use Rattle.machine_state.specs.declared.layout.TheConstants.{CONTEXT};
ghost use Rattle.machine_state.specs.State.{MachineState, Behaviour};
ghost use Rattle.nub_wire.specs.Nub.{Host};
ghost use Rattle.nub_wire.specs.declared.message.Msg.TheVariants.{Word};
ghost use Rattle.resuming.specs.Standing.{Stands};
ghost use Rattle.session.specs.Starting.{named_target, target_in, given_to, IsFirst, IsBegun, StartsAs};
ghost use Rattle.session.specs.Turned.{byte_of};

use crate::answers::StartFault;
use crate::sides::{Machine, SideRecord};
use debug_side::SideRow;
use nub_wire::{Chunk, Link, Msg, Side};
use ps_run::{PsCore, Steps};
use ps_store::{Part, PsStore, StringId};
use std::alloc::Global;
use table_asks::Inquiry;
use table_model::Lack;
use table_read::{string_at, top_of};
use wire_talk::ask;

/// The most bytes of input in a message.
const PIECE: usize = 1024;

/// The string by which a table names its target.
fn named_target(table: &PsStore) -> Result<StringId, Lack>
    ensures { result ≡ named_target table.now }
{
    let top = top_of(table)?;
    string_at(table, top, b"target")
}

/// The machine of a table.
fn machine_of(table: &PsStore) -> Machine
    ensures { byte_of result ≡ target_in table.now }
{
    match named_target(table) {
        Ok(name) => {
            if table.string_get(name) == b"sparc".as_slice() {
                Machine::Sparc
            } else {
                Machine::Mips
            }
        }
        Err(_) => Machine::Mips,
    }
}

/// The word that a reply tells.
fn word_of(reply: Msg) -> Result<u32, StartFault>
    ensures { (value : ℕ) → reply ≡ Word value → result ≡ Ok value }
{
    match reply {
        Msg::Word { value } => Ok(value),
        _ => Err(StartFault::Target),
    }
}

/// The address of the context block, which a nub tells.
fn context_of<L: Link>(link: &mut L, side: Side) -> Result<u32, StartFault>
    ensures calm { OnOk result (L.faults link.new ≡ L.faults link.old) }
    ensures meant { (b : Behaviour) (h : Host) (beside : Option Host) → Stands b L.conduct side (L.world link.old) h beside → StartsAs (L.faults link.old) (L.faults link.new) (λ at. (at ≡ CONTEXT) × Stands b L.conduct side (L.world link.new) h beside) result }
{
    match ask(link, side, &Msg::Hello) {
        Ok(reply) => word_of(reply),
        Err(_) => Err(StartFault::Target),
    }
}

/// Gives a nub a piece of the input.
fn give<L: Link>(link: &mut L, side: Side, piece: &[u8]) -> Result<(), StartFault>
    requires some { 1 ≤ length piece.now }
    requires fits { length piece.now ≤ 1024 }
    ensures calm { OnOk result (L.faults link.new ≡ L.faults link.old) }
    ensures meant { (b : Behaviour) (h : Host) (beside : Option Host) → Stands b L.conduct side (L.world link.old) h beside → h.machine.given + length piece.now ≤ 16777216 → StartsAs (L.faults link.old) (L.faults link.new) (λ u. Stands b L.conduct side (L.world link.new) (given_to piece.now h) beside) result }
{
    let bytes = Chunk::copied(piece);
    match ask(link, side, &Msg::Input { bytes }) {
        Ok(_) => Ok(()),
        Err(_) => Err(StartFault::Target),
    }
}

/// Gives a nub the whole input.
fn give_all<L: Link>(link: &mut L, side: Side, input: &[u8]) -> Result<(), StartFault>
    ensures calm { OnOk result (L.faults link.new ≡ L.faults link.old) }
    ensures meant { (b : Behaviour) (h : Host) (beside : Option Host) → Stands b L.conduct side (L.world link.old) h beside → h.machine.given + length input.now ≤ 16777216 → StartsAs (L.faults link.old) (L.faults link.new) (λ u. Stands b L.conduct side (L.world link.new) (given_to input.now h) beside) result }
{
    let mut done = 0;
    while done < input.len() {
        let count = (input.len() - done).min(PIECE);
        give(link, side, &input[done..done + count])?;
        done += count;
    }
    Ok(())
}

/// A side with a table, whose nub was greeted and given the input.
pub fn begun<L: Link>(
    alloc: Global,
    link: &mut L,
    side: Side,
    table: PsStore,
    input: &[u8],
) -> Result<SideRecord, StartFault>
    ensures side { IfOk result (λ r. r.which ≡ side) }
    ensures calm { OnOk result (L.faults link.new ≡ L.faults link.old) }
    ensures meant { (b : Behaviour) (m : MachineState) (beside : Option Host) → IsFirst b L.conduct (L.world link.old) side m beside table → length input.now ≤ 16777216
        → StartsAs (L.faults link.old) (L.faults link.new) (λ r. IsBegun b L.conduct (L.world link.new) r input.now m beside table) result }
{
    let machine = machine_of(&table);
    let Ok(mut core) = PsCore::new(alloc, table) else {
        return Err(StartFault::NoMemory);
    };
    core.store.use_part(Part::Command);
    let context = match context_of(link, side) {
        Ok(context) => context,
        Err(fault) => return Err(fault),
    };
    match give_all(link, side, input) {
        Ok(()) => {}
        Err(fault) => return Err(fault),
    }
    Ok(SideRecord {
        which: side,
        machine,
        context,
        inquiry: Inquiry {
            core,
            steps: Steps { taken: 0, limit: 0 },
        },
        row: SideRow {
            breaks: Vec::new(alloc),
            step_words: Vec::new(alloc),
            words_stay: false,
            stands_at: None,
            kept: None,
        },
        frame: 0,
    })
}
