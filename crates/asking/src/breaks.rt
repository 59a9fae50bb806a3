// `break` and `clear`.

ghost use Rattle.std.specs.Prelude.{◌≡◌, ◌⊎◌, ◌≤◌, OnErr, IfErr, IfOk, codes, map, option_map};
ghost use Rattle.machine_state.specs.declared.layout.TheConstants.{MIPS, SPARC};
ghost use Rattle.ps_store.specs.Store.{closed_part};
ghost use Rattle.break_plant.specs.Planted.{noop_of, break_of};
ghost use Rattle.table_read.specs.Reads.{in_ok};
ghost use Rattle.std.specs.List.{AllByRecursion};
ghost use Rattle.table_points.specs.Named.{IsNamed};
ghost use Rattle.table_points.specs.Rows.{row_in};
ghost use Rattle.dialect_model.specs.TableUse.{Looks};
ghost use Rattle.table_asks.specs.Asking.{Comes, LedAsk};
ghost use Rattle.table_asks.specs.Closing.{Settles};
ghost use Rattle.table_asks.specs.Faults.{IsOwn};
ghost use Rattle.table_asks.specs.Talking.{with_target};
ghost use Rattle.asking.specs.Doing.{Changes, ChangesOver};
ghost use Rattle.asking.specs.Lines.{BeginsWith};
ghost use Rattle.asking.specs.Breaks.{same_point, has, rows_in, point_of_spot, planting_fault, broken_at, cleared_at, breaking, clearing};

use crate::lines::point_text;
use abs_mem::AbsMem;
use break_plant::{PlantFault, plant, unplant};
use c_session::Spot;
use ldb_words::Text;
use machine_state::{MIPS, SPARC};
use ps_ops::Operators;
use ps_store::PsStore;
use table_asks::{AskFault, Cause, Inquiry, body_told, line_told, memory_fault};
use table_points::{Point, is_named};

/// The target with a number: SPARC or else MIPS.
fn known(target: u8) -> u8
    ensures known { (result ≡ MIPS) ⊎ (result ≡ SPARC) }
    ensures no_op { noop_of result ≡ noop_of target }
    ensures break_word { break_of result ≡ break_of target }
{
    if target == SPARC { SPARC } else { MIPS }
}

/// Whether two points are the same: the names of their files and functions are the same bytes.
fn is_same(table: &PsStore, one: Point, other: Point) -> bool
    ensures { result ≡ same_point (row_in table.now one) (row_in table.now other) }
{
    one.at == other.at
        && one.line == other.line
        && one.column == other.column
        && table.same_bytes(one.file, other.file)
        && table.same_bytes(one.function, other.function)
}

/// Whether a breakpoint is set at a point.
fn is_set(table: &PsStore, breaks: &[Point], place: Point) -> bool
    ensures { result ≡ has (rows_in table.now breaks.now) (row_in table.now place) }
{
    breaks.iter().any(|point| is_same(table, *point, place))
}

/// Why no breakpoint is planted: the word there is another one, or isn't read or stored.
fn planting_fault(fault: PlantFault) -> AskFault
    ensures { result ≡ planting_fault fault }
{
    match fault {
        PlantFault::NotNoop { .. } => AskFault::Refused(Cause::NoPlace),
        PlantFault::Memory(fault) => memory_fault(fault),
    }
}

/// Sets a breakpoint at a point, unless one is set there. Memory is taken before anything is stored; there is none for names that
/// don't last.
fn set<W: AbsMem + Drop>(
    inquiry: &Inquiry,
    talk: &mut Operators<W>,
    breaks: &mut Vec<Point>,
    place: Point,
) -> Result<Text, AskFault>
    ensures kept { OnErr result (breaks.new.items ≡ breaks.old.items) }
    ensures word { IfOk result (λ text. BeginsWith (codes "break ") text) }
    ensures named { AllByRecursion (IsNamed inquiry.now.core.store) breaks.old.items → AllByRecursion (IsNamed inquiry.now.core.store) breaks.new.items }
    ensures meaning { Changes (λ b. broken_at talk.old.view.target (rows_in inquiry.now.core.store breaks.old.items) b (row_in inquiry.now.core.store place) (has (rows_in inquiry.now.core.store breaks.old.items) (row_in inquiry.now.core.store place))) (W.seen talk.old.memory.below.below.below) result (rows_in inquiry.now.core.store breaks.new.items) (W.seen talk.new.memory.below.below.below) }
    ensures calls { LedAsk W.leads talk.old.memory.below.below.below result talk.new.memory.below.below.below }
    ensures target { talk.new ≡ with_target talk.old talk.new.memory.below.below.below }
{
    let table = &inquiry.core.store;
    let alloc = inquiry.core.operands.allocator();
    let Ok(text) = point_text(alloc, b"break ", table, place) else {
        return Err(AskFault::NoMemory);
    };
    if is_set(table, breaks.as_slice(), place) {
        return Ok(text);
    }
    if !is_named(table, &place) {
        return Err(AskFault::NoMemory);
    }
    match breaks.push(place) {
        Ok(()) => {}
        Err(_) => return Err(AskFault::NoMemory),
    }
    let target = known(talk.view.target);
    match plant(target, &mut talk.memory.below.below.below, place.at) {
        Ok(()) => Ok(text),
        Err(fault) => {
            breaks.pop();
            Err(planting_fault(fault))
        }
    }
}

/// The point that a spot says, whose units are run if they have to be.
fn spot_told(inquiry: &mut Inquiry, spot: &Spot) -> Result<Option<Point>, AskFault>
    requires within { inquiry.old.steps.taken ≤ inquiry.old.steps.limit }
    ensures within { inquiry.new.steps.taken ≤ inquiry.new.steps.limit }
    ensures limit { inquiry.new.steps.limit ≡ inquiry.old.steps.limit }
    ensures more { inquiry.old.steps.taken ≤ inquiry.new.steps.taken }
    ensures closed { Settles (closed_part inquiry.old.core.store) (closed_part inquiry.new.core.store) }
    ensures own { IfErr result (λ fault. IsOwn fault) }
    ensures meaning { Comes (Looks (point_of_spot spot.now)) inquiry.old (in_ok (option_map (row_in inquiry.new.core.store)) result) inquiry.new }
{
    match spot {
        Spot::Line { file, line, column } => line_told(inquiry, file.as_bytes(), *line, *column),
        Spot::Func { name } => body_told(inquiry, name.as_bytes()),
    }
}

/// `break`: a breakpoint is set at the point. One that is set already is answered again and changes nothing. Where it isn't done the
/// breakpoints are as before. The names of points are those that the table tells after it.
pub fn breaking<W: AbsMem + Drop>(
    inquiry: &mut Inquiry,
    talk: &mut Operators<W>,
    breaks: &mut Vec<Point>,
    spot: &Spot,
) -> Result<Text, AskFault>
    requires within { inquiry.old.steps.taken ≤ inquiry.old.steps.limit }
    ensures kept { OnErr result (breaks.new.items ≡ breaks.old.items) }
    ensures word { IfOk result (λ text. BeginsWith (codes "break ") text) }
    ensures named { AllByRecursion (IsNamed inquiry.new.core.store) breaks.old.items → AllByRecursion (IsNamed inquiry.new.core.store) breaks.new.items }
    ensures within { inquiry.new.steps.taken ≤ inquiry.new.steps.limit }
    ensures limit { inquiry.new.steps.limit ≡ inquiry.old.steps.limit }
    ensures more { inquiry.old.steps.taken ≤ inquiry.new.steps.taken }
    ensures closed { Settles (closed_part inquiry.old.core.store) (closed_part inquiry.new.core.store) }
    ensures meaning { ChangesOver (λ b. breaking talk.old.view.target (rows_in inquiry.new.core.store breaks.old.items) b spot.now) inquiry.old (W.seen talk.old.memory.below.below.below) result (rows_in inquiry.new.core.store breaks.new.items) inquiry.new (W.seen talk.new.memory.below.below.below) }
    ensures calls { LedAsk W.leads talk.old.memory.below.below.below result talk.new.memory.below.below.below }
    ensures target { talk.new ≡ with_target talk.old talk.new.memory.below.below.below }
{
    match spot_told(inquiry, spot) {
        Err(fault) => Err(fault),
        Ok(None) => Err(AskFault::Refused(Cause::NoPlace)),
        Ok(Some(place)) => set(inquiry, talk, breaks, place),
    }
}

/// Takes the breakpoint at a point away: the no-op is put back. Memory is taken before anything is stored.
fn unset<W: AbsMem + Drop>(
    inquiry: &Inquiry,
    talk: &mut Operators<W>,
    breaks: &mut Vec<Point>,
    place: Point,
) -> Result<Text, AskFault>
    ensures kept { OnErr result (breaks.new.items ≡ breaks.old.items) }
    ensures word { IfOk result (λ text. BeginsWith (codes "clear ") text) }
    ensures named { AllByRecursion (IsNamed inquiry.now.core.store) breaks.old.items → AllByRecursion (IsNamed inquiry.now.core.store) breaks.new.items }
    ensures meaning { Changes (λ b. cleared_at talk.old.view.target (rows_in inquiry.now.core.store breaks.old.items) b (row_in inquiry.now.core.store place) (has (rows_in inquiry.now.core.store breaks.old.items) (row_in inquiry.now.core.store place))) (W.seen talk.old.memory.below.below.below) result (rows_in inquiry.now.core.store breaks.new.items) (W.seen talk.new.memory.below.below.below) }
    ensures calls { LedAsk W.leads talk.old.memory.below.below.below result talk.new.memory.below.below.below }
    ensures target { talk.new ≡ with_target talk.old talk.new.memory.below.below.below }
{
    let table = &inquiry.core.store;
    if !is_set(table, breaks.as_slice(), place) {
        return Err(AskFault::Refused(Cause::NoPlace));
    }
    let alloc = inquiry.core.operands.allocator();
    let Ok(text) = point_text(alloc, b"clear ", table, place) else {
        return Err(AskFault::NoMemory);
    };
    let target = known(talk.view.target);
    match unplant(target, &mut talk.memory.below.below.below, place.at) {
        Ok(()) => {
            breaks.retain(|point| !is_same(table, *point, place));
            Ok(text)
        }
        Err(fault) => Err(memory_fault(fault)),
    }
}

/// `clear`: the breakpoint at the point is taken away. Where it isn't done the breakpoints are as before. The names of points are those
/// that the table tells after it.
pub fn clearing<W: AbsMem + Drop>(
    inquiry: &mut Inquiry,
    talk: &mut Operators<W>,
    breaks: &mut Vec<Point>,
    spot: &Spot,
) -> Result<Text, AskFault>
    requires within { inquiry.old.steps.taken ≤ inquiry.old.steps.limit }
    ensures kept { OnErr result (breaks.new.items ≡ breaks.old.items) }
    ensures word { IfOk result (λ text. BeginsWith (codes "clear ") text) }
    ensures named { AllByRecursion (IsNamed inquiry.new.core.store) breaks.old.items → AllByRecursion (IsNamed inquiry.new.core.store) breaks.new.items }
    ensures within { inquiry.new.steps.taken ≤ inquiry.new.steps.limit }
    ensures limit { inquiry.new.steps.limit ≡ inquiry.old.steps.limit }
    ensures more { inquiry.old.steps.taken ≤ inquiry.new.steps.taken }
    ensures closed { Settles (closed_part inquiry.old.core.store) (closed_part inquiry.new.core.store) }
    ensures meaning { ChangesOver (λ b. clearing talk.old.view.target (rows_in inquiry.new.core.store breaks.old.items) b spot.now) inquiry.old (W.seen talk.old.memory.below.below.below) result (rows_in inquiry.new.core.store breaks.new.items) inquiry.new (W.seen talk.new.memory.below.below.below) }
    ensures calls { LedAsk W.leads talk.old.memory.below.below.below result talk.new.memory.below.below.below }
    ensures target { talk.new ≡ with_target talk.old talk.new.memory.below.below.below }
{
    match spot_told(inquiry, spot) {
        Err(fault) => Err(fault),
        Ok(None) => Err(AskFault::Refused(Cause::NoPlace)),
        Ok(Some(place)) => unset(inquiry, talk, breaks, place),
    }
}
