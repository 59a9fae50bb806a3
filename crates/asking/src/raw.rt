// `regs` and `ps`: commands about the target itself.

ghost use Rattle.std.specs.Prelude.{◌≡◌, ◌+◌, ◌++◌, ◌≤◌, true, OnOk, IfOk, IfErr, codes};
ghost use Rattle.ps_leaves.specs.Forms.{hex_text};
ghost use Rattle.table_read.specs.Reads.{in_ok};
ghost use Rattle.table_asks.specs.Asking.{LedAsk};
ghost use Rattle.table_asks.specs.Running.{RanOver};
ghost use Rattle.table_asks.specs.Talking.{with_target};
ghost use Rattle.machine_state.specs.declared.layout.TheConstants.{CONTEXT_WORDS};
ghost use Rattle.asking.specs.Lines.{target_text, BeginsWith};
ghost use Rattle.asking.specs.Doing.{Asks, talk_in};
ghost use Rattle.ps_ops.specs.declared.view.Standing.TheVariants.{Numbered};
ghost use Rattle.asking.specs.Raw.{words_behind, regs_line, ps_line, text_fault, PsOver};
ghost use Rattle.ps_store.specs.Store.{closed_part};
ghost use Rattle.table_asks.specs.Closing.{Settles};
ghost use Rattle.table_asks.specs.Faults.{IsOwn, IsUnrefused};

use crate::lines::append_hex;
use crate::shown::begin_talk;
use abs_mem::AbsMem;
use frame_bytes::{Place, Space};
use ldb_words::{Kind, Text};
use machine_state::{CONTEXT_WORDS, SPARC};
use ps_ops::{Operators, Standing};
use ps_run::{PsCore, PsError};
use ps_step::text::text_of;
use ps_store::{PsObj, StoreFault};
use std::alloc::{AllocError, Global};
use table_asks::{AskFault, Inquiry, begin_run, memory_fault, run_object};

/// Adds a word in eight hexadecimal digits behind a space.
fn append_word(out: &mut Text, word: u32) -> Result<(), AllocError>
    ensures { OnOk result (out.new ≡ out.old ++ (codes " " ++ hex_text 8 word)) }
{
    out.append(b" ")?;
    append_hex(out, 8, word)
}

/// Adds so many words of the context block at an address, from the one with a number on. It is as deep as it adds words.
fn append_words<M: AbsMem>(
    out: &mut Text,
    m: &mut M,
    context: u32,
    number: u32,
    count: u32,
) -> Result<(), AskFault>
    requires inside { number + count ≤ CONTEXT_WORDS }
    ensures unrefused { IfErr result (λ fault. IsUnrefused fault) }
    ensures front { OnOk result (BeginsWith out.old out.new) }
    ensures meaning { Asks (M.seen m.old) (words_behind out.old context number count) (in_ok (λ u. out.new) result) (M.seen m.new) }
    ensures calls { LedAsk M.leads m.old result m.new }
{
    if count == 0 {
        return Ok(());
    }
    let at = context.wrapping_add(4 * number);
    let space = Space::Memory;
    match m.fetch(Place { space, at }, Kind::Word) {
        Err(fault) => Err(memory_fault(fault)),
        Ok(word) => match append_word(out, word) {
            Err(_) => Err(AskFault::NoMemory),
            Ok(()) => append_words(out, m, context, number + 1, count - 1),
        },
    }
}

/// The word of a line of registers, and its target.
fn head_of(alloc: Global, target: u8) -> Result<Text, AllocError>
    ensures { IfOk result (λ t. t ≡ codes "regs " ++ target_text target) }
{
    if target == SPARC {
        Text::from_slice(alloc, b"regs sparc")
    } else {
        Text::from_slice(alloc, b"regs mips")
    }
}

/// `regs`: the target and the words of its context block.
pub fn registers<W: AbsMem + Drop>(alloc: Global, talk: &mut Operators<W>) -> Result<Text, AskFault>
    ensures unrefused { IfErr result (λ fault. IsUnrefused fault) }
    ensures word { IfOk result (λ text. BeginsWith (codes "regs ") text) }
    ensures meaning { Asks (W.seen talk.old.memory.below.below.below) (regs_line talk.old.view.target talk.old.view.context) result (W.seen talk.new.memory.below.below.below) }
    ensures calls { LedAsk W.leads talk.old.memory.below.below.below result talk.new.memory.below.below.below }
    ensures kept { talk.new ≡ with_target talk.old talk.new.memory.below.below.below }
{
    let Ok(mut out) = head_of(alloc, talk.view.target) else {
        return Err(AskFault::NoMemory);
    };
    let context = talk.view.context;
    let m = &mut talk.memory.below.below.below;
    match append_words(&mut out, m, context, 0, CONTEXT_WORDS as u32) {
        Err(fault) => Err(fault),
        Ok(()) => match out.append(b"\n") {
            Ok(()) => Ok(out),
            Err(_) => Err(AskFault::NoMemory),
        },
    }
}

/// The line of the operands that are left, from the bottom, as `cvs` writes them.
fn operands_text(alloc: Global, core: &PsCore) -> Result<Text, AllocError>
    ensures { IfOk result (λ t. t ≡ ps_line core.now) }
{
    let mut out = Text::from_slice(alloc, b"ps")?;
    let count = core.operands.len();
    for number in 0..count {
        let object = core.operands.at(count - 1 - number);
        let text = text_of(&core.store, object, alloc)?;
        out.append(b" ")?;
        out.append(text.as_slice())?;
    }
    out.append(b"\n")?;
    Ok(out)
}

/// Why a text isn't made a string.
fn text_fault(fault: StoreFault) -> AskFault
    ensures value { result ≡ text_fault fault }
    ensures own { IsOwn result }
    ensures unrefused { IsUnrefused result }
{
    match fault {
        StoreFault::NoMemory => AskFault::NoMemory,
        StoreFault::Limit | StoreFault::ReadOnly => AskFault::Raised(PsError::LimitCheck),
    }
}

/// `ps TEXT`: runs a text of PostScript in the frame with the number, and tells the operands that are left. No frame is walked before
/// the text asks for that one. What the text stored to the target stays, however it ends.
pub fn running_text<W: AbsMem + Drop>(
    inquiry: &mut Inquiry,
    talk: &mut Operators<W>,
    number: u32,
    text: &[u8],
) -> Result<Text, AskFault>
    requires within { inquiry.old.steps.taken ≤ inquiry.old.steps.limit }
    ensures within { inquiry.new.steps.taken ≤ inquiry.new.steps.limit }
    ensures limit { inquiry.new.steps.limit ≡ inquiry.old.steps.limit }
    ensures more { inquiry.old.steps.taken ≤ inquiry.new.steps.taken }
    ensures closed { Settles (closed_part inquiry.old.core.store) (closed_part inquiry.new.core.store) }
    ensures unrefused { IfErr result (λ fault. IsUnrefused fault) }
    ensures word { IfOk result (λ text. BeginsWith (codes "ps") text) }
    ensures calls { RanOver W.seen W.leads talk.old.memory.below.below.below result talk.new.memory.below.below.below }
    ensures meaning { PsOver W.seen text.now inquiry.old (talk_in talk.old (Numbered number) true) result inquiry.new talk.new }
{
    let alloc = inquiry.core.operands.allocator();
    begin_talk(alloc, talk, Standing::Numbered { number }, true);
    match begin_run(inquiry) {
        Ok(()) => {}
        Err(fault) => return Err(fault),
    }
    let what = match inquiry.core.store.make_string(text) {
        Ok(t) => PsObj::Str(t, true),
        Err(fault) => return Err(text_fault(fault)),
    };
    match run_object(inquiry, talk, what) {
        Err(fault) => Err(fault),
        Ok(()) => match operands_text(alloc, &inquiry.core) {
            Ok(text) => Ok(text),
            Err(_) => Err(AskFault::NoMemory),
        },
    }
}
