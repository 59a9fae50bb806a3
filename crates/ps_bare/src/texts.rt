// Operators that append. Where there is no target the text is dropped.

ghost use Rattle.std.specs.Prelude.{◌≡◌, ◌≤◌, ℕ};
ghost use Rattle.ps_store.specs.Store.{closed_part};
ghost use Rattle.ps_bare.specs.Bare.{ActsBare};

use crate::places::quiet;
use abs_mem::{NoMem, Register};
use ldb_words::Text;
use ps_append::{put, put_char, put_chars};
use ps_leaves::put_pointer;
use ps_run::{PsCore, PsFault};

/// `Put`.
fn put_string(core: &mut PsCore) -> Result<(), PsFault>
    ensures acts { (cell : ℕ) → ActsBare 28 cell core.old result cell core.new }
    ensures closed { closed_part core.new.store ≡ closed_part core.old.store }
{
    let mut out = Text::new(core.operands.allocator());
    put(core, &mut out)
}

/// `PutChar`.
fn put_character(core: &mut PsCore) -> Result<(), PsFault>
    ensures acts { (cell : ℕ) → ActsBare 29 cell core.old result cell core.new }
    ensures closed { closed_part core.new.store ≡ closed_part core.old.store }
{
    let mut out = Text::new(core.operands.allocator());
    put_char(core, &mut out)
}

/// `PutPointer`.
fn put_address(core: &mut PsCore) -> Result<(), PsFault>
    ensures acts { (cell : ℕ) → ActsBare 30 cell core.old result cell core.new }
    ensures closed { closed_part core.new.store ≡ closed_part core.old.store }
{
    let mut out = Text::new(core.operands.allocator());
    put_pointer(core, None, &mut out)
}

/// `PutChars`.
fn put_characters(core: &mut PsCore, memory: &mut Register<NoMem>) -> Result<(), PsFault>
    ensures acts { ActsBare 31 memory.old.cell core.old result memory.new.cell core.new }
    ensures closed { closed_part core.new.store ≡ closed_part core.old.store }
{
    let mut out = Text::new(core.operands.allocator());
    quiet(put_chars(core, memory, &mut out))
}

/// An operator that appends: `Put` to `PutChars`.
pub fn append(core: &mut PsCore, memory: &mut Register<NoMem>, op: u16) -> Result<(), PsFault>
    requires from { 28 ≤ op }
    requires to { op ≤ 31 }
    ensures acts { ActsBare op memory.old.cell core.old result memory.new.cell core.new }
    ensures closed { closed_part core.new.store ≡ closed_part core.old.store }
{
    match op {
        28 => put_string(core),
        29 => put_character(core),
        30 => put_address(core),
        _ => put_characters(core, memory),
    }
}
