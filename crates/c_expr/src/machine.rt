// One token more.
ghost use Rattle.std.specs.Prelude.{◌≡◌};
ghost use Rattle.c_expr.specs.Machine.{Gives, shift};

use crate::have::having;
use crate::name::typing;
use crate::state::{Mode, Parser, SynFault};
use crate::want::{naming, tagging, wanting};
use c_symbol::Terminal;
use std::alloc::Global;

/// One token more.
pub fn shift(alloc: Global, parser: Parser, next: Terminal) -> Result<Parser, SynFault>
    ensures { Gives result (shift parser next) }
{
    let Parser { stack, mode } = parser;
    let Terminal {
        symbol,
        place,
        text,
    } = next;
    match mode {
        Mode::Want => wanting(alloc, stack, symbol, place, text),
        Mode::Have(g) => having(alloc, stack, g, symbol, place),
        Mode::Naming(g, access) => naming(alloc, stack, g, access, symbol, place, text),
        Mode::Typing(part) => typing(alloc, stack, part, symbol, place),
        Mode::Tagging(begun) => tagging(stack, begun, symbol, place, text),
    }
}
