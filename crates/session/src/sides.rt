// The sides of a session.

ghost use Rattle.std.specs.Prelude.{◌≡◌, ◌⊎◌};
ghost use Rattle.machine_state.specs.declared.layout.TheConstants.{MIPS, SPARC};
ghost use Rattle.session.specs.Turned.{byte_of, order_of, turned};
ghost use Rattle.session.specs.Meant.{kind_of};

use abs_mem::Wire;
use debug_side::{MachineKind, SideRow};
use ldb_words::Order;
use machine_state::{MIPS, SPARC};
use nub_wire::Side;
use ps_ops::Operators;
use table_asks::Inquiry;

/// The machines.
#[derive(Clone, Copy)]
pub enum Machine {
    Mips,
    Sparc,
}

impl Machine {
    /// Its target byte.
    pub fn byte(self) -> u8
        ensures kind { (result ≡ MIPS) ⊎ (result ≡ SPARC) }
        ensures value { result ≡ byte_of self }
    {
        match self {
            Machine::Mips => MIPS,
            Machine::Sparc => SPARC,
        }
    }

    /// The order of its bytes.
    pub fn order(self) -> Order
        ensures { result ≡ order_of self }
    {
        match self {
            Machine::Mips => Order::Little,
            Machine::Sparc => Order::Big,
        }
    }
}

/// What a session keeps of a side: which one it is and of what machine, the address of its context block, its table and the
/// steps of a command in it, its breakpoints and where it stands, and the number of its chosen frame.
#[derive(Drop)]
pub struct SideRecord {
    pub which: Side,
    pub machine: Machine,
    pub context: u32,
    pub inquiry: Inquiry,
    pub row: SideRow,
    pub frame: u32,
}

impl SideRecord {
    /// Its machine, as a debugger knows it.
    pub fn kind(&self) -> MachineKind
        ensures known { (result.target ≡ MIPS) ⊎ (result.target ≡ SPARC) }
        ensures value { result ≡ kind_of self.now }
    {
        MachineKind {
            target: self.machine.byte(),
            context: self.context,
        }
    }
}

/// The memory that operators see is that of this side.
pub fn turn<L>(talk: &mut Operators<Wire<L>>, side: &SideRecord)
    ensures { talk.new ≡ turned side.now talk.old }
{
    let order = side.machine.order();
    talk.memory.below.below.below.side = side.which;
    talk.memory.below.below.below.order = order;
    talk.memory.below.below.order = order;
    talk.view.target = side.machine.byte();
    talk.view.context = side.context;
}
