// Commands of a session, and their replies.

use ldb_words::Text;

/// The place of a breakpoint.
#[derive(Drop)]
pub enum Spot {
    /// `F:L.C`, or `F:L` for the first point of the line.
    Line {
        file: Text,
        line: u32,
        column: Option<u32>,
    },
    /// A function's name, which means the `{` of its body.
    Func {
        name: Text,
    },
}

/// A command line that is well formed.
#[derive(Drop)]
pub enum Command {
    Break(Spot),
    Clear(Spot),
    Continue,
    Step,
    /// The most instructions that a resume may take on a target.
    Turns(u32),
    Frames,
    /// The number of a frame, 0 being the innermost.
    Frame(u32),
    Print(Text),
    Eval(Text),
    Assign(Text),
    Quit,
    /// The registers of the targets: a command about machines.
    Regs,
    /// The PostScript of an expression: a command about the debugger.
    Code(Text),
    /// PostScript to be run: a command about the debugger.
    Ps(Text),
}

/// The lines of a reply.
#[derive(Drop)]
pub struct Reply {
    pub text: Text,
}
