// The modes of a session, and which commands each refuses.

ghost use Rattle.std.specs.Prelude.{◌≡◌};
ghost use Rattle.std.specs.Option.{option_map};
ghost use Rattle.claims.specs.Outcome.{needs_stop, goes_while_running, refused_by_state};
ghost use Rattle.session.specs.Answered.{state_of, reason_of};

use c_session::Command;

/// What began a resume: `step` stops at each point, and `continue` at those with a breakpoint.
#[derive(Clone, Copy)]
pub enum How {
    ByStep,
    ByContinue,
}

/// Whether the program was resumed yet, stands at a stop, ran out of turns in a resume that may go on, or runs no more.
#[derive(Clone, Copy)]
pub enum Mode {
    Fresh,
    Stopped,
    Running(How),
    Ended,
}

/// Why a command is refused whatever it asks.
#[derive(Clone, Copy)]
pub enum ModeRefusal {
    Ended,
    Running,
}

/// Whether a command needs a program that was resumed.
fn needs_stop(command: &Command) -> bool
    ensures { result ≡ needs_stop command.now }
{
    match command {
        Command::Frames
        | Command::Frame(_)
        | Command::Print(_)
        | Command::Eval(_)
        | Command::Assign(_)
        | Command::Code(_)
        | Command::Ps(_) => true,
        _ => false,
    }
}

/// Whether a command may come while a resume is interrupted.
fn goes_while_running(command: &Command) -> bool
    ensures { result ≡ goes_while_running command.now }
{
    match command {
        Command::Continue | Command::Turns(_) | Command::Regs | Command::Quit => true,
        _ => false,
    }
}

/// Why a command is refused in a mode, if it is.
pub fn refused_in(mode: Mode, command: &Command) -> Option<ModeRefusal>
    ensures { option_map reason_of result ≡ refused_by_state (state_of mode) command.now }
{
    match mode {
        Mode::Stopped => None,
        Mode::Ended => match command {
            Command::Quit => None,
            _ => Some(ModeRefusal::Ended),
        },
        Mode::Fresh => {
            if needs_stop(command) {
                Some(ModeRefusal::Running)
            } else {
                None
            }
        }
        Mode::Running(_) => {
            if goes_while_running(command) {
                None
            } else {
                Some(ModeRefusal::Running)
            }
        }
    }
}
