// What a frame is to a debugger that is owed a reply.

ghost use Rattle.std.specs.Prelude.{◌≡◌, ◌+◌, ◌<◌, ◌^◌, length};
ghost use Rattle.nub_wire.specs.Replies.{ends_reply, heard};

use crate::message::{Msg, Size};

/// What a frame is to a debugger that is owed a reply: the end of this reply, output of a resume that goes on, of which
/// so many bytes came by now, or a frame that no nub sends.
#[derive(Clone, Copy, PartialEq, Eq, Debug)]
pub enum Heard {
    Ends,
    GoesOn { printed: u64 },
    Bad,
}

/// Whether a message ends the reply to another.
pub fn ends_reply(asked: &Msg, reply: &Msg) -> bool
    ensures { result ≡ ends_reply asked.now reply.now }
{
    match (asked, reply) {
        (
            Msg::Fetch {
                size: Size::Byte,
                ..
            },
            Msg::Word { value },
        ) => *value < 256,
        (Msg::Hello, Msg::Word { .. })
        | (
            Msg::Fetch {
                size: Size::Word,
                ..
            },
            Msg::Word { .. },
        )
        | (Msg::Fetch { .. }, Msg::Outside)
        | (Msg::Store { .. }, Msg::Done)
        | (Msg::Store { .. }, Msg::Outside)
        | (Msg::Resume { .. }, Msg::Stopped { .. })
        | (Msg::Resume { .. }, Msg::Exited { .. })
        | (Msg::Resume { .. }, Msg::Faulted { .. })
        | (Msg::Resume { .. }, Msg::Turns)
        | (Msg::Resume { .. }, Msg::Stack)
        | (Msg::Kill, Msg::Done)
        | (Msg::Input { .. }, Msg::Done) => true,
        _ => false,
    }
}

/// What a frame is to a debugger that is owed the reply to `asked`, where `printed` bytes of output came before.
pub fn hear(asked: &Msg, printed: u64, reply: &Msg) -> Heard
    requires { printed < 2 ^ 32 }
    ensures { result ≡ heard asked.now printed reply.now }
{
    if let (Msg::Resume { turns }, Msg::Output { bytes }) = (asked, reply) {
        let printed = printed + bytes.as_slice().len() as u64;
        return if printed <= u64::from(*turns) {
            Heard::GoesOn { printed }
        } else {
            Heard::Bad
        };
    }
    if ends_reply(asked, reply) {
        Heard::Ends
    } else {
        Heard::Bad
    }
}
