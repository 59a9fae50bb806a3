// Why a resume has no event.

use wire_talk::TalkFault;

/// The link failed or gave a bad reply, or a write of the output failed.
#[derive(Drop)]
pub enum RunFault {
    Talk(TalkFault),
    Output,
}
