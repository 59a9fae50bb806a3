// What a session answers.

use ldb_words::Text;
use thiserror::Error;

/// The answer to a line: the lines of the reply, each with its LF, and none to a line of blanks; or memory was wanting, and the
/// session is as before, but for what a text of PostScript stored in the target.
#[derive(Drop)]
pub enum Answer {
    Lines(Text),
    NoMemory,
}

/// Why there is no answer: the line is `quit`, or program output couldn't be written, after which the session has ended.
#[derive(Clone, Copy, PartialEq, Eq, Debug)]
pub enum End {
    Quit,
    OutFault,
}

/// Why no session begins: the link failed or replied wrongly, or there was no memory.
#[derive(Debug, Drop, Error)]
pub enum StartFault {
    #[error("the target gave no answer")]
    Target,
    #[error("no memory")]
    NoMemory,
}
