// Sessions over links of which one call goes wrong.
ghost use Rattle.std.specs.Prelude.{◌≡◌, ◌⊎◌, length};

use crate::other_frame::OtherFrameFails;
use ldb_cc::{Aim, Built, compile};
use ldb_edge::MemSink;
use ldb_words::Text;
use near_link::{FaultyLink, Mishap, NearLink};
use nub_wire::Link;
use obj_file::Image;
use ps_store::PsStore;
use session::{Answer, End, Session, StartFault};
use std::alloc::{AllocError, Global};
use table_run::run_table;
use test_rows::append;

/// So many sessions in a row that are as told end the search for a call that is noticed.
const MOST_TOLD: u32 = 20;

/// So many calls at most are tried.
const MOST_CALLS: u64 = 5000;

/// A session with a program over a link of which one call goes wrong: the program in `a.c`, the commands, and the right transcript, of one line for each command.
#[derive(Clone, Copy)]
pub struct Wrong<'a> {
    pub alloc: Global,
    pub program: &'a [u8],
    pub commands: &'a [u8],
    pub told: &'a [u8],
}

/// What a session came to: it didn't begin; the reply of this number, from 1 on, was `target`, and it had ended from then on; all was as told; or something else.
#[derive(Clone, Copy, PartialEq, Eq)]
enum Came {
    NotBegun,
    Broken(usize),
    AsTold,
    Otherwise,
}

impl Came {
    fn append_to(self, alloc: Global, out: &mut Vec<u8>) -> Result<(), AllocError> {
        match self {
            Came::NotBegun => append(out, "start "),
            Came::Broken(number) => append(out, format!(in alloc; "{number} ")?.as_str()),
            Came::AsTold => append(out, "told "),
            Came::Otherwise => append(out, "otherwise "),
        }
    }
}

/// What a session came to, from the right transcript and its own.
fn judged(told: &str, said: &str) -> Came {
    let mut wanted = told.split('\n');
    let mut broken = None;
    for (before, line) in said.split('\n').enumerate() {
        let is_right = match (broken, wanted.next()) {
            (_, None) => false,
            (Some(_), Some(_)) => line == "refused ended" || line == "",
            (None, Some(_)) if line == "target" => {
                broken = Some(before.saturating_add(1));
                true
            }
            (None, Some(want)) => line == want,
        };
        if !is_right {
            return Came::Otherwise;
        }
    }
    match (wanted.next(), broken) {
        (Some(_), _) => Came::Otherwise,
        (None, Some(number)) => Came::Broken(number),
        (None, None) => Came::AsTold,
    }
}

/// The transcript of commands, and whether `quit` ends the session behind them.
fn transcript_of<L: Link + Drop>(
    alloc: Global,
    session: &mut Session<L>,
    commands: &[u8],
) -> Result<(Vec<u8>, bool), AllocError> {
    let mut output = MemSink::new(Vec::new(alloc), Vec::new(alloc));
    let mut transcript = Vec::new(alloc);
    for line in std::str::from_utf8(commands).unwrap_or("").split('\n') {
        if let Ok(Answer::Lines(lines)) = session.command(line.as_bytes(), &mut output) {
            transcript.extend_from_slice(lines.as_bytes())?;
        }
    }
    let quits = matches!(session.command(b"quit", &mut output), Err(End::Quit));
    Ok((transcript, quits))
}

impl Wrong<'_> {
    /// The images and tables of the program for these targets.
    fn built(&self, aims: &[Aim]) -> Result<(Vec<Image>, Vec<Text>), AllocError> {
        let alloc = self.alloc;
        let mut images = Vec::new(alloc);
        let mut tables = Vec::new(alloc);
        for aim in aims {
            let mut names = Vec::new(alloc);
            names.push(Text::from_slice(alloc, b"a.c")?)?;
            let mut texts = Vec::new(alloc);
            texts.push(Vec::from_slice(alloc, self.program)?)?;
            if names.len() == texts.len() {
                if let Ok(Built { image, table }) = compile(alloc, *aim, &names, &texts) {
                    images.push(image)?;
                    tables.push(table)?;
                }
            }
        }
        Ok((images, tables))
    }

    /// A link to these images, and the stores that their tables leave.
    fn started(
        &self,
        images: &[Image],
        tables: &[Text],
    ) -> Result<(NearLink, Vec<PsStore>), AllocError>
        requires { (length images.now ≡ 1) ⊎ (length images.now ≡ 2) }
    {
        let alloc = self.alloc;
        let mut stores = Vec::new(alloc);
        for (image, table) in images.iter().zip(tables) {
            if let Ok(store) = run_table(alloc, table.as_bytes(), image.target()) {
                stores.push(store)?;
            }
        }
        Ok((NearLink::new(alloc, images, Vec::new(alloc))?, stores))
    }

    /// Whether call number `at` of the session gives the first bytes of another frame than Done's.
    fn begins_other(
        &self,
        near: NearLink,
        stores: Vec<PsStore>,
        at: u64,
    ) -> Result<bool, AllocError> {
        Ok(self.came_over(OtherFrameFails::new(near, at), stores)? != Came::AsTold)
    }

    /// What the session comes to over a link of which call number `at` goes wrong.
    fn came_wrong(
        &self,
        near: NearLink,
        stores: Vec<PsStore>,
        at: u64,
        how: Mishap,
    ) -> Result<Came, AllocError> {
        self.came_over(FaultyLink::new(near, at, how), stores)
    }

    /// What the session comes to over a link to these images of which call number `at` goes wrong. Done comes only in the place of the first bytes of another frame: where the call gives no such, all is as told.
    fn came_to(
        &self,
        images: &[Image],
        tables: &[Text],
        at: u64,
        how: Mishap,
    ) -> Result<Came, AllocError> {
        if images.len() != 1 && images.len() != 2 {
            return Ok(Came::Otherwise);
        }
        if how == Mishap::Done {
            let (near, stores) = self.started(images, tables)?;
            if !self.begins_other(near, stores, at)? {
                return Ok(Came::AsTold);
            }
        }
        let (near, stores) = self.started(images, tables)?;
        let came = self.came_wrong(near, stores, at, how)?;
        match (how, came) {
            (Mishap::Done, Came::AsTold) => Ok(Came::Otherwise),
            _ => Ok(came),
        }
    }

    /// What the session over a link comes to, with these tables.
    fn came_over<L: Link + Drop>(&self, link: L, stores: Vec<PsStore>) -> Result<Came, AllocError> {
        let alloc = self.alloc;
        let mut session = match Session::start(alloc, link, stores, &[], false) {
            Ok(session) => session,
            Err(StartFault::Target) => return Ok(Came::NotBegun),
            Err(StartFault::NoMemory) => return Err(AllocError),
        };
        let (said, quits) = transcript_of(alloc, &mut session, self.commands)?;
        if !quits {
            return Ok(Came::Otherwise);
        }
        let told = std::str::from_utf8(self.told).unwrap_or("");
        Ok(judged(told, std::str::from_utf8(&said).unwrap_or("?")))
    }

    /// Appends what the sessions come to of which one call goes wrong after another, once where it is the same as before, and `told`
    /// at the end alone; and whether some calls before it went unnoticed.
    fn append_for(self, aims: &[Aim], how: Mishap, out: &mut Vec<u8>) -> Result<(), AllocError> {
        let (images, tables) = self.built(aims)?;
        let mut before = Came::AsTold;
        let mut waiting: u32 = 0;
        let mut unnoticed: u32 = 0;
        for at in 0..MOST_CALLS {
            let came = self.came_to(&images, &tables, at, how)?;
            if came == Came::AsTold {
                waiting = waiting.saturating_add(1);
                if waiting == MOST_TOLD {
                    came.append_to(self.alloc, out)?;
                    break;
                }
            } else {
                if how != Mishap::Done {
                    unnoticed = unnoticed.saturating_add(waiting);
                }
                waiting = 0;
                if came != before {
                    came.append_to(self.alloc, out)?;
                    before = came;
                }
            }
        }
        append(
            out,
            if unnoticed == 0 {
                "all noticed"
            } else {
                "some unnoticed"
            },
        )
    }

    /// Appends what sessions of this target, or of both, come to where each call in turn goes wrong in this way.
    pub fn append_faulty(
        self,
        target: &[u8],
        how: &[u8],
        out: &mut Vec<u8>,
    ) -> Result<(), AllocError> {
        let how = match how {
            b"fails" => Mishap::Fail,
            b"done" => Mishap::Done,
            _ => Mishap::Silent,
        };
        match target {
            b"mips" => self.append_for(&[Aim::Mips], how, out),
            b"sparc" => self.append_for(&[Aim::Sparc], how, out),
            _ => self.append_for(&[Aim::Mips, Aim::Sparc], how, out),
        }
    }
}
