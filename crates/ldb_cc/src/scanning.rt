// The tokens of sources.
ghost use Rattle.std.specs.Prelude.{◌≡◌, ◌≤◌, length, map, false, IfSome, OnOk};
ghost use Rattle.std.specs.List.{list_any};
ghost use Rattle.ldb_cc.specs.Sources.{is_long};
ghost use Rattle.ldb_cc.specs.Scanning.{items_of, IsTokensOf, ScansOf, AreSeen};

use crate::fault::BuildFault;
use crate::places::spot_of;
use c_lex::{LexFault, Token, tokens};
use std::alloc::{AllocError, Global};

/// How many bytes a source has at most.
const MOST_BYTES: usize = 1_048_576;

/// How many tokens the sources have at most, all together.
const MOST_TOKENS: usize = 40_000;

/// Whether a text has too many bytes.
#[tactic(auto, unfolding(crate::specs::Sources::is_long))]
fn is_long(text: &[u8]) -> bool
    ensures { result ≡ is_long text.now }
{
    text.len() > MOST_BYTES
}

/// Whether a source has too many bytes.
pub fn any_long(texts: &[Vec<u8>]) -> bool
    ensures { result ≡ list_any is_long (map items_of texts.now) }
{
    for text in texts {
        if is_long(text) {
            return true;
        }
    }
    false
}

/// The tokens of a source. Of one that has too many, nothing but that is told.
fn tokens_of(alloc: Global, unit: u32, text: &[u8]) -> Result<Option<Vec<Token>>, BuildFault>
    requires { length text.now ≤ 1048576 }
    ensures { IsTokensOf unit text.now result }
{
    match tokens(alloc, text) {
        Ok(found) => Ok(Some(found)),
        Err(LexFault::Bad { at }) => {
            let spot = spot_of(text, at);
            Err(BuildFault::Lex {
                unit,
                line: spot.line,
                column: spot.column,
            })
        }
        Err(LexFault::TooMany) => Ok(None),
        Err(LexFault::NoMemory) => Err(BuildFault::NoMemory),
    }
}

/// The tokens of the sources so far, and how many they are; or that they are too many.
#[derive(Drop)]
pub struct Scanned {
    pub all: Vec<Vec<Token>>,
    pub count: usize,
    pub many: bool,
}

/// Adds the tokens of a source, unless there are too many.
fn add_tokens(scanned: &mut Scanned, found: Option<Vec<Token>>) -> Result<(), AllocError>
    requires few { scanned.old.count ≤ 40000 }
    requires found { IfSome found (λ ts. length ts.items ≤ 40000) }
    ensures few { scanned.new.count ≤ 40000 }
    ensures scans { OnOk result (ScansOf found scanned.old scanned.new) }
{
    let Some(found) = found else {
        scanned.many = true;
        return Ok(());
    };
    let count = scanned.count + found.len();
    if count > MOST_TOKENS {
        scanned.many = true;
        return Ok(());
    }
    scanned.count = count;
    scanned.all.push(found)?;
    Ok(())
}

/// The tokens of each source.
pub fn scan_all(alloc: Global, texts: &[Vec<u8>]) -> Result<Vec<Vec<Token>>, BuildFault>
    requires { list_any is_long (map items_of texts.now) ≡ false }
    ensures { AreSeen (map items_of texts.now) result }
{
    let mut scanned = Scanned {
        all: Vec::new(alloc),
        count: 0,
        many: false,
    };
    for i in 0..texts.len() {
        let Ok(unit) = u32::try_from(i) else {
            return Err(BuildFault::NoMemory);
        };
        match tokens_of(alloc, unit, &texts[i]) {
            Ok(found) => add_tokens(&mut scanned, found)?,
            Err(fault) => return Err(fault),
        }
    }
    if scanned.many {
        return Err(BuildFault::Tokens);
    }
    Ok(scanned.all)
}
