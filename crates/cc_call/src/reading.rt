// Sources that are read.
ghost use Rattle.std.specs.Prelude.{◌≡◌, length, map, string_bytes, IfOk, MatchResult, Ok, None, Some};
ghost use Rattle.std.specs.FinMap as map_of_files;
ghost use Rattle.ldb_edge.specs.Known.{FileMap};
ghost use Rattle.cc_call.specs.Faults.{CountsRead};
ghost use Rattle.cc_call.specs.Found.{IsFound, AreFound, IsFoundOf, IsMissedOf};

use crate::ended::Fault;
use ldb_edge::{FileErr, Files};
use ldb_words::Text;
use std::alloc::{AllocError, Global};

/// How many bytes of a source are asked for: more than a source may have are known as too many.
const MOST_BYTES: usize = 1_048_576;

/// The text of a file, or the front of one that is too long.
pub fn read_source<F: Files>(
    alloc: Global,
    files: &mut F,
    name: &str,
) -> Result<Option<Vec<u8>>, Fault>
    ensures found { IfOk result (λ text. (known : FileMap) → F.held files.old ≡ Some known → IsFound (map_of_files.get known name.now) text) }
    ensures missed { result ≡ Ok None → F.missed files.new name.now }
    ensures same { F.held files.new ≡ F.held files.old }
    ensures write_faults { F.write_faults files.new ≡ F.write_faults files.old }
    ensures cause { MatchResult result (λ _. F.read_faults files.new ≡ F.read_faults files.old)
        (CountsRead (F.read_faults files.old) (F.read_faults files.new)) }
{
    let mut text = Vec::new(alloc);
    let mut buf = [0u8; 4096];
    while text.len() <= MOST_BYTES {
        match files.read_at(name, text.len() as u64, &mut buf) {
            Err(FileErr::Absent) => return Ok(None),
            Err(FileErr::Failed) => return Err(Fault::Read),
            Ok(count) => {
                if count == 0 {
                    return Ok(Some(text));
                }
                text.extend_from_slice(&buf[..count])?;
            }
        }
    }
    Ok(Some(text))
}

/// The texts of sources in order, or the number of the first that isn't there.
#[derive(Drop)]
pub enum Found {
    All(Vec<Vec<u8>>),
    Missing(usize),
}

/// Reads the sources.
pub fn read_all<F: Files>(alloc: Global, files: &mut F, names: &[String]) -> Result<Found, Fault>
    ensures found { IfOk result (λ found. (known : FileMap) → F.held files.old ≡ Some known → AreFound known (map string_bytes names.now) found) }
    ensures count { IfOk result (IsFoundOf (length names.now)) }
    ensures missed { IfOk result (IsMissedOf (F.missed files.new) (map string_bytes names.now)) }
    ensures same { F.held files.new ≡ F.held files.old }
    ensures write_faults { F.write_faults files.new ≡ F.write_faults files.old }
    ensures cause { MatchResult result (λ _. F.read_faults files.new ≡ F.read_faults files.old)
        (CountsRead (F.read_faults files.old) (F.read_faults files.new)) }
{
    let mut texts = Vec::new(alloc);
    for i in 0..names.len() {
        match read_source(alloc, files, names[i].as_str()) {
            Ok(Some(text)) => texts.push(text)?,
            Ok(None) => return Ok(Found::Missing(i)),
            Err(fault) => return Err(fault),
        }
    }
    Ok(Found::All(texts))
}

/// The names of the sources.
pub fn names_of(alloc: Global, names: &[String]) -> Result<Vec<Text>, AllocError>
    ensures { IfOk result (λ texts. texts.items ≡ map string_bytes names.now) }
{
    let mut texts = Vec::new(alloc);
    for name in names {
        texts.push(Text::from_slice(alloc, name.as_bytes())?)?;
    }
    Ok(texts)
}
