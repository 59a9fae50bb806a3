// The words `cc TARGET IMAGE TABLE SRC..`.
ghost use Rattle.std.specs.Prelude.{◌≡◌, map, string_bytes, MatchOption, None, Some};
ghost use Rattle.cc_call.specs.Words.{is_source, are_sources, is_count, is_among, all_differ, aim_of, request_of, seen};

use ldb_cc::Aim;

/// What the words ask for: the target, the names of the two files to be written, and those of the sources.
#[derive(Clone, Copy)]
pub struct CcRequest<'a> {
    pub aim: Aim,
    pub image: &'a str,
    pub table: &'a str,
    pub sources: &'a [String],
}

/// Whether a name has at most 255 bytes and ends in `.c` after at least one byte.
pub fn is_source(name: &[u8]) -> bool
    ensures { result ≡ is_source name.now }
{
    name.len() >= 3 && name.len() <= 255 && &name[name.len() - 2..] == ".c".as_bytes()
}

/// Whether all are names of sources.
pub fn are_sources(names: &[String]) -> bool
    ensures { result ≡ are_sources (map string_bytes names.now) }
{
    for name in names {
        if !is_source(name.as_bytes()) {
            return false;
        }
    }
    true
}

/// Whether a name is among some names.
fn is_among(name: &str, names: &[String]) -> bool
    ensures { result ≡ is_among name.now (map string_bytes names.now) }
{
    for other in names {
        if name == other.as_str() {
            return true;
        }
    }
    false
}

/// Whether no name stands twice.
pub fn all_differ(names: &[String]) -> bool
    ensures { result ≡ all_differ (map string_bytes names.now) }
{
    for i in 0..names.len() {
        if is_among(names[i].as_str(), &names[i + 1..]) {
            return false;
        }
    }
    true
}

/// Whether there may be so many sources.
pub fn is_count(count: usize) -> bool
    ensures { result ≡ is_count count }
{
    count >= 1 && count <= 16
}

/// The target of a word.
pub fn aim_of(word: &str) -> Option<Aim>
    ensures { MatchOption result (aim_of word.now ≡ None) (λ aim. aim_of word.now ≡ Some aim) }
{
    if word == "mips" {
        Some(Aim::Mips)
    } else if word == "sparc" {
        Some(Aim::Sparc)
    } else {
        None
    }
}

/// The request of some words, if they have its form.
pub fn read_cc<'a>(words: &'a [String]) -> Option<CcRequest<'a>>
    ensures { MatchOption result (request_of (map string_bytes words.now) ≡ None)
        (λ request. request_of (map string_bytes words.now) ≡ Some (seen request)) }
{
    let [cc, target, files @ ..] = words else {
        return None;
    };
    let [image, table, sources @ ..] = files else {
        return None;
    };
    if cc.as_str() != "cc" || !is_count(sources.len()) {
        return None;
    }
    if !are_sources(sources) || !all_differ(files) {
        return None;
    }
    let aim = aim_of(target.as_str())?;
    Some(CcRequest {
        aim,
        image: image.as_str(),
        table: table.as_str(),
        sources,
    })
}
