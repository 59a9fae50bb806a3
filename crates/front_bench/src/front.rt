// The front of the compiler over the files of a program.

use c_check::{CheckFault, check_program};
use c_discard::discard_units;
use c_lex::{LexFault, Token, tokens};
use c_syntax::{SynFault, Unit, parse_unit};
use c_tree::Program;
use ldb_words::Text;
use std::alloc::{AllocError, Global};

/// A source file: its name and its text.
#[derive(Drop)]
pub struct Source {
    pub name: Text,
    pub text: Vec<u8>,
}

/// A place in a file: the file's number, and the offset in its text.
#[derive(Clone, Copy)]
pub struct Spot {
    pub unit: usize,
    pub at: u32,
}

/// Why the files are no program, in the order in which causes are told.
#[derive(Drop)]
pub enum Refusal {
    /// A file has more than 1,048,576 bytes.
    Source,
    /// No token begins there, or a constant is out of range.
    Lex(Spot),
    /// The files have more than 40,000 tokens.
    Tokens,
    /// The tokens of a file are no tree.
    Syntax(Spot),
    /// A tree is nested more than 64 deep.
    Deep(Spot),
    /// What the checked program lacks.
    Check(CheckFault),
}

/// The first place of each cause that is told before the program is checked; how many tokens there are; and the trees.
#[derive(Drop)]
struct Trees {
    bad: Option<Spot>,
    many: bool,
    count: usize,
    syntax: Option<Spot>,
    deep: Option<Spot>,
    units: Vec<Unit>,
}

/// Keeps the first place.
fn keep(place: &mut Option<Spot>, unit: usize, at: u32) {
    if place.is_none() {
        *place = Some(Spot { unit, at });
    }
}

/// Adds the tree of a file with these tokens.
fn add_tree(
    alloc: Global,
    trees: &mut Trees,
    unit: usize,
    text: &[u8],
    found: &[Token],
) -> Result<(), AllocError> {
    trees.count = trees.count.saturating_add(found.len());
    match parse_unit(alloc, text, found) {
        Ok(tree) => {
            trees.units.push(tree)?;
        }
        Err(SynFault::Syntax(place)) => keep(&mut trees.syntax, unit, place.at),
        Err(SynFault::Deep(place)) => keep(&mut trees.deep, unit, place.at),
        Err(SynFault::NoMemory) => return Err(AllocError),
    }
    Ok(())
}

/// Adds a file.
fn add_file(alloc: Global, trees: &mut Trees, unit: usize, text: &[u8]) -> Result<(), AllocError> {
    if text.len() > 1_048_576 {
        return Ok(());
    }
    match tokens(alloc, text) {
        Ok(found) => add_tree(alloc, trees, unit, text, &found),
        Err(LexFault::Bad { at }) => {
            keep(&mut trees.bad, unit, at);
            Ok(())
        }
        Err(LexFault::TooMany) => {
            trees.many = true;
            Ok(())
        }
        Err(LexFault::NoMemory) => Err(AllocError),
    }
}

/// Adds the files.
fn add_files(alloc: Global, trees: &mut Trees, sources: &[Source]) -> Result<(), AllocError> {
    for (unit, source) in sources.iter().enumerate() {
        add_file(alloc, &mut *trees, unit, &source.text)?;
    }
    Ok(())
}

/// Why the files have no trees.
fn without_trees(sources: &[Source], trees: &Trees) -> Option<Refusal> {
    for source in sources {
        if source.text.len() > 1_048_576 {
            return Some(Refusal::Source);
        }
    }
    if let Some(spot) = trees.bad {
        return Some(Refusal::Lex(spot));
    }
    if trees.many || trees.count > 40_000 {
        return Some(Refusal::Tokens);
    }
    if let Some(spot) = trees.syntax {
        return Some(Refusal::Syntax(spot));
    }
    trees.deep.map(Refusal::Deep)
}

/// The names of the files.
fn names_of(alloc: Global, sources: &[Source]) -> Result<Vec<Text>, AllocError> {
    let mut names = Vec::new(alloc);
    for source in sources {
        names.push(Text::from_slice(alloc, source.name.as_bytes())?)?;
    }
    Ok(names)
}

/// The checked program of some files with these trees, or why there is none.
fn program_with(
    alloc: Global,
    sources: &[Source],
    trees: &Trees,
) -> Result<Result<Program, Refusal>, AllocError> {
    if let Some(why) = without_trees(sources, trees) {
        return Ok(Err(why));
    }
    let names = names_of(alloc, sources)?;
    if names.len() != trees.units.len() {
        return Err(AllocError);
    }
    match check_program(alloc, &names, &trees.units) {
        Ok(program) => Ok(Ok(program)),
        Err(CheckFault::NoMemory) => Err(AllocError),
        Err(fault) => Ok(Err(Refusal::Check(fault))),
    }
}

/// The checked program of some files, or why there is none.
pub fn program_of(
    alloc: Global,
    sources: &[Source],
) -> Result<Result<Program, Refusal>, AllocError> {
    let mut trees = Trees {
        bad: None,
        many: false,
        count: 0,
        syntax: None,
        deep: None,
        units: Vec::new(alloc),
    };
    let program = match add_files(alloc, &mut trees, sources) {
        Ok(()) => program_with(alloc, sources, &trees),
        Err(fault) => Err(fault),
    };
    discard_units(trees.units);
    program
}
