// A program while its files are looked through.

use crate::definitions::Definition;
use crate::file_names::FileNames;
use c_initial::{Begin, LatePlace};
use c_scope::Environment;
use c_tree::{Function, Point, StructDef};
use ldb_words::Text;
use std::alloc::AllocError;

/// A name that has to be defined: of a function that a file calls, of an object that a declaration does not define, or one that is used without
/// a visible declaration.
#[derive(Clone, Copy)]
pub struct Called<'a> {
    pub unit: u32,
    pub name: &'a Text,
    /// Whether a declaration is visible where it is used.
    pub declared: bool,
}

/// A place in an object of a file that only the program's end tells to be within it.
#[derive(Clone, Copy)]
pub struct Awaited<'a> {
    pub unit: u32,
    pub place: LatePlace<'a>,
}

/// What an object with an initializer holds at first.
#[derive(Drop)]
pub struct Started<'a> {
    pub name: &'a Text,
    pub unit: u32,
    pub begins: Vec<Begin<'a>>,
}

/// The program so far: what is declared in this file; the structs as the files before complete them; the names at file scope of all files; the
/// definitions; the names that have to be defined; the awaited places; the objects with initializers; the functions with their stopping points; the
/// strings that are objects; and the first name that is not declared. Each in the order of the text. Where there is such a name, functions have no
/// statements.
#[derive(Drop)]
pub struct State<'a> {
    pub here: Environment<'a>,
    pub others: Vec<StructDef>,
    pub names: FileNames<'a>,
    pub definitions: Vec<Definition<'a>>,
    pub calls: Vec<Called<'a>>,
    pub late: Vec<Awaited<'a>>,
    pub starts: Vec<Started<'a>>,
    pub functions: Vec<Function>,
    pub points: Vec<Point>,
    pub strings: Vec<&'a Text>,
    pub unknown: Option<Text>,
}

/// Why there is no program: a rule that is broken, with its file and the offset.
#[derive(Clone, Copy)]
pub enum FileFault {
    Rule { rule: u8, unit: u32, at: u32 },
    NoMemory,
}

impl From<AllocError> for FileFault {
    ghost use Rattle.std.specs.Prelude.{◌≡◌};
    ghost use Rattle.c_linkage.specs.declared.state.FileFault.TheVariants.{NoMemory};

    ghost from_gives = { λ _ e. e ≡ NoMemory };

    fn from(_: AllocError) -> Self {
        FileFault::NoMemory
    }
}
