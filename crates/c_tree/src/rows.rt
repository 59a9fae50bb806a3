// The rows of a program. A `u32` that names something is its number in the list of `Program`.

use crate::{CType, Stmt, StructDef};
use ldb_words::{Many, Text};

/// A checked program: its source files, structs, static objects, strings, functions, stopping points and names.
#[derive(Drop)]
pub struct Program {
    pub units: Many<UnitRow>,
    pub defs: Many<StructDef>,
    pub objects: Many<ObjectRow>,
    /// The string literals that are objects, without their NUL.
    pub strings: Many<Text>,
    pub functions: Many<Function>,
    pub points: Many<Point>,
    pub symbols: Many<SymbolRow>,
}

/// A source file: its name, and its functions.
#[derive(Drop)]
pub struct UnitRow {
    pub file: Text,
    pub functions: Many<u32>,
}

/// An object of static storage duration, with what each leaf of its type holds at first.
#[derive(Drop)]
pub struct ObjectRow {
    pub name: Text,
    pub unit: u32,
    pub is_static: bool,
    pub ctype: CType,
    pub start: Many<Start>,
}

/// What a leaf holds at first.
#[derive(Clone, Copy, PartialEq, Eq, Debug)]
pub enum Start {
    /// The bits of a number; in a pointer 0, which is the null pointer.
    Number(u32),
    /// The address of an object and so many bytes.
    Object { object: u32, offset: u32 },
    /// The address of a string.
    Str(u32),
}

/// A function that has a body. Its first `params` locals are the parameters.
#[derive(Drop)]
pub struct Function {
    pub name: Text,
    pub unit: u32,
    pub is_static: bool,
    pub result: CType,
    pub params: u32,
    pub locals: Many<Local>,
    /// The stopping points in source order, `{` first and `}` last.
    pub points: Many<u32>,
    pub body: Stmt,
}

/// A parameter or local variable.
#[derive(Drop)]
pub struct Local {
    pub name: Text,
    pub ctype: CType,
    pub register: bool,
}

/// A stopping point: its function, the line and column of its token, both from 1, and the innermost name in scope.
#[derive(Drop)]
pub struct Point {
    pub function: u32,
    pub line: u32,
    pub column: u32,
    pub symbol: Option<u32>,
}

/// A name: its type, which of a function is that of its result, what it denotes, and the next name outward.
#[derive(Drop)]
pub struct SymbolRow {
    pub name: Text,
    pub ctype: CType,
    pub refers: Referent,
    pub up: Option<u32>,
}

/// What a name denotes.
#[derive(Clone, Copy, PartialEq, Eq, Debug)]
pub enum Referent {
    /// A static object.
    Object(u32),
    /// A local, by its number in its function's `locals`.
    Local(u32),
    /// A function of the program.
    Function(u32),
    /// A function that the program does not define: a built-in.
    Declared,
}
