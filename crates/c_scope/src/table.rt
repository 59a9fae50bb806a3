// The table of what is declared.
ghost use Rattle.std.specs.Prelude.{◌≡◌, ◌≤◌, ◌<◌, ℕ, List, [], ◌∷◌, ◌++◌, length, Some, OnOk, OnErr, bytes_eq};
ghost use Rattle.std.specs.Map.{update};
ghost use Rattle.std.specs.Vec.{vec_len, vec_capacity};
ghost use Rattle.c_defs.specs.Numbers.{number_in};
ghost use Rattle.c_typing.specs.Declarations.{is_named};
ghost use Rattle.c_scope.specs.Environment.{number_of, innermost};
ghost use Rattle.c_scope.specs.Table.{names_from, outermost, with_name, AreAligned};
ghost use Rattle.c_scope.specs.Tabled.{visible_from, Hide};

use crate::link::Link;
use c_defs::Numbers;
use c_judge::Symbol;
use c_tree::CType;
use ldb_words::Many;
use std::alloc::{AllocError, Global};
use std::marker::Model;

/// A name in scope: its number, and the number that it had before its declaration.
#[derive(Clone, Copy)]
struct Shadowing<'a> {
    name: &'a [u8],
    number: u32,
    hidden: Option<u32>,
}

/// How many names were in scope where a block began, and where the block around it began.
#[derive(Clone, Copy, Debug, PartialEq, Eq)]
pub struct Mark {
    pub height: usize,
    pub start: usize,
}

/// The names that are declared so far, in order, and those in scope. A name is found in the time of a look-up in an ordered map.
#[derive(Drop)]
pub struct Table<'a> {
    symbols: Vec<Symbol>,
    parameters: Vec<Many<CType>>,
    links: Vec<Link>,
    numbers: Numbers<'a>,
    shadowing: Vec<Shadowing<'a>>,
    start: usize,
}

impl<'a> Model for Table<'a> {
    ghost use Rattle.c_tree.specs.contracts.types.CType as t;
    ghost use Rattle.std.specs.Coded.{codes};
    ghost use Rattle.c_scope.specs.Table.{Names};

    ghost Value = { Names };

    ghost coded = { Prim.hlevel (codes, t.the_row.coded) };

    ghost use Rattle.c_scope.specs.Tabled.{names_of, IsTable};

    ghost view = { names_of };

    ghost invariant = { IsTable };
}

impl<'a> Table<'a> {
    /// No names.
    pub fn new(alloc: Global) -> Table<'a>
        ensures { result ≡ record { symbols = []; parameters = []; links = []; visible = []; start = 0 } }
    {
        Table {
            symbols: Vec::new(alloc),
            parameters: Vec::new(alloc),
            links: Vec::new(alloc),
            numbers: Numbers::new(alloc),
            shadowing: Vec::new(alloc),
            start: 0,
        }
    }

    /// The names, in the order of their declarations.
    pub fn symbols(&self) -> &[Symbol]
        ensures symbols { result.now ≡ self.now.symbols }
        ensures aligned { AreAligned self.now }
    {
        &self.symbols
    }

    /// The types of their parameters.
    pub fn parameters(&self) -> &[Many<CType>]
        ensures { result.now ≡ self.now.parameters }
    {
        &self.parameters
    }

    /// Where they were declared.
    pub fn links(&self) -> &[Link]
        ensures { result.now ≡ self.now.links }
    {
        &self.links
    }

    /// The numbers of the names in scope.
    pub fn numbers(&self) -> &Numbers<'a>
        ensures { (name : List ℕ) → number_in result.now name ≡ number_of self.now.visible name }
    {
        &self.numbers
    }

    /// The innermost name in scope.
    pub fn innermost(&self) -> Option<u32>
        ensures { result ≡ innermost self.now.visible }
    {
        match self.shadowing.last() {
            None => None,
            Some(s) => Some(s.number),
        }
    }

    /// Whether the innermost block declares a name.
    pub fn is_here(&self, name: &'a [u8]) -> bool
        ensures { result ≡ is_named (names_from self.now.start self.now.visible) name.now }
    {
        match self.numbers.find(name) {
            None => false,
            Some(n) => n as usize >= self.start,
        }
    }

    /// A block begins, which declares nothing yet.
    pub fn begin(&mut self) -> Mark
        ensures table { self.new ≡ record self.old { start = length self.old.symbols } }
        ensures nothing { names_from (length self.old.symbols) self.old.visible ≡ [] }
        ensures height { result.height ≡ length self.old.visible }
        ensures start { result.start ≡ self.old.start }
        ensures bounded { result.start ≤ length self.old.symbols }
        ensures aligned { AreAligned self.old }
    {
        let mark = Mark {
            height: self.shadowing.len(),
            start: self.start,
        };
        self.start = self.symbols.len();
        mark
    }

    /// A block ends, and the names go out of scope that it declared.
    pub fn end(&mut self, mark: Mark)
        requires { mark.start ≤ length self.old.symbols }
        ensures { self.new ≡ record self.old { visible = outermost mark.height self.old.visible; start = mark.start } }
    {
        rewind(&mut self.numbers, &mut self.shadowing, mark.height);
        self.start = mark.start;
    }

    /// A name is declared, in scope from here on.
    pub fn declare(
        &mut self,
        name: &'a [u8],
        symbol: Symbol,
        parameters: Many<CType>,
        link: Link,
    ) -> Result<(), AllocError>
        ensures ok { OnOk result (self.new ≡ with_name self.old name.now symbol parameters link) }
        ensures aligned { AreAligned self.old }
        ensures inside { self.old.start ≤ length self.old.symbols }
        ensures err { OnErr result (self.new ≡ self.old) }
    {
        self.symbols.reserve(1)?;
        self.parameters.reserve(1)?;
        self.links.reserve(1)?;
        self.shadowing.reserve(1)?;
        let Ok(number) = u32::try_from(self.symbols.len()) else {
            return Err(AllocError);
        };
        match self.numbers.replace(name, number) {
            Err(e) => Err(e),
            Ok(hidden) => {
                let shadowing = Shadowing {
                    name,
                    number,
                    hidden,
                };
                put(&mut self.shadowing, shadowing);
                put(&mut self.symbols, symbol);
                put(&mut self.parameters, parameters);
                put(&mut self.links, link);
                Ok(())
            }
        }
    }
}

/// One item more, for which there is room.
fn put<T: Drop>(items: &mut Vec<T>, item: T)
    requires { vec_len items.old < vec_capacity items.old }
    ensures { items.new.items ≡ items.old.items ++ item ∷ [] }
{
    match items.push(item) {
        Ok(()) => {}
        Err(_) => unreachable!(),
    }
}

/// All but so many of the outermost names go out of scope.
fn rewind<'a>(numbers: &mut Numbers<'a>, shadowing: &mut Vec<Shadowing<'a>>, height: usize)
    requires finds { (name : List ℕ) → number_in numbers.old name ≡ number_of (visible_from [] shadowing.old.items) name }
    requires hide { Hide [] shadowing.old.items }
    ensures finds { (name : List ℕ) → number_in numbers.new name ≡ number_of (visible_from [] shadowing.new.items) name }
    ensures hide { Hide [] shadowing.new.items }
    ensures visible { visible_from [] shadowing.new.items ≡ outermost height (visible_from [] shadowing.old.items) }
{
    'ending: while shadowing.len() > height {
        if let Some(s) = shadowing.pop() {
            numbers.restore(s.name, s.hidden);
        }
    }
}
