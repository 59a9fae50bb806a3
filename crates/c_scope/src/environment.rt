// What is declared at a place of a source file.
ghost use Rattle.std.specs.Prelude.{◌≡◌, ◌≤◌, length, Option, Some, None, OnOk, OnErr};
ghost use Rattle.std.specs.BTreeMap.{get};
ghost use Rattle.std.specs.Ordering.{nat_cmp};
ghost use Rattle.c_typing.specs.Plain.{plain};
ghost use Rattle.c_typing.specs.Expressions as typing;
ghost use Rattle.c_typing.specs.Declarations.{is_named};
ghost use Rattle.c_judge.specs.Scope.{or_else_number};
ghost use Rattle.c_judge.specs.Judges.{scope_of, denoted};
ghost use Rattle.c_scope.specs.Environment.{declare, declare_local, declare_global, enter, leave, scope};
ghost use Rattle.c_scope.specs.Environment as spec;
ghost use Rattle.c_scope.specs.Table.{names_from, outermost};
ghost use Rattle.c_scope.specs.Here.{environment_of, meaning_of};

use crate::link::Link;
use crate::meaning::Meaning;
use crate::struct_tags::StructTags;
use crate::table::{Mark, Table};
use c_defs::Structs;
use c_judge::{Scope, Symbol};
use c_tree::CType;
use ldb_words::{Many, Text};
use std::alloc::{AllocError, Global};
use std::collections::BTreeMap;

/// What is declared at a place of a source file: the names, the structs and the tags.
#[derive(Drop)]
pub struct Environment<'a> {
    pub unit: u32,
    pub table: Table<'a>,
    /// How many locals the function has so far.
    pub locals: u32,
    /// The structs, those that are complete here with their members.
    pub defs: Structs<'a>,
    pub tags: StructTags<'a>,
}

impl<'a> Environment<'a> {
    /// What the names of an expression stand for, where its string literals have these numbers.
    pub fn scope<'b>(&'b self, literals: &'b BTreeMap<u32, u32>) -> Scope<'b, 'a>
        ensures { scope_of result ≡ scope (environment_of self.now) (λ at. or_else_number 0 (get nat_cmp literals.now at)) }
    {
        Scope {
            names: self.table.numbers(),
            tags: self.tags.numbers(),
            incomplete: self.tags.count(),
            rows: self.table.symbols(),
            parameters: self.table.parameters(),
            literals,
            defs: self.defs.view(),
            asks: true,
        }
    }

    /// Whether the innermost block declares a name.
    pub fn is_here(&self, name: &'a Text) -> bool
        ensures { result ≡ is_named (environment_of self.now).block name.now }
    {
        self.table.is_here(name.as_bytes())
    }

    /// The innermost name in scope.
    pub fn innermost(&self) -> Option<u32>
        ensures { result ≡ spec.innermost (environment_of self.now).visible }
    {
        self.table.innermost()
    }

    /// A name is declared, in scope from here on.
    fn declare(
        &mut self,
        alloc: Global,
        name: &'a Text,
        meaning: Meaning,
        local: Option<u32>,
    ) -> Result<(), AllocError>
        ensures ok { OnOk result (environment_of self.new ≡ declare (environment_of self.old) name.now (meaning_of meaning) local) }
        ensures start { OnOk result (self.new.table.start ≡ self.old.table.start) }
        ensures err { OnErr result (self.new ≡ self.old) }
    {
        let link = Link {
            up: self.table.innermost(),
            unit: self.unit,
            local,
        };
        let text = Text::from_slice(alloc, name.as_bytes())?;
        let (symbol, parameters) = symbol(alloc, text, meaning);
        self.table
            .declare(name.as_bytes(), symbol, parameters, link)
    }

    /// A name is declared at file scope.
    pub fn declare_global(
        &mut self,
        alloc: Global,
        name: &'a Text,
        meaning: Meaning,
    ) -> Result<(), AllocError>
        ensures ok { OnOk result (environment_of self.new ≡ declare_global (environment_of self.old) name.now (meaning_of meaning)) }
        ensures err { OnErr result (self.new ≡ self.old) }
    {
        self.declare(alloc, name, meaning, None)
    }

    /// A name is declared in a function.
    pub fn declare_local(
        &mut self,
        alloc: Global,
        name: &'a Text,
        ctype: CType,
        register: bool,
    ) -> Result<(), AllocError>
        ensures ok { OnOk result (environment_of self.new ≡ declare_local (environment_of self.old) name.now (typing.Object (plain ctype) register)) }
        ensures start { OnOk result (self.new.table.start ≡ self.old.table.start) }
        ensures err { OnErr result (self.new ≡ self.old) }
    {
        let Some(locals) = self.locals.checked_add(1) else {
            return Err(AllocError);
        };
        self.declare(
            alloc,
            name,
            Meaning::Object { ctype, register },
            Some(self.locals),
        )?;
        self.locals = locals;
        Ok(())
    }

    /// A block begins, which declares nothing yet.
    #[tactic(auto, using(crate::proofs::Rowing::rows_hold))]
    pub fn enter(&mut self) -> Mark
        ensures inside { environment_of self.new ≡ enter (environment_of self.old) }
        ensures height { result.height ≡ length self.old.table.visible }
        ensures start { result.start ≡ self.old.table.start }
        ensures bounded { result.start ≤ length (environment_of self.old).names }
    {
        self.table.begin()
    }

    /// A block ends, and what it declared goes out of scope.
    pub fn leave(&mut self, mark: Mark)
        requires { mark.start ≤ length self.old.table.symbols }
        ensures outside { environment_of self.new ≡ record (environment_of self.old) { visible = outermost mark.height self.old.table.visible; block = names_from mark.start (outermost mark.height self.old.table.visible) } }
        ensures start { self.new.table.start ≡ mark.start }
    {
        self.table.end(mark);
    }
}

/// The row of a name.
fn symbol(alloc: Global, name: Text, meaning: Meaning) -> (Symbol, Many<CType>)
    ensures name { result.0.name ≡ name }
    ensures meaning { denoted result.0 result.1 ≡ meaning_of meaning }
{
    match meaning {
        Meaning::Object { ctype, register } => {
            let symbol = Symbol {
                name,
                ctype,
                register,
                function: false,
            };
            (symbol, Many::new(alloc))
        }
        Meaning::Function { result, parameters } => {
            let symbol = Symbol {
                name,
                ctype: result,
                register: false,
                function: true,
            };
            (symbol, parameters)
        }
    }
}
