// Names at file scope (C90 6.1.2.2, 6.5).
ghost use Rattle.std.specs.Prelude.{◌≡◌, ◌<◌, ℕ, true, if◌then◌else◌, List, [], ◌∷◌, ◌++◌, map, reverse, option_map, bytes_eq, Some, IfOk, OnOk, OnErr};
ghost use Rattle.std.specs.Map.{update};
ghost use Rattle.std.specs.Vec.{vec_len, vec_capacity};
ghost use Rattle.c_defs.specs.Numbers.{number_in};
ghost use Rattle.c_scope.specs.Here.{meaning_of};
ghost use Rattle.c_linkage.specs.Names.{is_here, is_external, name_found, one_linkage, one_type};
ghost use Rattle.c_linkage.specs.FileNames.{file_name, IsDeclared, AreConsistent};
ghost use Rattle.c_linkage.specs.FileNumbers.{number_at, with_number};
ghost use Rattle.c_linkage.specs.Numbered.{row_at, more_number};
ghost use Rattle.c_linkage.specs.Telling.{telling, linked_with, agrees_with, told_with, found_of};

use crate::file_numbers::FileNumbers;
use crate::names::{agree_as, as_built_in, as_main, composite, copied_meaning, is_open};
use c_defs::Numbers;
use c_judge::Fault;
use c_scope::Meaning;
use ldb_words::Text;
use std::alloc::{AllocError, Global};
use std::marker::Model;

/// A declaration of a name in a file.
#[derive(Drop)]
pub struct FileName<'a> {
    pub name: &'a Text,
    pub unit: u32,
    pub is_static: bool,
    pub meaning: Meaning,
}

/// The names at file scope of all files so far, whose declarations agree. Contracts see the last one first. The declaration that tells most of a name, in
/// a file or as an external one, is found in the time of a look-up in an ordered map.
#[derive(Drop)]
pub struct FileNames<'a> {
    rows: Vec<FileName<'a>>,
    by_file: FileNumbers<'a>,
    by_name: Numbers<'a>,
}

impl<'a> Model for FileNames<'a> {
    ghost use Rattle.std.specs.Prelude.{List};
    ghost use Rattle.std.specs.Coded.{codes};
    ghost use Rattle.c_linkage.specs.Coded.{plain_coded};
    ghost use Rattle.c_linkage.specs.Names.{FileName};
    ghost use Rattle.c_linkage.specs.Numbered.{declared, IsNumbered};

    ghost Value = { List FileName };

    ghost coded = { Prim.hlevel (codes, plain_coded) };

    ghost view = { λ n. declared n.rows.items };

    ghost invariant = { IsNumbered };
}

impl<'a> FileNames<'a> {
    /// No names.
    pub fn new(alloc: Global) -> FileNames<'a>
        ensures { result ≡ [] }
    {
        FileNames {
            rows: Vec::new(alloc),
            by_file: FileNumbers::new(alloc),
            by_name: Numbers::new(alloc),
        }
    }

    /// The names, the first one first.
    pub fn rows(&self) -> &[FileName<'a>]
        ensures rows { reverse (map file_name result.now) ≡ self.now }
        ensures consistent { AreConsistent self.now }
    {
        &self.rows
    }

    /// Of the declarations of a name in a file that which tells most of its type: one with a bound, where there is such a one.
    pub fn here(&self, unit: u32, name: &'a [u8]) -> Option<&FileName<'a>>
        ensures telling { option_map (λ f. file_name f.now) result ≡ telling (is_here unit name.now) self.now }
        ensures consistent { AreConsistent self.now }
    {
        row_at(&self.rows, self.by_file.find(unit, name))
    }

    /// The same of the external declarations of a name in all files.
    pub fn external(&self, name: &'a [u8]) -> Option<&FileName<'a>>
        ensures telling { option_map (λ f. file_name f.now) result ≡ telling (is_external name.now) self.now }
        ensures consistent { AreConsistent self.now }
    {
        row_at(&self.rows, self.by_name.find(name))
    }

    /// Declares a name, and gives what its declarations in its file tell of it. Or answers the rule that it breaks, and then it isn't declared.
    pub fn declare(&mut self, alloc: Global, name: FileName<'a>, at: u32) -> Result<Meaning, Fault>
        ensures { IsDeclared self.old (file_name name.entry) at result self.new }
    {
        let here = self.here(name.unit, name.name.as_bytes());
        match self.broken(&name, here) {
            Some(rule) => {
                drop(name);
                return Err(Fault::Rule { rule, at });
            }
            None => {}
        }
        let told = match told(alloc, &name.meaning, here) {
            Ok(told) => told,
            Err(_) => {
                drop(name);
                return Err(Fault::NoMemory);
            }
        };
        match self.add(name) {
            Ok(()) => Ok(told),
            Err(_) => {
                drop(told);
                Err(Fault::NoMemory)
            }
        }
    }

    /// The rule that a declaration breaks beside those before it, of which this is one in its file.
    fn broken(&self, f: &FileName<'a>, here: Option<&FileName<'a>>) -> Option<u8>
        requires telling { option_map (λ g. file_name g.now) here ≡ telling (is_here f.now.unit f.now.name.now) self.now }
        requires consistent { AreConsistent self.now }
        ensures { (at : ℕ) → found_of result at ≡ name_found self.now (file_name f.now) at }
    {
        let name = f.name.as_bytes();
        if !as_built_in(f.is_static, name, &f.meaning) {
            return Some(15);
        }
        if !as_main(name, &f.meaning) {
            return Some(10);
        }
        if !is_linked_with(f, here) {
            return Some(7);
        }
        if self.agrees(f, here) { None } else { Some(6) }
    }

    /// Whether the type of a declaration agrees with those before it, of which this is one in its file.
    fn agrees(&self, f: &FileName<'a>, here: Option<&FileName<'a>>) -> bool
        requires telling { option_map (λ g. file_name g.now) here ≡ telling (is_here f.now.unit f.now.name.now) self.now }
        requires consistent { AreConsistent self.now }
        ensures { result ≡ one_type (file_name f.now) self.now }
    {
        if !agrees_with(&f.meaning, here) {
            return false;
        }
        f.is_static || agrees_with(&f.meaning, self.external(f.name.as_bytes()))
    }

    /// Adds a declaration that breaks no rule.
    fn add(&mut self, f: FileName<'a>) -> Result<(), AllocError>
        requires linkage { one_linkage (file_name f) self.old ≡ true }
        requires types { one_type (file_name f) self.old ≡ true }
        ensures ok { OnOk result (self.new ≡ file_name f.entry ∷ self.old) }
        ensures err { OnErr result (self.new ≡ self.old) }
    {
        self.rows.reserve(1)?;
        let Ok(number) = u32::try_from(self.rows.len()) else {
            return Err(AllocError);
        };
        note(&mut self.by_file, &mut self.by_name, &self.rows, &f, number)?;
        put(&mut self.rows, f);
        Ok(())
    }
}

/// The row of a number.
fn row_at<'b, 'a>(rows: &'b [FileName<'a>], number: Option<u32>) -> Option<&'b FileName<'a>>
    ensures { option_map (λ f. file_name f.now) result ≡ row_at rows.now number }
{
    match number {
        None => None,
        Some(n) => rows.get(n as usize),
    }
}

/// Whether a declaration is `static` as one before it is.
fn is_linked_with(f: &FileName, before: Option<&FileName>) -> bool
    ensures { result ≡ linked_with (file_name f.now) (option_map (λ g. file_name g.now) before.entry) }
{
    match before {
        None => true,
        Some(g) => f.is_static == g.is_static,
    }
}

/// Whether what a name means agrees with a declaration before it.
fn agrees_with(m: &Meaning, before: Option<&FileName>) -> bool
    ensures { result ≡ agrees_with (meaning_of m.now) (option_map (λ g. file_name g.now) before.entry) }
{
    match before {
        None => true,
        Some(g) => agree_as(m, &g.meaning),
    }
}

/// What a declaration tells beside one before it.
fn told(alloc: Global, m: &Meaning, before: Option<&FileName>) -> Result<Meaning, AllocError>
    ensures { IfOk result (λ r. meaning_of r ≡ told_with (meaning_of m.now) (option_map (λ g. file_name g.now) before.entry)) }
{
    match before {
        None => copied_meaning(alloc, m),
        Some(g) => composite(alloc, m, &g.meaning),
    }
}

/// Of a row that comes behind these, and one before it that told most, the number of that which tells more.
fn more_number(rows: &[FileName], before: Option<u32>, number: u32) -> u32
    ensures { result ≡ more_number rows.now before number }
{
    match before {
        None => number,
        Some(n) => match rows.get(n as usize) {
            Some(g) if !is_open(&g.meaning) => n,
            Some(_) | None => number,
        },
    }
}

/// A declaration that comes behind these rows has this number, and its name in its file that of the row which tells more. Answers the number that the name
/// had. Where there is no memory, all stays.
fn note_here<'a>(
    by_file: &mut FileNumbers<'a>,
    rows: &[FileName<'a>],
    f: &FileName<'a>,
    number: u32,
) -> Result<Option<u32>, AllocError>
    ensures before { IfOk result (λ n. n ≡ number_at by_file.old f.now.unit f.now.name.now) }
    ensures ok { OnOk result ((u : ℕ) (t : List ℕ) → number_at by_file.new u t ≡ with_number (number_at by_file.old) f.now.unit f.now.name.now (Some (more_number rows.now (number_at by_file.old f.now.unit f.now.name.now) number)) u t) }
    ensures err { OnErr result ((u : ℕ) (t : List ℕ) → number_at by_file.new u t ≡ number_at by_file.old u t) }
{
    let name = f.name.as_bytes();
    let before = by_file.replace(f.unit, name, number)?;
    let more = more_number(rows, before, number);
    if more != number {
        by_file.restore(f.unit, name, Some(more));
    }
    Ok(before)
}

/// The same of an external declaration and its name in all files.
fn note_outside<'a>(
    by_name: &mut Numbers<'a>,
    rows: &[FileName<'a>],
    f: &FileName<'a>,
    number: u32,
) -> Result<(), AllocError>
    ensures ok { OnOk result ((t : List ℕ) → number_in by_name.new t ≡ update bytes_eq (number_in by_name.old) f.now.name.now (Some (more_number rows.now (number_in by_name.old f.now.name.now) number)) t) }
    ensures err { OnErr result ((t : List ℕ) → number_in by_name.new t ≡ number_in by_name.old t) }
{
    let name = f.name.as_bytes();
    let before = by_name.replace(name, number)?;
    let more = more_number(rows, before, number);
    if more != number {
        by_name.restore(name, Some(more));
    }
    Ok(())
}

/// A declaration that comes behind these rows has this number. Where there is no memory, all stays.
fn note<'a>(
    by_file: &mut FileNumbers<'a>,
    by_name: &mut Numbers<'a>,
    rows: &[FileName<'a>],
    f: &FileName<'a>,
    number: u32,
) -> Result<(), AllocError>
    ensures files { OnOk result ((u : ℕ) (t : List ℕ) → number_at by_file.new u t ≡ with_number (number_at by_file.old) f.now.unit f.now.name.now (Some (more_number rows.now (number_at by_file.old f.now.unit f.now.name.now) number)) u t) }
    ensures externals { OnOk result ((t : List ℕ) → number_in by_name.new t ≡ (if f.now.is_static then number_in by_name.old t else update bytes_eq (number_in by_name.old) f.now.name.now (Some (more_number rows.now (number_in by_name.old f.now.name.now) number)) t)) }
    ensures same_files { OnErr result ((u : ℕ) (t : List ℕ) → number_at by_file.new u t ≡ number_at by_file.old u t) }
    ensures same_externals { OnErr result ((t : List ℕ) → number_in by_name.new t ≡ number_in by_name.old t) }
{
    let before = note_here(by_file, rows, f, number)?;
    if f.is_static {
        return Ok(());
    }
    match note_outside(by_name, rows, f, number) {
        Ok(()) => Ok(()),
        Err(e) => {
            by_file.restore(f.unit, f.name.as_bytes(), before);
            Err(e)
        }
    }
}

/// One row more, for which there is room.
fn put<'a>(rows: &mut Vec<FileName<'a>>, f: FileName<'a>)
    requires { vec_len rows.old < vec_capacity rows.old }
    ensures { rows.new.items ≡ rows.old.items ++ f.entry ∷ [] }
{
    match rows.push(f) {
        Ok(()) => {}
        Err(_) => unreachable!(),
    }
}
