// Symbols of a table.
ghost use Rattle.std.specs.Prelude.{◌≡◌, OnOk, IfOk, length, slice_get};
ghost use Rattle.ps_emit.specs.Grown.{Grows};
ghost use Rattle.ps_emit.specs.Places.{homes};
ghost use Rattle.ps_emit.specs.Symbols.{linked, entry_in, object_symbol, local_symbol, function_symbol, symbol_by, symbol_code, up_in, coming, symbol_of, symbols_code, made_with};

use crate::places::{add_absolute, add_place};
use crate::terms::{add_number, add_string, add_word, following};
use crate::types::add_type;
use c_tree::{Local, Program, Referent, SymbolRow};
use ldb_words::Text;
use obj_file::{FunctionRow, LocalPlace};
use std::alloc::{AllocError, Global};

/// What symbols are made from: the program, its functions' rows, and where the locals of one of them are and how it declares them.
#[derive(Clone, Copy)]
pub struct Scene<'a> {
    pub program: &'a Program,
    pub functions: &'a [FunctionRow],
    pub places: &'a [LocalPlace],
    pub locals: &'a [Local],
}

/// Adds a symbol by its number, or null.
pub fn add_link(text: &mut Text, s: Option<u32>) -> Result<(), AllocError>
    ensures { OnOk result (Grows (linked s) text.old text.new) }
{
    match s {
        None => add_word(text, b"null"),
        Some(s) => {
            add_number(text, s)?;
            add_word(text, b"load")
        }
    }
}

/// The address of a function's first instruction.
fn entry_of(functions: &[FunctionRow], f: u32) -> u32
    ensures { result ≡ entry_in (slice_get functions.now f) }
{
    match functions.get(f as usize) {
        Some(row) => row.entry,
        None => 0,
    }
}

/// Adds a symbol of a static object.
fn add_object_symbol(text: &mut Text, row: &SymbolRow, o: u32) -> Result<(), AllocError>
    ensures { OnOk result (Grows (object_symbol row.now o) text.old text.new) }
{
    add_link(text, row.up)?;
    add_word(text, b"objects")?;
    add_number(text, o)?;
    add_word(text, b"get")?;
    add_word(text, b"ObjectSymbol")
}

/// Adds a symbol of a function at an address.
fn add_function_symbol(text: &mut Text, row: &SymbolRow, entry: u32) -> Result<(), AllocError>
    ensures { OnOk result (Grows (function_symbol row.now entry) text.old text.new) }
{
    add_string(text, row.name.as_bytes())?;
    add_type(text, &row.ctype)?;
    add_absolute(text, entry)?;
    add_link(text, row.up)?;
    add_word(text, b"FunctionSymbol")
}

/// Adds a symbol of a local.
fn add_local_symbol(
    text: &mut Text,
    scene: Scene,
    row: &SymbolRow,
    x: u32,
) -> Result<(), AllocError>
    ensures { OnOk result (Grows (local_symbol (homes scene.entry.places.now scene.entry.locals.now) row.now x) text.old text.new) }
{
    add_string(text, row.name.as_bytes())?;
    add_type(text, &row.ctype)?;
    add_place(text, scene.places, scene.locals, x)?;
    add_link(text, row.up)?;
    add_word(text, b"NewSymbol")
}

/// Adds a symbol by what its name denotes.
fn add_referent(text: &mut Text, scene: Scene, row: &SymbolRow) -> Result<(), AllocError>
    ensures { OnOk result (Grows (symbol_by scene.entry.functions.now (homes scene.entry.places.now scene.entry.locals.now) row.now row.now.refers) text.old text.new) }
{
    match row.refers {
        Referent::Object(o) => add_object_symbol(text, row, o),
        Referent::Local(x) => add_local_symbol(text, scene, row, x),
        Referent::Function(f) => add_function_symbol(text, row, entry_of(scene.functions, f)),
        Referent::Declared => add_function_symbol(text, row, 0),
    }
}

/// Adds a symbol under its number.
fn add_symbol(text: &mut Text, scene: Scene, s: u32, row: &SymbolRow) -> Result<(), AllocError>
    ensures { OnOk result (Grows (symbol_code scene.entry.functions.now (homes scene.entry.places.now scene.entry.locals.now) s row.now) text.old text.new) }
{
    add_number(text, s)?;
    add_referent(text, scene, row)?;
    add_word(text, b"def")
}

/// The symbol outward of one.
fn up_of(symbols: &[SymbolRow], s: u32) -> Option<u32>
    ensures { result ≡ up_in (slice_get symbols.now s) }
{
    match symbols.get(s as usize) {
        Some(row) => row.up,
        None => None,
    }
}

/// The symbols of a chain, the innermost first, before the first with a number below `made`.
fn coming(
    alloc: Global,
    symbols: &[SymbolRow],
    made: u32,
    from: Option<u32>,
) -> Result<Vec<u32>, AllocError>
    ensures { IfOk result (λ v. v.items ≡ coming (length symbols.now) symbols.now made from) }
{
    let mut chain = Vec::new(alloc);
    let mut at = from;
    for step in 0..symbols.len() {
        let Some(s) = at else {
            return Ok(chain);
        };
        if s < made {
            return Ok(chain);
        }
        chain.push(s)?;
        at = up_of(symbols, s);
    }
    Ok(chain)
}

/// Adds a symbol by its number.
fn add_symbol_of(text: &mut Text, scene: Scene, s: u32) -> Result<(), AllocError>
    ensures { OnOk result (Grows (symbol_of scene.entry.functions.now (homes scene.entry.places.now scene.entry.locals.now) s (slice_get scene.entry.program.now.symbols s)) text.old text.new) }
{
    match scene.program.symbols.as_slice().get(s as usize) {
        Some(row) => add_symbol(text, scene, s, row),
        None => Ok(()),
    }
}

/// Adds these symbols, the last one first.
fn add_symbols(text: &mut Text, scene: Scene, chain: &[u32]) -> Result<(), AllocError>
    ensures { OnOk result (Grows (symbols_code scene.entry.functions.now (homes scene.entry.places.now scene.entry.locals.now) scene.entry.program.now.symbols chain.now) text.old text.new) }
{
    for i in 0..chain.len() {
        add_symbol_of(text, scene, chain[chain.len() - (i + 1)])?;
    }
    Ok(())
}

/// Below which number all symbols are made, once one is.
fn made_with(made: u32, s: Option<u32>) -> Result<u32, AllocError>
    ensures { IfOk result (λ n. n ≡ made_with made s) }
{
    match s {
        Some(s) => { if s < made { Ok(made) } else { following(s) } }
        None => Ok(made),
    }
}

/// Adds the symbols that come into scope where this is the innermost one, and gives the number below which all are made.
pub fn open_scope(
    alloc: Global,
    text: &mut Text,
    scene: Scene,
    made: u32,
    from: Option<u32>,
) -> Result<u32, AllocError>
    ensures text { OnOk result (Grows (symbols_code scene.entry.functions.now (homes scene.entry.places.now scene.entry.locals.now) scene.entry.program.now.symbols (coming (length scene.entry.program.now.symbols) scene.entry.program.now.symbols made from)) text.old text.new) }
    ensures made { IfOk result (λ n. n ≡ made_with made from) }
{
    let chain = coming(alloc, scene.program.symbols.as_slice(), made, from)?;
    add_symbols(text, scene, &chain)?;
    let made = made_with(made, from)?;
    Ok(made)
}
