// The rows of a program's names.
ghost use Rattle.std.specs.Prelude.{◌≡◌, map, length, IfOk};
ghost use Rattle.c_rows.specs.Placed.{referent_by};
ghost use Rattle.c_rows.specs.Symbols.{symbol_said, symbol_by, symbols_by};

use crate::places::Places;
use c_judge::{Symbol, copied};
use c_scope::Link;
use c_tree::{Referent, SymbolRow};
use ldb_words::Text;
use std::alloc::{AllocError, Global};

/// What a name denotes.
fn referent<'s>(places: &Places<'s>, name: &'s Symbol, link: &Link) -> Referent
    ensures { result ≡ referent_by places.now name.now link.now }
{
    match link.local {
        Some(x) => Referent::Local(x),
        None => {
            let text = name.name.as_bytes();
            if name.function {
                match places.function(link.unit, text) {
                    None => Referent::Declared,
                    Some(f) => Referent::Function(f),
                }
            } else {
                Referent::Object(places.object(link.unit, text).unwrap_or(0))
            }
        }
    }
}

/// The row of a name.
fn symbol_row<'s>(
    alloc: Global,
    places: &Places<'s>,
    name: &'s Symbol,
    link: &Link,
) -> Result<SymbolRow, AllocError>
    ensures { IfOk result (λ s. symbol_said s ≡ symbol_by places.now name.now link.now) }
{
    let text = Text::from_slice(alloc, name.name.as_bytes())?;
    let ctype = copied(&name.ctype)?;
    Ok(SymbolRow {
        name: text,
        ctype,
        refers: referent(places, name, link),
        up: link.up,
    })
}

/// The rows of some names that were declared at these places.
pub fn symbol_rows<'s>(
    alloc: Global,
    places: &Places<'s>,
    names: &'s [Symbol],
    links: &[Link],
) -> Result<Vec<SymbolRow>, AllocError>
    requires { length links.now ≡ length names.now }
    ensures { IfOk result (λ l. map symbol_said l.items ≡ symbols_by places.now names.now links.now) }
{
    let mut rows = Vec::new(alloc);
    for (i, name) in names.iter().enumerate() {
        let row = symbol_row(alloc, places, name, &links[i])?;
        rows.push(row)?;
    }
    Ok(rows)
}
