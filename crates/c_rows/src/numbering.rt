// The definitions of the objects and of the functions of a program, numbered in the order of the text.
ghost use Rattle.std.specs.Prelude.{◌≡◌, ◌++◌, ◌∷◌, ℕ, List, Bool, [], map, IfOk, OnOk};
ghost use Rattle.c_linkage.specs.Names.{defining};
ghost use Rattle.c_linkage.specs.Defined.{is_body, objects_from, bodies_of, number_from};
ghost use Rattle.c_rows.specs.Linked.{linked_in};
ghost use Rattle.c_rows.specs.Fresh.{one_object, marked, sees};

use crate::linked::LinkedNumbers;
use c_linkage::{Definition, FileNumbers, Manner};
use std::alloc::{AllocError, Global};

/// Whether a definition is a function's.
fn is_body(manner: Manner) -> bool
    ensures { result ≡ is_body manner }
{
    match manner {
        Manner::Body => true,
        Manner::Initialized | Manner::Tentative => false,
    }
}

/// Adds a definition of an object that has none yet among those that were seen.
fn add_object<'a>(
    objects: &mut Vec<Definition<'a>>,
    seen: &mut FileNumbers<'a>,
    d: &Definition<'a>,
) -> Result<(), AllocError>
    ensures objects { OnOk result (map defining objects.new.items ≡ map defining objects.old.items ++ one_object (sees seen.old) (defining d.now)) }
    ensures seen { OnOk result ((u : ℕ) (name : List ℕ) → sees seen.new u name ≡ marked (sees seen.old) (defining d.now) u name) }
{
    if is_body(d.manner) {
        return Ok(());
    }
    match seen.replace(d.unit, d.name.as_bytes(), 0)? {
        Some(_) => Ok(()),
        None => {
            objects.push(*d)?;
            Ok(())
        }
    }
}

/// The definitions of objects, of each the first.
pub fn objects<'a>(
    alloc: Global,
    definitions: &[Definition<'a>],
) -> Result<Vec<Definition<'a>>, AllocError>
    ensures { IfOk result (λ l. map defining l.items ≡ objects_from [] (map defining definitions.now)) }
{
    let mut objects = Vec::new(alloc);
    let mut seen = FileNumbers::new(alloc);
    for d in definitions {
        add_object(&mut objects, &mut seen, d)?;
    }
    Ok(objects)
}

/// Adds a definition with a body.
fn add_body<'a>(bodies: &mut Vec<Definition<'a>>, d: &Definition<'a>) -> Result<(), AllocError>
    ensures { OnOk result (map defining bodies.new.items ≡ map defining bodies.old.items ++ bodies_of (defining d.now ∷ [])) }
{
    if is_body(d.manner) {
        bodies.push(*d)?;
    }
    Ok(())
}

/// The definitions with bodies.
#[tactic(auto, using(crate::proofs::Listed::bodies_one))]
pub fn bodies<'a>(
    alloc: Global,
    definitions: &[Definition<'a>],
) -> Result<Vec<Definition<'a>>, AllocError>
    ensures { IfOk result (λ l. map defining l.items ≡ bodies_of (map defining definitions.now)) }
{
    let mut bodies = Vec::new(alloc);
    for d in definitions {
        add_body(&mut bodies, d)?;
    }
    Ok(bodies)
}

/// The numbers of what some definitions define, each that of the first of them. Fails also where there are 2^32.
pub fn numbered<'s, 'a>(
    alloc: Global,
    definitions: &'s [Definition<'a>],
) -> Result<LinkedNumbers<'s>, AllocError>
    ensures { IfOk result (λ m. (u : ℕ) (s : Bool) (name : List ℕ) → linked_in m u s name ≡ number_from 0 (map defining definitions.now) u s name) }
{
    let mut numbers = LinkedNumbers::new(alloc);
    let mut i = definitions.len();
    'numbering: while i > 0 {
        i -= 1;
        let Ok(number) = u32::try_from(i) else {
            return Err(AllocError);
        };
        let d = definitions[i];
        numbers.set(d.unit, d.is_static, d.name.as_bytes(), number)?;
    }
    Ok(numbers)
}
