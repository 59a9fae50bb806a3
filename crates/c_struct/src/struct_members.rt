// Members that are declared in a struct (C90 6.5.2.1).
ghost use Rattle.std.specs.Prelude.{◌≡◌, OnOk};
ghost use Rattle.c_trees.specs.Declarators.{begins};
ghost use Rattle.c_typing.specs.Plain.{plain};
ghost use Rattle.c_judge.specs.Answers.{◌then◌};
ghost use Rattle.c_scope.specs.Declarators.{shape, name_in};
ghost use Rattle.c_struct.specs.Structs.{member, members};
ghost use Rattle.c_scope.specs.Shapes.{shape_of};
ghost use Rattle.c_struct.specs.Opened.{members_in, HasNames, Adds};
ghost use Rattle.c_scope.specs.Here.{environment_of};

use crate::members::{OpenStruct, add_member};
use c_judge::{Fault, copied};
use c_scope::{Environment, Shape, declarator_place, name_in, shape};
use c_tree::CType;
use c_trees::declaration::Declarator;
use ldb_words::Text;
use std::alloc::Global;

/// Adds a member of a shape: an object.
fn add_shape<'a>(
    here: &Environment<'a>,
    o: &mut OpenStruct<'a>,
    at: u32,
    name: &'a Text,
    s: Shape<'a>,
) -> Result<(), Fault>
    requires { HasNames o.old }
    ensures added { Adds (member (environment_of here.now) (members_in o.old) at name.now (shape_of s.entry)) o.new result }
    ensures place { o.new.at ≡ o.old.at }
    ensures tag { o.new.tag ≡ o.old.tag }
{
    match s {
        Shape::Object(t) => add_member(here.defs.defs(), o, at, name, t),
        Shape::Function(_, _) => Err(Fault::Rule { rule: 9, at }),
    }
}

/// Adds the member that a declarator declares.
fn add_declarator<'a>(
    alloc: Global,
    here: &Environment<'a>,
    o: &mut OpenStruct<'a>,
    t: &CType,
    d: &'a Declarator,
) -> Result<(), Fault>
    requires { HasNames o.old }
    ensures added { Adds (shape (environment_of here.now) d.now (plain t.now) then member (environment_of here.now) (members_in o.old) (begins d.now).at (name_in d.now)) o.new result }
    ensures place { o.new.at ≡ o.old.at }
    ensures tag { o.new.tag ≡ o.old.tag }
{
    let t = copied(t)?;
    match shape(alloc, here, d, t) {
        Ok(s) => add_shape(here, o, declarator_place(d).at, name_in(d), s),
        Err(f) => Err(f),
    }
}

/// Adds the members that some declarators declare, in order.
pub fn add_declarators<'a>(
    alloc: Global,
    here: &Environment<'a>,
    o: &mut OpenStruct<'a>,
    t: &CType,
    ds: &'a [Declarator],
) -> Result<(), Fault>
    requires { HasNames o.old }
    ensures added { Adds (members (environment_of here.now) (members_in o.old) (plain t.now) ds.now) o.new result }
    ensures place { o.new.at ≡ o.old.at }
    ensures tag { o.new.tag ≡ o.old.tag }
{
    for d in ds {
        match add_declarator(alloc, here, o, t, d) {
            Ok(()) => {}
            Err(f) => return Err(f),
        }
    }
    Ok(())
}
