// Parameters of functions, and what declares a function.
ghost use Rattle.std.specs.Prelude.{◌≡◌, map, option_map};
ghost use Rattle.c_typing.specs.Plain.{plain};
ghost use Rattle.c_typing.specs.Declarations.{is_result};
ghost use Rattle.c_judge.specs.Judges.{Gives};
ghost use Rattle.c_scope.specs.Declarators.{parameter, with_one, function};
ghost use Rattle.c_scope.specs.Shapes.{parameter_of, shape_of, is_called, any_called, Adds};
ghost use Rattle.c_scope.specs.StructTags.{text};

use crate::shapes::{Parameter, Shape};
use c_judge::{Fault, is_scalar, is_void, value_type};
use c_tree::CType;
use ldb_words::Text;

/// A parameter, which is a scalar once an array has become a pointer to its first item.
pub fn parameter<'a>(
    name: Option<&'a Text>,
    register: bool,
    at: u32,
    s: Shape<'a>,
) -> Result<Parameter<'a>, Fault>
    ensures { Gives parameter_of (parameter (option_map text name.entry) register at (shape_of s.entry)) result }
{
    match s {
        Shape::Function(_, _) => Err(Fault::Rule { rule: 9, at }),
        Shape::Object(t) => {
            if !is_scalar(&t) {
                return Err(Fault::Rule { rule: 9, at });
            }
            Ok(Parameter {
                name,
                ctype: value_type(&t)?,
                register,
            })
        }
    }
}

/// Whether this is a parameter's name.
fn is_called<'a>(p: &Parameter<'a>, name: &Text) -> bool
    ensures { result ≡ is_called name.now p.now }
{
    match p.name {
        None => false,
        Some(n) => n.as_bytes() == name.as_bytes(),
    }
}

/// Whether one of the parameters has this name.
fn any_called<'a>(parameters: &[Parameter<'a>], name: &Text) -> bool
    ensures { result ≡ any_called name.now parameters.now }
{
    for p in parameters {
        if is_called(p, name) {
            return true;
        }
    }
    false
}

/// With one parameter more, whose name differs from those before.
pub fn with_one<'a>(
    parameters: Vec<Parameter<'a>>,
    at: u32,
    p: Parameter<'a>,
) -> Result<Vec<Parameter<'a>>, Fault>
    ensures { Gives (λ v. map parameter_of v.items) (with_one (map parameter_of parameters.entry.items) at (parameter_of p.entry)) result }
{
    match p.name {
        None => pushed(parameters, p),
        Some(name) => {
            if any_called(&parameters, name) {
                return Err(Fault::Rule { rule: 5, at });
            }
            pushed(parameters, p)
        }
    }
}

/// With one parameter more.
fn pushed<'a>(parameters: Vec<Parameter<'a>>, p: Parameter<'a>) -> Result<Vec<Parameter<'a>>, Fault>
    ensures { Adds parameters.entry.items p.entry result }
{
    let mut parameters = parameters;
    match parameters.push(p) {
        Ok(()) => Ok(parameters),
        Err(_) => Err(Fault::NoMemory),
    }
}

/// Whether a function may have this result.
fn is_result(t: &CType) -> bool
    ensures { result ≡ is_result (plain t.now) }
{
    match t {
        CType::Array(_, _) => false,
        _ => is_void(t) || is_scalar(t),
    }
}

/// A function, which its name declares and which gives `void` or a scalar.
pub fn function<'a>(
    named: bool,
    at: u32,
    t: CType,
    parameters: Vec<Parameter<'a>>,
) -> Result<Shape<'a>, Fault>
    ensures { Gives shape_of (function named at (plain t) (map parameter_of parameters.entry.items)) result }
{
    if named && is_result(&t) {
        return Ok(Shape::Function(t, parameters));
    }
    Err(Fault::Rule { rule: 9, at })
}
