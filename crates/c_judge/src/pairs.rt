// Two results as one.
ghost use Rattle.std.specs.Prelude.{◌≡◌};
ghost use Rattle.c_judge.specs.Pairs.{paired, graver};

use crate::fault::Fault;

/// Both, where both are there; else a broken rule before a name that is not declared, and of two of a kind the left one.
pub fn pair<A: Drop, B: Drop>(x: Result<A, Fault>, y: Result<B, Fault>) -> Result<(A, B), Fault>
    ensures { result ≡ paired x y }
{
    match x {
        Ok(x) => match y {
            Ok(y) => Ok((x, y)),
            Err(f) => Err(f),
        },
        Err(f) => Err(graver(f, y)),
    }
}

/// The fault of the left part, or that of the right one where only it is a broken rule.
fn graver<B: Drop>(f: Fault, y: Result<B, Fault>) -> Fault
    ensures { result ≡ graver f y }
{
    match f {
        Fault::Rule { rule, at } => Fault::Rule { rule, at },
        Fault::NoMemory => Fault::NoMemory,
        Fault::Unknown { name } => match y {
            Ok(_) => Fault::Unknown { name },
            Err(Fault::Unknown { .. }) => Fault::Unknown { name },
            Err(g) => g,
        },
    }
}
