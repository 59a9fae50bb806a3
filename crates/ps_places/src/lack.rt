// What a use of a table lacks.

ghost use Rattle.std.specs.Prelude.{◌≡◌};
ghost use Rattle.ps_places.specs.Lacks.{error_of};

use ps_step::fault::PsError;
use table_model::Lack;

/// The error of what a table lacks. For a unit that is still to be run none is told: an operator that meets one runs it and acts
/// again, and names and types are read without units.
pub fn error_of(lack: Lack) -> PsError
    ensures { result ≡ error_of lack }
{
    match lack {
        Lack::Missing | Lack::NoPoint | Lack::Unforced { .. } => PsError::Undefined,
        Lack::WrongType => PsError::TypeCheck,
        Lack::Outside => PsError::RangeCheck,
        Lack::TooDeep => PsError::LimitCheck,
    }
}
