// What a use of a table lacks.

/// What a use of the table lacks: a key, the right type, a byte that the target doesn't hold, a point for a frame, a type that
/// is not too deep, or the functions of a unit that is still to be run.
#[derive(Clone, Copy, PartialEq, Eq, Debug)]
pub enum Lack {
    Missing,
    WrongType,
    Outside,
    NoPoint,
    TooDeep,
    /// The unit's number in the table.
    Unforced { unit: usize },
}
