// Kinds of scalars, byte orders, directions of shifts, and why an operation of C is undefined.

/// Why an operation of C has no result (C90, 3.16 "undefined behavior").
#[derive(Clone, Copy, PartialEq, Eq, Debug)]
pub enum Undef {
    /// A result of signed arithmetic is outside 32 bits.
    Overflow,
    /// A divisor is 0, or the least number is divided by -1.
    Division,
    /// A shift count is outside 0 to 31.
    Shift,
    /// An access or an operation on a pointer has no object for it.
    Pointer,
}

/// What a scalar leaf of an object holds.
#[derive(Clone, Copy, PartialEq, Eq, Debug)]
pub enum Kind {
    /// A `char`, of one byte.
    Byte,
    /// An `int` or `unsigned`, of four bytes.
    Word,
    /// A pointer, of four bytes.
    Address,
}

/// The order of the bytes of a word in memory.
#[derive(Clone, Copy, PartialEq, Eq, Debug)]
pub enum Order {
    /// The lowest byte has the lowest address.
    Little,
    /// The highest byte has the lowest address.
    Big,
}

/// The direction of a shift, and what fills a shift to the right.
#[derive(Clone, Copy, PartialEq, Eq, Debug)]
pub enum Way {
    /// To the left, filled with zeros.
    Left,
    /// To the right, filled with the sign.
    RightSigned,
    /// To the right, filled with zeros.
    RightUnsigned,
}
