// Slot code and its rows. A `u32` that names something is its number in the list that has it.

use c_tree::Leaf;
use ldb_words::{Kind, Many, Text};

/// How many bytes a value has, and how a load or a conversion extends it to a word.
#[derive(Clone, Copy, PartialEq, Eq, Debug)]
pub enum Access {
    /// 1 byte, extended by its sign.
    SignedByte,
    /// 1 byte, extended by zeros.
    UnsignedByte,
    /// 2 bytes, extended by their sign.
    SignedHalf,
    /// 2 bytes, extended by zeros.
    UnsignedHalf,
    /// 4 bytes of a number.
    Word,
    /// 4 bytes of a pointer. A number in its place is the null pointer.
    Pointer,
}

/// An operator on the words of two numbers.
#[derive(Clone, Copy, PartialEq, Eq, Debug)]
pub enum WordOp {
    Or,
    Xor,
    And,
    Equal,
    Unequal,
    Less,
    Greater,
    LessEqual,
    GreaterEqual,
    LessUnsigned,
    GreaterUnsigned,
    LessEqualUnsigned,
    GreaterEqualUnsigned,
    ShiftLeft,
    ShiftRight,
    ShiftRightUnsigned,
    Add,
    Subtract,
    Multiply,
    Divide,
    Remainder,
    AddUnsigned,
    SubtractUnsigned,
    MultiplyUnsigned,
    DivideUnsigned,
    RemainderUnsigned,
}

/// An operator on one value. `Not` and `Truth` take a pointer too.
#[derive(Clone, Copy, PartialEq, Eq, Debug)]
pub enum UnaryWordOp {
    Plus,
    Minus,
    MinusUnsigned,
    Complement,
    /// 1 where the value is zero, and else 0.
    Not,
    /// 0 where the value is zero, and else 1.
    Truth,
}

/// A comparison of two pointers.
#[derive(Clone, Copy, PartialEq, Eq, Debug)]
pub enum PointerOp {
    /// Equality takes 0 for the null pointer.
    Equal,
    Unequal,
    Less,
    Greater,
    LessEqual,
    GreaterEqual,
}

/// An operator. `to`, `from`, `at`, `left` and `right` are temporaries, and the `place` of a jump is one in the function's code.
#[derive(Clone, Copy, PartialEq, Eq, Debug)]
pub enum SlotOp {
    /// A number by its bits.
    Const {
        to: u32,
        bits: u32,
    },
    /// The null pointer.
    Null {
        to: u32,
    },
    /// The address of a static object.
    StaticAddress {
        to: u32,
        object: u32,
    },
    /// The address of a string.
    TextAddress {
        to: u32,
        string: u32,
    },
    /// The address of a local that is a block.
    LocalAddress {
        to: u32,
        local: u32,
    },
    /// What stands at the address in `from`.
    Load {
        to: u32,
        from: u32,
        kind: Kind,
        access: Access,
    },
    /// Writes the value in `from` at the address in `at`.
    Store {
        at: u32,
        from: u32,
        kind: Kind,
    },
    /// What a register local holds.
    ReadRegister {
        to: u32,
        local: u32,
        kind: Kind,
        access: Access,
    },
    /// Writes a register local.
    WriteRegister {
        from: u32,
        local: u32,
        kind: Kind,
    },
    /// Converts a value in its place.
    Convert {
        at: u32,
        access: Access,
    },
    /// An operator on one value, in its place.
    Unary {
        at: u32,
        op: UnaryWordOp,
    },
    /// An operator on two numbers.
    Binary {
        to: u32,
        left: u32,
        right: u32,
        op: WordOp,
    },
    /// A comparison of two pointers.
    Compare {
        to: u32,
        left: u32,
        right: u32,
        op: PointerOp,
    },
    /// A pointer moved by so many items of `size` bytes as the number in `index` says, back or on.
    Index {
        to: u32,
        pointer: u32,
        index: u32,
        size: u32,
        is_unsigned: bool,
        back: bool,
    },
    /// How many items of `size` bytes lie between two pointers into one object.
    Distance {
        to: u32,
        left: u32,
        right: u32,
        size: u32,
    },
    /// A pointer moved on by some bytes, in its place.
    Offset {
        at: u32,
        bytes: u32,
    },
    /// A temporary's value once more.
    Take {
        to: u32,
        from: u32,
    },
    Jump {
        place: u32,
    },
    JumpIfZero {
        at: u32,
        place: u32,
    },
    JumpIfNotZero {
        at: u32,
        place: u32,
    },
    JumpIfEqual {
        at: u32,
        bits: u32,
        place: u32,
    },
    /// Calls a function with the values of so many temporaries from `at` on, and takes its result into `at`.
    Call {
        at: u32,
        function: u32,
        arguments: u32,
    },
    /// Ends the activation with a value.
    Return {
        at: u32,
    },
    /// The stopping point of this number is passed.
    Stop {
        point: u32,
    },
    /// Copies a struct from the address in `from` to that in `to`.
    Move {
        to: u32,
        from: u32,
        shape: u32,
    },
    /// Makes a local's object, with zeros.
    Zero {
        local: u32,
    },
    /// Blocks are left: of the locals in scope, the first so many remain.
    Leave {
        scope: u32,
    },
    GetChar {
        to: u32,
    },
    PutChar {
        at: u32,
    },
    Exit {
        at: u32,
    },
}

/// Where a local is: in memory, or in a register by its number from 0 to 7.
#[derive(Clone, Copy, PartialEq, Eq, Debug)]
pub enum Home {
    Block,
    Register(u8),
}

/// A local: where it is, how an argument for it is converted, and its size and leaves.
#[derive(Drop)]
pub struct SlotLocal {
    pub home: Home,
    pub access: Access,
    pub size: u32,
    pub leaves: Many<Leaf>,
}

/// A function. Its first `params` locals are the parameters. `points` has its stopping points, and `places` the place of each in `code`.
#[derive(Drop)]
pub struct SlotFunction {
    pub name: Text,
    pub params: u32,
    pub locals: Many<SlotLocal>,
    pub temporaries: u32,
    pub points: Many<u32>,
    pub places: Many<u32>,
    pub code: Many<SlotOp>,
}

/// What a leaf holds at first.
#[derive(Clone, Copy, PartialEq, Eq, Debug)]
pub enum SlotValue {
    Number(u32),
    Null,
    Object { object: u32, offset: u32 },
    Str(u32),
}

/// A leaf of a static object: its offset, its width in bytes, and what it holds at first. One of width 4 that holds no number is a pointer.
#[derive(Clone, Copy, PartialEq, Eq, Debug)]
pub struct SlotStart {
    pub at: u32,
    pub width: u8,
    pub value: SlotValue,
}

/// A static object.
#[derive(Drop)]
pub struct SlotObject {
    pub name: Text,
    pub size: u32,
    pub start: Many<SlotStart>,
}

/// What a member has items of: a scalar, or the struct of that number.
#[derive(Clone, Copy, PartialEq, Eq, Debug)]
pub enum SlotItem {
    Scalar(Kind),
    Struct(u32),
}

/// A member of a struct: where it begins, in bytes, and how many items it has, one behind the other. One that is no array has one item, and an array of arrays has the items of all.
#[derive(Clone, Copy, PartialEq, Eq, Debug)]
pub struct SlotMember {
    pub at: u32,
    pub items: u32,
    pub item: SlotItem,
}

/// A struct that is copied: its size, its members, and its leaves, which are those of its members.
#[derive(Drop)]
pub struct SlotStruct {
    pub size: u32,
    pub members: Many<SlotMember>,
    pub leaves: Many<Leaf>,
}

/// The slot code of a program: its functions, of which `main` is the one of that number, its static objects, its strings without their NUL, and its structs.
#[derive(Drop)]
pub struct SlotCode {
    pub functions: Many<SlotFunction>,
    pub main: u32,
    pub objects: Many<SlotObject>,
    pub strings: Many<Text>,
    pub structs: Many<SlotStruct>,
}
