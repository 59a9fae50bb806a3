//! The operators' names.

ghost use Rattle.std.specs.Prelude.{◌≡◌, ◌<◌, IfSome, position, bytes_eq, length, slice_get};
ghost use Rattle.ps_store.specs.Operators.{operator_number};

/// How many operators are the manual's; those of the dialect's own follow them.
pub const STANDARD_OPERATORS: u16 = 61;

/// The names of the operators by their numbers: first those that the manual has, then the dialect's own.
pub static OPERATOR_NAMES: [&str; 94] = [
    "exch",
    "dup",
    "pop",
    "copy",
    "index",
    "roll",
    "mark",
    "counttomark",
    "cleartomark",
    "[",
    "]",
    "<<",
    ">>",
    "array",
    "dict",
    "string",
    "if",
    "ifelse",
    "for",
    "repeat",
    "loop",
    "exit",
    "forall",
    "exec",
    "stop",
    "stopped",
    "begin",
    "end",
    "def",
    "load",
    "known",
    "where",
    "get",
    "put",
    "length",
    "aload",
    "astore",
    "cvx",
    "cvlit",
    "cvn",
    "cvs",
    "add",
    "sub",
    "mul",
    "idiv",
    "mod",
    "neg",
    "bitshift",
    "and",
    "or",
    "xor",
    "not",
    "eq",
    "ne",
    "lt",
    "le",
    "gt",
    "ge",
    "true",
    "false",
    "null",
    "Anchor",
    "Absolute",
    "Local",
    "Register",
    "Immediate",
    "Where",
    "fetch",
    "store",
    "iadd",
    "isub",
    "imul",
    "idivs",
    "irem",
    "ineg",
    "udivs",
    "urem",
    "uadd",
    "usub",
    "umul",
    "ishl",
    "ishr",
    "ushr",
    "ult",
    "ptradd",
    "ptrsub",
    "ptrcmp",
    "Leaf",
    "Struct",
    "Put",
    "PutChar",
    "PutPointer",
    "PutChars",
    "charrun",
];

/// The place of a name among names.
fn place_in(names: &[&str], name: &[u8]) -> Option<usize>
    ensures place { result ≡ position (λ other. bytes_eq other.now name.now) names.now }
    ensures within { IfSome result (λ n. n < length names.now) }
{
    names.iter().position(|other| other.as_bytes() == name)
}

/// The number of the operator with a name.
#[tactic(auto, unfolding(crate::specs::Operators::operator_number))]
pub fn operator_number(name: &[u8]) -> Option<u16>
    ensures number { result ≡ operator_number name.now }
    ensures within { IfSome result (λ n. n < 94) }
{
    match place_in(&OPERATOR_NAMES, name) {
        Some(number) => Some(number as u16),
        None => None,
    }
}
