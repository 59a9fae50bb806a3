// Conditions of branches and traps (SPARC V8 manual, sections B.21 and B.27).

ghost use Rattle.std.specs.Prelude.{◌≡◌, ◌<◌};
ghost use Rattle.sparc_isa.specs.Condition.{condition_code, condition_of, holds, is_conditional};

/// When a branch is taken or a trap is made, by the codes N, Z, V and C of the last SUBcc. Each but
/// `Never` and `Always` compares the two operands of that SUBcc, or asks for one of the codes.
#[derive(Clone, Copy, Debug)]
pub enum Condition {
    Never,
    Equal,
    LessOrEqual,
    Less,
    LessOrEqualUnsigned,
    CarrySet,
    Negative,
    OverflowSet,
    Always,
    NotEqual,
    Greater,
    GreaterOrEqual,
    GreaterUnsigned,
    CarryClear,
    Positive,
    OverflowClear,
}

impl Condition {
    /// The condition of a code.
    #[tactic(auto, unfolding(crate::specs::Condition::condition_of))]
    pub fn from_code(code: u8) -> Condition
        requires { code < 16 }
        ensures { result ≡ condition_of code }
    {
        match code {
            0 => Condition::Never,
            1 => Condition::Equal,
            2 => Condition::LessOrEqual,
            3 => Condition::Less,
            4 => Condition::LessOrEqualUnsigned,
            5 => Condition::CarrySet,
            6 => Condition::Negative,
            7 => Condition::OverflowSet,
            8 => Condition::Always,
            9 => Condition::NotEqual,
            10 => Condition::Greater,
            11 => Condition::GreaterOrEqual,
            12 => Condition::GreaterUnsigned,
            13 => Condition::CarryClear,
            14 => Condition::Positive,
            _ => Condition::OverflowClear,
        }
    }

    /// Its code, 0 to 15.
    #[tactic(auto, unfolding(crate::specs::Condition::condition_code))]
    pub fn code(self) -> u8
        ensures value { result ≡ condition_code self }
        ensures in_range { result < 16 }
    {
        match self {
            Condition::Never => 0,
            Condition::Equal => 1,
            Condition::LessOrEqual => 2,
            Condition::Less => 3,
            Condition::LessOrEqualUnsigned => 4,
            Condition::CarrySet => 5,
            Condition::Negative => 6,
            Condition::OverflowSet => 7,
            Condition::Always => 8,
            Condition::NotEqual => 9,
            Condition::Greater => 10,
            Condition::GreaterOrEqual => 11,
            Condition::GreaterUnsigned => 12,
            Condition::CarryClear => 13,
            Condition::Positive => 14,
            Condition::OverflowClear => 15,
        }
    }

    /// Whether it holds, where the codes are N, Z, V and C from bit 3 down.
    #[tactic(auto, unfolding(crate::specs::Condition::holds))]
    pub fn holds(self, codes: u8) -> bool
        ensures { result ≡ holds self codes }
    {
        let negative = codes >> 3 & 1 == 1;
        let zero = codes >> 2 & 1 == 1;
        let overflow = codes >> 1 & 1 == 1;
        let carry = codes & 1 == 1;
        match self {
            Condition::Never => false,
            Condition::Equal => zero,
            Condition::LessOrEqual => zero || negative != overflow,
            Condition::Less => negative != overflow,
            Condition::LessOrEqualUnsigned => carry || zero,
            Condition::CarrySet => carry,
            Condition::Negative => negative,
            Condition::OverflowSet => overflow,
            Condition::Always => true,
            Condition::NotEqual => !zero,
            Condition::Greater => !(zero || negative != overflow),
            Condition::GreaterOrEqual => negative == overflow,
            Condition::GreaterUnsigned => !(carry || zero),
            Condition::CarryClear => !carry,
            Condition::Positive => !negative,
            Condition::OverflowClear => !overflow,
        }
    }

    /// Whether it asks for any of the codes.
    #[tactic(auto, unfolding(crate::specs::Condition::is_conditional))]
    pub fn is_conditional(self) -> bool
        ensures { result ≡ is_conditional self }
    {
        !matches!(self, Condition::Never | Condition::Always)
    }
}
