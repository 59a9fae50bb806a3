// Numbers of a command.
ghost use Rattle.std.specs.Prelude.{◌≡◌, ◌≤◌, length};
ghost use Rattle.std.specs.List.{list_all};
ghost use Rattle.cmd_lang.specs.Numbers.{is_digit, is_plain, is_numeral, value_of, number_of, among, position_of, limit_of};

fn is_digit(b: u8) -> bool
    ensures { result ≡ is_digit b }
{
    b.is_ascii_digit()
}

/// The number that some digits stand for.
fn value_of(digits: &[u8]) -> u64
    requires { length digits.now ≤ 10 }
    ensures { result ≡ value_of digits.now }
{
    let mut number = 0u64;
    for digit in digits {
        number = number * 10 + u64::from(digit.saturating_sub(b'0'));
    }
    number
}

fn is_plain(word: &[u8]) -> bool
    ensures { result ≡ is_plain word.now }
{
    match word {
        [] => false,
        [first, rest @ ..] => *first != b'0' || rest.is_empty(),
    }
}

fn is_digits(word: &[u8]) -> bool
    ensures { result ≡ list_all is_digit word.now }
{
    word.iter().all(|b| is_digit(*b))
}

/// Whether a word is up to ten digits without a needless zero in front.
fn is_numeral(word: &[u8]) -> bool
    ensures { result ≡ is_numeral word.now }
{
    is_plain(word) && word.len() <= 10 && is_digits(word)
}

/// The number that a word is, of at most 32 bits.
pub fn number_of(word: &[u8]) -> Option<u32>
    ensures { result ≡ number_of word.now }
{
    if !is_numeral(word) {
        return None;
    }
    let number = value_of(word);
    if number > 4294967295 {
        return None;
    }
    Some(number as u32)
}

/// The number that a word is, where it is one of these.
fn among(least: u32, most: u32, word: &[u8]) -> Option<u32>
    ensures { result ≡ among least most (number_of word.now) }
{
    let number = number_of(word)?;
    if least <= number && number <= most {
        Some(number)
    } else {
        None
    }
}

/// The line or column that a word is, from 1.
pub fn position_of(word: &[u8]) -> Option<u32>
    ensures { result ≡ position_of word.now }
{
    among(1, 4294967295, word)
}

/// The most instructions of a resume that a word is, from 1 to 1,000,000,000.
pub fn limit_of(word: &[u8]) -> Option<u32>
    ensures { result ≡ limit_of word.now }
{
    among(1, 1000000000, word)
}
