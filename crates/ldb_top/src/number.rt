// Numbers of the words.
ghost use Rattle.std.specs.Prelude.{◌≡◌, ◌≤◌, length};
ghost use Rattle.std.specs.List.{list_all};
ghost use Rattle.ldb_top.specs.Words.{is_digit, is_plain, is_numeral, value_of, number_of};

/// The most of 64 bits.
const MOST: u128 = 18_446_744_073_709_551_615;

fn is_digit(b: u8) -> bool
    ensures { result ≡ is_digit b }
{
    b.is_ascii_digit()
}

/// The number that some digits stand for.
fn value_of(digits: &[u8]) -> u128
    requires { length digits.now ≤ 20 }
    ensures { result ≡ value_of digits.now }
{
    let mut number = 0u128;
    for digit in digits {
        number = number * 10 + u128::from(digit.saturating_sub(b'0'));
    }
    number
}

fn is_plain(word: &[u8]) -> bool
    ensures { result ≡ is_plain word.now }
{
    match word {
        [] => false,
        [first, rest @ ..] => *first != b'0' || rest.is_empty(),
    }
}

fn is_digits(word: &[u8]) -> bool
    ensures { result ≡ list_all is_digit word.now }
{
    word.iter().all(|b| is_digit(*b))
}

/// Whether a word is up to twenty digits without a needless zero in front.
fn is_numeral(word: &[u8]) -> bool
    ensures { result ≡ is_numeral word.now }
{
    is_plain(word) && word.len() <= 20 && is_digits(word)
}

/// The number that a word is, of at most 64 bits.
pub fn number_of(word: &[u8]) -> Option<u64>
    ensures { result ≡ number_of word.now }
{
    if !is_numeral(word) {
        return None;
    }
    let number = value_of(word);
    if number > MOST {
        return None;
    }
    Some(number as u64)
}
