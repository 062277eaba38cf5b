//! Numbers and names, and tests in their order.
ghost use Rattle.std.specs.Prelude.{◌≡◌, IsTrue};
ghost use Rattle.mk_spelling.specs.Words as spec;
ghost use Rattle.mk_spelling.specs.Fields as tests;

use mk_spelling::TextFault;

/// Passes where the test does, and else answers the fault.
pub fn need(test: bool, fault: TextFault) -> Result<(), TextFault>
    ensures { result ≡ tests.need test fault }
{
    if test { Ok(()) } else { Err(fault) }
}

fn are_digits(word: &[u8]) -> bool
    ensures { result ≡ spec.are_digits word.now }
{
    word.iter().all(|b| *b >= b'0' && *b <= b'9')
}

/// Whether the word is a number: decimal digits without a leading zero.
pub fn is_number(word: &[u8]) -> bool
    ensures { result ≡ spec.is_number word.now }
{
    match word {
        [] => false,
        [first, rest @ ..] => {
            if *first == b'0' {
                rest.is_empty()
            } else {
                are_digits(word)
            }
        }
    }
}

/// The digits of 2^64 - 1 but for its last, which is 5.
const LAST_TENTH: u64 = 1844674407370955161;

/// The value of digits, where it is below 2^64.
pub fn value(digits: &[u8]) -> Option<u64>
    requires { IsTrue (spec.are_digits digits.now) }
    ensures { result ≡ spec.small_value digits.now }
{
    let mut n: u64 = 0;
    'digits: for b in digits {
        let digit = u64::from(*b - b'0');
        if n > LAST_TENTH || n == LAST_TENTH && digit > 5 {
            return None;
        }
        n = n * 10 + digit;
    }
    Some(n)
}

/// The value of a number, where it lies from `low` to `high`; else Large.
pub fn ranged(word: &[u8], low: u64, high: u64) -> Result<u64, TextFault>
    requires { IsTrue (spec.is_number word.now) }
    ensures { result ≡ spec.ranged low high (spec.value word.now) }
{
    match value(word) {
        Some(n) if low <= n && n <= high => Ok(n),
        _ => Err(TextFault::Large),
    }
}

/// The number from `low` to `high` that the word is; else Number, or Large.
pub fn number(word: &[u8], low: u64, high: u64) -> Result<u64, TextFault>
    ensures { result ≡ spec.number low high word.now }
{
    if !is_number(word) {
        return Err(TextFault::Number);
    }
    ranged(word, low, high)
}

fn are_name_bytes(bytes: &[u8]) -> bool
    ensures { result ≡ spec.are_name_bytes bytes.now }
{
    bytes.iter().all(|b| { *b >= b'a' && *b <= b'z' || *b >= b'0' && *b <= b'9' || *b == b'_' })
}

/// Whether the word is a name: a letter `a` to `z`, and at most 15 letters, digits and `_` behind it.
pub fn is_name(word: &[u8]) -> bool
    ensures { result ≡ spec.is_name word.now }
{
    match word {
        [] => false,
        [first, rest @ ..] => {
            *first >= b'a' && *first <= b'z' && rest.len() <= 15 && are_name_bytes(rest)
        }
    }
}

/// A name as text.
pub fn name_text(word: &[u8]) -> &str
    requires { IsTrue (spec.is_name word.now) }
    ensures { result.now ≡ word.now }
{
    match std::str::from_utf8(word) {
        Ok(text) => text,
        Err(_) => "",
    }
}
