//! Numbers, tested and summed in one walk.
ghost use Rattle.std.specs.Prelude.{◌≡◌, ◌^◌, ◌-◌, if◌then◌else◌};
ghost use Rattle.mk_spelling.specs.Words.{number};
ghost use Rattle.mk_spelling.specs.declared.fault.TextFault.TheVariants.{Large, Number};
ghost use Rattle.mk_trace_lines.specs.ActShapes as spec;

use mk_text::{TextFault, is_number};

/// The digits of 2^64 - 1 but for its last, which is 5.
const LAST_TENTH: u64 = 1844674407370955161;

/// The value of the word where each byte is a digit and it is below 2^64.
fn digits(word: &[u8]) -> Option<u64>
    ensures { result ≡ spec.digits_sum word.now }
{
    let mut n: u64 = 0;
    'digits: for b in word {
        if *b < b'0' || *b > b'9' {
            return None;
        }
        let digit = u64::from(*b - b'0');
        if n > LAST_TENTH || n == LAST_TENTH && digit > 5 {
            return None;
        }
        n = n * 10 + digit;
    }
    Some(n)
}

/// The number below 2^64 that the word is.
pub fn small_number(word: &[u8]) -> Option<u64>
    ensures { result ≡ spec.small_number word.now }
{
    match word {
        [] | [b'0', _, ..] => None,
        _ => digits(word),
    }
}

/// Why a number does not fit: it is above its range, or it is none.
pub fn number_fault(is_number: bool) -> TextFault
    ensures { result ≡ (if is_number then Large else Number) }
{
    if is_number {
        TextFault::Large
    } else {
        TextFault::Number
    }
}

/// The number that the word is; else Number, or from 2^64 on Large.
pub fn any_number(word: &[u8]) -> Result<u64, TextFault>
    ensures { result ≡ number 0 (2 ^ 64 - 1) word.now }
{
    match small_number(word) {
        Some(n) => Ok(n),
        None => Err(number_fault(is_number(word))),
    }
}
