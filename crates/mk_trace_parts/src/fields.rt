//! The fields of a line: numbers, the version, and writes.
ghost use Rattle.std.specs.Prelude.{◌≡◌};
ghost use Rattle.mk_spelling.specs.Fields.{found};
ghost use Rattle.mk_spelling.specs.Words.{words_behind};
ghost use Rattle.mk_spelling.specs.declared.fault.TextFault.TheVariants.{Unknown};
ghost use Rattle.mk_trace_text.specs.Grammar as spec;

use mk_text::{TextFault, cut_word, is_number, need, next_word, value};

/// Whether the word is the digits of this number.
pub fn is_text_of(n: u64, word: &[u8]) -> bool
    ensures { result ≡ spec.is_text_of n word.now }
{
    is_number(word) && value(word) == Some(n)
}

/// Whether the word is a number that is not above this one.
pub fn is_up_to(n: u32, word: &[u8]) -> bool
    ensures { result ≡ spec.is_up_to n word.now }
{
    if !is_number(word) {
        return false;
    }
    match value(word) {
        Some(found) => found <= u64::from(n),
        None => false,
    }
}

/// The number below `n` that the word is; else Number, or Large.
pub fn below(n: u32, word: &[u8]) -> Result<u32, TextFault>
    ensures { result ≡ spec.below n word.now }
{
    need(is_number(word), TextFault::Number)?;
    match value(word) {
        Some(found) if found < u64::from(n) => Ok(found as u32),
        _ => Err(TextFault::Large),
    }
}

/// The version that the word is; else Unknown.
pub fn version_of(word: &[u8]) -> Result<u32, TextFault>
    ensures { result ≡ found Unknown (spec.version_named word.now) }
{
    match word {
        b"1" => Ok(1),
        b"2" => Ok(2),
        _ => Err(TextFault::Unknown),
    }
}

/// Whether each word of the text has an equals sign.
pub fn are_writes(text: Option<&[u8]>) -> bool
    ensures { result ≡ spec.are_writes (words_behind text.entry) }
{
    let mut left = text;
    while let Some(behind) = left {
        let (word, rest) = next_word(behind);
        if cut_word(b'=', word).is_none() {
            return false;
        }
        left = rest;
    }
    true
}

/// Whether the word begins with a digit.
pub fn begins_with_digit(word: &[u8]) -> bool
    ensures { result ≡ spec.begins_with_digit word.now }
{
    match word {
        [] => false,
        [first, ..] => *first >= b'0' && *first <= b'9',
    }
}
