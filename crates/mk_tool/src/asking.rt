//! What the words of a call that reads a trace ask for.
ghost use Rattle.std.specs.Prelude.{◌≡◌, map};
ghost use Rattle.std.specs.String.{string_bytes};
ghost use Rattle.mk_tool.specs.Asking as spec;
ghost use Rattle.mk_tool.specs.Seen.{seen_result, seen_option};

use mk_ending::is_word;
use mk_spelling::TextFault;
use mk_text::{cut, is_name, is_number, name_text, need, number, ranged};
use mk_txn::{LAST_TIME, Stamp};

/// What is asked of a run, beside its verdict.
#[derive(Clone, Copy)]
pub enum Question<'a> {
    /// What the store held at this stamp.
    Past(Stamp),
    /// Why the attempt of a client's name and a seq ended as it did.
    Reason { client: &'a str, seq: u32 },
}

/// A form of words.
#[derive(Clone, Copy)]
pub enum Form<'a> {
    /// The run is judged.
    Check,
    /// This is asked of the run.
    Of(Question<'a>),
}

/// The past at the stamp that the word is: TIME.CLIENT.
fn past_in(word: &[u8]) -> Result<Question<'_>, TextFault>
    ensures { seen_result result ≡ spec.past_in word.now }
{
    let (time, client) = cut(b'.', word).ok_or(TextFault::Form)?;
    need(is_number(time), TextFault::Number)?;
    need(is_number(client), TextFault::Number)?;
    let time = ranged(time, 0, LAST_TIME)?;
    let client = ranged(client, 0, 64)? as u32;
    Ok(Question::Past(Stamp { time, client }))
}

/// The reason of the attempt that the word names: NAME.SEQ.
fn reason_in(word: &[u8]) -> Result<Question<'_>, TextFault>
    ensures { seen_result result ≡ spec.reason_in word.now }
{
    let (client, seq) = cut(b'.', word).ok_or(TextFault::Form)?;
    need(is_name(client), TextFault::Name)?;
    let seq = number(seq, 1, 16_384)? as u32;
    let client = name_text(client);
    Ok(Question::Reason { client, seq })
}

fn asked_in(question: Result<Question<'_>, TextFault>) -> Option<Form<'_>>
    ensures { seen_option result ≡ spec.asked_in (seen_result question.entry) }
{
    match question {
        Ok(question) => Some(Form::Of(question)),
        Err(_) => None,
    }
}

fn one_word(word: &String) -> Option<Form<'_>>
    ensures { seen_option result ≡ spec.one_word (string_bytes word.now) }
{
    if is_word(word, "check") {
        Some(Form::Check)
    } else {
        None
    }
}

fn two_words<'a>(word: &String, other: &'a String) -> Option<Form<'a>>
    ensures { seen_option result ≡ spec.two_words (string_bytes word.now) (string_bytes other.now) }
{
    if is_word(word, "at") {
        asked_in(past_in(other.as_bytes()))
    } else if is_word(word, "why") {
        asked_in(reason_in(other.as_bytes()))
    } else {
        None
    }
}

/// The form that the words have.
pub fn form_of(words: &[String]) -> Option<Form<'_>>
    ensures { seen_option result ≡ spec.asked_of (map string_bytes words.now) }
{
    match words {
        [word] => one_word(word),
        [word, other] => two_words(word, other),
        [] => None,
        [_, _, _, ..] => None,
    }
}
