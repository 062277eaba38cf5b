//! The answers of global lines as words.
ghost use Rattle.std.specs.Prelude.{◌≡◌};
ghost use Rattle.mk_spelling.specs.Words.{words_behind};
ghost use Rattle.mk_spelling.specs.Fields.{named};
ghost use Rattle.mk_trace_lines.specs.LineWords as texts;
ghost use Rattle.mk_trace_lines.specs.Seen.{seen_reply, replied};
ghost use Rattle.mk_trace_lines.specs.Replies as spec;

use crate::shapes::first;
use crate::words::{Replier, ReplyWord};
use mk_text::{TextFault, need, none_left, number};
use mk_words::GlobalAnswer;

/// A word, and up to two numbers behind it.
#[derive(Clone, Copy)]
pub enum Replied<'a> {
    Word(ReplyWord),
    Number(ReplyWord, &'a [u8]),
    Numbers(ReplyWord, &'a [u8], &'a [u8]),
}

fn reply_word(word: &[u8]) -> Option<ReplyWord>
    ensures { result ≡ named texts.reply_text texts.reply_list word.now }
{
    match word {
        b"ok" => Some(ReplyWord::Ok),
        b"unasked" => Some(ReplyWord::Unasked),
        b"unmade" => Some(ReplyWord::Unmade),
        b"lacking" => Some(ReplyWord::Lacking),
        b"old" => Some(ReplyWord::Old),
        b"word-fault" => Some(ReplyWord::WordFault),
        b"short" => Some(ReplyWord::Short),
        _ => None,
    }
}

/// The numbers behind the word.
fn shape_behind(word: ReplyWord, text: Option<&[u8]>) -> Result<Replied<'_>, TextFault>
    ensures { seen_reply result ≡ spec.shape_behind word (words_behind text.entry) }
{
    match first(text) {
        None => Ok(Replied::Word(word)),
        Some((n, rest)) => match first(rest) {
            None => Ok(Replied::Number(word, n)),
            Some((m, more)) => {
                need(none_left(more), TextFault::Form)?;
                Ok(Replied::Numbers(word, n, m))
            }
        },
    }
}

fn suits(replier: Replier, shape: Replied<'_>) -> bool
    ensures { result ≡ spec.suits replier (replied shape.entry) }
{
    match replier {
        Replier::Promise => matches!(
            shape,
            Replied::Word(
                ReplyWord::Ok | ReplyWord::Unasked | ReplyWord::Lacking | ReplyWord::WordFault
            ) | Replied::Number(ReplyWord::Old, _)
        ),
        Replier::Merge => matches!(
            shape,
            Replied::Numbers(ReplyWord::Ok, _, _)
                | Replied::Number(ReplyWord::Short | ReplyWord::Old, _)
                | Replied::Word(ReplyWord::Lacking)
        ),
        Replier::Adopt => matches!(
            shape,
            Replied::Word(ReplyWord::Ok | ReplyWord::Unmade | ReplyWord::WordFault)
                | Replied::Number(ReplyWord::Old, _)
        ),
        Replier::Enter => matches!(shape, Replied::Number(ReplyWord::Ok | ReplyWord::Short, _)),
    }
}

/// The form of an answer of such a line; else Form.
pub fn reply_shape(replier: Replier, text: Option<&[u8]>) -> Result<Replied<'_>, TextFault>
    ensures { seen_reply result ≡ spec.reply_shape replier (words_behind text.entry) }
{
    let (word, rest) = first(text).ok_or(TextFault::Form)?;
    let word = reply_word(word).ok_or(TextFault::Form)?;
    let shape = shape_behind(word, rest)?;
    need(suits(replier, shape), TextFault::Form)?;
    Ok(shape)
}

fn plain_reply(word: ReplyWord) -> Result<GlobalAnswer, TextFault>
    ensures { result ≡ spec.plain_reply word }
{
    match word {
        ReplyWord::Ok => Ok(GlobalAnswer::Ok),
        ReplyWord::Unasked => Ok(GlobalAnswer::Unasked),
        ReplyWord::Unmade => Ok(GlobalAnswer::Unmade),
        ReplyWord::Lacking => Ok(GlobalAnswer::Lacking),
        ReplyWord::WordFault => Ok(GlobalAnswer::WordFault),
        _ => Err(TextFault::Form),
    }
}

fn numbered_reply(word: ReplyWord, n: &[u8]) -> Result<GlobalAnswer, TextFault>
    ensures { result ≡ spec.numbered_reply word n.now }
{
    match word {
        ReplyWord::Ok => Ok(GlobalAnswer::Entered(number(n, 0, 7)? as u32)),
        ReplyWord::Old => Ok(GlobalAnswer::Old(number(n, 0, 1000)? as u32)),
        ReplyWord::Short => Ok(GlobalAnswer::Short(number(n, 0, 7)? as u32)),
        _ => Err(TextFault::Form),
    }
}

/// The answer of such a form, the first fault from the left.
pub fn reply(shape: Replied<'_>) -> Result<GlobalAnswer, TextFault>
    ensures { result ≡ spec.reply_of (replied shape.entry) }
{
    match shape {
        Replied::Word(word) => plain_reply(word),
        Replied::Number(word, n) => numbered_reply(word, n),
        Replied::Numbers(_, n, m) => {
            let commits = number(n, 0, u64::MAX)?;
            let aborts = number(m, 0, u64::MAX)?;
            Ok(GlobalAnswer::Counts { commits, aborts })
        }
    }
}
