//! Acts with their answers as words.
ghost use Rattle.std.specs.Prelude.{◌≡◌, true, false};
ghost use Rattle.mk_spelling.specs.Words.{words_behind};
ghost use Rattle.mk_spelling.specs.Fields.{found, named};
ghost use Rattle.mk_spelling.specs.declared.fault.TextFault.TheVariants.{Unknown};
ghost use Rattle.mk_trace_lines.specs.LineWords as texts;
ghost use Rattle.mk_trace_lines.specs.Seen.{seen_first, seen_stamp, seen_answer, seen_act, stamped, answered, acted};
ghost use Rattle.mk_trace_lines.specs.ActShapes as spec;

use crate::numbers::{any_number, number_fault, small_number};
use crate::words::ActWord;
use mk_text::{TextFault, cut_word, is_number, next_word, none_left, one, two};
use mk_txn::{LAST_TIME, Reason, Stamp, Value};
use mk_words::{Act, Answer};

/// The parts of a stamp.
#[derive(Clone, Copy)]
pub struct Stamped<'a> {
    pub time: &'a [u8],
    pub client: &'a [u8],
}

/// The parts of a check's answer.
#[derive(Clone, Copy)]
pub enum Answered<'a> {
    Okay,
    Refused(&'a [u8], Stamped<'a>),
}

/// The parts of an act with its answer.
#[derive(Clone, Copy)]
pub enum Acted<'a> {
    Get(Stamped<'a>, &'a [u8]),
    CheckRead(Stamped<'a>, Stamped<'a>, Answered<'a>),
    CheckWrite(Stamped<'a>, Answered<'a>),
    CommitRead(Stamped<'a>),
    CommitWrite(Stamped<'a>, &'a [u8]),
    ReleaseRead(Stamped<'a>),
    ReleaseWrite(Stamped<'a>),
}

/// The first word that is left, and the text behind it where a space follows.
pub fn first(text: Option<&[u8]>) -> Option<(&[u8], Option<&[u8]>)>
    ensures { seen_first result ≡ spec.first_of (words_behind text.entry) }
{
    let (word, rest) = next_word(text?);
    Some((word, rest))
}

fn check_act(word: &[u8]) -> Option<ActWord>
    ensures { result ≡ named texts.act_text texts.check_acts word.now }
{
    match word {
        b"get" => Some(ActWord::Get),
        b"checkread" => Some(ActWord::CheckRead),
        b"checkwrite" => Some(ActWord::CheckWrite),
        _ => None,
    }
}

fn end_act(word: &[u8]) -> Option<ActWord>
    ensures { result ≡ named texts.act_text texts.end_acts word.now }
{
    match word {
        b"commitread" => Some(ActWord::CommitRead),
        b"commitwrite" => Some(ActWord::CommitWrite),
        b"releaseread" => Some(ActWord::ReleaseRead),
        b"releasewrite" => Some(ActWord::ReleaseWrite),
        _ => None,
    }
}

#[tactic(auto, using(crate::proofs::FoundWords::named_append))]
fn act_word(word: &[u8]) -> Option<ActWord>
    ensures { result ≡ named texts.act_text texts.act_list word.now }
{
    match check_act(word) {
        Some(act) => Some(act),
        None => end_act(word),
    }
}

fn stamp_parts(word: &[u8]) -> Result<Stamped<'_>, TextFault>
    ensures { seen_stamp result ≡ spec.stamp_parts word.now }
{
    let (time, client) = cut_word(b'.', word).ok_or(TextFault::Form)?;
    Ok(Stamped { time, client })
}

fn refused<'a>(word: &'a [u8], rest: Option<&'a [u8]>) -> Result<Answered<'a>, TextFault>
    ensures { seen_answer result ≡ spec.refused_shape word.now (words_behind rest.entry) }
{
    let last = one(rest).ok_or(TextFault::Form)?;
    let stamp = stamp_parts(last)?;
    Ok(Answered::Refused(word, stamp))
}

fn okay(word: &[u8]) -> Result<Answered<'_>, TextFault>
    ensures { seen_answer result ≡ spec.okay_shape word.now }
{
    match word {
        b"ok" => Ok(Answered::Okay),
        _ => Err(TextFault::Form),
    }
}

fn answer_shape(text: Option<&[u8]>) -> Result<Answered<'_>, TextFault>
    ensures { seen_answer result ≡ spec.answer_shape (words_behind text.entry) }
{
    let (word, rest) = first(text).ok_or(TextFault::Form)?;
    if none_left(rest) {
        okay(word)
    } else {
        refused(word, rest)
    }
}

fn get_shape(text: Option<&[u8]>) -> Result<Acted<'_>, TextFault>
    ensures { seen_act result ≡ spec.get_shape (words_behind text.entry) }
{
    let (version, value) = two(text).ok_or(TextFault::Form)?;
    let version = stamp_parts(version)?;
    Ok(Acted::Get(version, value))
}

fn check_read_shape(text: Option<&[u8]>) -> Result<Acted<'_>, TextFault>
    ensures { seen_act result ≡ spec.check_read_shape (words_behind text.entry) }
{
    let (ts, rest) = first(text).ok_or(TextFault::Form)?;
    let ts = stamp_parts(ts)?;
    let (version, rest) = first(rest).ok_or(TextFault::Form)?;
    let version = stamp_parts(version)?;
    let answer = answer_shape(rest)?;
    Ok(Acted::CheckRead(ts, version, answer))
}

fn check_write_shape(text: Option<&[u8]>) -> Result<Acted<'_>, TextFault>
    ensures { seen_act result ≡ spec.check_write_shape (words_behind text.entry) }
{
    let (ts, rest) = first(text).ok_or(TextFault::Form)?;
    let ts = stamp_parts(ts)?;
    let answer = answer_shape(rest)?;
    Ok(Acted::CheckWrite(ts, answer))
}

fn commit_write_shape(text: Option<&[u8]>) -> Result<Acted<'_>, TextFault>
    ensures { seen_act result ≡ spec.commit_write_shape (words_behind text.entry) }
{
    let (ts, value) = two(text).ok_or(TextFault::Form)?;
    let ts = stamp_parts(ts)?;
    Ok(Acted::CommitWrite(ts, value))
}

fn alone(text: Option<&[u8]>) -> Result<Stamped<'_>, TextFault>
    ensures { seen_stamp result ≡ spec.alone (words_behind text.entry) }
{
    let ts = one(text).ok_or(TextFault::Form)?;
    stamp_parts(ts)
}

fn shape_behind(word: ActWord, text: Option<&[u8]>) -> Result<Acted<'_>, TextFault>
    ensures { seen_act result ≡ spec.shape_behind word (words_behind text.entry) }
{
    match word {
        ActWord::Get => get_shape(text),
        ActWord::CheckRead => check_read_shape(text),
        ActWord::CheckWrite => check_write_shape(text),
        ActWord::CommitRead => Ok(Acted::CommitRead(alone(text)?)),
        ActWord::CommitWrite => commit_write_shape(text),
        ActWord::ReleaseRead => Ok(Acted::ReleaseRead(alone(text)?)),
        ActWord::ReleaseWrite => Ok(Acted::ReleaseWrite(alone(text)?)),
    }
}

/// The form of an act with its answer; else Form.
pub fn act_shape(text: Option<&[u8]>) -> Result<Acted<'_>, TextFault>
    ensures { seen_act result ≡ spec.act_shape (words_behind text.entry) }
{
    let (word, rest) = first(text).ok_or(TextFault::Form)?;
    let word = act_word(word).ok_or(TextFault::Form)?;
    shape_behind(word, rest)
}

fn stamp(parts: Stamped<'_>) -> Result<Stamp, TextFault>
    ensures { result ≡ spec.stamp_of (stamped parts.entry) }
{
    match (small_number(parts.time), small_number(parts.client)) {
        (Some(time), Some(client)) if time <= LAST_TIME && client <= 64 => Ok(Stamp {
            time,
            client: client as u32,
        }),
        _ => Err(number_fault(is_number(parts.time) && is_number(parts.client))),
    }
}

/// The value that the word is: a number, or in version 2 `none`.
pub fn value(version: u32, word: &[u8]) -> Result<Value, TextFault>
    ensures { result ≡ spec.value_of version word.now }
{
    if version == 2 && is_none(word) {
        return Ok(Value::Absent);
    }
    Ok(Value::Number(any_number(word)?))
}

fn is_none(word: &[u8]) -> bool
    ensures { result ≡ spec.is_none word.now }
{
    match word {
        b"none" => true,
        _ => false,
    }
}

fn read_reason(word: &[u8]) -> Result<Reason, TextFault>
    ensures { result ≡ found Unknown (named texts.reason_text (texts.check_reasons true) word.now) }
{
    match word {
        b"read-stale" => Ok(Reason::ReadStale),
        b"read-pending" => Ok(Reason::ReadPending),
        _ => Err(TextFault::Unknown),
    }
}

fn write_reason(word: &[u8]) -> Result<Reason, TextFault>
    ensures { result ≡ found Unknown (named texts.reason_text (texts.check_reasons false) word.now) }
{
    match word {
        b"write-late" => Ok(Reason::WriteLate),
        b"write-pending" => Ok(Reason::WritePending),
        _ => Err(TextFault::Unknown),
    }
}

fn read_answer(shape: Answered<'_>) -> Result<Answer, TextFault>
    ensures { result ≡ spec.answer_of true (answered shape.entry) }
{
    match shape {
        Answered::Okay => Ok(Answer::Okay),
        Answered::Refused(word, parts) => {
            let reason = read_reason(word)?;
            let stamp = stamp(parts)?;
            Ok(Answer::Refused { reason, stamp })
        }
    }
}

fn write_answer(shape: Answered<'_>) -> Result<Answer, TextFault>
    ensures { result ≡ spec.answer_of false (answered shape.entry) }
{
    match shape {
        Answered::Okay => Ok(Answer::Okay),
        Answered::Refused(word, parts) => {
            let reason = write_reason(word)?;
            let stamp = stamp(parts)?;
            Ok(Answer::Refused { reason, stamp })
        }
    }
}

/// The act and its answer, the first fault from the left.
pub fn turn(version: u32, shape: Acted<'_>) -> Result<(Act, Answer), TextFault>
    ensures { result ≡ spec.turn_of version (acted shape.entry) }
{
    match shape {
        Acted::Get(parts, word) => {
            let seen = stamp(parts)?;
            let value = value(version, word)?;
            Ok((
                Act::Get,
                Answer::Version {
                    version: seen,
                    value,
                },
            ))
        }
        Acted::CheckRead(parts, seen, answer) => {
            let ts = stamp(parts)?;
            let version = stamp(seen)?;
            Ok((Act::CheckRead { ts, version }, read_answer(answer)?))
        }
        Acted::CheckWrite(parts, answer) => {
            let ts = stamp(parts)?;
            Ok((Act::CheckWrite { ts }, write_answer(answer)?))
        }
        Acted::CommitRead(parts) => Ok((Act::CommitRead { ts: stamp(parts)? }, Answer::Done)),
        Acted::CommitWrite(parts, word) => {
            let ts = stamp(parts)?;
            let value = value(version, word)?;
            Ok((Act::CommitWrite { ts, value }, Answer::Done))
        }
        Acted::ReleaseRead(parts) => Ok((Act::ReleaseRead { ts: stamp(parts)? }, Answer::Done)),
        Acted::ReleaseWrite(parts) => Ok((Act::ReleaseWrite { ts: stamp(parts)? }, Answer::Done)),
    }
}
