//! Texts that are read.
use crate::word::TextWord;
use mk_script::parse;
use mk_text::{cut, next_word};
use mk_trace::{TraceReader, read_trace};
use std::alloc::Global;

/// The bytes of a piece.
const PIECE: usize = 65_536;

/// How many words the line has.
fn words_of(line: &[u8]) -> usize {
    let mut words: usize = 0;
    let mut left = Some(line);
    for _ in 0..u64::MAX {
        let Some(behind) = left else {
            break;
        };
        let (_word, rest) = next_word(behind);
        words = words.saturating_add(1);
        left = rest;
    }
    words
}

/// How many words the lines of the text have.
fn split(bytes: &[u8]) -> usize {
    let mut words: usize = 0;
    let mut left = bytes;
    for _ in 0..u64::MAX {
        let Some((line, rest)) = cut(b'\n', left) else {
            break;
        };
        words = words.saturating_add(words_of(line));
        left = rest;
    }
    words
}

/// How many rounds the trace has, which is read in pieces.
fn feed(alloc: Global, bytes: &[u8]) -> Option<usize> {
    let mut rounds: usize = 0;
    let mut reader = TraceReader::new(alloc);
    for piece in bytes.chunks(PIECE) {
        reader.feed(piece).ok()?;
        if reader.take_round().is_some() {
            rounds = rounds.saturating_add(1);
        }
    }
    reader.finish().ok()?;
    Some(rounds)
}

fn once(alloc: Global, word: TextWord, bytes: &[u8]) -> Option<usize> {
    match word {
        TextWord::Split => Some(split(bytes)),
        TextWord::Parse => Some(parse(alloc, bytes).ok()?.rounds.as_slice().len()),
        TextWord::Read => Some(read_trace(alloc, bytes).ok()?.rounds().len()),
        TextWord::Feed => feed(alloc, bytes),
    }
}

/// Does so many times to the text what the word says.
pub fn repeat(alloc: Global, word: TextWord, times: u32, bytes: &[u8]) -> Option<usize> {
    let mut count = 0;
    for _ in 0..times {
        count = once(alloc, word, bytes)?;
    }
    Some(count)
}
