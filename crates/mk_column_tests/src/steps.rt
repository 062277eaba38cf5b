//! Steps from text: a word, and the numbers behind it. A number that is not there is 0.
use mk_column::{KeyCall, Step, Writes};
use mk_txn::{Reason, Stamp, TxnId, Value, WriteItem};
use mk_words::{Act, Answer};
use std::alloc::Global;
use std::str::SplitAsciiWhitespace;

/// The words of a line that are left.
pub(crate) type Words<'a> = SplitAsciiWhitespace<'a>;

fn long(words: &mut Words<'_>) -> u64 {
    match words.next() {
        Some(word) => word.parse().unwrap_or(0),
        None => 0,
    }
}

fn number(words: &mut Words<'_>) -> u32 {
    match words.next() {
        Some(word) => word.parse().unwrap_or(0),
        None => 0,
    }
}

// A write of 5 to each key that is named.
fn writes(alloc: Global, words: &mut Words<'_>) -> Option<Writes> {
    let mut items = Vec::new(alloc);
    for word in words {
        let key = word.parse().unwrap_or(0);
        let value = Value::Number(5);
        items.push(WriteItem { key, value }).ok()?;
    }
    Some(Writes::of(items))
}

/// Why a late write is refused.
pub(crate) const LATE: Stamp = Stamp {
    time: 11,
    client: 2,
};

const SEVEN: Value = Value::Number(7);

const FIVE: Value = Value::Number(5);

const REFUSED: Answer = Answer::Refused {
    reason: Reason::WriteLate,
    stamp: LATE,
};

// The act that the word names, and its answer, where client 1 writes at this time, and client 2 wrote then.
fn act_of(word: &str, time: u64) -> Option<(Act, Answer)> {
    let ts = Stamp { time, client: 1 };
    let version = Stamp { time, client: 2 };
    match word {
        "get" => Some((
            Act::Get,
            Answer::Version {
                version,
                value: SEVEN,
            },
        )),
        "misfit" => Some((Act::Get, Answer::Done)),
        "check" => Some((Act::CheckWrite { ts }, Answer::Okay)),
        "late" => Some((Act::CheckWrite { ts }, REFUSED)),
        "release" => Some((Act::ReleaseWrite { ts }, Answer::Done)),
        "commit" => Some((Act::CommitWrite { ts, value: FIVE }, Answer::Done)),
        _ => None,
    }
}

// A key step: its word, the time, the replica, the key.
fn key_step(word: &str, words: &mut Words<'_>) -> Option<Step> {
    let (act, answer) = act_of(word, long(words))?;
    let replica = number(words);
    let key = number(words);
    let call = KeyCall { replica, key, act };
    Some(Step::Key { call, answer })
}

// A step that names the attempt, without more numbers.
fn attempt_step(id: TxnId, word: &str) -> Option<Step> {
    match word {
        "validate" => Some(Step::Validate { id }),
        "rule" => Some(Step::Rule { id }),
        "again" => Some(Step::Again { id }),
        "stop" => Some(Step::Stop { id }),
        _ => None,
    }
}

/// The step of this word and these numbers. One that names an attempt names this one.
pub(crate) fn step_of(alloc: Global, id: TxnId, word: &str, words: &mut Words<'_>) -> Option<Step> {
    Some(match word {
        "begin" => Step::Begin {
            client: number(words),
            replica: number(words),
        },
        "unread" => Step::Unread {
            client: number(words),
        },
        "read" => Step::Read {
            id,
            key: number(words),
        },
        "stamp" => Step::Stamp {
            id,
            clock: long(words),
            writes: writes(alloc, words)?,
        },
        "take" => Step::Take {
            number: long(words),
        },
        "takeover" => Step::Takeover {
            id,
            view: number(words),
        },
        "pick" => Step::Pick {
            id,
            view: number(words),
        },
        _ => return attempt_step(id, word).or(key_step(word, words)),
    })
}
