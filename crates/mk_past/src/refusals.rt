//! The first check of an attempt that was refused for a reason.
ghost use Rattle.std.specs.Prelude.{◌≡◌, ◌≤◌, length};
ghost use Rattle.mk_words.specs.Acts.{is_check_of as checks};
ghost use Rattle.mk_history.specs.Histories.{journal_of};
ghost use Rattle.mk_past.specs.Refusals as spec;

use mk_history::RoundLog;
use mk_txn::{Conflict, Stamp, same_stamp};
use mk_words::{Act, Answer, JournalEntry};

/// Where a check stands in a run: its round, and the entry of its key's journal at a replica. Rounds and entries count
/// from 1, replicas from 0.
#[derive(Clone, Copy)]
pub(crate) struct CheckPlace {
    pub(crate) round: u32,
    pub(crate) replica: u32,
    pub(crate) entry: u64,
}

fn is_check_of(act: Act, stamp: Stamp) -> bool
    ensures { result ≡ checks stamp act }
{
    match act {
        Act::CheckRead { ts, version: _ } => same_stamp(ts, stamp),
        Act::CheckWrite { ts } => same_stamp(ts, stamp),
        _ => false,
    }
}

fn is_refused_by(answer: Answer, conflict: Conflict) -> bool
    ensures { result ≡ spec.is_refused_by conflict answer }
{
    match answer {
        Answer::Refused { reason, stamp } => {
            reason == conflict.reason && same_stamp(stamp, conflict.stamp)
        }
        _ => false,
    }
}

fn is_refusal(entry: &JournalEntry, stamp: Stamp, conflict: Conflict) -> bool
    ensures { result ≡ spec.is_refusal stamp conflict entry.now }
{
    is_check_of(entry.act, stamp) && is_refused_by(entry.answer, conflict)
}

// The number of the first entry that refuses.
fn entry_in(
    journal: &[JournalEntry],
    round: u32,
    replica: u32,
    stamp: Stamp,
    conflict: Conflict,
) -> Option<CheckPlace>
    ensures { result ≡ spec.refusal_in_journal stamp conflict round replica 1 journal.now }
{
    'each: for (place, entry) in journal.iter().enumerate() {
        if is_refusal(entry, stamp, conflict) {
            return Some(CheckPlace {
                round,
                replica,
                entry: place as u64 + 1,
            });
        }
    }
    None
}

// The journal of a key at a replica.
fn journal_at(round: &RoundLog, replica: u32, key: u32) -> &[JournalEntry]
    ensures { result.now ≡ journal_of round.now replica key }
{
    match round.journals.as_slice().get(replica as usize) {
        Some(keys) => match keys.get(key as usize) {
            Some(journal) => journal.as_slice(),
            None => &[],
        },
        None => &[],
    }
}

// The first of a round.
fn replica_in(
    round: &RoundLog,
    number: u32,
    replicas: u32,
    stamp: Stamp,
    conflict: Conflict,
) -> Option<CheckPlace>
    ensures { result ≡ spec.refusal_in_round stamp conflict replicas number round.now }
{
    'each: for replica in 0..replicas {
        let journal = journal_at(round, replica, conflict.key);
        let place = entry_in(journal, number, replica, stamp, conflict);
        if place.is_some() {
            return place;
        }
    }
    None
}

/// The first check of this stamp that was refused so, in order of round, replica and entry.
pub(crate) fn first_refusal(
    rounds: &[RoundLog],
    replicas: u32,
    stamp: Stamp,
    conflict: Conflict,
) -> Option<CheckPlace>
    requires { length rounds.now ≤ 16 }
    ensures { result ≡ spec.refusal_in_rounds stamp conflict replicas 1 rounds.now }
{
    'each: for (index, round) in rounds.iter().enumerate() {
        let place = replica_in(round, index as u32 + 1, replicas, stamp, conflict);
        if place.is_some() {
            return place;
        }
    }
    None
}
