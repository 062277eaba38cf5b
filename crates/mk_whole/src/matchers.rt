//! A journal's entries compared with each column's key steps, in one walk.
ghost use Rattle.std.specs.Prelude.{◌≡◌, ◌≤◌, length, map, slice_get, [], IfOk, OnOk};
ghost use Rattle.mk_words.specs.Acts.{same_act};
ghost use Rattle.mk_verdict.specs.Sameness.{same_answer, same_turn};
ghost use Rattle.mk_whole.specs.Matches.{turn_of};
ghost use Rattle.mk_whole.specs.Matchers.{after_entries, apart_at_end, changed_at, compared, flaw_at_end as spec_flaw, matchers_of as spec_matchers, new_matcher, with_entry, with_step};

use crate::{Flaw, JournalEntry, Place, PlacedFlaw};
use mk_txn::NoMemory;
use mk_words::{Act, Answer};
use std::alloc::Global;
use std::marker::Model;

/// A column's key steps at a key, and how far its entries in the journal are the same.
#[derive(Drop)]
pub(crate) struct Matcher {
    turns: Vec<JournalEntry>,
    same: usize,
    apart: Option<u64>,
}

impl Model for Matcher {
    ghost use Rattle.mk_whole.specs.Matchers.{MatcherView};

    ghost Value = { MatcherView };

    ghost view = { λ matcher. record { turns = matcher.turns.items; same = matcher.same; apart = matcher.apart } };
}

fn is_act(a: Act, b: Act) -> bool
    ensures { result ≡ same_act a b }
{
    a == b
}

fn is_answer(a: Answer, b: Answer) -> bool
    ensures { result ≡ same_answer a b }
{
    a == b
}

fn is_turn(a: &JournalEntry, b: &JournalEntry) -> bool
    ensures { result ≡ same_turn (turn_of a.now) (turn_of b.now) }
{
    is_act(a.act, b.act) && is_answer(a.answer, b.answer)
}

impl Matcher {
    fn new(alloc: Global) -> Matcher
        ensures { result ≡ new_matcher [] }
    {
        Matcher {
            turns: Vec::new(alloc),
            same: 0,
            apart: None,
        }
    }

    // One key step more.
    fn add(&mut self, turn: &JournalEntry) -> Result<(), NoMemory>
        ensures { OnOk result (self.new ≡ with_step turn.now self.old) }
    {
        self.turns.push(*turn)?;
        Ok(())
    }

    // The column's next entry is compared with its next key step.
    fn compare(&mut self, entry: &JournalEntry)
        ensures { self.new ≡ compared entry.now self.old (slice_get self.old.turns self.old.same) }
    {
        match self.turns.get(self.same) {
            Some(turn) => {
                if is_turn(entry, turn) {
                    self.same += 1;
                } else {
                    self.apart = Some(self.same as u64 + 1);
                }
            }
            None => self.apart = Some(self.turns.len() as u64 + 1),
        }
    }

    // The same up to the first difference.
    fn take(&mut self, entry: &JournalEntry)
        ensures { self.new ≡ with_entry entry.now self.old }
    {
        if self.apart.is_none() {
            self.compare(entry);
        }
    }

    // The first place at which entries and key steps differ, once there are no more entries.
    fn end(&self) -> Option<u64>
        ensures { result ≡ apart_at_end self.now }
    {
        if self.apart.is_some() {
            self.apart
        } else if self.same < self.turns.len() {
            Some(self.same as u64 + 1)
        } else {
            None
        }
    }
}

fn new_matchers(alloc: Global, columns: u32) -> Result<Vec<Matcher>, NoMemory>
    ensures { IfOk result (λ matchers. matchers.items ≡ spec_matchers [] 0 columns) }
{
    let mut matchers = Vec::new(alloc);
    for _column in 0..columns {
        matchers.push(Matcher::new(alloc))?;
    }
    Ok(matchers)
}

// A key step is given to its column's matcher.
fn add_turn(matchers: &mut Vec<Matcher>, turn: &JournalEntry) -> Result<(), NoMemory>
    ensures { OnOk result (matchers.new.items ≡ changed_at (with_step turn.now) turn.now.seat matchers.old.items) }
{
    let seat = turn.seat as usize;
    if seat < matchers.len() {
        matchers[seat].add(turn)?;
    }
    Ok(())
}

/// The columns' matchers at a key that has these key steps.
pub(crate) fn matchers_of(
    alloc: Global,
    columns: u32,
    turns: &[JournalEntry],
) -> Result<Vec<Matcher>, NoMemory>
    ensures { IfOk result (λ matchers. matchers.items ≡ spec_matchers turns.now 0 columns) }
{
    let mut matchers = new_matchers(alloc, columns)?;
    for turn in turns {
        add_turn(&mut matchers, turn)?;
    }
    Ok(matchers)
}

// An entry is given to its column's matcher.
fn take_entry(matchers: &mut Vec<Matcher>, entry: &JournalEntry)
    ensures { matchers.new.items ≡ changed_at (with_entry entry.now) entry.now.seat matchers.old.items }
{
    let seat = entry.seat as usize;
    if seat < matchers.len() {
        matchers[seat].take(entry);
    }
}

/// Each entry of the journal is given to its column's matcher.
pub(crate) fn take_entries(matchers: &mut Vec<Matcher>, journal: &[JournalEntry])
    ensures { matchers.new.items ≡ after_entries matchers.old.items journal.now }
{
    for entry in journal {
        take_entry(matchers, entry);
    }
}

/// The flaw of the first column whose entries and key steps differ.
pub(crate) fn flaw_at_end(replica: u32, key: u32, matchers: &[Matcher]) -> Option<PlacedFlaw>
    requires { length matchers.now ≤ 4294967295 }
    ensures { result ≡ spec_flaw replica key 0 matchers.now }
{
    for (column, matcher) in matchers.iter().enumerate() {
        if let Some(entry) = matcher.end() {
            let place = Place::Match {
                replica,
                key,
                column: column as u32,
                entry,
            };
            return Some(PlacedFlaw {
                place,
                why: Flaw::Unmatched,
            });
        }
    }
    None
}
