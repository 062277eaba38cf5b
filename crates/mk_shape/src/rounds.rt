//! The shape of a round in a run of a head.
ghost use Rattle.std.specs.Prelude.{◌≡◌, ◌==◌, ◌&&◌, ◌↔◌, IsTrue, List, [], length};
ghost use Rattle.std.specs.List.{list_all};
ghost use Rattle.mk_history.specs.declared.RoundLog.{RoundLog as Round};
ghost use Rattle.mk_history.specs.Shape as spec;
ghost use Rattle.mk_kept.specs.Heads.{history};
ghost use Rattle.mk_quorum.specs.Sizes.{members as spec_members};
ghost use Rattle.mk_shape.specs.RoundTests.{round_tests};

use crate::lines::global_fits;
use crate::steps::{entry_fits, step_fits};
use mk_kept::{Head, JournalEntry, RoundLog, Step};

fn log_fits(head: &Head, log: &[Step]) -> bool
    ensures { result ≡ list_all (spec.step_fits (history head.now [])) log.now }
{
    log.iter().all(|step| step_fits(head, step))
}

fn logs_fit(head: &Head, logs: &[Vec<Step>]) -> bool
    ensures { result ≡ list_all (λ log. list_all (spec.step_fits (history head.now [])) log.items) logs.now }
{
    logs.iter().all(|log| log_fits(head, log.as_slice()))
}

/// Whether the numbers of every step are in range.
fn steps_fit(head: &Head, round: &RoundLog) -> bool
    ensures { result ≡ list_all (list_all (spec.step_fits (history head.now []))) round.now.logs }
{
    logs_fit(head, round.logs.as_slice())
}

fn journal_fits(head: &Head, entries: &[JournalEntry]) -> bool
    ensures { result ≡ list_all (spec.entry_fits (history head.now [])) entries.now }
{
    entries.iter().all(|entry| entry_fits(head, entry))
}

fn keys_fit(head: &Head, keys: &[Vec<JournalEntry>]) -> bool
    ensures { result ≡ list_all (λ key. list_all (spec.entry_fits (history head.now [])) key.items) keys.now }
{
    keys.iter().all(|key| journal_fits(head, key.as_slice()))
}

fn replicas_fit(head: &Head, replicas: &[Vec<Vec<JournalEntry>>]) -> bool
    ensures { result ≡ list_all (λ keys. list_all (λ key. list_all (spec.entry_fits (history head.now [])) key.items) keys.items) replicas.now }
{
    replicas.iter().all(|keys| keys_fit(head, keys.as_slice()))
}

/// Whether the numbers of every journal entry are in range.
fn entries_fit(head: &Head, round: &RoundLog) -> bool
    ensures { result ≡ list_all (list_all (list_all (spec.entry_fits (history head.now [])))) round.now.journals }
{
    replicas_fit(head, round.journals.as_slice())
}

/// Whether the numbers of every global line are in range.
fn globals_fit(head: &Head, round: &RoundLog) -> bool
    ensures { result ≡ list_all (spec.global_fits (history head.now [])) round.now.globals }
{
    round
        .globals
        .as_slice()
        .iter()
        .all(|entry| global_fits(head, entry))
}

/// Whether there is a log for each column.
fn has_logs(head: &Head, round: &RoundLog) -> bool
    ensures { result ≡ (length round.now.logs == head.now.columns) }
{
    round.logs.as_slice().len() == head.columns as usize
}

fn is_so_long(keys: u32, journals: &[Vec<JournalEntry>]) -> bool
    ensures { result ≡ (length journals.now == keys) }
{
    journals.len() == keys as usize
}

fn are_so_long(keys: u32, replicas: &[Vec<Vec<JournalEntry>>]) -> bool
    ensures { result ≡ list_all (λ row. length row.items == keys) replicas.now }
{
    replicas.iter().all(|row| is_so_long(keys, row.as_slice()))
}

fn have_journals(members: u32, keys: u32, replicas: &[Vec<Vec<JournalEntry>>]) -> bool
    ensures { result ≡ ((length replicas.now == members) && list_all (λ row. length row.items == keys) replicas.now) }
{
    replicas.len() == members as usize && are_so_long(keys, replicas)
}

/// Whether there is a journal for each replica and key.
fn has_journals(head: &Head, round: &RoundLog) -> bool
    ensures { result ≡
        ((length round.now.journals == spec_members head.now.size)
        && list_all (λ keys. length keys == length head.now.key_names.names) round.now.journals) }
{
    let members = head.size.n();
    let keys = head.key_names.len();
    have_journals(members, keys, round.journals.as_slice())
}

fn passes_tests(head: &Head, round: &RoundLog) -> bool
    ensures { result ≡ round_tests (history head.now []) round.now }
{
    has_logs(head, round)
        && has_journals(head, round)
        && steps_fit(head, round)
        && entries_fit(head, round)
        && globals_fit(head, round)
}

/// Whether the round has the shape of a round in a run of the head: a log for each column, a journal for each replica and
/// key, and every number in range. It looks once at each step and journal entry.
pub fn round_fits(head: &Head, round: &RoundLog) -> bool
    ensures { (rounds : List Round) → (IsTrue result ↔ spec.IsRoundShape (history head.now rounds) round.now) }
{
    passes_tests(head, round)
}
