//! What a merge adds to the base of the promises that count.
ghost use Rattle.std.specs.Prelude.{◌≡◌, map, filter, is_none, nat_le, ◌&&◌, IfOk};
ghost use Rattle.mk_txn.specs.MarkMaps.{IsMarkMap};
ghost use Rattle.mk_txn.specs.Outcomes.{is_commit};
ghost use Rattle.mk_txn.specs.Transactions.{AreCoherent};
ghost use Rattle.mk_quorum.specs.Sizes.{hint_of};
ghost use Rattle.mk_quorum.specs.Slots.{passes};
ghost use Rattle.mk_words.specs.Bases.{fated as is_fated};
ghost use Rattle.mk_words.specs.Merging.{ok_reports as count_of_oks, taken, fate_by};
ghost use Rattle.mk_merge_laws.specs.Adding.{entered_txns, entered_fate as is_entered_fate, additions, raised_marks};
ghost use Rattle.mk_merge.specs.Keepings.{handed_in};

use crate::clashing::Commits;
use crate::handing::{Handed, hand_in};
use crate::ordering::{in_stamp_order, new_txns};
use crate::reporting::{entered_fate, ok_reports};
use crate::{Addition, Fated, Promise};
use mk_quorum::Size;
use mk_trim::Kept;
use mk_txn::{Cause, Marks, NoMemory, Outcome, Txn, TxnId};
use std::alloc::Global;

// Whether the outcome that entries settle is a commit.
fn is_entered_commit(promises: &[Handed], size: Size, id: TxnId) -> bool
    ensures { result ≡ passes is_commit (is_entered_fate size promises.now id) }
{
    entered_fate(promises, size, id) == Some(Outcome::Commit)
}

// Whether entries settle no outcome, and there is a hint of Ok votes.
fn is_candidate(promises: &[Handed], size: Size, id: TxnId) -> bool
    ensures { result ≡ (is_none (is_entered_fate size promises.now id) && nat_le (hint_of size) (count_of_oks size promises.now id)) }
{
    entered_fate(promises, size, id).is_none() && size.hint() <= ok_reports(promises, size, id)
}

// The commits that entries settle.
fn entered_commits<'a>(
    alloc: Global,
    promises: &[Handed],
    size: Size,
    txns: &[&'a Txn],
) -> Result<Commits<'a>, NoMemory>
    ensures { IfOk result (λ found. found ≡ filter (λ txn. passes is_commit (is_entered_fate size promises.now txn.id)) (map (λ t. t.now) txns.now)) }
{
    let mut found = Commits::new(alloc);
    for txn in txns {
        if is_entered_commit(promises, size, txn.id()) {
            found = found.with(alloc, *txn)?;
        }
    }
    Ok(found)
}

// The candidates, in order of their numbers.
fn candidates<'a>(
    alloc: Global,
    promises: &[Handed],
    size: Size,
    txns: &[&'a Txn],
) -> Result<Vec<&'a Txn>, NoMemory>
    ensures { IfOk result (λ found. map (λ t. t.now) found.items ≡ filter (λ txn. is_none (is_entered_fate size promises.now txn.id) && nat_le (hint_of size) (count_of_oks size promises.now txn.id)) (map (λ t. t.now) txns.now)) }
{
    let mut found = Vec::new(alloc);
    for txn in txns {
        if is_candidate(promises, size, txn.id()) {
            found.push(*txn)?;
        }
    }
    Ok(found)
}

// Each candidate in turn commits, unless it conflicts with a commit taken so far.
fn take<'a>(
    alloc: Global,
    entered: Commits<'a>,
    candidates: &[&'a Txn],
) -> Result<Commits<'a>, NoMemory>
    ensures { IfOk result (λ commits. commits ≡ taken entered.entry (map (λ t. t.now) candidates.now)) }
{
    let mut commits = entered;
    for txn in candidates {
        if !commits.conflicts(txn) {
            commits = commits.with(alloc, *txn)?;
        }
    }
    Ok(commits)
}

// The outcome that entries settle, else a commit where it was taken, else an abort by this epoch.
fn fate(epoch: u32, txn: &Txn, commits: &Commits, settled: Option<Outcome>) -> Outcome
    ensures { result ≡ fate_by epoch txn.now commits.now settled }
{
    match settled {
        Some(outcome) => outcome,
        None => {
            if commits.has(txn.id()) {
                Outcome::Commit
            } else {
                Outcome::Abort(Cause::Epoch(epoch))
            }
        }
    }
}

// Each of these transactions with its outcome.
fn fates(
    alloc: Global,
    promises: &[Handed],
    size: Size,
    epoch: u32,
    txns: &[&Txn],
    commits: &Commits,
) -> Result<Vec<Fated>, NoMemory>
    ensures { IfOk result (λ list. list.items ≡ map (λ txn. is_fated txn (fate_by epoch txn commits.now (is_entered_fate size promises.now txn.id))) (map (λ t. t.now) txns.now)) }
{
    let mut list = Vec::new(alloc);
    for txn in txns {
        let outcome = fate(epoch, txn, commits, entered_fate(promises, size, txn.id()));
        list.push(Fated {
            txn: txn.copy()?,
            outcome,
        })?;
    }
    Ok(list)
}

// Every new attempt with its outcome.
fn new_fates(
    alloc: Global,
    size: Size,
    epoch: u32,
    kept: &Kept,
    promises: &[Handed],
) -> Result<Vec<Fated>, NoMemory>
    requires { AreCoherent (entered_txns promises.now) }
    ensures { IfOk result (λ list. list.items ≡ additions size epoch kept.now promises.now) }
{
    let txns = new_txns(alloc, kept, promises)?;
    let entered = entered_commits(alloc, promises, size, txns.as_slice())?;
    let waiting = candidates(alloc, promises, size, txns.as_slice())?;
    let waiting = in_stamp_order(alloc, waiting.as_slice())?;
    let commits = take(alloc, entered, waiting.as_slice())?;
    fates(alloc, promises, size, epoch, txns.as_slice(), &commits)
}

// Of each client the greatest mark.
fn new_marks(kept: &Kept, promises: &[Handed]) -> Result<Marks, NoMemory>
    ensures value { IfOk result (λ marks. marks ≡ raised_marks kept.now.marks promises.now) }
    ensures fits { IfOk result IsMarkMap }
{
    let mut marks = kept.marks().copy()?;
    for promise in promises {
        marks.join(promise.marks())?;
    }
    Ok(marks)
}

/// What a merge adds to the base of the promises that count, of which this is kept: every attempt of which nothing is
/// kept, with its outcome, in order of number, and of each client the greatest mark.
pub fn added<B>(
    alloc: Global,
    size: Size,
    epoch: u32,
    kept: &Kept,
    promises: &[&Promise<B>],
) -> Result<Addition, NoMemory>
    requires { AreCoherent (entered_txns (map (λ p. handed_in p.now) promises.now)) }
    ensures list { IfOk result (λ made. made.list.items ≡ additions size epoch kept.now (map (λ p. handed_in p.now) promises.now)) }
    ensures marks { IfOk result (λ made. made.marks ≡ raised_marks kept.now.marks (map (λ p. handed_in p.now) promises.now)) }
    ensures fits { IfOk result (λ made. IsMarkMap made.marks) }
{
    let handed = hand_in(alloc, promises)?;
    let list = new_fates(alloc, size, epoch, kept, handed.as_slice())?;
    let marks = new_marks(kept, handed.as_slice())?;
    Ok(Addition { list, marks })
}
