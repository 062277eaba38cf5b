//! The commits of a run in order of stamp, indexed.
ghost use Rattle.std.specs.Prelude.{◌≡◌, ◌++◌, List, IfOk, OnOk};
ghost use Rattle.mk_txn.specs.Transactions.{Transaction};
ghost use Rattle.mk_words.specs.Bases.{in_stamp_order};
ghost use Rattle.mk_model.specs.OneCopy.{HaveDistinctStamps};
ghost use Rattle.mk_run.specs.Attempts.{is_committed as says_commit};
ghost use Rattle.mk_report.specs.Commits.{commit_in, commits_in};
ghost use Rattle.mk_past.specs.Orders.{txns_told};
ghost use Rattle.mk_past.specs.Indexes.{IsPastOf};

use crate::index::Past;
use mk_history::State;
use mk_run::AttemptLine;
use mk_txn::{NoMemory, Outcome, Stamp};
use std::alloc::Global;
use std::collections::BTreeMap;

// Whether a commit was learned.
fn is_committed(state: State) -> bool
    ensures { result ≡ says_commit state }
{
    match state {
        State::Learned { outcome, path: _ } => matches!(outcome, Outcome::Commit),
        State::Left(_) => false,
    }
}

// One more line in the table, where it says commit.
fn put_commit<'a>(
    table: &mut BTreeMap<Stamp, &'a AttemptLine>,
    line: &'a AttemptLine,
) -> Result<(), NoMemory>
    ensures { OnOk result ((txns : List Transaction) → HaveDistinctStamps (commit_in line.now ++ txns) → txns_told table.old.entries ≡ in_stamp_order txns →
        txns_told table.new.entries ≡ in_stamp_order (commit_in line.now ++ txns)) }
{
    match line.stamp {
        Some(stamp) if is_committed(line.state) => {
            table.insert(stamp, line)?;
        }
        _ => {}
    }
    Ok(())
}

// The lines that say commit, by their stamps.
fn by_stamp<'a>(
    alloc: Global,
    lines: &'a [AttemptLine],
) -> Result<BTreeMap<Stamp, &'a AttemptLine>, NoMemory>
    requires { HaveDistinctStamps (commits_in lines.now) }
    ensures { IfOk result (λ table. txns_told table.entries ≡ in_stamp_order (commits_in lines.now)) }
{
    let mut table = BTreeMap::new(alloc);
    'each: for place in (0..lines.len()).rev() {
        put_commit(&mut table, &lines[place])?;
    }
    Ok(table)
}

/// The index of the lines that say commit.
pub(crate) fn indexed(alloc: Global, lines: &[AttemptLine]) -> Result<Past, NoMemory>
    requires { HaveDistinctStamps (commits_in lines.now) }
    ensures { IfOk result (λ past. IsPastOf past (commits_in lines.now)) }
{
    let table = by_stamp(alloc, lines)?;
    let mut past = Past::empty(alloc);
    'each: for (stamp, line) in &table {
        past.push(*stamp, line.writes.as_slice())?;
    }
    Ok(past)
}
