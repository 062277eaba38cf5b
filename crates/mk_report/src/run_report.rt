//! The report, the summary and the JSON of a run.
ghost use Rattle.std.specs.Prelude.{◌≡◌, ◌++◌, IfOk, OnOk};
ghost use Rattle.mk_lists.specs.Among.{Each};
ghost use Rattle.mk_txn.specs.Transactions.{IsTransaction};
ghost use Rattle.mk_model.specs.OneCopy.{HaveDistinctStamps, one_copy};
ghost use Rattle.mk_history.specs.Legality.{IsLegal};
ghost use Rattle.mk_run.specs.Attempts.{outcomes_of};
ghost use Rattle.mk_report.specs.Commits.{commit_in, commits_in};
ghost use Rattle.mk_report.specs.RunReports.{json_of, report_of, summary_of};

use crate::laws::{commits_are_distinct, commits_are_transactions};
use crate::report::{is_committed, put_report, put_summary};
use crate::whole_json::json_bytes;
use mk_replay::{OneCopy, replay};
use mk_run::{AttemptLine, Run};
use mk_txn::{NoMemory, Stamp, Txn, TxnError};
use std::alloc::Global;

// The transaction of a line with this stamp.
fn copy_txn(alloc: Global, line: &AttemptLine, stamp: Stamp) -> Result<Txn, NoMemory>
    requires { IsTransaction (record { id = line.now.id; stamp = stamp; reads = line.now.reads; writes = line.now.writes }) }
    ensures { IfOk result (λ txn. txn ≡ record { id = line.now.id; stamp = stamp; reads = line.now.reads; writes = line.now.writes }) }
{
    let reads = line.reads.as_slice();
    let writes = line.writes.as_slice();
    match Txn::new(alloc, line.id, stamp, reads, writes) {
        Ok(txn) => Ok(txn),
        Err(TxnError::NoMemory) => Err(NoMemory),
        Err(TxnError::TooMany) => unreachable!(),
        Err(TxnError::Repeated(_)) => unreachable!(),
        Err(TxnError::NotAbove(_)) => unreachable!(),
    }
}

#[tactic(auto, using(crate::proofs::WholeCommits::told_whole))]
fn push_commit(alloc: Global, txns: &mut Vec<Txn>, line: &AttemptLine) -> Result<(), NoMemory>
    requires { Each IsTransaction (commit_in line.now) }
    ensures { OnOk result (txns.new.items ≡ txns.old.items ++ commit_in line.now) }
{
    match line.stamp {
        Some(stamp) if is_committed(line.state) => txns.push(copy_txn(alloc, line, stamp)?)?,
        _ => {}
    }
    Ok(())
}

// The transactions of the lines that say commit.
#[tactic(auto, using(crate::proofs::WholeCommits::told_at))]
fn commits(alloc: Global, lines: &[AttemptLine]) -> Result<Vec<Txn>, NoMemory>
    requires { Each IsTransaction (commits_in lines.now) }
    ensures { IfOk result (λ txns. txns.items ≡ commits_in lines.now) }
{
    let mut txns = Vec::new(alloc);
    'each: for line in lines {
        push_commit(alloc, &mut txns, line)?;
    }
    Ok(txns)
}

/// What the commits of these lines leave on one copy.
pub fn copy_of(alloc: Global, lines: &[AttemptLine]) -> Result<OneCopy, NoMemory>
    requires whole { Each IsTransaction (commits_in lines.now) }
    requires distinct { HaveDistinctStamps (commits_in lines.now) }
    ensures { IfOk result (λ copy. copy ≡ one_copy (commits_in lines.now)) }
{
    let txns = commits(alloc, lines)?;
    replay(alloc, &txns)
}

/// The report of a run whose outcomes these lines are.
pub fn report_text(alloc: Global, run: &Run, lines: &[AttemptLine]) -> Result<Vec<u8>, NoMemory>
    requires legal { IsLegal run.now }
    requires lines { lines.now ≡ outcomes_of run.now }
    ensures { IfOk result (λ text. text.items ≡ report_of run.now) }
{
    commits_are_distinct();
    commits_are_transactions();
    let head = run.head();
    let copy = copy_of(alloc, lines)?;
    let mut out = String::new(alloc);
    put_report(
        &mut out,
        alloc,
        &head.client_names,
        &head.key_names,
        lines,
        run.rounds(),
        &copy,
    )?;
    Ok(out.into_bytes())
}

/// The last line of the report of a run whose outcomes these lines are, and the count and the sum of its store lines.
pub fn summary_text(alloc: Global, run: &Run, lines: &[AttemptLine]) -> Result<Vec<u8>, NoMemory>
    requires legal { IsLegal run.now }
    requires lines { lines.now ≡ outcomes_of run.now }
    ensures { IfOk result (λ text. text.items ≡ summary_of run.now) }
{
    commits_are_distinct();
    commits_are_transactions();
    let head = run.head();
    let copy = copy_of(alloc, lines)?;
    let mut out = String::new(alloc);
    put_summary(&mut out, alloc, &head.key_names, lines, &copy)?;
    Ok(out.into_bytes())
}

/// The JSON of a run whose outcomes these lines are.
pub fn json_text(alloc: Global, run: &Run, lines: &[AttemptLine]) -> Result<Vec<u8>, NoMemory>
    requires legal { IsLegal run.now }
    requires lines { lines.now ≡ outcomes_of run.now }
    ensures { IfOk result (λ text. text.items ≡ json_of run.now) }
{
    commits_are_distinct();
    commits_are_transactions();
    let head = run.head();
    let copy = copy_of(alloc, lines)?;
    json_bytes(
        alloc,
        &head.client_names,
        &head.key_names,
        lines,
        run.rounds(),
        &copy,
    )
}
