//! The run of a script.
ghost use Rattle.std.specs.Prelude.{◌≡◌, ◌≤◌, ◌++◌, ◌∷◌, [], List, length, IfOk, OnOk};
ghost use Rattle.mk_lists.specs.Among.{Each};
ghost use Rattle.mk_history.specs.Histories.{History};
ghost use Rattle.mk_history.specs.Legality.{IsLegal};
ghost use Rattle.mk_history.specs.Shape.{IsRoundShape};
ghost use Rattle.mk_history.specs.Wholes.{last_state};
ghost use Rattle.mk_history.specs.declared.RoundLog.{RoundLog as Round};
ghost use Rattle.mk_kept.specs.Heads.{history};
ghost use Rattle.mk_driver.specs.Driven.{IsDriven};
ghost use Rattle.mk_shape.specs.AttemptCounts.{Counts, FewAttempts};
ghost use Rattle.mk_store.specs.Words.{WordsRead, FaultsAreCounted, word_faults};

use crate::globals::do_lines;
use crate::head::head_of;
use mk_faults::Rules;
use mk_io::EpochWord;
use mk_kept::{Globals, Head, RoundLog, Rounds, Run};
use mk_lock::Gate;
use mk_proc::Procs;
use mk_round::{Store, rounds_follow};
use mk_script::Script;
use mk_shape::{Attempts, round_fits};
use mk_txn::NoMemory;
use std::alloc::Global;
use std::sync::Wait;
use std::thread::Threads;

// No run of a script leaves the ranges of a run's numbers, and none begins too many attempts. That is not proved; so it is
// tested, and where it failed it would be told as want of memory.
fn keep_shape(head: &Head, attempts: &mut Attempts, round: &RoundLog) -> Result<(), NoMemory>
    ensures counts { (rounds : List Round) → Counts attempts.old rounds → Counts attempts.new (rounds ++ round.now ∷ []) }
    ensures shape { OnOk result (IsRoundShape (history head.now []) round.now) }
    ensures few { OnOk result ((run : History) (rounds : List Round) → Counts attempts.old rounds → length run.client_names ≤ 64 →
        Each (IsRoundShape run) (rounds ++ round.now ∷ []) → FewAttempts (rounds ++ round.now ∷ [])) }
{
    attempts.take(round);
    if round_fits(head, round) && attempts.are_few() {
        Ok(())
    } else {
        Err(NoMemory)
    }
}

/// Runs the script: of each round the columns work, one thread a column, and then its global lines are done. The run is legal,
/// and goes by the script. The words are those of seven replicas; behind the run each reads what its replica has, and 0 where
/// the script has no such replica.
pub fn run_script<W: EpochWord, G: Gate + Sync, R: Threads + Wait + Sync>(
    rt: &R,
    alloc: Global,
    script: &Script,
    words: &mut [W],
    procs: &Procs,
    gate: &G,
) -> Result<Run, NoMemory>
    requires words { length words.old ≡ 7 }
    requires fresh { Each (λ word. W.kept word ≡ 0) words.old }
    ensures legal { IfOk result (λ run. IsLegal run) }
    ensures driven { IfOk result (λ run. IsDriven script.now run) }
    ensures words { IfOk result (λ run. WordsRead W.kept (last_state run).epochs words.new) }
    ensures faults { IfOk result (λ run. FaultsAreCounted W.faults words.old words.new (λ r. word_faults r run.rounds)) }
{
    rounds_follow();
    let head = head_of(alloc, script)?;
    let rules = Rules::new(alloc, script)?;
    let mut store = Store::new(alloc, script, &head)?;
    let mut attempts = Attempts::new();
    let mut rounds = Vec::new(alloc);
    for lines in script.rounds.as_slice() {
        let mut round = store.work_round(rt, alloc, &rules, procs, gate)?;
        keep_shape(&head, &mut attempts, &round)?;
        let entries = do_lines(alloc, &head, &mut store, lines.globals.as_slice(), words)?;
        round.globals = Globals::of(entries);
        rounds.push(round)?;
    }
    Ok(Run::new(head, Rounds::of(rounds)))
}
