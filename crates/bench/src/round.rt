//! The first round of a script in a store.
ghost use Rattle.std.specs.Prelude.{[], IfOk};
ghost use Rattle.mk_script.specs.Whole.{IsWhole};
ghost use Rattle.mk_round.specs.Stores.{IsBetween, MayWork};

use mk_faults::Rules;
use mk_history::RoundLog;
use mk_lock::NoGate;
use mk_proc::Procs;
use mk_round::Store;
use mk_script::Script;
use mk_store::head_of;
use mk_txn::NoMemory;
use std::alloc::Global;
use std::sync::Wait;
use std::thread::Threads;

/// Every script keeps the limits of scripts. The function does nothing.
fn keeps_limits(script: &Script)
    ensures { IsWhole script.now }
{
    let _size = script.size;
}

/// How many steps the columns did.
fn count_steps(round: &RoundLog) -> usize {
    let mut count: usize = 0;
    for log in round.logs.as_slice() {
        count = count.saturating_add(log.len());
    }
    count
}

/// The store before the first round of the script.
fn first_store(alloc: Global, script: &Script) -> Result<Store, NoMemory>
    ensures { IfOk result (λ store. IsBetween script.now [] store) }
{
    let head = head_of(alloc, script)?;
    Store::new(alloc, script, &head)
}

/// The first round of the script, with a thread for each column.
fn first_round<R: Threads + Wait + Sync>(
    rt: &R,
    alloc: Global,
    script: &Script,
    rules: &Rules,
    procs: &Procs,
    mut store: Store,
) -> Result<RoundLog, NoMemory>
    requires { MayWork rules.now script.now [] store }
{
    store.work_round(rt, alloc, rules, procs, &NoGate)
}

/// Makes the rules and the store of a script, and tells how many clients it has.
pub fn begin(alloc: Global, script: &Script) -> Option<usize> {
    let _rules = Rules::new(alloc, script).ok()?;
    let _store = first_store(alloc, script).ok()?;
    Some(script.clients.as_slice().len())
}

/// The same, and does the first round, with a thread for each column; tells how many steps it had. None if the script has no
/// round.
pub fn work<R: Threads + Wait + Sync>(
    rt: &R,
    alloc: Global,
    script: &Script,
    procs: &Procs,
) -> Option<usize> {
    if script.rounds.as_slice().is_empty() {
        return None;
    }
    keeps_limits(script);
    let rules = Rules::new(alloc, script).ok()?;
    let store = first_store(alloc, script).ok()?;
    let round = first_round(rt, alloc, script, &rules, procs, store).ok()?;
    Some(count_steps(&round))
}
