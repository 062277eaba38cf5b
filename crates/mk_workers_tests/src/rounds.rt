//! What the workers leave, whatever the order of their threads.
use crate::gates::Meeting;
use crate::start::{NONE_FULL, SHARED_KEYS, TWO_WORKERS, count_commits, run, script_of, went_well};
use mk_io::SureWord;
use mk_lock::NoGate;
use mk_proc::{Proc, ProcKind, Procs, add, max, sum};
use mk_run::{Verdict, check};
use mk_script::Script;
use mk_store::run_script;
use mk_txn::NoMemory;
use std::alloc::Global;
use std::sync::Wait;
use std::test::Fail;
use std::thread::Threads;

// The two meet at no key, so that each key has the same journal each time.
#[test]
fn two_workers_a_hundred_times(rt: HostRuntime) -> Result<(), Fail> {
    let script = script_of(rt.alloc(), TWO_WORKERS)?;
    let first = run(&rt, rt.alloc(), &script, 2, NONE_FULL, &NoGate)?;
    for _time in 0..100 {
        let worked = run(&rt, rt.alloc(), &script, 2, NONE_FULL, &NoGate)?;
        assert!(rt; went_well(&worked, 2) && count_commits(&worked) == 2);
        assert!(rt; worked.journals.as_slice() == first.journals.as_slice());
    }
    Ok(())
}

// Whether the judge finds the script's run legal: its logs and journals are what the workers left.
fn is_accepted<R: Threads + Wait + Sync>(
    rt: &R,
    alloc: Global,
    script: &Script,
) -> Result<bool, NoMemory> {
    let mut words = [
        SureWord::new(),
        SureWord::new(),
        SureWord::new(),
        SureWord::new(),
        SureWord::new(),
        SureWord::new(),
        SureWord::new(),
    ];
    let procs = Procs::new(
        Proc::new(ProcKind::Add, add),
        Proc::new(ProcKind::Sum, sum),
        Proc::new(ProcKind::Max, max),
    );
    let run = run_script(rt, alloc, script, &mut words, &procs, &NoGate)?;
    Ok(check(alloc, &run)? == Verdict::Legal)
}

// Which of them commit goes by the order of the threads, but each learns, and no order leaves what could not have happened.
#[test]
fn eight_workers_share_keys(rt: HostRuntime) -> Result<(), Fail> {
    let script = script_of(rt.alloc(), SHARED_KEYS)?;
    for _time in 0..20 {
        let worked = run(&rt, rt.alloc(), &script, 8, NONE_FULL, &NoGate)?;
        assert!(rt; went_well(&worked, 8));
        assert!(rt; is_accepted(&rt, rt.alloc(), &script)?);
    }
    Ok(())
}

// The outlet of column 0 finds no memory after its first step, before its first turn. Column 1 has all of its turns.
#[test]
fn without_memory_in_one_worker_the_other_ends(rt: HostRuntime) -> Result<(), Fail> {
    let script = script_of(rt.alloc(), TWO_WORKERS)?;
    let whole = Meeting::new((0, 0));
    let worked = run(&rt, rt.alloc(), &script, 2, NONE_FULL, &whole)?;
    assert!(rt; went_well(&worked, 2));
    let cut = Meeting::new((0, 0));
    assert!(rt; run(&rt, rt.alloc(), &script, 2, 0, &cut).is_err());
    assert!(rt; cut.turns() == (0, whole.turns().1));
    Ok(())
}
