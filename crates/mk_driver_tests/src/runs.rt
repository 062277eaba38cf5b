//! Scripts from their text to what their clients learn.
use crate::lane::{Cells, Lane};
use mk_faults::Rules;
use mk_proc::{Proc, ProcKind, Procs, add, max, sum};
use mk_script::{Script, parse};
use mk_txn::Outcome;
use std::alloc::Global;
use std::test::*;

// The turns of the lane's first round, over new cells.
fn drive(alloc: Global, script: &Script, lane: &mut Lane) -> Result<(), Fail> {
    let rules = Rules::new(alloc, script)?;
    let mut cells = Cells::new(alloc, script.size.n())?;
    let procs = Procs::new(
        Proc::new(ProcKind::Add, add),
        Proc::new(ProcKind::Sum, sum),
        Proc::new(ProcKind::Max, max),
    );
    lane.drive(&mut cells, &rules, &procs)
        .ok_or("the round does not end")?;
    Ok(())
}

fn lane_of(alloc: Global, script: &Script, number: u32, client: u32) -> Result<Box<Lane>, Fail> {
    if script.rounds.as_slice().is_empty() {
        return Err(Fail::new("no round"));
    }
    let lane = Lane::new(alloc, script, number, client)?;
    let mut lane = Box::new(alloc, lane)?;
    drive(alloc, script, &mut lane)?;
    Ok(lane)
}

// A script's column of this number, whose one client has the other number, driven to the end of its first round.
fn driven(alloc: Global, text: &str, number: u32, client: u32) -> Result<Box<Lane>, Fail> {
    let script = parse(alloc, text.as_bytes())?;
    lane_of(alloc, &script, number, client)
}

fn is_commit(outcome: Option<Outcome>) -> bool {
    outcome == Some(Outcome::Commit)
}

fn two_columns() -> &'static str {
    "meerkat 1\nsize 1\nclient a 0 0\nclient b 1 2\nretry 2\ntxn a 10 r:x w:y=5\ntxn b 20 w:x=7\n"
}

#[test]
fn the_clients_of_the_column_commit(rt: HostRuntime) -> Result<(), Fail> {
    let lane = driven(rt.alloc(), two_columns(), 1, 2)?;
    assert!(rt; lane.learned(1).is_none() && is_commit(lane.learned(2)));
    Ok(())
}

// The own coordinator stops after one of its proposals was accepted, late.
fn stopped() -> &'static str {
    "meerkat 1\nsize 1\nclient a 0 0\nfault vote a.1 2 1 lose\nfault accept a.1 0 1 lose\nfault accept a.1 1 1 lose\n\
     fault accept a.1 2 1 late\nfault decide a.1 2 1 lose\nstop a.1 accepts\ntxn a 10 w:x=5\ntakeover a.1 1\n"
}

#[test]
fn a_takeover_commits_what_was_accepted(rt: HostRuntime) -> Result<(), Fail> {
    let lane = driven(rt.alloc(), stopped(), 0, 1)?;
    assert!(rt; lane.learned(1).is_none() && is_commit(lane.decided(1)));
    Ok(())
}
