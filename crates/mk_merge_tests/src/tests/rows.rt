//! How outcomes are found.
ghost use Rattle.std.specs.Prelude.{IfOk};
ghost use Rattle.mk_merge.specs.Keepings.{Stand};
ghost use Rattle.mk_merge_tests.specs.Rows.{conflicting as are_conflicting, hinted as are_hinted, unhinted as are_unhinted, silent as are_silent};

use crate::tests::building::{
    EARLY, OTHER, READER, SECOND, WRITER, early, entry, made, one, promise, reader, size_of, writer,
};
use mk_merge::{Base, Keeping, MergeError, Promise};
use mk_snap::Snap;
use mk_txn::{Accepted, Cause, Known, Outcome, Stamp, Txn, Value, Vote, WriteItem};
use std::alloc::Global;
use std::process::Abort;
use std::test::Fail;

// Two votes for the reader, and an accepted commit of the writer.
fn conflicting<K: Keeping>(alloc: Global) -> Result<Vec<Promise<K>>, Fail>
    ensures { IfOk result (λ made. Stand K K.stands made.items are_conflicting) }
{
    let voted = Some(Vote::Ok);
    let commit = Accepted {
        view: 0,
        outcome: Outcome::Commit,
    };
    let first = one(alloc, entry(reader(alloc)?, 0, voted, None, None))?;
    let second = one(alloc, entry(reader(alloc)?, 0, voted, None, None))?;
    let third = one(alloc, entry(writer(alloc)?, 0, voted, Some(commit), None))?;
    let mut promises = Vec::new(alloc);
    promises.push(promise(alloc, 1, first))?;
    promises.push(promise(alloc, 0, second))?;
    promises.push(promise(alloc, 2, third))?;
    Ok(promises)
}

// A candidate gives way to an accepted commit.
fn candidate_gives_way<K: Keeping>(rt: &impl Abort, alloc: Global) -> Result<(), Fail> {
    let promises: Vec<Promise<K>> = conflicting(alloc)?;
    assert!(rt; promises[0].entries.list().len() == 1);
    let base = made(alloc, 2, 1, promises)?;
    let aborted = Known::Outcome(Outcome::Abort(Cause::Epoch(1)));
    assert!(rt; base.fates().fate(READER) == aborted);
    assert!(rt; base.fates().fate(WRITER) == Known::Outcome(Outcome::Commit));
    assert!(rt; base.fates().fate(OTHER) == Known::Absent);
    assert!(rt; base.fates().commits() == 1 && base.fates().aborts() == 1);
    let copy = base.copy()?;
    assert!(rt; !copy.fits(&reader(alloc)?));
    assert!(rt; copy.fits(&writer(alloc)?));
    Ok(())
}

// What a takeover of view 1 left: Ok votes of replicas 1 and 0, and no vote of replica 2.
fn hinted<K: Keeping>(alloc: Global) -> Result<Vec<Promise<K>>, Fail>
    ensures { IfOk result (λ made. Stand K K.stands made.items are_hinted) }
{
    let voted = Some(Vote::Ok);
    let first = one(alloc, entry(early(alloc)?, 1, voted, None, None))?;
    let second = one(alloc, entry(early(alloc)?, 1, voted, None, None))?;
    let third = one(alloc, entry(early(alloc)?, 1, None, None, None))?;
    let mut promises = Vec::new(alloc);
    promises.push(promise(alloc, 1, first))?;
    promises.push(promise(alloc, 0, second))?;
    promises.push(promise(alloc, 2, third))?;
    Ok(promises)
}

// What a takeover found unclear is resolved by an epoch change: the hint of Ok votes makes a commit.
fn epoch_change_resolves<K: Keeping>(rt: &impl Abort, alloc: Global) -> Result<(), Fail> {
    let promises: Vec<Promise<K>> = hinted(alloc)?;
    let base = made(alloc, 2, 1, promises)?;
    assert!(rt; base.fates().commits() == 1 && base.fates().aborts() == 0);
    assert!(rt; base.fates().fate(EARLY) == Known::Outcome(Outcome::Commit));
    assert!(rt; !base.fits(&reader(alloc)?));
    Ok(())
}

// Two replicas without entries.
fn silent<K: Keeping>(alloc: Global) -> Result<Vec<Promise<K>>, Fail>
    ensures { IfOk result (λ made. Stand K K.stands made.items are_silent) }
{
    let mut promises = Vec::new(alloc);
    promises.push(promise(alloc, 1, Vec::new(alloc)))?;
    promises.push(promise(alloc, 2, Vec::new(alloc)))?;
    Ok(promises)
}

// One Ok vote, of replica 0.
fn unhinted<K: Keeping>(alloc: Global) -> Result<Vec<Promise<K>>, Fail>
    ensures { IfOk result (λ made. Stand K K.stands made.items are_unhinted) }
{
    let voted = one(alloc, entry(early(alloc)?, 0, Some(Vote::Ok), None, None))?;
    let mut promises = Vec::new(alloc);
    promises.push(promise(alloc, 2, Vec::new(alloc)))?;
    promises.push(promise(alloc, 0, voted))?;
    Ok(promises)
}

// A superseded epoch, made where nothing was known of the attempt, teaches nothing of it. The next one, in which one
// vote is no hint, aborts it, and then the attempt after it fits.
fn superseded_teaches_nothing<K: Keeping>(rt: &impl Abort, alloc: Global) -> Result<(), Fail> {
    let promises: Vec<Promise<K>> = silent(alloc)?;
    let superseded = made(alloc, 1, 1, promises)?;
    assert!(rt; superseded.fates().commits() == 0 && superseded.fates().aborts() == 0);
    assert!(rt; superseded.fates().fate(EARLY) == Known::Absent);
    let heard: Vec<Promise<K>> = unhinted(alloc)?;
    let base = made(alloc, 1, 2, heard)?;
    assert!(rt; base.fates().commits() == 0 && base.fates().aborts() == 1);
    let aborted = Known::Outcome(Outcome::Abort(Cause::Epoch(2)));
    assert!(rt; base.fates().fate(EARLY) == aborted);
    assert!(rt; base.fates().fate(SECOND) == Known::Absent);
    let writes = [WriteItem {
        key: 0,
        value: Value::Number(5),
    }];
    let again = Txn::new(
        alloc,
        SECOND,
        Stamp {
            time: 11,
            client: 1,
        },
        &[],
        &writes,
    )?;
    assert!(rt; base.fits(&again));
    assert!(rt; base.fits(&reader(alloc)?));
    Ok(())
}

#[test]
fn a_candidate_gives_way(rt: HostRuntime) -> Result<(), Fail> {
    candidate_gives_way::<Base>(&rt, rt.alloc())?;
    candidate_gives_way::<Snap>(&rt, rt.alloc())
}

#[test]
fn an_epoch_change_resolves_it(rt: HostRuntime) -> Result<(), Fail> {
    epoch_change_resolves::<Base>(&rt, rt.alloc())?;
    epoch_change_resolves::<Snap>(&rt, rt.alloc())
}

#[test]
fn a_superseded_base_teaches_nothing(rt: HostRuntime) -> Result<(), Fail> {
    superseded_teaches_nothing::<Base>(&rt, rt.alloc())?;
    superseded_teaches_nothing::<Snap>(&rt, rt.alloc())
}

#[test]
fn too_few_promises_make_no_base(rt: HostRuntime) -> Result<(), Fail> {
    let alloc = rt.alloc();
    let size = size_of(1)?;
    let lists: Vec<Promise<Base>> = Vec::new(alloc);
    assert!(rt; Base::merge(alloc, size, 1, lists.as_slice()).err() == Some(MergeError::Short(0)));
    let snaps: Vec<Promise<Snap>> = Vec::new(alloc);
    assert!(rt; Snap::merge(alloc, size, 1, snaps.as_slice()).err() == Some(MergeError::Short(0)));
    Ok(())
}
