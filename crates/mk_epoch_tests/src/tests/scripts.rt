//! Scripts through both keepings of bases.
ghost use Rattle.std.specs.Prelude.{◌≡◌};

use crate::tests::handing::{one_commit, two_commits};
use crate::tests::lines::do_lines;
use mk_epoch::{EpochError, Replicas};
use mk_merge::{Base, Keeping};
use mk_snap::Snap;
use mk_txn::Marks;
use mk_words::{GlobalAnswer, GlobalLine, Phase};
use std::alloc::Global;
use std::process::Abort;
use std::test::Fail;

const SURE: [&[u32]; 3] = [&[], &[], &[]];

const DONE: GlobalAnswer = GlobalAnswer::Ok;

fn promise(epoch: u32, replica: u32) -> GlobalLine {
    GlobalLine::Promise { epoch, replica }
}

fn adopt(epoch: u32, replica: u32) -> GlobalLine {
    GlobalLine::Adopt { epoch, replica }
}

fn commits(commits: u64) -> GlobalAnswer {
    GlobalAnswer::Counts { commits, aborts: 0 }
}

// The rows of refusals, and of a replica that is wiped after it adopted.
fn refusals<B: Keeping>(rt: &impl Abort, alloc: Global) -> Result<(), Fail> {
    let scripts: [&[(GlobalLine, GlobalAnswer)]; 8] = [
        &[
            (GlobalLine::Ask(1), DONE),
            (promise(1, 1), DONE),
            (promise(1, 1), GlobalAnswer::Old(1)),
            (GlobalLine::Merge(1), GlobalAnswer::Short(1)),
        ],
        &[
            (GlobalLine::Ask(1), DONE),
            (GlobalLine::Wipe(1), DONE),
            (promise(1, 1), GlobalAnswer::Lacking),
        ],
        &[
            (GlobalLine::Enter(1), GlobalAnswer::Short(0)),
            (adopt(1, 0), GlobalAnswer::Unmade),
            (GlobalLine::Merge(1), GlobalAnswer::Short(0)),
            (promise(1, 0), GlobalAnswer::Unasked),
        ],
        &[
            (GlobalLine::Ask(1), DONE),
            (promise(1, 0), DONE),
            (promise(1, 2), DONE),
            (GlobalLine::Merge(1), GlobalAnswer::Short(2)),
        ],
        &[
            (GlobalLine::Ask(1), DONE),
            (promise(1, 1), DONE),
            (promise(1, 0), DONE),
            (GlobalLine::Wipe(1), DONE),
            (GlobalLine::Merge(1), GlobalAnswer::Lacking),
        ],
        &[
            (GlobalLine::Ask(1), DONE),
            (promise(1, 1), DONE),
            (promise(1, 0), DONE),
            (GlobalLine::Ask(2), DONE),
            (promise(2, 1), DONE),
            (GlobalLine::Merge(1), GlobalAnswer::Old(2)),
        ],
        &[
            (GlobalLine::Ask(1), DONE),
            (promise(1, 1), DONE),
            (promise(1, 0), DONE),
            (GlobalLine::Merge(1), commits(0)),
            (adopt(1, 2), DONE),
            (promise(1, 2), GlobalAnswer::Old(1)),
            (adopt(1, 2), GlobalAnswer::Old(1)),
        ],
        &[
            (GlobalLine::Ask(1), DONE),
            (promise(1, 1), DONE),
            (promise(1, 0), DONE),
            (GlobalLine::Merge(1), commits(0)),
            (GlobalLine::Wipe(0), DONE),
            (adopt(1, 0), GlobalAnswer::Old(1)),
        ],
    ];
    let marks = Marks::new(alloc);
    for lines in scripts {
        do_lines::<B>(rt, alloc, &SURE, &[], &marks, lines)?;
    }
    Ok(())
}

// A word that fails leaves all as it was. The lists are of the sets that fail, by replica.
fn failing_words<B: Keeping>(rt: &impl Abort, alloc: Global) -> Result<(), Fail> {
    let begun = |first, second, merged| {
        [
            (GlobalLine::Ask(1), DONE),
            (promise(1, 1), first),
            (promise(1, 0), second),
            (GlobalLine::Merge(1), merged),
        ]
    };
    let fault = GlobalAnswer::WordFault;
    let marks = Marks::new(alloc);
    do_lines::<B>(
        rt,
        alloc,
        &[&[1], &[], &[]],
        &[],
        &marks,
        &begun(DONE, fault, GlobalAnswer::Short(1)),
    )?;
    do_lines::<B>(
        rt,
        alloc,
        &[&[], &[1], &[]],
        &[],
        &marks,
        &begun(fault, DONE, GlobalAnswer::Short(1)),
    )?;
    let adopted = |first| {
        [
            (GlobalLine::Ask(1), DONE),
            (promise(1, 1), DONE),
            (promise(1, 0), DONE),
            (GlobalLine::Merge(1), commits(0)),
            (adopt(1, 0), first),
            (adopt(1, 1), DONE),
            (adopt(1, 2), DONE),
        ]
    };
    do_lines::<B>(rt, alloc, &[&[2], &[], &[]], &[], &marks, &adopted(fault))?;
    do_lines::<B>(rt, alloc, &[&[3], &[], &[]], &[], &marks, &adopted(DONE))?;
    Ok(())
}

// A commit that was handed in is in the base, which stays when its leader is wiped, and in the next epoch's base.
fn with_a_commit<B: Keeping>(rt: &impl Abort, alloc: Global) -> Result<(), Fail> {
    let entries = one_commit(alloc)?;
    let marks = Marks::new(alloc);
    let wiped = [
        (GlobalLine::Ask(1), DONE),
        (promise(1, 1), DONE),
        (promise(1, 0), DONE),
        (GlobalLine::Merge(1), commits(1)),
        (GlobalLine::Wipe(1), DONE),
        (GlobalLine::Merge(1), commits(1)),
    ];
    do_lines::<B>(rt, alloc, &SURE, entries.as_slice(), &marks, &wiped)?;
    let followed = [
        (GlobalLine::Ask(1), DONE),
        (promise(1, 1), DONE),
        (promise(1, 0), DONE),
        (GlobalLine::Merge(1), commits(1)),
        (adopt(1, 0), DONE),
        (adopt(1, 1), DONE),
        (GlobalLine::Ask(2), DONE),
        (promise(2, 2), DONE),
        (promise(2, 0), DONE),
        (GlobalLine::Merge(2), commits(1)),
        (adopt(2, 2), DONE),
        (adopt(2, 0), DONE),
        (adopt(2, 1), DONE),
        (GlobalLine::Enter(1), GlobalAnswer::Entered(2)),
        (GlobalLine::Enter(2), GlobalAnswer::Entered(3)),
        (GlobalLine::Enter(2), GlobalAnswer::Entered(3)),
    ];
    do_lines::<B>(rt, alloc, &SURE, entries.as_slice(), &marks, &followed)?;
    Ok(())
}

// Five replicas hand in two commits, of which a mark covers the first.
fn with_marks<B: Keeping>(rt: &impl Abort, alloc: Global) -> Result<(), Fail> {
    let entries = two_commits(alloc)?;
    let mut marks = Marks::new(alloc);
    marks.raise(0, 1)?;
    let lines = [
        (GlobalLine::Ask(1), DONE),
        (promise(1, 1), DONE),
        (promise(1, 4), DONE),
        (GlobalLine::Merge(1), GlobalAnswer::Short(2)),
        (promise(1, 3), DONE),
        (GlobalLine::Merge(1), commits(1)),
        (adopt(1, 0), DONE),
        (adopt(1, 1), DONE),
        (GlobalLine::Enter(1), GlobalAnswer::Short(2)),
        (adopt(1, 4), DONE),
        (GlobalLine::Enter(1), GlobalAnswer::Entered(3)),
    ];
    let five: [&[u32]; 5] = [&[], &[], &[], &[], &[]];
    do_lines::<B>(rt, alloc, &five, entries.as_slice(), &marks, &lines)?;
    Ok(())
}

// What is seen of three replicas when replica 0 serves epoch 1 and replica 2 was wiped after it had adopted it.
fn views<B: Keeping>(rt: &impl Abort, alloc: Global) -> Result<(), Fail> {
    let lines = [
        (GlobalLine::Ask(1), DONE),
        (promise(1, 1), DONE),
        (promise(1, 0), DONE),
        (GlobalLine::Merge(1), commits(1)),
        (adopt(1, 2), DONE),
        (GlobalLine::Wipe(2), DONE),
        (adopt(1, 2), GlobalAnswer::Old(1)),
        (adopt(1, 0), DONE),
        (GlobalLine::Enter(1), GlobalAnswer::Entered(2)),
    ];
    let entries = one_commit(alloc)?;
    let replicas = do_lines::<B>(
        rt,
        alloc,
        &SURE,
        entries.as_slice(),
        &Marks::new(alloc),
        &lines,
    )?;
    seen(rt, &replicas);
    Ok(())
}

fn seen<B: Keeping>(rt: &impl Abort, replicas: &Replicas<B>)
    requires { replicas.now.faults ≡ 1 }
{
    assert!(rt;
        [replicas.phase(0), replicas.phase(1), replicas.phase(2)]
            == [Phase::Serving, Phase::Paused, Phase::Lacking]
    );
    assert!(rt; [replicas.word(0), replicas.word(1), replicas.word(2)] == [1, 1, 1]);
    assert!(rt;
        [
            replicas.adopted(0),
            replicas.adopted(1),
            replicas.adopted(2)
        ] == [1, 0, 0]
    );
    assert!(rt; replicas.base(0).fates().commits() == 1);
    assert!(rt; replicas.made(1).is_some() && replicas.made(2).is_none());
    assert!(rt; replicas.may_promise(2, 0) == Err(EpochError::Unasked));
    assert!(rt; replicas.may_promise(1, 2) == Err(EpochError::Lacking));
    assert!(rt; replicas.may_promise(1, 0) == Err(EpochError::Old(1)));
    assert!(rt; replicas.may_adopt(2, 0) == Err(EpochError::Unmade));
    assert!(rt; replicas.may_adopt(1, 2) == Err(EpochError::Old(1)));
    assert!(rt; replicas.may_adopt(1, 1) == Ok(()));
}

#[test]
fn lines_are_refused(rt: HostRuntime) -> Result<(), Fail> {
    refusals::<Base>(&rt, rt.alloc())?;
    refusals::<Snap>(&rt, rt.alloc())
}

#[test]
fn words_may_fail(rt: HostRuntime) -> Result<(), Fail> {
    failing_words::<Base>(&rt, rt.alloc())?;
    failing_words::<Snap>(&rt, rt.alloc())
}

#[test]
fn a_commit_is_handed_on(rt: HostRuntime) -> Result<(), Fail> {
    with_a_commit::<Base>(&rt, rt.alloc())?;
    with_a_commit::<Snap>(&rt, rt.alloc())
}

#[test]
fn marks_cover_what_is_handed_in(rt: HostRuntime) -> Result<(), Fail> {
    with_marks::<Base>(&rt, rt.alloc())?;
    with_marks::<Snap>(&rt, rt.alloc())
}

#[test]
fn replicas_are_seen(rt: HostRuntime) -> Result<(), Fail> {
    views::<Base>(&rt, rt.alloc())?;
    views::<Snap>(&rt, rt.alloc())
}
