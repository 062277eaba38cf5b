//! Calls whose source, sink or epoch word fails, each read, write and set in turn.
use crate::calls::{Faults, NONE, ends_as};
use crate::rows::{
    first, first_report, promised_again, resolved, resolved_report, two_workers, two_workers_report,
};
use std::alloc::Global;
use std::sync::Wait;
use std::test::Fail;
use std::thread::Threads;

// Reads and writes are tried up to this one, which is past the last of each script.
const CALLS: u32 = 60;

// Whether the call ends as it should where this read of the script fails. The last read finds the end.
fn is_source_fault<R: Threads + Wait + Sync>(
    rt: &R,
    alloc: Global,
    script: &[u8],
    report: &[u8],
    read: u32,
) -> Result<bool, Fail> {
    let faults = Faults { read, ..NONE };
    if read as usize <= script.len().div_ceil(7) + 1 {
        ends_as(rt, alloc, "run", script, faults, 3, b"")
    } else {
        ends_as(rt, alloc, "run", script, faults, 0, report)
    }
}

// Whether the call ends as it should where this write of the report fails: what came before it stays.
fn is_sink_fault<R: Threads + Wait + Sync>(
    rt: &R,
    alloc: Global,
    script: &[u8],
    report: &[u8],
    write: u32,
) -> Result<bool, Fail> {
    let faults = Faults { write, ..NONE };
    let before = (write as usize).saturating_sub(1).saturating_mul(5);
    if before < report.len() {
        ends_as(rt, alloc, "run", script, faults, 5, &report[..before])
    } else {
        ends_as(rt, alloc, "run", script, faults, 0, report)
    }
}

#[test]
fn each_read_may_fail(rt: HostRuntime) -> Result<(), Fail> {
    for (script, report) in [
        (first(), first_report()),
        (two_workers(), two_workers_report()),
        (resolved(), resolved_report()),
    ] {
        for read in 1..CALLS {
            assert!(rt;
                is_source_fault(&rt, rt.alloc(), script, report, read)?,
                "read {read}"
            );
        }
    }
    Ok(())
}

#[test]
fn each_write_may_fail(rt: HostRuntime) -> Result<(), Fail> {
    for (script, report) in [
        (first(), first_report()),
        (two_workers(), two_workers_report()),
        (resolved(), resolved_report()),
    ] {
        for write in 1..CALLS {
            assert!(rt;
                is_sink_fault(&rt, rt.alloc(), script, report, write)?,
                "write {write}"
            );
        }
    }
    Ok(())
}

// The replica and the set of its word that fails, and the report. A promise that fails leaves too few for the merge, and
// an adoption that fails too few to enter the epoch; the attempt stays open.
const FAILED_SETS: [(u32, u32, &str); 6] = [
    (
        0,
        1,
        "a.1 @10.1 open unclear 2 1 w:x=5\nask 1\npromise 1 1 ok\npromise 1 0 word-fault\npromise 1 2 ok\nmerge 1 short 2\n\
         adopt 1 0 unmade\nadopt 1 1 unmade\nadopt 1 2 unmade\nenter 1 short 0\nend 0 0 1\n",
    ),
    (
        1,
        1,
        "a.1 @10.1 open unclear 2 1 w:x=5\nask 1\npromise 1 1 word-fault\npromise 1 0 ok\npromise 1 2 ok\nmerge 1 short 2\n\
         adopt 1 0 unmade\nadopt 1 1 unmade\nadopt 1 2 unmade\nenter 1 short 0\nend 0 0 1\n",
    ),
    (
        2,
        1,
        "a.1 @10.1 open unclear 2 1 w:x=5\nask 1\npromise 1 1 ok\npromise 1 0 ok\npromise 1 2 word-fault\nmerge 1 short 2\n\
         adopt 1 0 unmade\nadopt 1 1 unmade\nadopt 1 2 unmade\nenter 1 short 0\nend 0 0 1\n",
    ),
    (
        0,
        2,
        "a.1 @10.1 open unclear 2 1 w:x=5\nask 1\npromise 1 1 ok\npromise 1 0 ok\npromise 1 2 ok\nmerge 1 ok 1 0\n\
         adopt 1 0 word-fault\nadopt 1 1 ok\nadopt 1 2 ok\nenter 1 short 2\nend 0 0 1\n",
    ),
    (
        1,
        2,
        "a.1 @10.1 open unclear 2 1 w:x=5\nask 1\npromise 1 1 ok\npromise 1 0 ok\npromise 1 2 ok\nmerge 1 ok 1 0\n\
         adopt 1 0 ok\nadopt 1 1 word-fault\nadopt 1 2 ok\nenter 1 short 2\nend 0 0 1\n",
    ),
    (
        2,
        2,
        "a.1 @10.1 open unclear 2 1 w:x=5\nask 1\npromise 1 1 ok\npromise 1 0 ok\npromise 1 2 ok\nmerge 1 ok 1 0\n\
         adopt 1 0 ok\nadopt 1 1 ok\nadopt 1 2 word-fault\nenter 1 short 2\nend 0 0 1\n",
    ),
];

#[test]
fn each_set_may_fail(rt: HostRuntime) -> Result<(), Fail> {
    for (replica, set, report) in FAILED_SETS {
        let faults = Faults {
            replica,
            set,
            ..NONE
        };
        assert!(rt;
            ends_as(
                &rt,
                rt.alloc(),
                "run",
                resolved(),
                faults,
                6,
                report.as_bytes()
            )?,
            "set {set} of replica {replica}"
        );
    }
    Ok(())
}

// A promise that failed may be given again, and one that was given is old.
const PROMISED: [(u32, u32, &str); 3] = [
    (
        1,
        1,
        "a.1 @10.1 commit fast w:x=5\nask 1\npromise 1 1 word-fault\npromise 1 0 ok\nmerge 1 short 1\n\
         promise 1 1 ok\nmerge 1 ok 1 0\nenter 1 short 0\nstore x 10.1 5\nend 1 0 0\n",
    ),
    (
        0,
        1,
        "a.1 @10.1 commit fast w:x=5\nask 1\npromise 1 1 ok\npromise 1 0 word-fault\nmerge 1 short 1\n\
         promise 1 1 old 1\nmerge 1 short 1\nenter 1 short 0\nstore x 10.1 5\nend 1 0 0\n",
    ),
    (
        0,
        0,
        "a.1 @10.1 commit fast w:x=5\nask 1\npromise 1 1 ok\npromise 1 0 ok\nmerge 1 ok 1 0\n\
         promise 1 1 old 1\nmerge 1 ok 1 0\nenter 1 short 0\nstore x 10.1 5\nend 1 0 0\n",
    ),
];

#[test]
fn a_failed_promise_may_be_given_again(rt: HostRuntime) -> Result<(), Fail> {
    for (replica, set, report) in PROMISED {
        let faults = Faults {
            replica,
            set,
            ..NONE
        };
        assert!(rt;
            ends_as(
                &rt,
                rt.alloc(),
                "run",
                promised_again(),
                faults,
                0,
                report.as_bytes()
            )?,
            "set {set} of replica {replica}"
        );
    }
    Ok(())
}
