//! Texts of reports, summaries and JSON.
use mk_history::{
    GlobalAnswer, GlobalEntry, GlobalLine, Globals, Journals, Left, Logs, Path, RoundLog, State,
};
use mk_names::Names;
use mk_replay::{OneCopy, replay};
use mk_report::{json_bytes, put_report, put_summary};
use mk_run::{AttemptLine, Reads, Writes};
use mk_txn::{
    Cause, Conflict, NoMemory, Outcome, ReadItem, Reason, Stamp, Txn, TxnId, Value, WriteItem,
};
use std::alloc::Global;
use std::test::*;

const FIRST: Stamp = Stamp {
    time: 10,
    client: 1,
};

const SECOND: Stamp = Stamp {
    time: 11,
    client: 2,
};

const READ: ReadItem = ReadItem {
    key: 0,
    version: Stamp { time: 0, client: 0 },
    value: Value::Number(0),
};

const WRITES: [WriteItem; 2] = [
    WriteItem {
        key: 0,
        value: Value::Number(5),
    },
    WriteItem {
        key: 1,
        value: Value::Number(18446744073709551615),
    },
];

const REFUSED: Cause = Cause::Conflict(Conflict {
    key: 0,
    reason: Reason::ReadPending,
    stamp: FIRST,
});

// How attempts of the second client ended.
const ENDS: [State; 6] = [
    State::Learned {
        outcome: Outcome::Abort(REFUSED),
        path: Path::Fast,
    },
    State::Learned {
        outcome: Outcome::Abort(Cause::Takeover(1)),
        path: Path::Takeover(1),
    },
    State::Learned {
        outcome: Outcome::Abort(Cause::Epoch(1)),
        path: Path::Moved(1),
    },
    State::Left(Left::Short(1)),
    State::Left(Left::Stopped),
    State::Left(Left::Unclear { ok: 2, not_ok: 1 }),
];

// Global lines with their answers.
const LINES: [(GlobalLine, GlobalAnswer); 6] = [
    (GlobalLine::Ask(1), GlobalAnswer::Ok),
    (
        GlobalLine::Promise {
            epoch: 1,
            replica: 1,
        },
        GlobalAnswer::WordFault,
    ),
    (GlobalLine::Merge(1), GlobalAnswer::Short(1)),
    (
        GlobalLine::Merge(1),
        GlobalAnswer::Counts {
            commits: 1,
            aborts: 0,
        },
    ),
    (
        GlobalLine::Adopt {
            epoch: 1,
            replica: 0,
        },
        GlobalAnswer::Old(2),
    ),
    (GlobalLine::Enter(1), GlobalAnswer::Entered(2)),
];

const REPORT: &str = "a.1 @10.1 commit fast r:x@0.0=0 w:x=5 w:b=18446744073709551615\n\
                      b.1 @11.2 abort fast because conflict x read-pending 10.1 r:x@0.0=0 w:x=none\n\
                      b.2 @11.2 abort takeover 1 because takeover 1 r:x@0.0=0 w:x=none\n\
                      b.3 @11.2 abort moved 1 because epoch 1 r:x@0.0=0 w:x=none\n\
                      b.4 @11.2 open short 1 r:x@0.0=0 w:x=none\n\
                      b.5 @11.2 open stopped r:x@0.0=0 w:x=none\n\
                      b.6 @11.2 open unclear 2 1 r:x@0.0=0 w:x=none\n\
                      b.7 open unread\n\
                      ask 1\n\
                      promise 1 1 word-fault\n\
                      merge 1 short 1\n\
                      merge 1 ok 1 0\n\
                      adopt 1 0 old 2\n\
                      enter 1 ok 2\n\
                      store b 10.1 18446744073709551615\n\
                      store x 10.1 5\n\
                      end 1 3 4\n";

const SUMMARY: &str = "end 1 3 4\nstore 2 4\n";

const JSON: &str = "{\"aborts\":3,\"attempts\":[\
                    {\"cause\":null,\"id\":\"a.1\",\"outcome\":\"commit\",\"path\":\"fast\",\
                    \"reads\":[{\"key\":\"x\",\"value\":0,\"version\":\"0.0\"}],\"stamp\":\"10.1\",\
                    \"writes\":[{\"key\":\"x\",\"value\":5},{\"key\":\"b\",\"value\":18446744073709551615}]},\
                    {\"cause\":\"conflict x read-pending 10.1\",\"id\":\"b.1\",\"outcome\":\"abort\",\"path\":\"fast\",\
                    \"reads\":[{\"key\":\"x\",\"value\":0,\"version\":\"0.0\"}],\"stamp\":\"11.2\",\"writes\":[{\"key\":\"x\",\"value\":null}]},\
                    {\"cause\":\"takeover 1\",\"id\":\"b.2\",\"outcome\":\"abort\",\"path\":\"takeover 1\",\
                    \"reads\":[{\"key\":\"x\",\"value\":0,\"version\":\"0.0\"}],\"stamp\":\"11.2\",\"writes\":[{\"key\":\"x\",\"value\":null}]},\
                    {\"cause\":\"epoch 1\",\"id\":\"b.3\",\"outcome\":\"abort\",\"path\":\"moved 1\",\
                    \"reads\":[{\"key\":\"x\",\"value\":0,\"version\":\"0.0\"}],\"stamp\":\"11.2\",\"writes\":[{\"key\":\"x\",\"value\":null}]},\
                    {\"cause\":null,\"id\":\"b.4\",\"outcome\":\"open\",\"path\":\"short 1\",\
                    \"reads\":[{\"key\":\"x\",\"value\":0,\"version\":\"0.0\"}],\"stamp\":\"11.2\",\"writes\":[{\"key\":\"x\",\"value\":null}]},\
                    {\"cause\":null,\"id\":\"b.5\",\"outcome\":\"open\",\"path\":\"stopped\",\
                    \"reads\":[{\"key\":\"x\",\"value\":0,\"version\":\"0.0\"}],\"stamp\":\"11.2\",\"writes\":[{\"key\":\"x\",\"value\":null}]},\
                    {\"cause\":null,\"id\":\"b.6\",\"outcome\":\"open\",\"path\":\"unclear 2 1\",\
                    \"reads\":[{\"key\":\"x\",\"value\":0,\"version\":\"0.0\"}],\"stamp\":\"11.2\",\"writes\":[{\"key\":\"x\",\"value\":null}]},\
                    {\"cause\":null,\"id\":\"b.7\",\"outcome\":\"open\",\"path\":\"unread\",\"reads\":[],\"stamp\":null,\"writes\":[]}],\
                    \"commits\":1,\"globals\":[\"ask 1\",\"promise 1 1 word-fault\",\"merge 1 short 1\",\"merge 1 ok 1 0\",\
                    \"adopt 1 0 old 2\",\"enter 1 ok 2\"],\"opens\":4,\
                    \"store\":[{\"key\":\"b\",\"value\":18446744073709551615,\"version\":\"10.1\"},\
                    {\"key\":\"x\",\"value\":5,\"version\":\"10.1\"}]}\n";

fn names(alloc: Global, texts: &[&str]) -> Result<Names, NoMemory> {
    let mut names = Names::new(alloc);
    for text in texts {
        if names.intern(text).is_err() {
            return Err(NoMemory);
        }
    }
    Ok(names)
}

/// The copy after the first client's transaction.
fn copy(rt: &HostRuntime) -> Result<OneCopy, Fail> {
    let txn = Txn::new(
        rt.alloc(),
        TxnId { client: 1, seq: 1 },
        FIRST,
        &[READ],
        &WRITES,
    )?;
    Ok(replay(rt.alloc(), &[txn])?)
}

fn round(rt: &HostRuntime) -> Result<RoundLog, Fail> {
    let mut entries = Vec::new(rt.alloc());
    for (line, answer) in LINES {
        entries.push(GlobalEntry { line, answer })?;
    }
    Ok(RoundLog {
        logs: Logs::of(Vec::new(rt.alloc())),
        journals: Journals::of(Vec::new(rt.alloc())),
        globals: Globals::of(entries),
    })
}

fn line(
    alloc: Global,
    id: TxnId,
    stamp: Stamp,
    writes: &[WriteItem],
    state: State,
) -> Result<AttemptLine, NoMemory> {
    Ok(AttemptLine {
        id,
        stamp: Some(stamp),
        reads: Reads::of(Vec::from_slice(alloc, &[READ])?),
        writes: Writes::of(Vec::from_slice(alloc, writes)?),
        state,
    })
}

fn lines(alloc: Global) -> Result<Vec<AttemptLine>, NoMemory> {
    let deletes = [WriteItem {
        key: 0,
        value: Value::Absent,
    }];
    let committed = State::Learned {
        outcome: Outcome::Commit,
        path: Path::Fast,
    };
    let mut lines = Vec::new(alloc);
    lines.push(line(
        alloc,
        TxnId { client: 1, seq: 1 },
        FIRST,
        &WRITES,
        committed,
    )?)?;
    for place in 0..ENDS.len() {
        let id = TxnId {
            client: 2,
            seq: place as u32 + 1,
        };
        lines.push(line(alloc, id, SECOND, &deletes, ENDS[place])?)?;
    }
    lines.push(AttemptLine {
        id: TxnId { client: 2, seq: 7 },
        stamp: None,
        reads: Reads::of(Vec::new(alloc)),
        writes: Writes::of(Vec::new(alloc)),
        state: State::Left(Left::Unread),
    })?;
    Ok(lines)
}

#[test]
fn a_report_a_summary_and_json(rt: HostRuntime) -> Result<(), Fail> {
    let clients = names(rt.alloc(), &["a", "b"])?;
    let keys = names(rt.alloc(), &["x", "b", "never"])?;
    let lines = lines(rt.alloc())?;
    let copy = copy(&rt)?;
    let rounds = [round(&rt)?];
    let mut out = String::new(rt.alloc());
    put_report(
        &mut out,
        rt.alloc(),
        &clients,
        &keys,
        &lines,
        &rounds,
        &copy,
    )?;
    assert!(rt; out.as_str() == REPORT);
    let mut out = String::new(rt.alloc());
    put_summary(&mut out, rt.alloc(), &keys, &lines, &copy)?;
    assert!(rt; out.as_str() == SUMMARY);
    let text = json_bytes(rt.alloc(), &clients, &keys, &lines, &rounds, &copy)?;
    assert!(rt; text.as_slice() == JSON.as_bytes());
    Ok(())
}
