//! The trace of one run and forgeries of it, each with the verdict on the run that is read.
use mk_run::{Flaw, Path, Place, Run, State, Verdict, check, outcomes};
use mk_trace::read_trace;
use std::alloc::{AllocError, Global};
use std::test::*;

/// One attempt writes one key and commits.
const TRACE: &str =
    "meerkat-trace 1\nsize 1\nclient a 0\nkey x\nround 1\ncolumn 0\nbegin a.1 0\nstamp a.1 10 x=5\n\
     validate a.1\ntake 1\nkey 0 x checkwrite 10.1 ok\ntake 4\ntake 2\nkey 1 x checkwrite 10.1 ok\ntake 5\ntake 3\n\
     key 2 x checkwrite 10.1 ok\ntake 6\nrule a.1\ntake 7\nkey 0 x commitwrite 10.1 5\ntake 8\n\
     key 1 x commitwrite 10.1 5\ntake 9\nkey 2 x commitwrite 10.1 5\ncell 0 x\n0 checkwrite 10.1 ok\n\
     0 commitwrite 10.1 5\ncell 1 x\n0 checkwrite 10.1 ok\n0 commitwrite 10.1 5\ncell 2 x\n0 checkwrite 10.1 ok\n\
     0 commitwrite 10.1 5\nend\n";

// What stands in the place of a line, and the verdict then. Nothing: the line is left out.
const FORGERIES: [(u64, &str, &str); 11] = [
    (1, "meerkat-trace 1\n", "legal"),
    (12, "", "broken 1 column 0 14 disabled"),
    (12, "take 4\ntake 4\n", "legal"),
    (
        11,
        "key 0 x checkwrite 10.1 write-late 11.1\n",
        "broken 1 column 0 15 disabled",
    ),
    (20, "take 10\n", "broken 1 column 0 14 disabled"),
    (25, "", "broken 1 column 0 19 unfinished"),
    (
        27,
        "0 checkwrite 10.1 write-late 10.1\n",
        "broken 1 cell 0 0 1 answer",
    ),
    (28, "", "broken 1 match 0 0 0 2 unmatched"),
    (
        35,
        "global\nenter 1 ok 2\nend\n",
        "broken 1 global 1 answer",
    ),
    (35, "global\nenter 1 short 0\nend\n", "legal"),
    (
        35,
        "global\npromise 1 1 ok\nend\n",
        "broken 1 global 1 answer",
    ),
];

/// The trace with this text in the place of a line, counted from 1.
fn forged(alloc: Global, number: u64, new: &str) -> Result<String, AllocError> {
    let mut text = String::new(alloc);
    let mut before: u64 = 0;
    for line in TRACE.lines() {
        before = before.saturating_add(1);
        if before == number {
            text.push_str(new)?;
        } else {
            text.push_str(line)?;
            text.push('\n')?;
        }
    }
    Ok(text)
}

fn read(alloc: Global, text: &str) -> Result<Box<Run>, Fail> {
    match read_trace(alloc, text.as_bytes()) {
        Ok(run) => Ok(Box::new(alloc, run)?),
        Err(_) => Err("the text is no trace".into()),
    }
}

fn spelled_place(alloc: Global, place: Place) -> Result<String, AllocError> {
    match place {
        Place::Column { column, entry } => format!(in alloc; "column {column} {entry}"),
        Place::Cell {
            replica,
            key,
            entry,
        } => format!(in alloc; "cell {replica} {key} {entry}"),
        Place::Match {
            replica,
            key,
            column,
            entry,
        } => format!(in alloc; "match {replica} {key} {column} {entry}"),
        Place::Global { entry } => format!(in alloc; "global {entry}"),
    }
}

fn spelled(alloc: Global, verdict: Verdict) -> Result<String, AllocError> {
    match verdict {
        Verdict::Legal => format!(in alloc; "legal"),
        Verdict::Broken { round, place, why } => {
            let place = spelled_place(alloc, place)?;
            let why = match why {
                Flaw::Disabled => "disabled",
                Flaw::Unfinished => "unfinished",
                Flaw::Answer => "answer",
                Flaw::Unmatched => "unmatched",
            };
            format!(in alloc; "broken {round} {place} {why}")
        }
    }
}

/// Whether the verdict on the run of the text is this one.
fn is_judged(alloc: Global, text: &str, wanted: &str) -> Result<bool, Fail> {
    let run = read(alloc, text)?;
    let verdict = check(alloc, &run)?;
    Ok(spelled(alloc, verdict)?.as_str() == wanted)
}

/// Whether the run is legal and its one attempt committed on the fast path.
fn commits_fast(alloc: Global, run: &Run) -> Result<bool, Fail> {
    match check(alloc, run)? {
        Verdict::Legal => {
            let lines = outcomes(alloc, run)?;
            match lines.as_slice() {
                [line] => Ok(matches!(
                    line.state,
                    State::Learned {
                        path: Path::Fast,
                        ..
                    }
                )),
                _ => Ok(false),
            }
        }
        Verdict::Broken { .. } => Ok(false),
    }
}

#[test]
fn each_forgery_has_its_verdict(rt: HostRuntime) -> Result<(), Fail> {
    for (line, new, wanted) in FORGERIES {
        let text = forged(rt.alloc(), line, new)?;
        assert!(rt; is_judged(rt.alloc(), text.as_str(), wanted)?);
    }
    Ok(())
}

#[test]
fn the_run_commits_on_the_fast_path(rt: HostRuntime) -> Result<(), Fail> {
    let run = read(rt.alloc(), TRACE)?;
    assert!(rt; commits_fast(rt.alloc(), &run)?);
    Ok(())
}
