//! The report, the summary and the JSON of runs that were read.
use mk_report::{json_text, report_text, summary_text};
use mk_run::{Run, Verdict, check, outcomes};
use mk_trace::read_trace;
use std::alloc::Global;
use std::test::*;

const TRACE: &str =
    "meerkat-trace 1\nsize 1\nclient a 0\nkey x\nround 1\ncolumn 0\nbegin a.1 0\nstamp a.1 10 x=5\n\
     validate a.1\ntake 1\nkey 0 x checkwrite 10.1 ok\ntake 4\ntake 2\nkey 1 x checkwrite 10.1 ok\ntake 5\ntake 3\n\
     key 2 x checkwrite 10.1 ok\ntake 6\nrule a.1\ntake 7\nkey 0 x commitwrite 10.1 5\ntake 8\n\
     key 1 x commitwrite 10.1 5\ntake 9\nkey 2 x commitwrite 10.1 5\ncell 0 x\n0 checkwrite 10.1 ok\n\
     0 commitwrite 10.1 5\ncell 1 x\n0 checkwrite 10.1 ok\n0 commitwrite 10.1 5\ncell 2 x\n0 checkwrite 10.1 ok\n\
     0 commitwrite 10.1 5\nend\n";

// One attempt reads the key that it writes, and commits.
const READING: &str =
    "meerkat-trace 1\nsize 1\nclient a 0\nkey x\nround 1\ncolumn 0\nbegin a.1 0\nread a.1 x\nkey 0 x get 0.0 0\nstamp a.1 10 x=5\nvalidate a.1\n\
     take 1\nkey 0 x checkread 10.1 0.0 ok\nkey 0 x checkwrite 10.1 ok\ntake 4\n\
     take 2\nkey 1 x checkread 10.1 0.0 ok\nkey 1 x checkwrite 10.1 ok\ntake 5\n\
     take 3\nkey 2 x checkread 10.1 0.0 ok\nkey 2 x checkwrite 10.1 ok\ntake 6\n\
     rule a.1\n\
     take 7\nkey 0 x commitread 10.1\nkey 0 x commitwrite 10.1 5\n\
     take 8\nkey 1 x commitread 10.1\nkey 1 x commitwrite 10.1 5\n\
     take 9\nkey 2 x commitread 10.1\nkey 2 x commitwrite 10.1 5\n\
     cell 0 x\n0 get 0.0 0\n0 checkread 10.1 0.0 ok\n0 checkwrite 10.1 ok\n0 commitread 10.1\n0 commitwrite 10.1 5\n\
     cell 1 x\n0 checkread 10.1 0.0 ok\n0 checkwrite 10.1 ok\n0 commitread 10.1\n0 commitwrite 10.1 5\n\
     cell 2 x\n0 checkread 10.1 0.0 ok\n0 checkwrite 10.1 ok\n0 commitread 10.1\n0 commitwrite 10.1 5\n\
     end\n";

// Its JSON.
const JSON: &str =
    "{\"aborts\":0,\"attempts\":[{\"cause\":null,\"id\":\"a.1\",\"outcome\":\"commit\",\"path\":\"fast\",\
                    \"reads\":[{\"key\":\"x\",\"value\":0,\"version\":\"0.0\"}],\"stamp\":\"10.1\",\"writes\":[{\"key\":\"x\",\"value\":5}]}],\
                    \"commits\":1,\"globals\":[],\"opens\":0,\"store\":[{\"key\":\"x\",\"value\":5,\"version\":\"10.1\"}]}\n";

fn read(alloc: Global, text: &str) -> Result<Box<Run>, Fail> {
    match read_trace(alloc, text.as_bytes()) {
        Ok(run) => Ok(Box::new(alloc, run)?),
        Err(_) => Err("the text is no trace".into()),
    }
}

/// Whether the run is legal and has this report and this summary.
fn is_told(alloc: Global, run: &Run, report: &str, summary: &str) -> Result<bool, Fail> {
    match check(alloc, run)? {
        Verdict::Legal => {
            let lines = outcomes(alloc, run)?;
            let told = report_text(alloc, run, lines.as_slice())?;
            let summed = summary_text(alloc, run, lines.as_slice())?;
            Ok(told.as_slice() == report.as_bytes() && summed.as_slice() == summary.as_bytes())
        }
        Verdict::Broken { .. } => Ok(false),
    }
}

/// Whether the run is legal and has this JSON.
fn has_json(alloc: Global, run: &Run, json: &str) -> Result<bool, Fail> {
    match check(alloc, run)? {
        Verdict::Legal => {
            let lines = outcomes(alloc, run)?;
            let told = json_text(alloc, run, lines.as_slice())?;
            Ok(told.as_slice() == json.as_bytes())
        }
        Verdict::Broken { .. } => Ok(false),
    }
}

#[test]
fn a_run_is_told(rt: HostRuntime) -> Result<(), Fail> {
    let run = read(rt.alloc(), TRACE)?;
    let report = "a.1 @10.1 commit fast w:x=5\nstore x 10.1 5\nend 1 0 0\n";
    let summary = "end 1 0 0\nstore 1 5\n";
    assert!(rt; is_told(rt.alloc(), &run, report, summary)?);
    Ok(())
}

#[test]
fn a_run_as_json(rt: HostRuntime) -> Result<(), Fail> {
    let run = read(rt.alloc(), READING)?;
    assert!(rt; has_json(rt.alloc(), &run, JSON)?);
    Ok(())
}
