//! The program `meerkat`: hands the words, the standard input and the standard output to the call of its first word, says
//! in one line on standard error why it failed, and ends with its status.
#![tactic(auto)]

use mk_ending::Why;
use mk_io::{StdSink, StdSource, SureWord};
use mk_lock::NoGate;
use mk_proc::{Proc, ProcKind, Procs, add, max, sum};
use mk_tool::tool_top;
use mk_top::{Done, run_top};
use std::process::ExitCode;
use std::rt::Env;
use std::{env, io};

/// The words behind the program's name.
fn words_of<R: Env + AllocGlobal>(rt: &R) -> io::Result<Vec<String>> {
    let mut args = env::args(rt)?;
    let _ = args.next();
    let mut words = Vec::new(rt.alloc());
    for word in args {
        words.push(word)?;
    }
    Ok(words)
}

fn ended(rt: &impl Eprint, status: u8, why: Option<Why>) -> ExitCode {
    if let Some(why) = why {
        let _ = eprintln!(rt; "{why}");
    }
    ExitCode::from(status)
}

fn refused(rt: &impl Eprint, why: Why) -> ExitCode {
    let done = Done::refused(why);
    ended(rt, done.status, done.why)
}

/// Whether the first word is one of the call that reads traces.
fn reads_trace(words: &[String]) -> bool {
    match words {
        [first, ..] => matches!(first.as_str(), "check" | "at" | "why"),
        [] => false,
    }
}

fn main(rt: HostRuntime) -> ExitCode {
    let words = match words_of(&rt) {
        Ok(words) => words,
        Err(error) if error.kind() == io::ErrorKind::OutOfMemory => {
            return refused(&rt, Why::NoMemory);
        }
        // A word that is no text.
        Err(_) => return refused(&rt, Why::Usage),
    };
    let mut source = StdSource::new(rt.reader());
    let mut sink = StdSink::new(io::writer(&rt));
    if reads_trace(words.as_slice()) {
        let done = tool_top(rt.alloc(), words.as_slice(), &mut source, &mut sink);
        return ended(&rt, done.status, done.why);
    }
    let procs = Procs::new(
        Proc::new(ProcKind::Add, add),
        Proc::new(ProcKind::Sum, sum),
        Proc::new(ProcKind::Max, max),
    );
    let mut epoch_words = [
        SureWord::new(),
        SureWord::new(),
        SureWord::new(),
        SureWord::new(),
        SureWord::new(),
        SureWord::new(),
        SureWord::new(),
    ];
    let done = run_top(
        &rt,
        rt.alloc(),
        words.as_slice(),
        &mut source,
        &mut sink,
        &mut epoch_words,
        &procs,
        &NoGate,
    );
    ended(&rt, done.status, done.why)
}
