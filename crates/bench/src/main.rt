//! The benchmark: does one thing so many times to what it reads, and prints what that came to. It reads no clock; `tools/bench.py`
//! runs it and measures.
#![tactic(auto)]

mod columns;
mod lane;
mod legal;
mod ready;
mod runs;
mod scripts;
mod texts;
mod word;

use crate::word::Word;
use mk_io::{StdSink, StdSource, read_whole, write_whole};
use mk_text::number;
use std::alloc::Global;
use std::io::Input;
use std::process::ExitCode;
use std::rt::Env;
use std::sync::Wait;
use std::thread::Threads;
use std::{env, io};

/// The bytes read at the most.
const LIMIT: usize = 268_435_456;

/// The first word and the number behind it: what is done, and how many times.
fn asked<R: Env + AllocGlobal>(rt: &R) -> Option<(String, u32)> {
    let mut args = env::args(rt).ok()?;
    let _program = args.next();
    let word = args.next()?;
    let times = args.next()?;
    let times = number(times.as_bytes(), 0, 1_000_000).ok()?;
    Some((word, times as u32))
}

/// Does so many times what the word says, and tells what it came to once. None where the bytes are no text of the word.
fn done<R: Threads + Wait + Sync>(
    rt: &R,
    alloc: Global,
    word: Word,
    times: u32,
    bytes: &[u8],
) -> Option<usize> {
    match word {
        Word::Text(word) => texts::repeat(alloc, word, times, bytes),
        Word::Script(word) => scripts::repeat(rt, alloc, word, times, bytes),
        Word::Run(word) => runs::repeat(alloc, word, times, bytes),
        Word::Legal(word) => legal::repeat(alloc, word, times, bytes),
    }
}

/// Prints the script of a load of so many transactions.
fn print_load<R: Print + AllocGlobal>(rt: &R, txns: u32) -> Option<()> {
    let text = scripts::load(rt.alloc(), txns)?;
    write_whole(&mut StdSink::new(io::writer(rt)), text.as_slice()).ok()
}

/// Prints what the word came to on the text that is read.
fn print_count<R: Print + Input + AllocGlobal + Threads + Wait + Sync>(
    rt: &R,
    word: &[u8],
    times: u32,
) -> Option<()> {
    let word = Word::named(word)?;
    let bytes = read_whole(rt.alloc(), &mut StdSource::new(rt.reader()), LIMIT).ok()?;
    let count = done(rt, rt.alloc(), word, times, bytes.as_slice())?;
    println!(rt; "{count}").ok()
}

fn main(rt: HostRuntime) -> ExitCode {
    let Some((word, times)) = asked(&rt) else {
        let _ = println!(rt; "usage: bench WORD TIMES < TEXT");
        return ExitCode::from(1);
    };
    let printed = match word.as_bytes() {
        b"load" => print_load(&rt, times),
        word => print_count(&rt, word, times),
    };
    match printed {
        Some(()) => ExitCode::from(0),
        None => ExitCode::from(2),
    }
}
