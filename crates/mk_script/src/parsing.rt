//! A script from its text.
ghost use Rattle.std.specs.Prelude.{◌≡◌, IfOk, Ok};
ghost use Rattle.mk_spelling.specs.Lines.{next_number};
ghost use Rattle.mk_script.specs.Scripts.{ScriptParts};
ghost use Rattle.mk_script.specs.Texts.{IsScript};
ghost use Rattle.mk_script.specs.Whole.{IsWhole};
ghost use Rattle.mk_script.specs.Parsed.{Answers, error_at, state_text, script_text};

use crate::error::LineError;
use crate::reader::Reader;
use crate::script::Script;
use mk_text::{TextFault, cut};
use mk_txn::NoMemory;
use std::alloc::Global;
use thiserror::Error;

/// Why a script was not read.
#[derive(Debug, Drop, Error)]
pub enum ScriptError {
    #[error("out of memory")]
    NoMemory,
    /// The first faulty line, counted from 1, and its first fault.
    #[error("line {line}: {why}")]
    Refused { line: u64, why: TextFault },
}

impl From<NoMemory> for ScriptError {
    ghost use Rattle.mk_script.specs.declared.parsing.ScriptError.TheVariants as refusals;

    ghost from_gives = { λ _ e. e ≡ refusals.NoMemory };

    fn from(_: NoMemory) -> ScriptError {
        ScriptError::NoMemory
    }
}

fn refused(line: u64, error: LineError) -> ScriptError
    ensures { result ≡ error_at line error }
{
    match error {
        LineError::Memory => ScriptError::NoMemory,
        LineError::Fault(why) => ScriptError::Refused { line, why },
    }
}

/// The number of the line behind this one.
fn next_line(number: u64) -> u64
    ensures { result ≡ next_number number }
{
    if number < u64::MAX {
        number + 1
    } else {
        number
    }
}

/// The script that the bytes stand for, or the first faulty line and its first fault.
pub fn parse(alloc: Global, bytes: &[u8]) -> Result<Script, ScriptError>
    // What is read stands in the grammar.
    ensures found { IfOk result (λ s. IsScript bytes.now s) }
    // It keeps the rules of the format.
    ensures whole { IfOk result (λ s. IsWhole s) }
    // What stands in the grammar is read, unless memory runs out.
    ensures only { (s : ScriptParts) → IsScript bytes.now s → Answers result (Ok s) }
    // Which line is refused, and why.
    ensures exact { Answers result (script_text bytes.now) }
{
    read_script(alloc, bytes)
}

fn read_script(alloc: Global, bytes: &[u8]) -> Result<Script, ScriptError>
    ensures { Answers result (script_text bytes.now) }
{
    let reader = read(alloc, bytes)?;
    Ok(reader.script()?)
}

fn read(alloc: Global, bytes: &[u8]) -> Result<Reader, ScriptError>
    ensures { Answers result (state_text bytes.now) }
{
    let mut reader = Reader::new(alloc);
    let mut number: u64 = 1;
    let mut left = bytes;
    'line: while let Some((line, rest)) = cut(b'\n', left) {
        if let Err(error) = reader.line(line) {
            return Err(refused(number, error));
        }
        number = next_line(number);
        left = rest;
    }
    if !left.is_empty() {
        return Err(refused(number, LineError::Fault(TextFault::Cut)));
    }
    match reader.end() {
        Ok(()) => Ok(reader),
        Err(error) => Err(refused(number, error)),
    }
}
