//! A source read to its end, and a text written whole.
ghost use Rattle.std.specs.Prelude.{◌≡◌, ◌≢◌, ◌+◌, ◌≤◌, vec_len, IfOk, IfErr, OnOk, OnErr, IsErrOf};
ghost use Rattle.std.specs.Io.KnownBytes.{Appends};
ghost use Rattle.mk_io.specs.Faults.{HasRisen};
ghost use Rattle.mk_io.specs.Wholes.{TakesAll, TakesCount, TakesAtMost, AppendsPart};
ghost use Rattle.mk_io.specs.declared.whole.ReadError.TheVariants as errors;

use crate::{Failed, Sink, Source};
use std::alloc::{AllocError, Global};

/// Why a source was not read to its end.
#[derive(Clone, Copy, PartialEq, Eq)]
pub enum ReadError {
    /// A call of the source failed.
    Fault,
    /// The source has more bytes than the limit.
    TooLong,
    NoMemory,
}

impl From<Failed> for ReadError {
    ghost from_gives = { λ _ e. e ≡ errors.Fault };

    fn from(_: Failed) -> ReadError {
        ReadError::Fault
    }
}

impl From<AllocError> for ReadError {
    ghost from_gives = { λ _ e. e ≡ errors.NoMemory };

    fn from(_: AllocError) -> ReadError {
        ReadError::NoMemory
    }
}

// How many bytes a turn asks for at most.
const CHUNK: usize = 8192;

/// All the bytes of a source that has at most `limit`. It takes at most `limit + 1` bytes.
pub fn read_whole<S: Source>(
    alloc: Global,
    source: &mut S,
    limit: usize,
) -> Result<Vec<u8>, ReadError>
    ensures whole { IfOk result (λ bytes. TakesAll (S.left source.old) (S.left source.new) bytes.items) }
    ensures within { IfOk result (λ bytes. vec_len bytes ≤ limit) }

    // One byte more than the limit was taken, and at every other error no more than the limit.
    ensures too_long { IsErrOf result ReadError.TooLong → TakesCount (S.left source.old) (S.left source.new) (limit + 1) }
    ensures not_too_long { IfErr result (λ e. e ≢ ReadError.TooLong → TakesAtMost (S.left source.old) (S.left source.new) limit) }
    ensures no_fault { OnOk result (S.faults source.new ≡ S.faults source.old) }
    ensures fault { IsErrOf result ReadError.Fault → HasRisen (S.faults source.old) (S.faults source.new) }
    ensures never_falls { S.faults source.old ≤ S.faults source.new }
{
    let mut bytes = Vec::new(alloc);
    let mut buf = [0; CHUNK];
    loop {
        // One byte more than there is room for shows that the source has more.
        let room = limit - bytes.len();
        let size = if room < CHUNK { room + 1 } else { CHUNK };
        let count = source.read(&mut buf[..size])?;
        if count == 0 {
            return Ok(bytes);
        }
        if count > room {
            return Err(ReadError::TooLong);
        }
        bytes.extend_from_slice(&buf[..count])?;
    }
}

/// Appends the whole text, or a part of it from its front. It takes no memory.
pub fn write_whole<K: Sink>(sink: &mut K, text: &[u8]) -> Result<(), Failed>
    ensures ok { OnOk result (Appends (K.held sink.old) (K.held sink.new) text.now) }
    ensures err { OnErr result (AppendsPart (K.held sink.old) (K.held sink.new) text.now) }
    ensures no_fault { OnOk result (K.faults sink.new ≡ K.faults sink.old) }
    ensures fault { OnErr result (HasRisen (K.faults sink.old) (K.faults sink.new)) }
    ensures never_falls { K.faults sink.old ≤ K.faults sink.new }
{
    let mut rest = text;
    while !rest.is_empty() {
        let count = sink.write(rest)?;
        rest = &rest[count..];
    }
    Ok(())
}
