//! Sources, sinks and words in memory and over the standard library, of which some calls fail.
ghost use Rattle.std.specs.Prelude.{◌<◌};

use mk_io::*;
use std::alloc::Global;
use std::io;
use std::io::Read;
use std::test::*;

const LIMIT: usize = 4_194_304;

fn script() -> &'static [u8] {
    b"meerkat 1\nsize 1\nclient a 0 0\ntxn a 10 r:x w:x=5\n"
}

fn report() -> &'static [u8] {
    b"a.1 @10.1 commit fast r:x@0.0=0 w:x=5\nstore x 10.1 5\nend 1 0 0\n"
}

// What a reading of a source in memory gives, of which each call gives at most `piece` bytes and the call `failing` fails.
fn read(alloc: Global, bytes: &[u8], piece: u32, failing: u32) -> Result<Vec<u8>, ReadError>
    requires { 0 < piece }
{
    match MemSource::new(alloc, bytes, piece, &[failing]) {
        Ok(mut source) => read_whole(alloc, &mut source, LIMIT),
        Err(_) => Err(ReadError::NoMemory),
    }
}

// The script of 49 bytes is read in eight calls of 7 bytes, of which the last finds the end.
#[test]
fn a_failed_read_is_a_fault(rt: HostRuntime) -> Result<(), Fail> {
    for call in 1u32..10 {
        match read(rt.alloc(), script(), 7, call) {
            Ok(bytes) => assert!(rt; call == 9 && bytes.as_slice() == script()),
            Err(error) => assert!(rt; call < 9 && error == ReadError::Fault),
        }
    }
    Ok(())
}

// Three turns of the buffer.
#[test]
fn a_long_source_is_read_whole(rt: HostRuntime) -> Result<(), Fail> {
    let mut long = Vec::new(rt.alloc());
    long.resize(20_000, b'x')?;
    for piece in [7u32, 8192, 20_000] {
        match read(rt.alloc(), long.as_slice(), piece.max(1), 0) {
            Ok(bytes) => assert!(rt; bytes.as_slice() == long.as_slice()),
            Err(_) => assert!(rt; false),
        }
    }
    let mut sink = MemSink::new(rt.alloc(), 8192, &[])?;
    assert!(rt; write_whole(&mut sink, long.as_slice()).is_ok());
    assert!(rt; sink.bytes() == long.as_slice());
    Ok(())
}

// The report of 63 bytes is written in thirteen calls of 5 bytes.
#[test]
fn a_failed_write_leaves_a_prefix(rt: HostRuntime) -> Result<(), Fail> {
    for call in 1u32..15 {
        let mut sink = MemSink::new(rt.alloc(), 5, &[call])?;
        let written = write_whole(&mut sink, report());
        assert!(rt; written.is_ok() == (call == 14));
        let count = (5 * (call as usize - 1)).min(63);
        assert!(rt; sink.bytes().len() == count && report().starts_with(sink.bytes()));
    }
    Ok(())
}

#[test]
fn a_source_may_have_as_many_bytes_as_the_limit(rt: HostRuntime) {
    for (limit, is_read) in [(49usize, true), (48, false)] {
        match read_whole(rt.alloc(), &mut SureSource::new(script()), limit) {
            Ok(bytes) => assert!(rt; is_read && bytes.as_slice() == script()),
            Err(error) => assert!(rt; !is_read && error == ReadError::TooLong),
        }
    }
}

#[test]
fn a_failed_set_leaves_the_word(rt: HostRuntime) -> Result<(), Fail> {
    let mut word = MemWord::new(rt.alloc(), &[2])?;
    let mut sure = SureWord::new();
    for (value, is_set, kept) in [(1u32, true, 1u32), (2, false, 1), (3, true, 3)] {
        assert!(rt; word.set(value).is_ok() == is_set && word.get() == kept);
        assert!(rt; sure.set(value).is_ok() && sure.get() == value);
    }
    Ok(())
}

// A reader of which no call succeeds.
#[derive(Drop)]
struct Broken;

impl Read for Broken {
    fn read(&mut self, _buf: &mut [u8]) -> io::Result<usize> {
        Err(io::Error::from(io::ErrorKind::BrokenPipe))
    }
}

#[test]
fn readers_of_the_standard_library(rt: HostRuntime) {
    match read_whole(rt.alloc(), &mut StdSource::new(script()), LIMIT) {
        Ok(bytes) => assert!(rt; bytes.as_slice() == script()),
        Err(_) => assert!(rt; false),
    }
    match read_whole(rt.alloc(), &mut StdSource::new(Broken), LIMIT) {
        Ok(_) => assert!(rt; false),
        Err(error) => assert!(rt; error == ReadError::Fault),
    }
}

#[test]
fn writers_of_the_standard_library(rt: HostRuntime) {
    let mut held = Vec::new(rt.alloc());
    assert!(rt; write_whole(&mut StdSink::new(&mut held), report()).is_ok());
    assert!(rt; held.as_slice() == report());
    let mut none: [u8; 0] = [];
    assert!(rt; write_whole(&mut StdSink::new(&mut none[..]), report()).is_err());
    assert!(rt; write_whole(&mut SureSink::new(), report()).is_ok());
}
