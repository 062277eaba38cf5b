//! One trace that is checked in pieces, and calls whose source or sink fails.
ghost use Rattle.std.specs.Prelude.{◌<◌};

use mk_io::{MemSink, MemSource};
use mk_tool::{TextFault, ToolDone, Verdict, Why, tool_top};
use std::alloc::Global;
use std::test::Fail;

/// A run without attempts, in 35 bytes.
fn empty() -> &'static [u8] {
    b"meerkat-trace 1\nsize 1\nround 1\nend\n"
}

fn empty_verdict() -> &'static [u8] {
    b"legal 0 0 0\n"
}

/// The call with this word over a trace in memory, of which each call gives at most `piece` bytes and the call
/// `failing` fails.
fn call(
    alloc: Global,
    word: &str,
    trace: &[u8],
    piece: u32,
    failing: u32,
    sink: &mut MemSink,
) -> Result<ToolDone, Fail>
    requires { 0 < piece }
{
    let words = vec![in alloc; String::from_str(alloc, word)?]?;
    let mut source = MemSource::new(alloc, trace, piece, &[failing])?;
    Ok(tool_top(alloc, words.as_slice(), &mut source, sink))
}

#[test]
fn a_trace_is_checked_in_any_pieces(rt: HostRuntime) -> Result<(), Fail> {
    for piece in [1u32, 7, 4096] {
        let mut sink = MemSink::new(rt.alloc(), piece.max(1), &[])?;
        let done = call(rt.alloc(), "check", empty(), piece.max(1), 0, &mut sink)?;
        assert!(rt; done.status == 0 && done.why.is_none() && done.verdict == Some(Verdict::Legal));
        assert!(rt; sink.bytes() == empty_verdict());
    }
    Ok(())
}

// The source gives its 35 bytes in 6 calls, and a seventh tells its end.
#[test]
fn each_call_of_the_source_may_fail(rt: HostRuntime) -> Result<(), Fail> {
    for failing in 1..8 {
        let mut sink = MemSink::new(rt.alloc(), 5, &[])?;
        let done = call(rt.alloc(), "check", empty(), 6, failing, &mut sink)?;
        assert!(rt;
            done.status == 3 && done.why == Some(Why::SourceFault) && done.verdict.is_none()
        );
        assert!(rt; sink.bytes().is_empty());
    }
    Ok(())
}

// The verdict has 12 bytes, which the sink takes in 3 calls.
#[test]
fn each_call_of_the_sink_may_fail(rt: HostRuntime) -> Result<(), Fail> {
    for failing in 1..4 {
        let mut sink = MemSink::new(rt.alloc(), 5, &[failing])?;
        let done = call(rt.alloc(), "check", empty(), 100, 0, &mut sink)?;
        assert!(rt;
            done.status == 5
                && done.why == Some(Why::SinkFault)
                && done.verdict == Some(Verdict::Legal)
        );
        assert!(rt; sink.bytes().len() == 5 * (failing as usize - 1));
    }
    Ok(())
}

#[test]
fn other_words_and_other_bytes_are_refused(rt: HostRuntime) -> Result<(), Fail> {
    let mut sink = MemSink::new(rt.alloc(), 5, &[])?;
    let usage = call(rt.alloc(), "at", empty(), 100, 0, &mut sink)?;
    assert!(rt; usage.status == 1 && usage.why == Some(Why::Usage));
    let cut = call(rt.alloc(), "check", b"meerkat-trace 1", 100, 0, &mut sink)?;
    let why = Why::Refused {
        line: 1,
        why: TextFault::Cut,
    };
    assert!(rt; cut.status == 8 && cut.why == Some(why));
    assert!(rt; sink.bytes().is_empty());
    Ok(())
}

/// The call with these two words over a trace in memory.
fn ask(
    alloc: Global,
    word: &str,
    other: &str,
    trace: &[u8],
    sink: &mut MemSink,
) -> Result<ToolDone, Fail> {
    let words = vec![in alloc;
        String::from_str(alloc, word)?,
        String::from_str(alloc, other)?,
    ]?;
    let mut source = MemSource::new(alloc, trace, 100, &[0])?;
    Ok(tool_top(alloc, words.as_slice(), &mut source, sink))
}

#[test]
fn the_past_is_told_and_a_missing_attempt_is_not(rt: HostRuntime) -> Result<(), Fail> {
    let mut sink = MemSink::new(rt.alloc(), 5, &[])?;
    let past = ask(rt.alloc(), "at", "10.1", empty(), &mut sink)?;
    assert!(rt; past.status == 0 && past.why.is_none() && past.verdict == Some(Verdict::Legal));
    assert!(rt; sink.bytes() == b"at 10.1 0\n".as_slice());
    let missing = ask(rt.alloc(), "why", "a.1", empty(), &mut sink)?;
    assert!(rt;
        missing.status == 10
            && missing.why == Some(Why::NoAttempt)
            && missing.verdict == Some(Verdict::Legal)
    );
    let usage = ask(rt.alloc(), "why", "a.0", empty(), &mut sink)?;
    assert!(rt; usage.status == 1 && usage.why == Some(Why::Usage));
    assert!(rt; sink.bytes() == b"at 10.1 0\n".as_slice());
    Ok(())
}
