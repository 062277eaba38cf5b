//! Traces that are refused, and traces that are read, whole and in pieces.
use mk_trace::*;
use std::test::*;

/// The trace of one attempt that writes one key.
const TRACE: &str =
    "meerkat-trace 1\nsize 1\nclient a 0\nkey x\nround 1\ncolumn 0\nbegin a.1 0\nstamp a.1 10 x=5\n\
     validate a.1\ntake 1\nkey 0 x checkwrite 10.1 ok\ntake 4\ntake 2\nkey 1 x checkwrite 10.1 ok\ntake 5\ntake 3\n\
     key 2 x checkwrite 10.1 ok\ntake 6\nrule a.1\ntake 7\nkey 0 x commitwrite 10.1 5\ntake 8\n\
     key 1 x commitwrite 10.1 5\ntake 9\nkey 2 x commitwrite 10.1 5\ncell 0 x\n0 checkwrite 10.1 ok\n\
     0 commitwrite 10.1 5\ncell 1 x\n0 checkwrite 10.1 ok\n0 commitwrite 10.1 5\ncell 2 x\n0 checkwrite 10.1 ok\n\
     0 commitwrite 10.1 5\nend\n";

const HEAD: &str = "meerkat-trace 1\nsize 1\nclient a 0\nclient b 1\nkey x\nround 1\n";

const HEAD_2: &str = "meerkat-trace 2\nsize 1\nclient a 0\nkey x\nround 1\n";

/// Why these bytes are refused, fed in pieces of this size: the line and its fault.
fn refusal(rt: &HostRuntime, bytes: &[u8], size: usize) -> Result<Option<(u64, TextFault)>, Fail> {
    let mut reader = TraceReader::new(rt.alloc());
    for piece in bytes.chunks(size.max(1)) {
        reader.feed(piece)?;
    }
    match reader.finish() {
        Ok(()) => Ok(None),
        Err(TraceError::BadLine { line, why }) => Ok(Some((line, why))),
        Err(TraceError::NoMemory) => Ok(Some((0, TextFault::Cut))),
    }
}

/// Whether the bytes are refused so, in pieces of each of these sizes and as a whole.
fn is_refused(
    rt: &HostRuntime,
    bytes: &[u8],
    wanted: Option<(u64, TextFault)>,
) -> Result<bool, Fail> {
    for size in [1, 7, 4096] {
        if refusal(rt, bytes, size)? != wanted {
            return Ok(false);
        }
    }
    let whole = match read_trace(rt.alloc(), bytes) {
        Ok(_) => None,
        Err(TraceError::BadLine { line, why }) => Some((line, why)),
        Err(TraceError::NoMemory) => return Ok(false),
    };
    Ok(whole == wanted)
}

/// The first lines of the trace.
fn front(lines: u64) -> &'static str {
    let mut left = lines;
    for (i, b) in TRACE.bytes().enumerate() {
        if left == 0 {
            return TRACE.get(..i).unwrap_or(TRACE);
        }
        if b == b'\n' {
            left -= 1;
        }
    }
    TRACE
}

// How many lines of the trace stand in front, the first faulty line, its fault, and lines that have it.
const CHANGED: [(u64, u64, TextFault, &str); 44] = [
    (
        0,
        1,
        TextFault::Unknown,
        "meerkat-trace 3|meerkat-trace 01|meerkat-trace x",
    ),
    (
        0,
        1,
        TextFault::Form,
        "foo|meerkat-trace|meerkat-trace 1 1|",
    ),
    (0, 1, TextFault::Order, "size 1"),
    (1, 2, TextFault::Large, "size 4"),
    (2, 3, TextFault::Name, "client A 8"),
    (2, 3, TextFault::Large, "client a 8"),
    (3, 4, TextFault::Twice, "client a 0"),
    (3, 4, TextFault::Order, "key 0 x get 0.0 0"),
    (3, 4, TextFault::Form, "|# c|key 0 x|key 0 x foo"),
    (
        4,
        5,
        TextFault::Order,
        "round 01|round 2|round x|client b 0|end",
    ),
    (
        5,
        6,
        TextFault::Large,
        "column 1|column 9|column 99999999999999999999",
    ),
    (5, 6, TextFault::Number, "column x|column 00"),
    (
        6,
        7,
        TextFault::Order,
        "begin a.2 0|begin a.01 0|begin b.2 0|begin a.0 0|column 0|cell 0 x|end",
    ),
    (6, 7, TextFault::Unknown, "begin b.1 0"),
    (6, 7, TextFault::Name, "begin B.1 0"),
    (6, 7, TextFault::Large, "begin a.1 3"),
    (
        6,
        7,
        TextFault::Form,
        "begin a1 0|begin a.1|unread a|read a.1",
    ),
    (
        7,
        8,
        TextFault::Number,
        "stamp a.1 10 X=y|stamp a.1 10 x=5=6|stamp a.1 10 x=none",
    ),
    (7, 8, TextFault::Name, "stamp a.1 10 X=5"),
    (7, 8, TextFault::Unknown, "stamp a.1 10 y=5|read a.1 y"),
    (7, 8, TextFault::Form, "stamp a.1 10 x|stamp a.1"),
    (
        7,
        8,
        TextFault::Large,
        "stamp A.0 10 x=5|stamp a.16385 10 x=5|stamp a.1 2305843009213693953",
    ),
    (9, 10, TextFault::Large, "take 0|take 18446744073709551616"),
    (9, 10, TextFault::Number, "take 01"),
    (10, 11, TextFault::Order, "key x"),
    (
        10,
        11,
        TextFault::Form,
        "key 0 x|key 0 x 5|key 0 x checkwrite 10.1 write-late|key 0 x checkwrite 10.1 write-late 22",
    ),
    (
        10,
        11,
        TextFault::Large,
        "key 3 y checkwrite 10.1 ok|key 3 x checkwrite 10.1 ok",
    ),
    (
        10,
        11,
        TextFault::Unknown,
        "key 0 x checkwrite 10.1 ok 2.2|key 0 x checkwrite 10.1 read-stale 22.1|key 0 y checkwrite 10.1 ok",
    ),
    (25, 26, TextFault::Large, "cell 3 x"),
    (25, 26, TextFault::Unknown, "cell 0 y"),
    (25, 26, TextFault::Name, "cell 0 X"),
    (
        27,
        28,
        TextFault::Number,
        "01 commitwrite 10.1 5|0x commitwrite 10.1 5|0 commitwrite 10.1.2 5|0 commitwrite 4611686018427387905.x 5|0 commitwrite 10.1 none",
    ),
    (
        27,
        28,
        TextFault::Large,
        "1 commitwrite 10.1 5|0 commitwrite 10.65 5",
    ),
    (
        27,
        28,
        TextFault::Form,
        "x commitwrite 10.1 5|0 foo 10.1 5|0 commitwrite 101 5",
    ),
    (28, 29, TextFault::Order, "cell 0 x|column 0"),
    (28, 29, TextFault::Unknown, "cell 0 y"),
    (5, 7, TextFault::Order, "column 0\ncolumn 0"),
    (5, 8, TextFault::Order, "cell 0 x\n0 get 0.0 0\ncolumn 0"),
    (34, 35, TextFault::Order, "column 0"),
    (34, 36, TextFault::Order, "global\nend|global\nglobal"),
    (34, 37, TextFault::Order, "global\nask 1\nglobal"),
    (
        34,
        36,
        TextFault::Form,
        "global\nask 1 ok|global\npromise 1 1 unmade|global\nmerge 1 ok|global\nenter 1 ok",
    ),
    (
        34,
        36,
        TextFault::Large,
        "global\nmerge 1 short 8|global\nmerge 1 old 1001|global\nwipe 3|global\nask 0",
    ),
    (34, 35, TextFault::Byte, "end\u{7f}"),
];

#[test]
fn refused_lines(rt: HostRuntime) -> Result<(), Fail> {
    for (lines, line, fault, lasts) in CHANGED {
        let head = front(lines);
        for last in lasts.split('|') {
            let text = format!(in rt.alloc(); "{head}{last}\n")?;
            if !is_refused(&rt, text.as_bytes(), Some((line, fault)))? {
                assert!(rt; false);
            }
        }
    }
    Ok(())
}

// What stands in front, the first faulty line, its fault, and lines that have it.
const REFUSED: [(&str, u64, TextFault, &str); 20] = [
    ("meerkat-trace 1\nsize 1\n", 3, TextFault::Order, "end"),
    (
        "meerkat-trace 1\nsize 1\nround 1\n",
        4,
        TextFault::Large,
        "column 0",
    ),
    (
        HEAD,
        9,
        TextFault::Order,
        "column 0\nunread a.1\ncolumn 0|column 1\nunread b.1\ncolumn 0",
    ),
    (
        HEAD,
        9,
        TextFault::Number,
        "column 0\nunread a.1\ncolumn 00|column 0\nunread a.1\ncolumn x",
    ),
    (HEAD, 9, TextFault::Large, "column 0\nunread a.1\ncolumn 2"),
    (HEAD, 9, TextFault::Order, "cell 1 x\n0 get 0.0 0\ncell 0 y"),
    (
        HEAD,
        9,
        TextFault::Unknown,
        "cell 1 x\n0 get 0.0 0\ncell 1 y",
    ),
    (HEAD, 9, TextFault::Large, "cell 1 x\n0 get 0.0 0\ncell 3 x"),
    (HEAD, 9, TextFault::Order, "cell 1 x\n0 get 0.0 0\ncolumn 0"),
    (
        HEAD,
        8,
        TextFault::Order,
        "column 0\n0 get 0.0 0|cell 0 x\nunread a.1",
    ),
    (HEAD, 8, TextFault::Large, "column 0\nvalidate a.16385"),
    (HEAD_2, 7, TextFault::Form, "cell 0 x\n0 get none 0"),
    (
        HEAD_2,
        7,
        TextFault::Number,
        "cell 0 x\n0 get 0.0 nones|global\nmerge 1 ok none 0",
    ),
    (TRACE, 36, TextFault::Order, "take 1|end"),
    (TRACE, 36, TextFault::Form, "|foo"),
    ("", 2, TextFault::Order, "meerkat-trace 1"),
    (HEAD, 8, TextFault::Order, "round 2"),
    (
        HEAD,
        22,
        TextFault::Many,
        "round 2\nround 3\nround 4\nround 5\nround 6\nround 7\nround 8\nround 9\nround 10\nround 11\nround 12\nround 13\nround 14\nround 15\nround 16\nround 17",
    ),
    (
        HEAD,
        22,
        TextFault::Order,
        "round 2\nround 3\nround 4\nround 5\nround 6\nround 7\nround 8\nround 9\nround 10\nround 11\nround 12\nround 13\nround 14\nround 15\nround 16\nround 18",
    ),
    (HEAD, 7, TextFault::Byte, "foo\t"),
];

#[test]
fn refused_texts(rt: HostRuntime) -> Result<(), Fail> {
    for (head, line, fault, lasts) in REFUSED {
        for last in lasts.split('|') {
            let text = format!(in rt.alloc(); "{head}{last}\n")?;
            if !is_refused(&rt, text.as_bytes(), Some((line, fault)))? {
                assert!(rt; false);
            }
        }
    }
    Ok(())
}

// Traces that are read.
const READ: [&str; 8] = [
    TRACE,
    "meerkat-trace 1\nsize 1\nround 1\nend\n",
    "meerkat-trace 1\nsize 1\nround 1\nround 2\nend\n",
    "meerkat-trace 1\nsize 1\nclient a 0\nclient b 1\nkey x\nround 1\ncolumn 0\nbegin a.1 0\nend\n",
    "meerkat-trace 1\nsize 1\nclient a 0\nkey x\nround 1\ncolumn 0\nvalidate a.16384\nend\n",
    "meerkat-trace 2\nsize 1\nclient a 0\nkey x\nround 1\ncell 0 x\n0 get 0.0 none\nend\n",
    "meerkat-trace 1\nsize 1\nclient a 0\nkey x\nround 1\ncolumn 0\nunread a.1\nstamp a.1 10\nkey 0 x checkread 10.1 0.0 read-stale 3.4\n\
     takeover a.1 3\npick a.1 3\nrule a.1\nagain a.1\nstop a.1\nread a.1 x\nround 2\ncolumn 0\nunread a.2\nglobal\nwipe 0\nask 1\npromise 1 1 ok\n\
     promise 1 1 old 3\nmerge 1 ok 1 0\nmerge 1 short 2\nmerge 1 lacking\nadopt 1 0 unmade\nadopt 1 0 word-fault\nenter 1 ok 2\nenter 1 short 1\nend\n",
    "meerkat-trace 1\nsize 1\nclient a 0\nkey x\nkey y\nround 1\ncell 0 x\n0 commitread 1.1\n0 releaseread 1.1\ncell 0 y\n0 releasewrite 1.1\n\
     cell 2 x\n0 checkread 1.1 0.0 ok\nend\n",
];

#[test]
fn read_texts(rt: HostRuntime) -> Result<(), Fail> {
    for text in READ {
        if !is_refused(&rt, text.as_bytes(), None)? {
            assert!(rt; false);
        }
    }
    Ok(())
}

#[test]
fn cut_and_short_texts(rt: HostRuntime) -> Result<(), Fail> {
    let bytes = TRACE.as_bytes();
    let cut = &bytes[..bytes.len() - 1];
    assert!(rt; is_refused(&rt, cut, Some((35, TextFault::Cut)))?);
    let short = front(34).as_bytes();
    assert!(rt; is_refused(&rt, short, Some((35, TextFault::Order)))?);
    assert!(rt; is_refused(&rt, b"", Some((1, TextFault::Order)))?);
    Ok(())
}

// The traces of READ, and those of other runs, are written as they were read.
#[test]
fn written_texts(rt: HostRuntime) -> Result<(), Fail> {
    for text in READ {
        let run = read_trace(rt.alloc(), text.as_bytes())?;
        let written = write_trace(rt.alloc(), &run)?;
        assert!(rt; written.as_slice() == text.as_bytes());
    }
    Ok(())
}

#[test]
fn rounds_are_handed_out(rt: HostRuntime) -> Result<(), Fail> {
    let mut reader = TraceReader::new(rt.alloc());
    reader.feed(b"meerkat-trace 1\nsize 1\nclient a 0\nround")?;
    assert!(rt; reader.head().is_none() && reader.take_round().is_none());
    reader.feed(b" 1\ncolumn 0\nunread a.1\n")?;
    assert!(rt; reader.head().is_some() && reader.take_round().is_none());
    reader.feed(b"round 2\nround 3\nfoo\n")?;
    assert!(rt; reader.take_round().is_some() && reader.take_round().is_some());
    assert!(rt; reader.take_round().is_none() && reader.head().is_some());
    let refused = reader.finish();
    assert!(rt;
        refused
            == Err(TraceError::BadLine {
                line: 9,
                why: TextFault::Form
            })
    );
    Ok(())
}
