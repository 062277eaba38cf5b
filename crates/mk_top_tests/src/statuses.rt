//! How calls end that nothing fails.
use crate::calls::{NONE, ends_as};
use crate::rows::{first, two_workers, two_workers_report};
use std::alloc::Global;
use std::test::Fail;

// Words and a script, the status, and what is written.
const ENDINGS: [(&str, &str, u8, &str); 8] = [
    ("run", "meerkat 1\nsize 1\n", 0, "end 0 0 0\n"),
    (
        "run --trace",
        "meerkat 1\nsize 1\n",
        0,
        "meerkat-trace 1\nsize 1\nround 1\nend\n",
    ),
    (
        "run --json",
        "meerkat 1\nsize 1\n",
        0,
        "{\"aborts\":0,\"attempts\":[],\"commits\":0,\"globals\":[],\"opens\":0,\"store\":[]}\n",
    ),
    (
        "gen 1 1 0 1",
        "no script",
        0,
        "gen 1 1 0 1\nend 0 0 0\nstore 0 0\n",
    ),
    (
        "gen 1 8 500 64",
        "",
        0,
        "gen 1 8 500 64\nend 500 0 0\nstore 64 68079438080\n",
    ),
    ("run", "", 2, ""),
    ("run", "meerkat 1\nsize 1", 2, ""),
    (
        "run",
        "meerkat 1\nsize 1\nclient a 0 0\nfault vote a.1 1 1 lose\nfault vote a.1 2 1 lose\ntxn a 10 w:x=5\n",
        6,
        "a.1 @10.1 open short 1 w:x=5\nend 0 0 1\n",
    ),
];

#[test]
fn texts_are_written_whole(rt: HostRuntime) -> Result<(), Fail> {
    for (words, script, status, text) in ENDINGS {
        assert!(rt;
            ends_as(
                &rt,
                rt.alloc(),
                words,
                script.as_bytes(),
                NONE,
                status,
                text.as_bytes()
            )?,
            "{words}"
        );
    }
    Ok(())
}

// Words of no form.
const OTHERS: [&str; 16] = [
    "",
    "x",
    "run x",
    "run --trace x",
    "run --follow x",
    "Run",
    "--help",
    "--version",
    "trace",
    "gen",
    "gen 1 1 0",
    "gen 18446744073709551616 1 0 1",
    "gen 01 1 0 1",
    "gen 1 0 0 1",
    "gen 1 65 0 65",
    "gen 1 2 0 1",
];

#[test]
fn other_words_are_refused(rt: HostRuntime) -> Result<(), Fail> {
    for words in OTHERS {
        assert!(rt;
            ends_as(&rt, rt.alloc(), words, first(), NONE, 1, b"")?,
            "{words}"
        );
    }
    Ok(())
}

#[test]
fn two_workers_a_hundred_times(rt: HostRuntime) -> Result<(), Fail> {
    for time in 0..100 {
        assert!(rt;
            ends_as(
                &rt,
                rt.alloc(),
                "run",
                two_workers(),
                NONE,
                0,
                two_workers_report()
            )?,
            "time {time}"
        );
    }
    Ok(())
}

// The bytes of a script at the most.
const LIMIT: usize = 4_194_304;

// A script of so many bytes: two lines and a comment.
fn script_of(alloc: Global, bytes: usize) -> Result<Vec<u8>, Fail> {
    let mut script = Vec::from_slice(alloc, b"meerkat 1\nsize 1\n#")?;
    script.resize(bytes.saturating_sub(1), b'x')?;
    script.push(b'\n')?;
    Ok(script)
}

#[test]
fn the_longest_script(rt: HostRuntime) -> Result<(), Fail> {
    for (bytes, status, text) in [(LIMIT, 0, "end 0 0 0\n"), (LIMIT + 1, 4, "")] {
        let script = script_of(rt.alloc(), bytes)?;
        assert!(rt;
            ends_as(
                &rt,
                rt.alloc(),
                "run",
                script.as_slice(),
                NONE,
                status,
                text.as_bytes()
            )?,
            "{bytes}"
        );
    }
    Ok(())
}
