//! Numbers, words and names, and how faults are shown.
use mk_text::*;
use std::test::*;

#[test]
fn numbers_from_the_left(rt: HostRuntime) {
    let cases: [(&[u8], u64, Result<u64, TextFault>); 7] = [
        (b"0", 7, Ok(0)),
        (b"7", 7, Ok(7)),
        (b"8", 7, Err(TextFault::Large)),
        (b"07", 7, Err(TextFault::Number)),
        (b"", 7, Err(TextFault::Number)),
        (b"18446744073709551615", u64::MAX, Ok(u64::MAX)),
        (b"18446744073709551616", u64::MAX, Err(TextFault::Large)),
    ];
    for (word, high, answer) in cases {
        assert!(rt; number(word, 0, high) == answer);
    }
}

#[test]
fn words_of_a_line(rt: HostRuntime) {
    assert!(rt; look(b"a  b").empty_word && look(b"a ").empty_word && !look(b"a b").empty_word);
    assert!(rt; look(b" ~").printable && !look(b"a\tb").printable && !look(b"\x7f").printable);
    assert!(rt; five(Some(b"a b c d e")).is_some() && five(Some(b"a b c d")).is_none());
    assert!(rt; two_then(Some(b"a b c d")).is_some() && two_then(Some(b"a b")).is_none());
    assert!(rt; is_name(b"a_0") && !is_name(b"A") && !is_name(b"abcdefghijklmnopq"));
}

const SHOWN: [(TextFault, &str); 10] = [
    (TextFault::Cut, "cut"),
    (TextFault::Byte, "byte"),
    (TextFault::Form, "form"),
    (TextFault::Order, "order"),
    (TextFault::Number, "number"),
    (TextFault::Large, "large"),
    (TextFault::Name, "name"),
    (TextFault::Unknown, "unknown"),
    (TextFault::Many, "many"),
    (TextFault::Twice, "twice"),
];

#[test]
fn faults_in_lower_case(rt: HostRuntime) -> Result<(), Fail> {
    for (fault, word) in SHOWN {
        let text = format!(in rt.alloc(); "{fault}")?;
        assert!(rt; text.as_str() == word);
    }
    Ok(())
}
