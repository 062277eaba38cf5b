//! Where a text is cut, and the words of a line.
ghost use Rattle.std.specs.Prelude.{◌≡◌, ◌<◌, suc, length, take, drop};
ghost use Rattle.std.specs.List.{list_any};
ghost use Rattle.mk_spelling.specs.Words as spec;
ghost use Rattle.mk_spelling.specs.Fields.{one_of, two_of, three_of, four_of, five_of, two_and_more};

use memchr::memchr;

/// What stands before the byte at this place, and what stands behind it.
fn around(place: usize, bytes: &[u8]) -> (&[u8], &[u8])
    requires { place < length bytes.now }
    ensures front { result.0.now ≡ take place bytes.now }
    ensures rest { result.1.now ≡ drop (suc place) bytes.now }
{
    let (front, back) = bytes.split_at(place);
    let (_, rest) = back.split_at(1);
    (front, rest)
}

/// What stands before the first such byte, and what stands behind it; None where there is none.
pub fn cut(mark: u8, bytes: &[u8]) -> Option<(&[u8], &[u8])>
    ensures { spec.seen result ≡ spec.cut mark bytes.now }
{
    let place = memchr(mark, bytes)?;
    Some(around(place, bytes))
}

/// The same for a text of few bytes, in which a search takes longer to begin than to end.
pub fn cut_word(mark: u8, word: &[u8]) -> Option<(&[u8], &[u8])>
    ensures { spec.seen result ≡ spec.cut mark word.now }
{
    let mut place = 0;
    'find: while place < word.len() {
        if word[place] == mark {
            return Some(around(place, word));
        }
        place += 1;
    }
    None
}

/// The first word of a line, and the text behind it where a space follows.
pub fn next_word(line: &[u8]) -> (&[u8], Option<&[u8]>)
    ensures { spec.words line.now ≡ spec.first_and_rest result }
{
    match cut_word(b' ', line) {
        None => (line, None),
        Some((word, rest)) => (word, Some(rest)),
    }
}

/// Whether no words are left.
pub fn none_left(text: Option<&[u8]>) -> bool
    ensures { result ≡ spec.none_left (spec.words_behind text.entry) }
{
    match text {
        None => true,
        Some(_) => false,
    }
}

/// The word that is left, where it is just one.
pub fn one(text: Option<&[u8]>) -> Option<&[u8]>
    ensures { spec.seen_one result ≡ one_of (spec.words_behind text.entry) }
{
    let (a, rest) = next_word(text?);
    match rest {
        None => Some(a),
        Some(_) => None,
    }
}

/// The words that are left, where they are just two.
pub fn two(text: Option<&[u8]>) -> Option<(&[u8], &[u8])>
    ensures { spec.seen result ≡ two_of (spec.words_behind text.entry) }
{
    let (a, rest) = next_word(text?);
    let b = one(rest)?;
    Some((a, b))
}

/// The words that are left, where they are just three.
pub fn three(text: Option<&[u8]>) -> Option<(&[u8], &[u8], &[u8])>
    ensures { spec.seen_three result ≡ three_of (spec.words_behind text.entry) }
{
    let (a, rest) = next_word(text?);
    let (b, c) = two(rest)?;
    Some((a, b, c))
}

/// The words that are left, where they are just four.
pub fn four(text: Option<&[u8]>) -> Option<(&[u8], &[u8], &[u8], &[u8])>
    ensures { spec.seen_four result ≡ four_of (spec.words_behind text.entry) }
{
    let (a, rest) = next_word(text?);
    let (b, c, d) = three(rest)?;
    Some((a, b, c, d))
}

/// The words that are left, where they are just five.
#[tactic(auto, using(mk_spelling::proofs::Cuts::five_of_cons))]
pub fn five(text: Option<&[u8]>) -> Option<(&[u8], &[u8], &[u8], &[u8], &[u8])>
    ensures { spec.seen_five result ≡ five_of (spec.words_behind text.entry) }
{
    let (a, rest) = next_word(text?);
    let (b, c, d, e) = four(rest)?;
    Some((a, b, c, d, e))
}

/// The first two words that are left, and the text of those behind them, of which there is one at least.
pub fn two_then(text: Option<&[u8]>) -> Option<(&[u8], &[u8], &[u8])>
    ensures { spec.seen_more result ≡ two_and_more (spec.words_behind text.entry) }
{
    let (a, rest) = next_word(text?);
    let (b, more) = next_word(rest?);
    Some((a, b, more?))
}

/// What the bytes of a line show.
#[derive(Clone, Copy)]
pub struct LineLook {
    /// Each byte is printable ASCII, 0x20 to 0x7E.
    pub printable: bool,
    /// A word is empty, as where two spaces follow one another.
    pub empty_word: bool,
}

/// Looks at each byte of a line once.
pub fn look(line: &[u8]) -> LineLook
    ensures printable { result.printable ≡ spec.is_printable line.now }
    ensures empty_word { result.empty_word ≡ list_any spec.is_empty (spec.words line.now) }
{
    let mut printable = true;
    let mut empty_word = false;
    let mut at_start = true;
    'bytes: for b in line {
        if *b == b' ' {
            empty_word = empty_word || at_start;
            at_start = true;
        } else {
            printable = printable && *b > b' ' && *b <= b'~';
            at_start = false;
        }
    }
    LineLook {
        printable,
        empty_word: empty_word || at_start,
    }
}
