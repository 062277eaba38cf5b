//! The fields of lines.
ghost use Rattle.std.specs.Prelude.{◌≡◌};
ghost use Rattle.std.specs.List.{list_any};
ghost use Rattle.mk_spelling.specs.Fields.{found, named};
ghost use Rattle.mk_spelling.specs.declared.fault.TextFault.TheVariants.{Unknown};
ghost use Rattle.mk_script.specs.LineWords as texts;
ghost use Rattle.mk_script.specs.Grammar as grammar;
ghost use Rattle.mk_script.specs.Faults as spec;

use crate::lines::{Fate, FaultLine, Point, StopLine};
use crate::words::{Keyword, Section};
use mk_text::TextFault;
use mk_words::MsgKind;

fn prelude_keyword(word: &[u8]) -> Option<Keyword>
    ensures { result ≡ named texts.keyword_text texts.prelude_keywords word.now }
{
    match word {
        b"meerkat" => Some(Keyword::Meerkat),
        b"size" => Some(Keyword::Size),
        b"client" => Some(Keyword::Client),
        b"retry" => Some(Keyword::Retry),
        b"fault" => Some(Keyword::Fault),
        b"stop" => Some(Keyword::Stop),
        _ => None,
    }
}

fn round_keyword(word: &[u8]) -> Option<Keyword>
    ensures { result ≡ named texts.keyword_text texts.round_keywords word.now }
{
    match word {
        b"txn" => Some(Keyword::Txn),
        b"takeover" => Some(Keyword::Takeover),
        b"round" => Some(Keyword::Round),
        _ => None,
    }
}

fn global_keyword(word: &[u8]) -> Option<Keyword>
    ensures { result ≡ named texts.keyword_text texts.global_keywords word.now }
{
    match word {
        b"wipe" => Some(Keyword::Wipe),
        b"ask" => Some(Keyword::Ask),
        b"promise" => Some(Keyword::Promise),
        b"merge" => Some(Keyword::Merge),
        b"adopt" => Some(Keyword::Adopt),
        b"enter" => Some(Keyword::Enter),
        _ => None,
    }
}

/// The first word of a line.
#[tactic(auto, using(crate::proofs::Passed::named_append))]
pub fn keyword(word: &[u8]) -> Option<Keyword>
    ensures { result ≡ named texts.keyword_text texts.keyword_list word.now }
{
    match prelude_keyword(word) {
        Some(keyword) => Some(keyword),
        None => match round_keyword(word) {
            Some(keyword) => Some(keyword),
            None => global_keyword(word),
        },
    }
}

/// The kind of message that the word names; else Unknown.
pub fn kind(word: &[u8]) -> Result<MsgKind, TextFault>
    ensures { result ≡ found Unknown (named texts.kind_text texts.kind_list word.now) }
{
    match word {
        b"validate" => Ok(MsgKind::Validate),
        b"vote" => Ok(MsgKind::Vote),
        b"accept" => Ok(MsgKind::Accept),
        b"accepted" => Ok(MsgKind::Accepted),
        b"decide" => Ok(MsgKind::Decide),
        b"ask" => Ok(MsgKind::Ask),
        b"told" => Ok(MsgKind::Told),
        b"moved" => Ok(MsgKind::Moved),
        _ => Err(TextFault::Unknown),
    }
}

/// The fate that the word names; else Unknown.
pub fn fate(word: &[u8]) -> Result<Fate, TextFault>
    ensures { result ≡ found Unknown (named texts.fate_text texts.fate_list word.now) }
{
    match word {
        b"lose" => Ok(Fate::Lose),
        b"twice" => Ok(Fate::Twice),
        b"late" => Ok(Fate::Late),
        b"next" => Ok(Fate::NextRound),
        _ => Err(TextFault::Unknown),
    }
}

/// The point that the word names; else Unknown.
pub fn point(word: &[u8]) -> Result<Point, TextFault>
    ensures { result ≡ found Unknown (named texts.point_text texts.point_list word.now) }
{
    match word {
        b"read" => Ok(Point::Read),
        b"votes" => Ok(Point::Votes),
        b"accepts" => Ok(Point::Accepts),
        _ => Err(TextFault::Unknown),
    }
}

/// The version that the word names; else Unknown.
pub fn version(word: &[u8]) -> Result<u32, TextFault>
    ensures { result ≡ found Unknown (named texts.version_text texts.versions word.now) }
{
    match word {
        b"1" => Ok(1),
        b"2" => Ok(2),
        _ => Err(TextFault::Unknown),
    }
}

/// Whether the version may come.
pub fn at_start(section: Section) -> bool
    ensures { result ≡ spec.at_start section }
{
    matches!(section, Section::Start)
}

/// Whether the size may come.
pub fn at_size(section: Section) -> bool
    ensures { result ≡ spec.at_size section }
{
    matches!(section, Section::Opened)
}

/// Whether lines of the prelude may come.
pub fn in_prelude(section: Section) -> bool
    ensures { result ≡ spec.in_prelude section }
{
    matches!(section, Section::Prelude)
}

/// Whether transactions and takeovers may come.
pub fn in_rounds(section: Section) -> bool
    ensures { result ≡ spec.in_rounds section }
{
    matches!(section, Section::Prelude | Section::Round)
}

/// Whether global lines and the next round may come.
pub fn behind_prelude(section: Section) -> bool
    ensures { result ≡ spec.behind_prelude section }
{
    matches!(
        section,
        Section::Prelude | Section::Round | Section::Globals
    )
}

fn same_message(a: &FaultLine, b: &FaultLine) -> bool
    ensures { result ≡ grammar.same_message a.now b.now }
{
    b.kind == a.kind && b.id == a.id && b.replica == a.replica && b.nth == a.nth
}

/// Whether a fault line of this message is there.
pub fn has_fault(faults: &[FaultLine], fault: &FaultLine) -> bool
    ensures { result ≡ list_any (grammar.same_message fault.now) faults.now }
{
    faults.iter().any(|other| same_message(fault, other))
}

/// Whether a stop line of this attempt is there.
pub fn has_stop(stops: &[StopLine], stop: &StopLine) -> bool
    ensures { result ≡ list_any (grammar.same_attempt stop.now) stops.now }
{
    stops.iter().any(|other| other.id == stop.id)
}
