//! The first words of lines.
ghost use Rattle.std.specs.Prelude.{◌≡◌};
ghost use Rattle.mk_spelling.specs.Fields.{named};
ghost use Rattle.mk_trace_lines.specs.LineWords as texts;

use crate::words::Keyword;

fn head_keyword(word: &[u8]) -> Option<Keyword>
    ensures { result ≡ named texts.keyword_text texts.head_keywords word.now }
{
    match word {
        b"meerkat-trace" => Some(Keyword::Opening),
        b"size" => Some(Keyword::Size),
        b"client" => Some(Keyword::Client),
        b"key" => Some(Keyword::Key),
        _ => None,
    }
}

fn heading_keyword(word: &[u8]) -> Option<Keyword>
    ensures { result ≡ named texts.keyword_text texts.heading_keywords word.now }
{
    match word {
        b"round" => Some(Keyword::Round),
        b"column" => Some(Keyword::Column),
        b"cell" => Some(Keyword::Cell),
        b"global" => Some(Keyword::Globals),
        b"end" => Some(Keyword::End),
        _ => None,
    }
}

fn begin_keyword(word: &[u8]) -> Option<Keyword>
    ensures { result ≡ named texts.keyword_text texts.begin_keywords word.now }
{
    match word {
        b"begin" => Some(Keyword::Begin),
        b"unread" => Some(Keyword::Unread),
        b"read" => Some(Keyword::Read),
        b"stamp" => Some(Keyword::Stamp),
        b"validate" => Some(Keyword::Validate),
        b"take" => Some(Keyword::Take),
        _ => None,
    }
}

fn rule_keyword(word: &[u8]) -> Option<Keyword>
    ensures { result ≡ named texts.keyword_text texts.rule_keywords word.now }
{
    match word {
        b"rule" => Some(Keyword::Rule),
        b"again" => Some(Keyword::Again),
        b"stop" => Some(Keyword::Stop),
        b"takeover" => Some(Keyword::Takeover),
        b"pick" => Some(Keyword::Pick),
        _ => None,
    }
}

fn global_keyword(word: &[u8]) -> Option<Keyword>
    ensures { result ≡ named texts.keyword_text texts.global_keywords word.now }
{
    match word {
        b"wipe" => Some(Keyword::Wipe),
        b"ask" => Some(Keyword::Ask),
        b"promise" => Some(Keyword::Promise),
        b"merge" => Some(Keyword::Merge),
        b"adopt" => Some(Keyword::Adopt),
        b"enter" => Some(Keyword::Enter),
        _ => None,
    }
}

#[tactic(auto, using(crate::proofs::FoundWords::named_append))]
fn step_keyword(word: &[u8]) -> Option<Keyword>
    ensures { result ≡ named texts.keyword_text texts.step_keywords word.now }
{
    match begin_keyword(word) {
        Some(keyword) => Some(keyword),
        None => match rule_keyword(word) {
            Some(keyword) => Some(keyword),
            None => global_keyword(word),
        },
    }
}

/// The first word of a line, but for those of journals, which begin with a number.
#[tactic(auto, using(crate::proofs::FoundWords::named_append))]
pub fn keyword(word: &[u8]) -> Option<Keyword>
    ensures { result ≡ named texts.keyword_text texts.keyword_list word.now }
{
    match head_keyword(word) {
        Some(keyword) => Some(keyword),
        None => match heading_keyword(word) {
            Some(keyword) => Some(keyword),
            None => step_keyword(word),
        },
    }
}
