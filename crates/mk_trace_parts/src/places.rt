//! Which lines may come next.
ghost use Rattle.std.specs.Prelude.{◌≡◌};
ghost use Rattle.mk_trace_text.specs.Grammar as spec;

use mk_trace_text::Section;

/// Whether the version may come.
pub fn at_start(section: Section) -> bool
    ensures { result ≡ spec.at_start section }
{
    matches!(section, Section::Start)
}

/// Whether the size may come.
pub fn at_size(section: Section) -> bool
    ensures { result ≡ spec.at_size section }
{
    matches!(section, Section::Opened)
}

/// Whether clients may come.
pub fn in_clients(section: Section) -> bool
    ensures { result ≡ spec.in_clients section }
{
    matches!(section, Section::Clients)
}

/// Whether keys may come.
pub fn in_keys(section: Section) -> bool
    ensures { result ≡ spec.in_keys section }
{
    matches!(section, Section::Clients | Section::Keys)
}

/// Whether the heading of a log may come.
pub fn before_column(section: Section) -> bool
    ensures { result ≡ spec.before_column section }
{
    matches!(section, Section::Round | Section::Log)
}

/// Whether the heading of a journal, or of global lines, may come.
pub fn before_cell(section: Section) -> bool
    ensures { result ≡ spec.before_cell section }
{
    matches!(section, Section::Round | Section::Log | Section::Journal)
}

/// Whether the round may end.
pub fn at_end(section: Section) -> bool
    ensures { result ≡ spec.at_end section }
{
    matches!(
        section,
        Section::Round | Section::Log | Section::Journal | Section::Changes
    )
}

/// Whether the next round may begin.
pub fn before_round(section: Section) -> bool
    ensures { result ≡ spec.before_round section }
{
    match section {
        Section::Clients | Section::Keys => true,
        _ => at_end(section),
    }
}

/// Whether steps may come.
pub fn in_log(section: Section) -> bool
    ensures { result ≡ spec.in_log section }
{
    matches!(section, Section::Column | Section::Log)
}

/// Whether entries of a journal may come.
pub fn in_journal(section: Section) -> bool
    ensures { result ≡ spec.in_journal section }
{
    matches!(section, Section::Cell | Section::Journal)
}

/// Whether global lines may come.
pub fn in_changes(section: Section) -> bool
    ensures { result ≡ spec.in_changes section }
{
    matches!(section, Section::Globals | Section::Changes)
}

/// Whether the text may end.
pub fn ended(section: Section) -> bool
    ensures { result ≡ spec.ended section }
{
    matches!(section, Section::Ended)
}
