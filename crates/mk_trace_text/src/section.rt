//! How far a trace has come.

/// The last line, which says what may come next.
#[derive(Clone, Copy)]
pub enum Section {
    /// No line yet.
    Start,
    /// The version.
    Opened,
    /// The size, or a client.
    Clients,
    /// A key.
    Keys,
    /// The heading of a round.
    Round,
    /// The heading of a log.
    Column,
    /// A step.
    Log,
    /// The heading of a journal.
    Cell,
    /// An entry of a journal.
    Journal,
    /// The heading of the global lines.
    Globals,
    /// A global line.
    Changes,
    /// The line `end`.
    Ended,
}
