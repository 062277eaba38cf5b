//! The words that begin lines, and how far a script has come.

/// The first word of a line.
#[derive(Clone, Copy)]
pub enum Keyword {
    Meerkat,
    Size,
    Client,
    Retry,
    Fault,
    Stop,
    Txn,
    Takeover,
    Wipe,
    Ask,
    Promise,
    Merge,
    Adopt,
    Enter,
    Round,
}

/// What was read, which says what may come next.
#[derive(Clone, Copy)]
pub enum Section {
    /// Nothing.
    Start,
    /// The version.
    Opened,
    /// The size, and lines of the prelude.
    Prelude,
    /// A line of the round: transactions and takeovers may come.
    Round,
    /// A global line of the round.
    Globals,
}
