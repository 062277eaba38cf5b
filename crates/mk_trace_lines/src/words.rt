//! The words that there are at the places of a line.

/// The first word of a line.
#[derive(Clone, Copy)]
pub enum Keyword {
    Opening,
    Size,
    Client,
    /// A key's name in the head, or a key step in a log.
    Key,
    Round,
    Column,
    Cell,
    Globals,
    End,
    Begin,
    Unread,
    Read,
    Stamp,
    Validate,
    Take,
    Rule,
    Again,
    Stop,
    Takeover,
    Pick,
    Wipe,
    Ask,
    Promise,
    Merge,
    Adopt,
    Enter,
}

/// The word of an act.
#[derive(Clone, Copy)]
pub enum ActWord {
    Get,
    CheckRead,
    CheckWrite,
    CommitRead,
    CommitWrite,
    ReleaseRead,
    ReleaseWrite,
}

/// The first word of a global line's answer.
#[derive(Clone, Copy)]
pub enum ReplyWord {
    Ok,
    Unasked,
    Unmade,
    Lacking,
    Old,
    WordFault,
    Short,
}

/// The global lines that have answers.
#[derive(Clone, Copy)]
pub enum Replier {
    Promise,
    Merge,
    Adopt,
    Enter,
}
