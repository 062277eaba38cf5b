// What the lock's rule says that a seat knows, and what the lock is told when it is made.
use crate::journal::Journal;
use mk_cell::Cell;
use mk_words::JournalEntry;
use std::collections::LinkedList;
use std::snapshot::Snapshot;

/// The number of a seat with the list of its entries. No value of it is made.
pub struct Held {
    pub number: u64,
    pub entries: LinkedList<JournalEntry>,
}

/// Whether a seat has a ticket. No value of it is made.
pub enum Stage {
    Idle,
    /// It has this ticket, counted from the first one without end, and waits for its turn.
    Waiting(u64),
    /// It has this ticket, and has taken out the journal, which was this one then.
    InTurn(u64, Snapshot<Journal>),
}

/// What a seat knows: the numbers that it has, and its ticket. No value of it is made.
pub struct View {
    pub held: LinkedList<Held>,
    pub stage: Stage,
}

/// What the lock is told when it is made: the number of seats, and the cell.
#[derive(Drop)]
pub struct Origin {
    pub seats: u32,
    pub opening: Snapshot<Cell>,
}
