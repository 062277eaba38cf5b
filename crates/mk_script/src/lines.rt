//! The lines of a script.
use mk_proc::Item;
use mk_txn::TxnId;
use mk_words::{GlobalLine, MsgKind};
use std::marker::Model;

/// What becomes of a message.
#[derive(Clone, Copy, PartialEq, Eq)]
pub enum Fate {
    /// It is taken at once, as without a fault line.
    Deliver,
    /// It is never taken.
    Lose,
    /// It is taken two times in a row.
    Twice,
    /// It is taken at the end of the round.
    Late,
    /// It is taken at the start of the next round.
    NextRound,
}

/// Where a stop line acts: after the reads, after the votes, or after the accepts.
#[derive(Clone, Copy, PartialEq, Eq)]
pub enum Point {
    Read,
    Votes,
    Accepts,
}

/// The fate of one message: the `nth` of its kind, attempt and replica, counted from 1.
#[derive(Clone, Copy)]
pub struct FaultLine {
    pub kind: MsgKind,
    pub id: TxnId,
    pub replica: u32,
    pub nth: u64,
    pub fate: Fate,
}

/// The coordinator of this attempt stops at this point.
#[derive(Clone, Copy)]
pub struct StopLine {
    pub id: TxnId,
    pub point: Point,
}

/// A takeover of this attempt at this view.
#[derive(Clone, Copy)]
pub struct TakeoverLine {
    pub id: TxnId,
    pub view: u32,
}

/// The name of a client, seen as its bytes.
#[derive(Drop)]
pub struct Name {
    text: String,
}

impl Model for Name {
    ghost use Rattle.std.specs.Prelude.{List, ℕ};
    ghost use Rattle.std.specs.String.{string_bytes};

    ghost Value = { List ℕ };

    ghost view = { λ name. string_bytes name.text };
}

impl Name {
    ghost use Rattle.std.specs.Prelude.{◌≡◌};
    ghost use Rattle.std.specs.String.{string_bytes};

    /// The name with this text.
    pub fn of(text: String) -> Name
        ensures { result ≡ string_bytes text }
    {
        Name { text }
    }

    /// Its text.
    pub fn as_str(&self) -> &str
        ensures { result.now ≡ self.now }
    {
        self.text.as_str()
    }
}

/// A client with its column and its home replica.
#[derive(Drop)]
pub struct ClientLine {
    pub name: Name,
    pub column: u32,
    pub home: u32,
}

/// A list, seen as such.
#[derive(Drop)]
pub struct Lines<T: Drop> {
    list: Vec<T>,
}

impl<T: Drop> Model for Lines<T> {
    ghost use Rattle.std.specs.Prelude.{List};

    ghost Value = { List T };

    ghost view = { λ lines. lines.list.items };
}

impl<T: Drop> Lines<T> {
    ghost use Rattle.std.specs.Prelude.{◌≡◌};

    /// The list of these.
    pub fn of(list: Vec<T>) -> Lines<T>
        ensures { result ≡ list.items }
    {
        Lines { list }
    }

    /// The list as it was made.
    pub fn into_vec(self) -> Vec<T>
        ensures { result.items ≡ self }
    {
        self.list
    }

    /// Its members.
    pub fn as_slice(&self) -> &[T]
        ensures { result.now ≡ self.now }
    {
        self.list.as_slice()
    }
}

/// A transaction of a client: the clock that it reads, and its items in order.
#[derive(Drop)]
pub struct TxnLine {
    pub client: u32,
    pub clock: u64,
    pub items: Lines<Item>,
}

/// The lines of a round, each kind in order.
#[derive(Drop)]
pub struct Round {
    pub txns: Lines<TxnLine>,
    pub takeovers: Lines<TakeoverLine>,
    pub globals: Lines<GlobalLine>,
}
