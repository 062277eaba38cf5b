//! The words of the whole store: what its definitions speak of.
#![tactic(auto)]

ghost use Rattle.std.specs.Prelude.{◌≡◌, IfOk};

mod fitting;

pub use fitting::answers;
use mk_txn::{
    Accepted, Known, NoMemory, Outcome, Reason, Stamp, Txn, TxnId, Value, Vote, WriteItem,
};
use std::marker::Model;

/// What a key step asks of a cell.
#[derive(Clone, Copy, PartialEq, Eq)]
pub enum Act {
    Get,
    /// May the transaction of stamp `ts`, which read this version, have read it?
    CheckRead { ts: Stamp, version: Stamp },
    /// May the transaction of stamp `ts` write?
    CheckWrite { ts: Stamp },
    CommitRead { ts: Stamp },
    CommitWrite { ts: Stamp, value: Value },
    ReleaseRead { ts: Stamp },
    ReleaseWrite { ts: Stamp },
}

/// What a cell answers.
#[derive(Clone, Copy, PartialEq, Eq)]
pub enum Answer {
    Version { version: Stamp, value: Value },
    Okay,
    Refused { reason: Reason, stamp: Stamp },
    Done,
}

/// One key step in a key's journal: which seat asked, what it asked, and what was answered.
#[derive(Clone, Copy, PartialEq, Eq)]
pub struct JournalEntry {
    pub seat: u32,
    pub act: Act,
    pub answer: Answer,
}

/// One attempt at one replica: the view it promised, its vote, what it accepted, and the final outcome.
#[derive(Drop)]
pub struct Entry {
    pub txn: Txn,
    pub view: u32,
    pub vote: Option<Vote>,
    pub accepted: Option<Accepted>,
    pub last: Option<Outcome>,
}

impl Entry {
    pub fn copy(&self) -> Result<Entry, NoMemory>
        ensures { IfOk result (λ entry. entry ≡ self.now) }
    {
        Ok(Entry {
            txn: self.txn.copy()?,
            view: self.view,
            vote: self.vote,
            accepted: self.accepted,
            last: self.last,
        })
    }
}

/// The kind of a message.
#[derive(Clone, Copy, PartialEq, Eq, Hash)]
pub enum MsgKind {
    Validate,
    Vote,
    Accept,
    Accepted,
    Decide,
    Ask,
    Told,
    Moved,
}

/// What a replica has of an attempt: its vote, what it accepted, and the final outcome.
#[derive(Clone, Copy, PartialEq, Eq)]
pub struct Told {
    pub vote: Option<Vote>,
    pub accepted: Option<Accepted>,
    pub last: Option<Outcome>,
}

/// What a replica of a later epoch answers: that epoch, and what its base knows of the attempt.
#[derive(Clone, Copy, PartialEq, Eq)]
pub struct Moved {
    pub to: u32,
    pub fate: Known,
}

/// What a message says.
#[derive(Clone, Copy, PartialEq, Eq)]
pub enum Body {
    /// Check the transaction and vote; `mark` is the client's mark.
    Validate { mark: u32 },
    Voted(Vote),
    /// Accept this outcome in the message's view.
    Accept(Outcome),
    Accepted,
    /// The outcome is decided.
    Decide(Outcome),
    /// Promise the message's view, and tell what is known.
    Ask,
    Told(Told),
    Moved(Moved),
}

impl Body {
    ghost use Rattle.mk_words.specs.Links.{kind_of};

    /// The kind of what is said.
    pub fn kind(&self) -> MsgKind
        ensures { result ≡ kind_of self.now }
    {
        match self {
            Body::Validate { .. } => MsgKind::Validate,
            Body::Voted(_) => MsgKind::Vote,
            Body::Accept(_) => MsgKind::Accept,
            Body::Accepted => MsgKind::Accepted,
            Body::Decide(_) => MsgKind::Decide,
            Body::Ask => MsgKind::Ask,
            Body::Told(_) => MsgKind::Told,
            Body::Moved(_) => MsgKind::Moved,
        }
    }
}

/// One message: `replica` is the one that takes or sent it, `view` is the coordinator's.
#[derive(Clone, Copy, PartialEq, Eq)]
pub struct Msg {
    pub epoch: u32,
    pub id: TxnId,
    pub replica: u32,
    pub view: u32,
    pub body: Body,
}

/// What the votes and accepts that were taken so far give.
#[derive(Clone, Copy, PartialEq, Eq)]
pub enum Ruling {
    /// A fast quorum voted alike, which decides at once.
    Fast(Outcome),
    /// This outcome is to be proposed.
    Propose(Outcome),
    /// A majority accepted the proposal, or the outcome was taught.
    Learned(Outcome),
    /// Too few replicas voted; this many did.
    Short(u32),
    /// Too few replicas accepted the proposal; this many did.
    Unaccepted(u32),
}

/// What the replies and accepts that were taken so far give.
#[derive(Clone, Copy, PartialEq, Eq)]
pub enum Pick {
    /// The outcome was told or taught.
    Known(Outcome),
    /// A majority accepted the proposal.
    Learned(Outcome),
    /// This outcome is to be proposed.
    Propose(Outcome),
    /// Too few replicas promised the view; this many did.
    Short(u32),
    /// Too few replicas accepted the proposal; this many did.
    Unaccepted(u32),
    /// The promises allow neither outcome: so many have an Ok vote, and so many have none.
    Unclear { ok: u32, not_ok: u32 },
}

/// A transaction with its outcome in a base.
#[derive(Drop)]
pub struct Fated {
    pub txn: Txn,
    pub outcome: Outcome,
}

impl Fated {
    pub fn copy(&self) -> Result<Fated, NoMemory>
        ensures { IfOk result (λ fated. fated ≡ self.now) }
    {
        Ok(Fated {
            txn: self.txn.copy()?,
            outcome: self.outcome,
        })
    }
}

/// What a replica does with messages.
#[derive(Clone, Copy, PartialEq, Eq)]
pub enum Phase {
    /// It takes them.
    Serving,
    /// It has promised an epoch change, and waits.
    Paused,
    /// It has adopted an epoch that nobody has entered since.
    Adopted,
    /// It has lost its memory.
    Lacking,
}

/// An act that a column wants done at a key of a replica.
#[derive(Clone, Copy, PartialEq, Eq)]
pub struct KeyCall {
    pub replica: u32,
    pub key: u32,
    pub act: Act,
}

/// The writes of an attempt, in order of mention.
#[derive(Drop)]
pub struct Writes {
    items: Vec<WriteItem>,
}

impl Model for Writes {
    ghost use Rattle.std.specs.Prelude.{List};
    ghost use Rattle.mk_txn.specs.declared.WriteItem.{WriteItem};

    ghost Value = { List WriteItem };

    ghost view = { λ writes. writes.items.items };
}

impl Writes {
    ghost use Rattle.std.specs.Prelude.{◌≡◌, ◌==◌, nat_lt, length, IfOk};
    ghost use Rattle.std.specs.List.{list_all};

    pub fn of(items: Vec<WriteItem>) -> Writes
        ensures { result ≡ items.items }
    {
        Writes { items }
    }

    pub fn is_empty(&self) -> bool
        ensures { result ≡ (length self.now == 0) }
    {
        self.items.len() == 0
    }

    pub fn as_slice(&self) -> &[WriteItem]
        ensures { result.now ≡ self.now }
    {
        self.items.as_slice()
    }

    pub fn copy(&self) -> Result<Writes, NoMemory>
        ensures { IfOk result (λ writes. writes ≡ self.now) }
    {
        Ok(Writes {
            items: self.items.clone()?,
        })
    }

    /// Gives the list back, which takes no memory.
    pub fn into_vec(self) -> Vec<WriteItem>
        ensures { result.items ≡ self }
    {
        self.items
    }

    /// Whether each key is one of so many.
    pub fn are_below(&self, keys: u32) -> bool
        ensures { result ≡ list_all (λ item. nat_lt item.key keys) self.now }
    {
        self.items.iter().all(|item| item.key < keys)
    }
}

/// One step of a column.
#[derive(Drop)]
pub enum Step {
    /// The client begins an attempt, which reads at this replica.
    Begin {
        client: u32,
        replica: u32,
    },
    /// The client begins an attempt that finds no replica to read at.
    Unread {
        client: u32,
    },
    /// The attempt asks for the key's value.
    Read {
        id: TxnId,
        key: u32,
    },
    /// The attempt gets its stamp and its writes, which makes the transaction.
    Stamp {
        id: TxnId,
        clock: u64,
        writes: Writes,
    },
    /// A Validate is sent to all replicas.
    Validate {
        id: TxnId,
    },
    /// The message of this number is taken.
    Take {
        number: u64,
    },
    /// The wanted key call is answered.
    Key {
        call: KeyCall,
        answer: Answer,
    },
    /// The own coordinator does what its ruling says.
    Rule {
        id: TxnId,
    },
    /// The own coordinator sends its proposal again.
    Again {
        id: TxnId,
    },
    /// A takeover of the attempt begins at this view.
    Takeover {
        id: TxnId,
        view: u32,
    },
    /// The takeover does what its pick says.
    Pick {
        id: TxnId,
        view: u32,
    },
    /// The own coordinator stops for good.
    Stop {
        id: TxnId,
    },
}

impl Step {
    pub fn copy(&self) -> Result<Step, NoMemory>
        ensures { IfOk result (λ step. step ≡ self.now) }
    {
        Ok(match self {
            Step::Begin { client, replica } => Step::Begin {
                client: *client,
                replica: *replica,
            },
            Step::Unread { client } => Step::Unread { client: *client },
            Step::Read { id, key } => Step::Read { id: *id, key: *key },
            Step::Stamp { id, clock, writes } => Step::Stamp {
                id: *id,
                clock: *clock,
                writes: writes.copy()?,
            },
            Step::Validate { id } => Step::Validate { id: *id },
            Step::Take { number } => Step::Take { number: *number },
            Step::Key { call, answer } => Step::Key {
                call: *call,
                answer: *answer,
            },
            Step::Rule { id } => Step::Rule { id: *id },
            Step::Again { id } => Step::Again { id: *id },
            Step::Takeover { id, view } => Step::Takeover {
                id: *id,
                view: *view,
            },
            Step::Pick { id, view } => Step::Pick {
                id: *id,
                view: *view,
            },
            Step::Stop { id } => Step::Stop { id: *id },
        })
    }
}

/// One thing that is done between two rounds, when no column works.
#[derive(Clone, Copy)]
pub enum GlobalLine {
    /// This replica loses its memory.
    Wipe(u32),
    /// A change to this epoch is asked for.
    Ask(u32),
    /// The replica pauses and hands in what it has.
    Promise { epoch: u32, replica: u32 },
    /// The epoch's leader makes the epoch's base from the promises.
    Merge(u32),
    /// The replica takes over the epoch's base.
    Adopt { epoch: u32, replica: u32 },
    /// Those that adopted the epoch serve it.
    Enter(u32),
}

/// What a line answers.
#[derive(Clone, Copy, PartialEq, Eq)]
pub enum GlobalAnswer {
    Ok,
    /// A merge: how many outcomes of the base that its marks do not cover are commits, and how many aborts.
    Counts { commits: u64, aborts: u64 },
    /// An enter: how many replicas ever adopted the epoch.
    Entered(u32),
    /// Nobody asked for this epoch.
    Unasked,
    /// The epoch has no base.
    Unmade,
    /// The replica has lost its state.
    Lacking,
    /// The epoch is too old for the replica, whose epoch word this is.
    Old(u32),
    /// The epoch word could not be written.
    WordFault,
    /// Too few replicas promised or adopted; this many did.
    Short(u32),
}

/// A line with its answer.
#[derive(Clone, Copy)]
pub struct GlobalEntry {
    pub line: GlobalLine,
    pub answer: GlobalAnswer,
}
