//! The driver of a column: which step comes next.
#![tactic(auto)]

mod ascending;
mod asked;
mod beginning;
mod clients;
mod delivery;
mod driving;
mod passes;
mod rounds;
mod settling;
mod stages;
mod starting;
mod stepping;
mod tasks;
mod views;

pub use driving::{next_round_is_left, stands_after_round, stands_after_step, stands_at_first};
use mk_proc::Item;
use mk_quorum::Size;
use mk_script::{Point, TakeoverLine};
use mk_txn::TxnId;
use mk_words::{KeyCall, Step};
use std::collections::VecDeque;
use std::marker::Model;

/// What comes next at a column: a step, a key call that is wanted, or nothing more in this round.
#[derive(Drop)]
pub enum Next {
    Step(Step),
    Key(KeyCall),
    Over,
}

/// What is left to do in a part of a round.
#[derive(Clone, Copy)]
pub enum Task {
    /// The messages from a number on, up to another that is not among them, each by its fate.
    Deliver { first: u64, end: u64 },
    /// The messages that were sent after this number, each by its fate.
    DeliverSince { sent: u64 },
    /// The message of this number, whose fate is not asked.
    Take { number: u64 },
    /// Has the attempt's own coordinator learned an abort?
    Notice { id: TxnId },
    /// The reads that are left, then the stamp.
    Fetch { id: TxnId },
    /// A stage is done: the stop line, or the next stage.
    Reach { id: TxnId, point: Point },
    /// Again or Validate, in a later round.
    Resume { id: TxnId },
    /// The turns of the clients from this place on; whether one of them did anything before in this pass.
    Turns { place: usize, did: bool },
    Takeover { id: TxnId, view: u32 },
    /// The late list.
    Late,
    Settle { id: TxnId },
    SettleTakeover { id: TxnId, view: u32 },
}

/// The parts of a round after its first.
#[derive(Clone, Copy)]
pub enum Part {
    Resume,
    Turns,
    Takeovers,
    Late,
    Settle,
}

/// The tasks that are left, the next one last in the vector.
#[derive(Drop)]
pub struct Agenda {
    stack: Vec<Task>,
}

impl Model for Agenda {
    ghost use Rattle.std.specs.Prelude.{List, reverse};
    ghost use Rattle.mk_driver.specs.declared.Task.{Task};

    ghost Value = { List Task };

    ghost view = { λ a. reverse a.stack.items };
}

/// The parts that are left, the next one last in the vector.
#[derive(Drop)]
pub struct Parts {
    stack: Vec<Part>,
}

impl Model for Parts {
    ghost use Rattle.std.specs.Prelude.{List, reverse};
    ghost use Rattle.mk_driver.specs.declared.Part.{Part};

    ghost Value = { List Part };

    ghost view = { λ p. reverse p.stack.items };
}

/// What a client did in its turn.
#[derive(Drop)]
pub(crate) enum Turned {
    Nothing,
    Silent,
    Stepped(Step),
}

/// How a pass over the clients ends: at a step, with no step, or for want of memory at a client's turn.
#[derive(Drop)]
pub(crate) enum Passed {
    Stepped(Step),
    Ended(bool),
    Stuck { place: usize, did: bool },
}

/// Numbers of messages, ascending.
#[derive(Drop)]
pub struct Numbers {
    list: VecDeque<u64>,
}

impl Model for Numbers {
    ghost use Rattle.std.specs.Prelude.{List, ℕ};
    ghost use Rattle.mk_driver.specs.Keeping.{IsAscending};

    ghost Value = { List ℕ };

    ghost view = { λ n. n.list.items };

    ghost invariant = { λ n. IsAscending n.list.items };
}

#[derive(Drop)]
pub struct TakeoverList {
    list: Vec<TakeoverLine>,
}

impl Model for TakeoverList {
    ghost use Rattle.std.specs.Prelude.{List};
    ghost use Rattle.mk_script.specs.declared.lines.TakeoverLine.{TakeoverLine};

    ghost Value = { List TakeoverLine };

    ghost view = { λ l. l.list.items };
}

/// The items of a transaction, at most 16.
#[derive(Drop)]
pub struct Items {
    list: Vec<Item>,
}

impl Model for Items {
    ghost use Rattle.std.specs.Prelude.{List, ◌≤◌, length};
    ghost use Rattle.mk_proc.specs.declared.Item.{Item};

    ghost Value = { List Item };

    ghost view = { λ items. items.list.items };

    ghost invariant = { λ items. length items.list.items ≤ 16 };
}

/// A transaction that a client is to do, with the tries that are left after the next one.
#[derive(Drop)]
pub struct Request {
    pub clock: u64,
    pub items: Items,
    pub tries: u32,
}

#[derive(Drop)]
pub struct Requests {
    list: VecDeque<Request>,
}

impl Model for Requests {
    ghost use Rattle.std.specs.Prelude.{List};
    ghost use Rattle.mk_driver.specs.declared.Request.{Request};

    ghost Value = { List Request };

    ghost view = { λ r. r.list.items };
}

/// What each attempt of a client was asked for, by its place, while its own coordinator is not known to have learned.
#[derive(Drop)]
pub struct Trials {
    list: Vec<Option<Request>>,
}

impl Model for Trials {
    ghost use Rattle.std.specs.Prelude.{List, Option};
    ghost use Rattle.mk_driver.specs.declared.Request.{Request};

    ghost Value = { List (Option Request) };

    ghost view = { λ t. t.list.items };
}

/// An attempt under way, and the stage that it has done: Read after stage 1, Votes after stage 2, Accepts after stage 3.
#[derive(Clone, Copy)]
pub struct Stage {
    pub id: TxnId,
    pub reached: Point,
}

/// A client in the driver's turns: its list is the retries and then the txn lines.
#[derive(Drop)]
pub struct Caller {
    pub number: u32,
    pub home: u32,
    pub under_way: Option<Stage>,
    pub retries: Requests,
    pub lines: Requests,
    pub trials: Trials,
}

/// The clients of a column, in order of number.
#[derive(Drop)]
pub struct Callers {
    list: Vec<Caller>,
}

impl Model for Callers {
    ghost use Rattle.std.specs.Prelude.{List};
    ghost use Rattle.mk_driver.specs.declared.Caller.{Caller};
    ghost use Rattle.mk_driver.specs.Keeping.{IsRising, numbers_of};

    ghost Value = { List Caller };

    ghost view = { λ c. c.list.items };

    ghost invariant = { λ c. IsRising (numbers_of c.list.items) };
}

/// The tasks left in the part that is under way, the parts that are left, and the two lists of messages.
#[derive(Drop)]
pub struct DriverState {
    pub agenda: Agenda,
    pub parts: Parts,
    pub late: Numbers,
    pub held: Numbers,
    pub takeovers: TakeoverList,
    pub callers: Callers,
}

/// What a client's txn line asks for.
#[derive(Drop)]
pub struct Submission {
    pub client: u32,
    pub request: Request,
}

#[derive(Drop)]
pub struct Submissions {
    list: Vec<Submission>,
}

impl Model for Submissions {
    ghost use Rattle.std.specs.Prelude.{List};
    ghost use Rattle.mk_driver.specs.declared.Submission.{Submission};

    ghost Value = { List Submission };

    ghost view = { λ s. s.list.items };
}

/// The lines of a round that has not begun.
#[derive(Drop)]
pub struct RoundLines {
    pub submissions: Submissions,
    pub takeovers: TakeoverList,
}

/// The driver of one column of a script.
pub struct Driver {
    size: Size,
    column: u32,
    // how many rounds were begun
    round: u32,
    rounds: VecDeque<RoundLines>,
    state: DriverState,
}

// Written out, so that a crate above proves one call, and not the drop of each part.
impl Drop for Driver {
    fn drop(self) {
        let Driver {
            size: _,
            column: _,
            round: _,
            rounds: _rounds,
            state: _state,
        } = self;
    }
}

impl Model for Driver {
    ghost use Rattle.mk_driver.specs.Drivers.{DriverView};

    ghost Value = { DriverView };

    ghost view = { λ d. record { size = d.size; column = d.column; round = d.round; rounds = d.rounds.items; driver = d.state } };
}
