//! The stages of a client's attempt.
ghost use Rattle.std.specs.Prelude.{◌≡◌, ◌<◌, ◌+◌, ◌^◌, ◌∷◌, Ok, Some, length, slice_get, IfOk, OnErr, IsSome, IsSomeAnd};
ghost use Rattle.mk_quorum.specs.Slots.{passes};
ghost use Rattle.mk_faults.specs.Fates.{stop_of};
ghost use Rattle.mk_model.specs.ColumnState.{ClientState as OneClient, attempt_of, client_of};
ghost use Rattle.mk_driver.specs.declared.DriverState.{DriverState};
ghost use Rattle.mk_driver.specs.declared.Caller.{Caller as OneCaller};
ghost use Rattle.mk_driver.specs.declared.Task.TheVariants.{Fetch};
ghost use Rattle.mk_driver.specs.declared.Turned.TheVariants.{Silent as SilentlyDone};
ghost use Rattle.mk_driver.specs.Stages.{turn_of, begin_next, begin_by, next_request, stage_after, validated, ruled_by, closed_by, left as left_by, fetch_work, reaching, same_point};
ghost use Rattle.mk_driver.specs.Passing.{ComesTo, IsDone, IsKept, IsTurned, IsStepped, after_first, without_first};

use crate::views::{learned, reader_for, sent};
use crate::{DriverState, Stage, Task, Turned};
use mk_client::{computed_writes, next_wanted};
use mk_column::Column;
use mk_faults::Rules;
use mk_proc::Procs;
use mk_quorum::Size;
use mk_script::Point;
use mk_txn::{NoMemory, TxnId};
use mk_words::{Ruling, Step, Writes};

impl DriverState {
    /// The turn of the client at this place.
    pub(crate) fn client_turn(
        &mut self,
        place: usize,
        column: &Column,
        size: Size,
    ) -> Result<Turned, NoMemory>
        requires size { column.now.setting.faults ≡ size }
        requires there { place < length self.old.callers }
        requires small { place + 1 < 2 ^ 64 }
        requires first { IsSome (slice_get self.old.agenda 0) }
        ensures comes { IfOk result (λ t. IsTurned place (turn_of column.now.setting column.now.state (slice_get self.old.callers place) (without_first self.old)) t self.old self.new) }
        ensures rest { IfOk result (λ t. IsKept self.old self.new t) }
        ensures err { OnErr result (self.new ≡ self.old) }
    {
        let Some(caller) = self.callers.get(place) else {
            return Ok(Turned::Nothing);
        };
        match caller.under_way {
            Some(stage) => self.go_on(place, stage, column),
            None => self.begin(place, column, size),
        }
    }

    /// The next transaction of the client's list begins, if there is one.
    fn begin(&mut self, place: usize, column: &Column, size: Size) -> Result<Turned, NoMemory>
        requires size { column.now.setting.faults ≡ size }
        requires there { place < length self.old.callers }
        requires small { place + 1 < 2 ^ 64 }
        requires first { IsSome (slice_get self.old.agenda 0) }
        ensures comes { IfOk result (λ t. (caller : OneCaller) → slice_get self.old.callers place ≡ Some caller →
            IsTurned place (begin_next column.now.setting column.now.state caller (next_request caller) (without_first self.old)) t self.old self.new) }
        ensures rest { IfOk result (λ t. IsKept self.old self.new t) }
        ensures err { OnErr result (self.new ≡ self.old) }
    {
        let Some(caller) = self.callers.get(place) else {
            return Ok(Turned::Nothing);
        };
        let client = caller.number;
        if !caller.has_request() || !column.has_client(client) {
            return Ok(Turned::Nothing);
        }
        match reader_for(column, size, client, caller.home) {
            Some(replica) => self.begin_at(place, client, replica, column),
            None => {
                self.agenda.set_first(Task::Turns {
                    place: place + 1,
                    did: true,
                });
                self.callers.skip(place);
                Ok(Turned::Stepped(Step::Unread { client }))
            }
        }
    }

    /// The client's next transaction begins at this replica.
    fn begin_at(
        &mut self,
        place: usize,
        client: u32,
        replica: u32,
        column: &Column,
    ) -> Result<Turned, NoMemory>
        requires there { IsSome (client_of column.now.state client) }
        requires small { place + 1 < 2 ^ 64 }
        requires caller { IsSomeAnd (slice_get self.old.callers place) (λ caller. (caller.number ≡ client) × IsSome (next_request caller)) }
        requires first { IsSome (slice_get self.old.agenda 0) }
        ensures comes { IfOk result (λ t. (caller : OneCaller) (state : OneClient) → slice_get self.old.callers place ≡ Some caller → client_of column.now.state client ≡ Some state →
            IsTurned place (begin_by state caller (Some replica) (without_first self.old)) t self.old self.new) }
        ensures stepped { IfOk result IsStepped }
        ensures err { OnErr result (self.new ≡ self.old) }
    {
        let Some(task) = self.agenda.first() else {
            unreachable!()
        };
        let id = TxnId {
            client,
            seq: column.next_seq(client),
        };
        self.agenda.put_two(
            Task::Fetch { id },
            Task::Turns {
                place: place + 1,
                did: true,
            },
        )?;
        if self.callers.begin(place, id.seq).is_err() {
            self.agenda.drop_first();
            self.agenda.set_first(task);
            return Err(NoMemory);
        }
        Ok(Turned::Stepped(Step::Begin { client, replica }))
    }

    /// The stage after the one that was done.
    #[tactic(auto, using(crate::proofs::Staging::stage_none, crate::proofs::Staging::stage_learned, crate::proofs::Staging::stage_two, crate::proofs::Staging::stage_ruled, crate::proofs::Staging::stage_closed))]
    fn go_on(&mut self, place: usize, stage: Stage, column: &Column) -> Result<Turned, NoMemory>
        requires there { place < length self.old.callers }
        requires small { place + 1 < 2 ^ 64 }
        requires first { IsSome (slice_get self.old.agenda 0) }
        ensures comes { IfOk result (λ t. (caller : OneCaller) → slice_get self.old.callers place ≡ Some caller →
            IsTurned place (stage_after column.now.setting column.now.state caller stage.id stage.reached (attempt_of column.now.state stage.id) (without_first self.old)) t self.old self.new) }
        ensures rest { IfOk result (λ t. IsKept self.old self.new t) }
        ensures err { OnErr result (self.new ≡ self.old) }
    {
        let id = stage.id;
        if column.attempt(id).is_none() {
            self.leave(place);
            return Ok(Turned::Silent);
        }
        if let Point::Read = stage.reached {
            return self.validate(place, id, column);
        }
        if learned(column, id).is_some() {
            self.leave(place);
            return Ok(Turned::Silent);
        }
        match stage.reached {
            Point::Votes => self.rule_votes(place, id, column.ruling(id), column),
            _ => self.rule_accepts(place, id, column.ruling(id), column),
        }
    }

    /// Stage 2.
    fn validate(&mut self, place: usize, id: TxnId, column: &Column) -> Result<Turned, NoMemory>
        requires there { place < length self.old.callers }
        requires small { place + 1 < 2 ^ 64 }
        requires first { IsSome (slice_get self.old.agenda 0) }
        ensures comes { IfOk result (λ t. (caller : OneCaller) → slice_get self.old.callers place ≡ Some caller →
            IsTurned place (validated column.now.state caller id (without_first self.old)) t self.old self.new) }
        ensures rest { IfOk result (λ t. IsKept self.old self.new t) }
        ensures err { OnErr result (self.new ≡ self.old) }
    {
        let sent = sent(column);
        let reach = Task::Reach {
            id,
            point: Point::Votes,
        };
        let turns = Task::Turns {
            place: place + 1,
            did: true,
        };
        self.agenda
            .put_three(Task::DeliverSince { sent }, reach, turns)?;
        self.callers.rest(place);
        Ok(Turned::Stepped(Step::Validate { id }))
    }

    /// Stage 3, of an attempt that has not learned.
    fn rule_votes(
        &mut self,
        place: usize,
        id: TxnId,
        ruling: Ruling,
        column: &Column,
    ) -> Result<Turned, NoMemory>
        requires there { place < length self.old.callers }
        requires small { place + 1 < 2 ^ 64 }
        requires first { IsSome (slice_get self.old.agenda 0) }
        ensures comes { IfOk result (λ t. (caller : OneCaller) → slice_get self.old.callers place ≡ Some caller →
            IsTurned place (ruled_by column.now.state caller id ruling (without_first self.old)) t self.old self.new) }
        ensures rest { IfOk result (λ t. IsKept self.old self.new t) }
        ensures err { OnErr result (self.new ≡ self.old) }
    {
        let turns = Task::Turns {
            place: place + 1,
            did: true,
        };
        let sent = sent(column);
        match ruling {
            Ruling::Fast(_) => {
                self.agenda
                    .put_three(Task::Notice { id }, Task::DeliverSince { sent }, turns)?;
                self.callers.rest(place);
                Ok(Turned::Stepped(Step::Rule { id }))
            }
            Ruling::Propose(_) => {
                let reach = Task::Reach {
                    id,
                    point: Point::Accepts,
                };
                self.agenda.put_four(
                    Task::Notice { id },
                    Task::DeliverSince { sent },
                    reach,
                    turns,
                )?;
                self.callers.rest(place);
                Ok(Turned::Stepped(Step::Rule { id }))
            }
            Ruling::Learned(_) => {
                self.leave(place);
                Ok(Turned::Silent)
            }
            Ruling::Short(_) => {
                self.leave(place);
                Ok(Turned::Silent)
            }
            Ruling::Unaccepted(_) => {
                self.leave(place);
                Ok(Turned::Silent)
            }
        }
    }

    /// Stage 4, of an attempt that has not learned.
    fn rule_accepts(
        &mut self,
        place: usize,
        id: TxnId,
        ruling: Ruling,
        column: &Column,
    ) -> Result<Turned, NoMemory>
        requires there { place < length self.old.callers }
        requires small { place + 1 < 2 ^ 64 }
        requires first { IsSome (slice_get self.old.agenda 0) }
        ensures comes { IfOk result (λ t. (caller : OneCaller) → slice_get self.old.callers place ≡ Some caller →
            IsTurned place (closed_by column.now.state caller id ruling (without_first self.old)) t self.old self.new) }
        ensures rest { IfOk result (λ t. IsKept self.old self.new t) }
        ensures err { OnErr result (self.new ≡ self.old) }
    {
        let turns = Task::Turns {
            place: place + 1,
            did: true,
        };
        let sent = sent(column);
        match ruling {
            Ruling::Learned(_) => {
                self.agenda
                    .put_three(Task::Notice { id }, Task::DeliverSince { sent }, turns)?;
                self.callers.rest(place);
                Ok(Turned::Stepped(Step::Rule { id }))
            }
            Ruling::Fast(_) => {
                self.leave(place);
                Ok(Turned::Silent)
            }
            Ruling::Propose(_) => {
                self.leave(place);
                Ok(Turned::Silent)
            }
            Ruling::Short(_) => {
                self.leave(place);
                Ok(Turned::Silent)
            }
            Ruling::Unaccepted(_) => {
                self.leave(place);
                Ok(Turned::Silent)
            }
        }
    }

    /// The attempt of the client at this place is left, or done.
    fn leave(&mut self, place: usize)
        requires { place < length self.old.callers }
        ensures left { (caller : OneCaller) → slice_get self.old.callers place ≡ Some caller → self.new ≡ left_by caller self.old }
        ensures kept { IsKept self.old self.new SilentlyDone }
    {
        self.callers.rest(place);
    }

    /// The reads that are left, then the stamp.
    pub(crate) fn fetch(
        &mut self,
        id: TxnId,
        column: &Column,
        procs: &Procs,
    ) -> Result<Option<Step>, NoMemory>
        requires { self.old.agenda ≡ Fetch id ∷ after_first self.old.agenda }
        ensures comes { IfOk result (λ step. ComesTo (fetch_work column.now.state id (without_first self.old)) step self.new) }
        ensures rest { IfOk result (λ step. IsDone self.old step self.new) }
        ensures err { OnErr result (self.new ≡ self.old) }
    {
        let Some(attempt) = column.attempt(id) else {
            self.agenda.drop_first();
            return Ok(None);
        };
        let Some(request) = self.callers.trial(id) else {
            self.agenda.drop_first();
            return Ok(None);
        };
        let items = request.items.as_slice();
        let reads = attempt.reads.as_slice();
        if let Some(key) = next_wanted(items, reads.len()) {
            return Ok(Some(Step::Read { id, key }));
        }
        let clock = request.clock;
        let writes = computed_writes(self.agenda.allocator(), items, reads, procs)?;
        self.agenda.set_first(Task::Reach {
            id,
            point: Point::Read,
        });
        Ok(Some(Step::Stamp {
            id,
            clock,
            writes: Writes::of(writes),
        }))
    }

    /// A stage is done: a stop line at this point acts, and else the next stage comes in the client's next turn.
    pub(crate) fn reach(
        &mut self,
        id: TxnId,
        point: Point,
        column: &Column,
        rules: &Rules,
    ) -> Result<Option<Step>, NoMemory>
        ensures comes { IfOk result (λ step. ComesTo (reaching rules.now column.now.setting column.now.state id point (without_first self.old)) step self.new) }
        ensures rest { IfOk result (λ step. IsDone self.old step self.new) }
        ensures err { OnErr result (self.new ≡ self.old) }
    {
        self.agenda.drop_first();
        if !stops_at(rules, id, point) {
            self.callers
                .at_stage(id.client, Stage { id, reached: point });
            return Ok(None);
        }
        let step = Step::Stop { id };
        match column.blocked(&step) {
            None => Ok(Some(step)),
            Some(_) => Ok(None),
        }
    }
}

// Whether a stop line of the attempt acts at this point.
fn stops_at(rules: &Rules, id: TxnId, point: Point) -> bool
    ensures { result ≡ passes (same_point point) (stop_of rules.now id) }
{
    match rules.stop_of(id) {
        Some(stop) => is_point(point, stop),
        None => false,
    }
}

fn is_point(a: Point, b: Point) -> bool
    ensures { result ≡ same_point a b }
{
    match (a, b) {
        (Point::Read, Point::Read) => true,
        (Point::Votes, Point::Votes) => true,
        (Point::Accepts, Point::Accepts) => true,
        _ => false,
    }
}
