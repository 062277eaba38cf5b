//! One core number on all replicas.
ghost use Rattle.std.specs.Prelude.{◌≡◌, [], length, replicate, true, ◌&&◌, ◌^◌, nat_le, is_none, is_some, IfSome, IfOk, IsSome, Some, ◌<◌, ◌≤◌, slice_get, option_map, option_copied};
ghost use Rattle.mk_model.specs.ColumnState.{AttemptState, ClientState, attempt_of, takeover_of, client_of, entries_at, marks_at, open_at};
ghost use Rattle.mk_column.specs.ColumnState.{shown};
ghost use Rattle.mk_words.specs.declared.Step.TheVariants.{Read, Validate, Again, Stop, Take, Rule, Pick, Takeover, Begin, Unread, Key, Stamp as StampStep};
ghost use Rattle.mk_model.specs.Conditions.{is_idle, wanted, first_failing, further_conditions, on_attempt, acts_on, picks_one, is_validate_of, leader_serves as leader_serves_in, may_begin as may_begin_in, heard_by, same_call, stamp_exists, first_condition, blocked as blocked_by, serves_from as serving_from};
ghost use Rattle.mk_column.specs.ClientsByCode.{seen_client};
ghost use Rattle.mk_model.specs.Answers.{is_led as is_led_in};
ghost use Rattle.mk_lists.specs.Among.{AllDistinct};
ghost use Rattle.mk_model.specs.Replicas.{nothing_held};
ghost use Rattle.mk_column.specs.ColumnByCode.{column_at_start};
ghost use Rattle.mk_column.specs.Growing.{HasGrown};
ghost use Rattle.mk_model.specs.Logs.{replica_reset, reading_ended};
ghost use Rattle.mk_words.specs.Rulings.{ruling as ruling_of};
ghost use Rattle.mk_words.specs.Picks.{pick as pick_of};
ghost use Rattle.mk_quorum.specs.Slots.{passes};
ghost use Rattle.mk_quorum.specs.Sizes.{members};
ghost use Rattle.std.specs.List.{list_any};
ghost use Rattle.mk_model.specs.Learnings.{decided as first_decided};
ghost use Rattle.mk_column.specs.AttemptsByCode.{BegunView};
ghost use Rattle.mk_column.specs.TakeoversByCode.{BackupView};

use crate::attempts::Attempts;
use crate::backup::{Backup, ViewId};
use crate::begun::Begun;
use crate::clients::{Client, Clients};
use crate::conditions::{
    acts_on as acts_on_test, first_failing as first_failing_test, has_items, has_seq_left, is_call,
    is_going, is_open, is_proposing, is_reading, is_stamped, is_undecided, is_unlearned, may_read,
    may_stop, none_serves, picks_one as picks_one_test, serves, serves_from,
};
use crate::parts::Parts;
use crate::replica::Replica;
use crate::takeovers::Takeovers;
use crate::work::Work;
use crate::{Attempt, KeyCall, ReplicaView, Step, Writes, fit};
use mk_msg::Link;
use mk_quorum::Size;
use mk_record::copies;
use mk_trim::Settled;
use mk_txn::{Marks, NoMemory, Outcome, Stamp, TxnId};
use mk_words::{Answer, Entry, Ruling, answers};
use std::alloc::Global;
use std::marker::Model;

/// The clients, attempts, takeovers, records, marks and messages of one core number, and the key calls under way.
pub struct Column {
    pub(crate) size: Size,
    pub(crate) number: u32,
    pub(crate) version: u32,
    pub(crate) keys: u32,
    pub(crate) views: Vec<ReplicaView>,
    pub(crate) parts: Parts,
    pub(crate) settled: Settled,
    pub(crate) log: Vec<Step>,
}

// Written out, so that a crate above proves one call, and not the drop of each part.
impl Drop for Column {
    fn drop(self) {
        let Column {
            size: _,
            number: _,
            version: _,
            keys: _,
            views: _views,
            parts: _parts,
            settled: _settled,
            log: _log,
        } = self;
    }
}

impl Model for Column {
    ghost use Rattle.mk_column.specs.ColumnByCode.{ColumnView, column_of, kept_of, IsKept};

    ghost Value = { ColumnView };

    ghost view = { λ c. record { number = c.number; setting = record { version = c.version; faults = c.size; keys = c.keys; views = c.views.items }; state = column_of (kept_of c.parts); log = c.log.items } };

    ghost invariant = { λ c. IsKept c.size (kept_of c.parts) c.settled };
}

impl Column {
    /// A column at the start, with these clients.
    pub fn new(
        alloc: Global,
        size: Size,
        number: u32,
        clients: &[u32],
        keys: u32,
        version: u32,
    ) -> Result<Column, NoMemory>
        requires { AllDistinct clients.now }
        ensures { IfOk result (λ column. column ≡ column_at_start number (record { version = version; faults = size; keys = keys; views = [] }) clients.now) }
    {
        Ok(Column {
            size,
            number,
            version,
            keys,
            views: Vec::new(alloc),
            parts: Parts {
                clients: Clients::named(alloc, clients)?,
                attempts: Attempts::new(alloc),
                takeovers: Takeovers::new(alloc),
                replicas: empty_replicas(alloc, size.n())?,
                link: Link::new(alloc),
                work: Work::Idle,
                learned: Vec::new(alloc),
            },
            settled: Settled::new(alloc),
            log: Vec::new(alloc),
        })
    }

    /// Among how many replicas the column runs.
    pub fn size(&self) -> Size
        ensures { result ≡ self.now.setting.faults }
    {
        self.size
    }

    /// A round begins, in which columns see the replicas so. What still reads is over.
    pub fn begin_round(&mut self, views: Vec<ReplicaView>)
        requires views { length views.items ≡ members self.old.setting.faults }
        requires idle { wanted self.old.state.work ≡ None }
        ensures after { self.new ≡ record self.old { setting = record self.old.setting { views = views.items }; state = reading_ended self.old.state } }
        ensures grown { HasGrown self.old self.new }
    {
        self.parts.attempts.end_reading();
        self.parts.clients.end_reading();
        self.views = views;
    }

    /// The key call that is wanted. Where there is none, no work is under way.
    pub fn wants(&self) -> Option<KeyCall>
        ensures call { result ≡ wanted self.now.state.work }
        ensures idle { result ≡ None → is_idle self.now.state.work ≡ true }
    {
        self.parts.work.wants()
    }

    /// The steps since the log was taken.
    pub fn log(&self) -> &[Step]
        ensures { result.now ≡ self.now.log }
    {
        self.log.as_slice()
    }

    pub fn link(&self) -> &Link
        ensures { result.now.messages ≡ self.now.state.link }
    {
        &self.parts.link
    }

    /// The attempt of this number.
    pub fn attempt(&self, id: TxnId) -> Option<&Attempt>
        ensures { option_copied result ≡ option_map shown (attempt_of self.now.state id) }
    {
        match self.begun(id) {
            Some(begun) => Some(begun.shown()),
            None => None,
        }
    }

    /// The steps since the log was taken, which is empty then.
    pub fn take_log(&mut self) -> Vec<Step>
        ensures log { result.items ≡ self.old.log }
        ensures rest { self.new ≡ record self.old { log = [] } }
        ensures grown { HasGrown self.old self.new }
    {
        let empty = Vec::new(*self.log.allocator());
        std::mem::replace(&mut self.log, empty)
    }

    /// Leaves the replica no entries and no marks.
    pub fn reset(&mut self, replica: u32)
        requires there { replica < members self.old.setting.faults }
        requires idle { wanted self.old.state.work ≡ None }
        ensures after { self.new ≡ record self.old { state = replica_reset replica self.old.state } }
        ensures grown { HasGrown self.old self.new }
    {
        self.parts.replicas[replica as usize].reset();
    }

    /// The place of the client's next attempt.
    pub fn next_seq(&self, client: u32) -> u32
        requires { IsSome (client_of self.now.state client) }
        ensures { option_map (λ (c : ClientState). c.next_seq) (client_of self.now.state client) ≡ Some result }
    {
        self.client(client).unwrap().next_seq
    }

    /// The ruling of the attempt's own coordinator.
    pub fn ruling(&self, id: TxnId) -> Ruling
        requires { IsSome (attempt_of self.now.state id) }
        ensures { option_map (λ (a : AttemptState). ruling_of self.now.setting.faults a.coord) (attempt_of self.now.state id) ≡ Some result }
    {
        match self.parts.attempts.find(id) {
            Some(begun) => begun.ruling(),
            None => unreachable!(),
        }
    }

    /// The marks at the replica.
    pub fn marks(&self, replica: u32) -> &Marks
        requires { replica < members self.now.setting.faults }
        ensures { result.now ≡ marks_at self.now.state replica }
    {
        self.parts.replicas[replica as usize].marks()
    }

    /// Copies of the entries at the replica.
    pub fn entries(&self, replica: u32) -> Result<Vec<Entry>, NoMemory>
        requires { replica < members self.now.setting.faults }
        ensures { IfOk result (λ entries. entries.items ≡ entries_at self.now.state replica) }
    {
        let alloc = *self.log.allocator();
        copies(alloc, self.parts.replicas[replica as usize].entries())
    }

    // The attempt of this number, as it is kept.
    pub(crate) fn begun(&self, id: TxnId) -> Option<&Begun>
        ensures { option_map (λ (begun : BegunView). begun.state) (option_copied result) ≡ attempt_of self.now.state id }
    {
        self.parts.attempts.find(id)
    }

    // The takeover of this attempt at this view, as it is kept.
    pub(crate) fn backup(&self, id: TxnId, view: u32) -> Option<&Backup>
        ensures { option_map (λ (backup : BackupView). backup.of) (option_copied result) ≡ takeover_of self.now.state id view }
    {
        self.parts.takeovers.find(ViewId { id, view })
    }

    /// The first outcome that the own coordinator or a takeover of the attempt learned.
    pub fn decided(&self, id: TxnId) -> Option<Outcome>
        ensures { result ≡ first_decided self.now.state id }
    {
        self.parts.attempts.find(id)?.decided()
    }

    // The number of the first condition of Read that fails, after the first.
    fn read_fails(&self, id: TxnId, key: u32) -> Option<u8>
        ensures { result ≡ first_failing 2 (further_conditions self.now.setting self.now.state (Read id key)) }
    {
        let begun = self.begun(id);
        first_failing_test(&[is_reading(begun), key < self.keys, may_read(begun, key)])
    }

    fn validate_fails(&self, id: TxnId) -> Option<u8>
        ensures { result ≡ first_failing 2 (further_conditions self.now.setting self.now.state (Validate id)) }
    {
        let begun = self.begun(id);
        first_failing_test(&[is_stamped(begun), is_going(begun), is_undecided(begun)])
    }

    fn again_fails(&self, id: TxnId) -> Option<u8>
        ensures { result ≡ first_failing 2 (further_conditions self.now.setting self.now.state (Again id)) }
    {
        let begun = self.begun(id);
        first_failing_test(&[is_stamped(begun), is_going(begun), is_proposing(begun)])
    }

    fn stop_fails(&self, id: TxnId) -> Option<u8>
        ensures { result ≡ first_failing 2 (further_conditions self.now.setting self.now.state (Stop id)) }
    {
        let begun = self.begun(id);
        first_failing_test(&[is_stamped(begun), may_stop(begun)])
    }

    fn take_fails(&self, number: u64) -> Option<u8>
        ensures { result ≡ first_failing 2 (further_conditions self.now.setting self.now.state (Take number)) }
    {
        first_failing_test(&[self.parts.link.get(number).is_some()])
    }

    // Whether there is something to do by the attempt's ruling.
    fn may_rule(&self, id: TxnId) -> bool
        ensures { result ≡ on_attempt self.now.state id (λ a. acts_on (ruling_of self.now.setting.faults a.coord)) }
    {
        match self.parts.attempts.find(id) {
            Some(begun) => acts_on_test(begun.ruling()),
            None => false,
        }
    }

    fn rule_fails(&self, id: TxnId) -> Option<u8>
        ensures { result ≡ first_failing 2 (further_conditions self.now.setting self.now.state (Rule id)) }
    {
        let begun = self.begun(id);
        first_failing_test(&[
            is_stamped(begun),
            is_going(begun),
            is_unlearned(begun),
            self.may_rule(id),
        ])
    }

    // Whether the replica that leads the view serves the epoch.
    pub(crate) fn is_led(&self, epoch: u32, view: u32) -> bool
        ensures { result ≡ is_led_in self.now.setting epoch view }
    {
        let leader = view % self.size.n();
        match self.views.get(leader as usize) {
            Some(view) => serves(view, epoch),
            None => false,
        }
    }

    // Whether the replica that leads the view serves the attempt's epoch.
    fn leader_serves(&self, id: TxnId, view: u32) -> bool
        ensures { result ≡ leader_serves_in self.now.setting self.now.state id view }
    {
        match self.begun(id) {
            Some(begun) => self.is_led(begun.shown().epoch, view),
            None => false,
        }
    }

    // Whether there is something to do by the takeover's pick.
    fn may_pick(&self, id: TxnId, view: u32) -> bool
        ensures { result ≡ passes (λ t. picks_one (pick_of self.now.setting.faults t.state)) (takeover_of self.now.state id view) }
    {
        match self.parts.takeovers.find(ViewId { id, view }) {
            Some(backup) => picks_one_test(backup.pick()),
            None => false,
        }
    }

    fn pick_fails(&self, id: TxnId, view: u32) -> Option<u8>
        ensures { result ≡ first_failing 2 (further_conditions self.now.setting self.now.state (Pick id view)) }
    {
        first_failing_test(&[
            is_open(self.backup(id, view)),
            self.leader_serves(id, view),
            self.may_pick(id, view),
        ])
    }

    /// Whether a Validate of the attempt was sent.
    pub fn is_validated(&self, id: TxnId) -> bool
        ensures { result ≡ list_any (is_validate_of id) self.now.state.link }
    {
        match self.parts.attempts.find(id) {
            Some(begun) => begun.is_validated(),
            None => false,
        }
    }

    // Whether the view is one of a takeover that has not begun.
    fn may_take_over(&self, id: TxnId, view: u32) -> bool
        ensures { result ≡ (nat_le 1 view && nat_le view 15 && is_none (takeover_of self.now.state id view)) }
    {
        1 <= view && view <= 15 && self.backup(id, view).is_none()
    }

    fn takeover_fails(&self, id: TxnId, view: u32) -> Option<u8>
        ensures { result ≡ first_failing 2 (further_conditions self.now.setting self.now.state (Takeover id view)) }
    {
        first_failing_test(&[
            self.is_validated(id),
            self.may_take_over(id, view),
            self.leader_serves(id, view),
        ])
    }

    fn may_begin(&self, client: u32) -> bool
        ensures { result ≡ may_begin_in self.now.state client }
    {
        match self.parts.clients.find(client) {
            Some(client) => !client.reading,
            None => false,
        }
    }

    // The client of this number, as it is kept.
    fn client(&self, number: u32) -> Option<&Client>
        ensures seen { seen_client result ≡ client_of self.now.state number }
        ensures in_time { IfSome result (λ client. client.now.last_time ≤ 2 ^ 62) }
    {
        self.parts.clients.find(number)
    }

    // The highest epoch that the client has heard of.
    fn heard(&self, client: u32) -> u32
        ensures { result ≡ heard_by self.now.state client }
    {
        match self.client(client) {
            Some(client) => client.heard,
            None => 0,
        }
    }

    /// Whether the replica serves an epoch that the client may begin in.
    pub fn serves_client(&self, client: u32, replica: u32) -> bool
        ensures { result ≡ passes (serving_from (heard_by self.now.state client)) (slice_get self.now.setting.views replica) }
    {
        let heard = self.heard(client);
        match self.views.get(replica as usize) {
            Some(view) => serves_from(view, heard),
            None => false,
        }
    }

    fn begin_fails(&self, client: u32, replica: u32) -> Option<u8>
        ensures { result ≡ first_failing 2 (further_conditions self.now.setting self.now.state (Begin client replica)) }
    {
        first_failing_test(&[
            self.may_begin(client),
            self.serves_client(client, replica),
            has_seq_left(self.client(client)),
        ])
    }

    fn unread_fails(&self, client: u32) -> Option<u8>
        ensures { result ≡ first_failing 2 (further_conditions self.now.setting self.now.state (Unread client)) }
    {
        let heard = self.heard(client);
        first_failing_test(&[
            self.may_begin(client),
            none_serves(&self.views, heard),
            has_seq_left(self.client(client)),
        ])
    }

    // Whether this is the key call that is wanted.
    fn is_wanted(&self, call: &KeyCall) -> bool
        ensures { result ≡ passes (same_call call.now) (wanted self.now.state.work) }
    {
        match self.parts.work.wants() {
            Some(wanted) => is_call(call, &wanted),
            None => false,
        }
    }

    fn key_fails(&self, call: &KeyCall, answer: &Answer) -> Option<u8>
        ensures { result ≡ first_failing 2 (further_conditions self.now.setting self.now.state (Key call.now answer.now)) }
    {
        first_failing_test(&[answers(&call.act, answer)])
    }

    // Whether the clock is in range, and the attempt's stamp at it is not past the last time.
    fn may_stamp(&self, id: TxnId, clock: u64) -> bool
        ensures { result ≡ (nat_le clock (2 ^ 61) && on_attempt self.now.state id (λ a. stamp_exists self.now.state a clock)) }
    {
        clock <= 1 << 61 && self.next_stamp(id, clock).is_some()
    }

    // The attempt's stamp at this clock.
    fn next_stamp(&self, id: TxnId, clock: u64) -> Option<Stamp>
        ensures { is_some result ≡ on_attempt self.now.state id (λ a. stamp_exists self.now.state a clock) }
    {
        let begun = self.begun(id)?;
        let client = self.client(begun.id().client)?;
        begun.next_stamp(client.number, client.last_time, clock)
    }

    fn stamp_fails(&self, id: TxnId, clock: u64, writes: &Writes) -> Option<u8>
        ensures { result ≡ first_failing 2 (further_conditions self.now.setting self.now.state (StampStep id clock writes.now)) }
    {
        let begun = self.begun(id);
        first_failing_test(&[
            is_reading(begun),
            fit(writes, self.keys),
            self.may_stamp(id, clock),
            has_items(begun, writes),
        ])
    }

    // Whether the first condition holds: a Key step is the wanted call, and for any other none is wanted.
    fn comes_first(&self, step: &Step) -> bool
        ensures { result ≡ first_condition self.now.state step.now }
    {
        match step {
            Step::Key { call, .. } => self.is_wanted(call),
            Step::Begin { .. }
            | Step::Unread { .. }
            | Step::Read { .. }
            | Step::Stamp { .. }
            | Step::Validate { .. }
            | Step::Take { .. }
            | Step::Rule { .. }
            | Step::Again { .. }
            | Step::Takeover { .. }
            | Step::Pick { .. }
            | Step::Stop { .. } => self.parts.work.is_idle(),
        }
    }

    // The number of the first condition that fails, from 2 on.
    fn further_fails(&self, step: &Step) -> Option<u8>
        ensures { result ≡ first_failing 2 (further_conditions self.now.setting self.now.state step.now) }
    {
        match step {
            Step::Begin { client, replica } => self.begin_fails(*client, *replica),
            Step::Unread { client } => self.unread_fails(*client),
            Step::Read { id, key } => self.read_fails(*id, *key),
            Step::Stamp { id, clock, writes } => self.stamp_fails(*id, *clock, writes),
            Step::Validate { id } => self.validate_fails(*id),
            Step::Take { number } => self.take_fails(*number),
            Step::Key { call, answer } => self.key_fails(call, answer),
            Step::Rule { id } => self.rule_fails(*id),
            Step::Again { id } => self.again_fails(*id),
            Step::Takeover { id, view } => self.takeover_fails(*id, *view),
            Step::Pick { id, view } => self.pick_fails(*id, *view),
            Step::Stop { id } => self.stop_fails(*id),
        }
    }

    /// None exactly where the step is enabled, and else the number of its first condition that fails, from 1.
    pub fn blocked(&self, step: &Step) -> Option<u8>
        ensures { result ≡ blocked_by self.now.setting self.now.state step.now }
    {
        if self.comes_first(step) {
            self.further_fails(step)
        } else {
            Some(1)
        }
    }

    /// Whether the client is of this column.
    pub fn has_client(&self, client: u32) -> bool
        ensures { result ≡ is_some (client_of self.now.state client) }
    {
        self.client(client).is_some()
    }

    /// How many takeovers have begun.
    pub fn takeover_count(&self) -> usize
        ensures { result ≡ length self.now.state.takeovers }
    {
        self.parts.takeovers.len()
    }

    /// The attempt and the view of the takeover at this place, where it is not done.
    pub fn open_takeover(&self, place: usize) -> Option<(TxnId, u32)>
        ensures { result ≡ open_at self.now.state place }
    {
        let backup = self.parts.takeovers.get(place)?;
        if backup.is_closed() {
            return None;
        }
        let view_id = backup.view_id();
        Some((view_id.id, view_id.view))
    }
}

// So many replicas without entries and marks.
fn empty_replicas(alloc: Global, count: u32) -> Result<Vec<Replica>, NoMemory>
    ensures { IfOk result (λ replicas. replicas.items ≡ replicate count nothing_held) }
{
    let mut replicas = Vec::new(alloc);
    for _replica in 0..count {
        replicas.push(Replica::new(alloc))?;
    }
    Ok(replicas)
}
