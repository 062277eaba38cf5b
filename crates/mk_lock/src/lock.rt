// The lock of a key at a replica.
ghost use Rattle.std.specs.Prelude.{◌≡◌, ℕ, ◌<◌, ◌≤◌, true, [], ◌∷◌, ◌++◌, All, map, length, slice_get, Some, IfOk, OnErr};
ghost use Rattle.mk_words.specs.Acts.{answer_fits};
ghost use Rattle.mk_lock.specs.declared.view.Stage.TheVariants.{Idle};
ghost use Rattle.mk_lock.specs.Turns.{view, fresh};
ghost use Rattle.mk_lock.specs.Seats.{seat_view, held_of};

use crate::gate::Gate;
use crate::journal::Journal;
use crate::plays::{Await, Count, Deal, Draw, End, Gather, Turns};
use crate::seat::{Seat, Token};
use crate::view::{Origin, View};
use atomic_table::{Refused, Table};
use crossbeam_utils::Backoff;
use mk_cell::Cell;
use mk_txn::NoMemory;
use mk_words::{Act, Answer, JournalEntry};
use std::alloc::Global;
use std::marker::Model;
use std::snapshot::Snapshot;
use std::sync::Wait;

// Counts the tickets that were drawn.
const NEXT: usize = 0;

// Counts the turns that have ended.
const SERVED: usize = 1;

// Counts the seats that sleep, or are about to or did just now.
const SLEEPERS: usize = 2;

type Turning = Table<Journal, View, Origin, Turns, Global>;

/// The cell of a key with its journal, to which callers come in turn.
pub struct KeyLock {
    table: Turning,
    seats: u32,
    replica: u32,
    key: u32,
}

// Written out, so that a crate above proves one call, and not the drop of each part.
impl Drop for KeyLock {
    fn drop(self) {
        let KeyLock {
            table: _table,
            seats: _,
            replica: _,
            key: _,
        } = self;
    }
}

impl Model for KeyLock {
    ghost use Rattle.std.specs.Prelude.{◌≡◌, ◌<◌};
    ghost use Rattle.mk_lock.specs.Seats.{LockView};

    ghost Value = { LockView };

    ghost view = { λ l. record { name = l.table.shared.table_id; seats = l.seats; opening = l.table.shared.key.opening.value.state; replica = l.replica; key = l.key } };

    ghost invariant = { λ l. (l.table.shared.table_id.words ≡ 3) × (l.table.shared.table_id.slots ≡ 1) × (l.table.shared.key.seats ≡ l.seats) × (0 < l.seats) };
}

// Gives each number a seat.
fn deal(alloc: Global, table: &Turning, mut token: Token, seats: u32) -> Result<Vec<Seat>, NoMemory>
    requires table { (token.table_id ≡ table.now.shared.table_id) × (0 < table.now.shared.table_id.words) }
    requires numbers { token.me ≡ (view (fresh 0 seats) Idle, []) }
    ensures count { IfOk result (λ dealt. length dealt.items ≡ seats) }
    ensures fresh { IfOk result (λ dealt. (k : ℕ) → k < seats → slice_get dealt.items k ≡ Some (seat_view table.now.shared.table_id k [])) }
{
    let mut dealt = Vec::new(alloc);
    for number in 0..seats {
        dealt.reserve(1)?;
        let given = table.shared.split_seat::<Deal>(&mut token);
        dealt.push_reserved(Seat::of(number, given));
    }
    Ok(dealt)
}

// Puts all seats into one.
fn gather(table: &Turning, mut seats: Vec<Seat>) -> Token
    requires some { 0 < length seats.items }
    requires table { (0 < table.now.shared.table_id.words) × All (λ s. s.lock ≡ table.now.shared.table_id) seats.items }
    ensures { (result.table_id ≡ table.now.shared.table_id) × (result.me ≡ (view (map held_of seats.items) Idle, [])) }
{
    let Some(last) = seats.pop() else {
        unreachable!()
    };
    let mut token = last.into_token();
    while let Some(seat) = seats.pop() {
        let mut earlier = seat.into_token();
        table.shared.join_seat::<Gather>(&mut earlier, token);
        token = earlier;
    }
    token
}

impl KeyLock {
    ghost use Rattle.mk_lock.specs.Entries.{entry};
    ghost use Rattle.mk_lock.specs.Turns.{Rests, Waits, HasTicket, HasTurn, MayEnd, ended};
    ghost use Rattle.mk_lock.specs.Seats.{AreSeatsOf, IsJournalOf};

    /// The lock, and its seats, numbered from 0.
    pub fn new(
        alloc: Global,
        replica: u32,
        key: u32,
        cell: Cell,
        seats: u32,
    ) -> Result<(KeyLock, Vec<Seat>), NoMemory>
        requires { 1 ≤ seats }
        ensures lock { IfOk result (λ made. (made.0.seats ≡ seats) × (made.0.opening ≡ cell.state) × (made.0.replica ≡ replica) × (made.0.key ≡ key)) }
        ensures seats { IfOk result (λ made. AreSeatsOf made.0.name seats made.1.items) }
        ensures fresh { IfOk result (λ made. (k : ℕ) → k < seats → slice_get made.1.items k ≡ Some (seat_view made.0.name k [])) }
    {
        let origin = Origin {
            seats,
            opening: Snapshot::of(&cell),
        };
        let mut slots = Vec::new(alloc);
        slots.reserve(1)?;
        slots.push_reserved(Journal::new(alloc, cell));
        let (table, token) = match Table::new(alloc, &[0, 0, 0], slots, &origin) {
            Ok(made) => made,
            Err(Refused { slots: _ }) => return Err(NoMemory),
        };
        let dealt = deal(alloc, &table, token, seats)?;
        let lock = KeyLock {
            table,
            seats,
            replica,
            key,
        };
        Ok((lock, dealt))
    }

    // Draws a ticket.
    fn draw(&self, token: &mut Token) -> u64
        requires token { (token.old.table_id ≡ self.now.name) × Rests token.old.me }
        ensures same { (token.new.table_id ≡ token.old.table_id) × (token.new.id ≡ token.old.id) }
        ensures waits { Waits token.old.me result token.new.me }
    {
        self.table.shared.fetch_add::<Draw>(token, NEXT, 1)
    }

    // Sleeps unless the ticket is served, until a turn ends. It may also return for no reason.
    //
    // No wake is lost. The seat is counted before it looks, and who ends a turn looks at the count after it: where that one
    // finds no sleeper, this one finds the turn ended. Where the turn ends between the look and the sleep, the kernel finds
    // another number than was seen and returns: its low 32 bits differ too, since fewer than 2^32 turns come before this one's.
    fn sleep<R: Wait>(&self, rt: &R, token: &mut Token, ticket: u64)
        requires { token.old.table_id ≡ self.now.name }
        ensures { (token.new.table_id ≡ token.old.table_id) × (token.new.id ≡ token.old.id) × (token.new.me ≡ token.old.me) }
    {
        self.table.shared.fetch_add::<Count>(token, SLEEPERS, 1);
        let served = self.table.shared.peek(SERVED);
        if served != ticket {
            let seen = (served & 0xffff_ffff) as u32;
            self.table.shared.park(rt, SERVED, seen);
        }
        self.table.shared.fetch_sub::<Count>(token, SLEEPERS, 1);
    }

    // Waits until the ticket is served, and takes the journal out. It spins first, then yields the processor, then sleeps.
    fn take_turn<R: Wait>(&self, rt: &R, token: &mut Token, ticket: u64)
        requires token { (token.old.table_id ≡ self.now.name) × HasTicket ticket token.old.me }
        ensures same { (token.new.table_id ≡ token.old.table_id) × (token.new.id ≡ token.old.id) }
        ensures turn { HasTurn token.old.me token.new.me }
    {
        let backoff = Backoff::new();
        for _ in rt.forever() {
            if self.table.shared.load::<Await>(token, SERVED) == ticket {
                return;
            }
            if backoff.is_completed() {
                self.sleep(rt, token, ticket);
            } else {
                backoff.snooze();
            }
        }
        unreachable!()
    }

    // Puts the journal back, and serves the next ticket. All sleepers are woken, since no word says which of them has it.
    fn end_turn(&self, token: &mut Token)
        requires token { (token.old.table_id ≡ self.now.name) × MayEnd token.old.me }
        ensures same { (token.new.table_id ≡ token.old.table_id) × (token.new.id ≡ token.old.id) }
        ensures rests { token.new.me ≡ ended token.old.me }
    {
        self.table.shared.fetch_add::<End>(token, SERVED, 1);
        if self.table.shared.peek(SLEEPERS) > 0 {
            self.table.shared.wake_all(SERVED);
        }
    }

    /// Waits for its turn, does the act on the cell, and writes it down under the seat's number.
    /// At `Err` the cell, the journal and the seat's list are as they were.
    pub fn act<G: Gate, R: Wait>(
        &self,
        rt: &R,
        seat: &mut Seat,
        act: Act,
        gate: &G,
    ) -> Result<Answer, NoMemory>
        requires { seat.old.lock ≡ self.now.name }
        ensures seat { (seat.new.lock ≡ seat.old.lock) × (seat.new.number ≡ seat.old.number) }
        ensures ok { IfOk result (λ answer. seat.new.entries ≡ seat.old.entries ++ entry seat.old.number act answer ∷ []) }
        ensures kind { IfOk result (λ answer. answer_fits act answer ≡ true) }
        ensures err { OnErr result (seat.new.entries ≡ seat.old.entries) }
    {
        let Seat { number, token } = seat;
        let ticket = self.draw(token);
        self.take_turn(rt, token, ticket);
        gate.pass(*number, self.replica, self.key);
        let done = token.slot_mut(&self.table.shared, 0).act(*number, act);
        self.end_turn(token);
        done
    }

    /// Takes the lock apart, and gives the cell and the whole journal. It has all seats, so none waits or sleeps.
    pub fn close(self, seats: Vec<Seat>) -> (Cell, Vec<JournalEntry>)
        requires { AreSeatsOf self.name self.seats seats.items }
        ensures { IsJournalOf self.opening result.0.state seats.items result.1.items }
    {
        let KeyLock {
            table,
            seats: _,
            replica: _,
            key: _,
        } = self;
        let token = gather(&table, seats);
        let mut closed = table.close_with(token);
        let journal = closed.take(0);
        closed.free();
        journal.into_parts()
    }
}
