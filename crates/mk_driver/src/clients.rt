//! The clients of a column, found by place and by number.
ghost use Rattle.std.specs.Prelude.{◌≡◌, ◌<◌, None, Some, find, length, slice_get, slice_set, slice_index, slice_index_or, is_some, option_copied, IsSome, IsSomeAnd, OnOk, OnErr, IfSome, IfNone};
ghost use Rattle.mk_lists.specs.Changed.{change};
ghost use Rattle.mk_driver.specs.declared.Caller.{Caller as OneCaller};
ghost use Rattle.mk_driver.specs.Agenda.{is_caller, trial_by};
ghost use Rattle.mk_driver.specs.Keeping.{numbers_of};
ghost use Rattle.mk_driver.specs.Delivery.{done_with, tried_again};
ghost use Rattle.mk_driver.specs.Stages.{resting, at_stage as with_stage, next_request, without_request, begun};

use crate::{Caller, Callers, Request, Stage};
use mk_txn::{NoMemory, TxnId};

impl Caller {
    /// Whether its list has a transaction.
    pub(crate) fn has_request(&self) -> bool
        ensures { result ≡ is_some (next_request self.now) }
    {
        !self.retries.is_empty() || !self.lines.is_empty()
    }

    /// Its next transaction goes.
    fn skip(&mut self)
        ensures gone { self.new ≡ without_request self.old }
        ensures number { self.new.number ≡ self.old.number }
    {
        if self.retries.is_empty() {
            self.lines.drop_first();
        } else {
            self.retries.drop_first();
        }
    }

    /// Its next transaction becomes that of its attempt of this place.
    fn begin(&mut self, seq: u32) -> Result<(), NoMemory>
        requires { IsSome (next_request self.old) }
        ensures ok { OnOk result (self.new ≡ begun seq self.old) }
        ensures number { self.new.number ≡ self.old.number }
        ensures err { OnErr result (self.new ≡ self.old) }
    {
        if self.retries.is_empty() {
            self.trials.take_first(seq, &mut self.lines)
        } else {
            self.trials.take_first(seq, &mut self.retries)
        }
    }

    /// Its attempt of this place is done.
    fn end(&mut self, seq: u32)
        ensures done { self.new ≡ done_with seq self.old }
        ensures number { self.new.number ≡ self.old.number }
    {
        let _ = self.trials.remove(seq);
    }

    /// What its attempt of this place was asked for joins the retries while it has tries left.
    fn retry(&mut self, seq: u32) -> Result<(), NoMemory>
        ensures ok { OnOk result (self.new ≡ tried_again seq self.old) }
        ensures number { self.new.number ≡ self.old.number }
        ensures err { OnErr result (self.new ≡ self.old) }
    {
        self.trials.retry(seq, &mut self.retries)
    }
}

impl Callers {
    pub(crate) fn len(&self) -> usize
        ensures { result ≡ length self.now }
    {
        self.list.len()
    }

    /// The client at this place.
    pub(crate) fn get(&self, place: usize) -> Option<&Caller>
        ensures { option_copied result ≡ slice_get self.now place }
    {
        self.list.get(place)
    }

    /// The number of the client at this place.
    pub(crate) fn number_at(&self, place: usize) -> u32
        requires { place < length self.now }
        ensures { result ≡ slice_index (numbers_of self.now) place }
    {
        self.list[place].number
    }

    /// Where the client of this number stands. To change it there is to change it in the list.
    pub(crate) fn place_of(&self, number: u32) -> Option<usize>
        ensures within { IfSome result (λ place. place < length self.now) }
        ensures found { IfSome result (λ place. (caller : OneCaller) → find (is_caller number) self.now ≡ Some (slice_index_or self.now place caller)) }
        ensures changed { IfSome result (λ place. (f : OneCaller → OneCaller) (caller : OneCaller) → change (is_caller number) f self.now ≡ slice_set self.now place (f (slice_index_or self.now place caller))) }
        ensures none { IfNone result (find (is_caller number) self.now ≡ None) }
    {
        let mut low = 0;
        let mut high = self.list.len();
        while low < high {
            let middle = low + (high - low) / 2;
            let other = self.number_at(middle);
            if other == number {
                return Some(middle);
            }
            if other < number {
                low = middle + 1;
            } else {
                high = middle;
            }
        }
        None
    }

    /// No attempt of the client at this place is under way.
    pub(crate) fn rest(&mut self, place: usize)
        requires { place < length self.old }
        ensures rests { (caller : OneCaller) → slice_get self.old place ≡ Some caller → self.new ≡ change (is_caller caller.number) resting self.old }
        ensures len { length self.new ≡ length self.old }
    {
        self.list[place].under_way = None;
    }

    /// An attempt of the client of this number has done a stage.
    pub(crate) fn at_stage(&mut self, number: u32, stage: Stage)
        ensures { self.new ≡ change (is_caller number) (with_stage stage) self.old }
    {
        if let Some(place) = self.place_of(number) {
            self.list[place].under_way = Some(stage);
        }
    }

    /// The next transaction of the client at this place becomes that of its attempt of this place.
    pub(crate) fn begin(&mut self, place: usize, seq: u32) -> Result<(), NoMemory>
        requires { IsSomeAnd (slice_get self.old place) (λ caller. IsSome (next_request caller)) }
        ensures ok { OnOk result ((caller : OneCaller) → slice_get self.old place ≡ Some caller → self.new ≡ change (is_caller caller.number) (begun seq) self.old) }
        ensures err { OnErr result (self.new ≡ self.old) }
    {
        self.list[place].begin(seq)?;
        Ok(())
    }

    /// The next transaction of the client at this place goes.
    pub(crate) fn skip(&mut self, place: usize)
        requires { IsSomeAnd (slice_get self.old place) (λ caller. IsSome (next_request caller)) }
        ensures { (caller : OneCaller) → slice_get self.old place ≡ Some caller → self.new ≡ change (is_caller caller.number) without_request self.old }
    {
        self.list[place].skip();
    }

    /// The attempt is done.
    pub(crate) fn end(&mut self, id: TxnId)
        ensures { self.new ≡ change (is_caller id.client) (done_with id.seq) self.old }
    {
        if let Some(place) = self.place_of(id.client) {
            self.list[place].end(id.seq);
        }
    }

    /// The attempt's client tries again what it was asked for, while tries are left.
    pub(crate) fn retry(&mut self, id: TxnId) -> Result<(), NoMemory>
        ensures ok { OnOk result (self.new ≡ change (is_caller id.client) (tried_again id.seq) self.old) }
        ensures err { OnErr result (self.new ≡ self.old) }
    {
        match self.place_of(id.client) {
            Some(place) => self.list[place].retry(id.seq)?,
            None => {}
        }
        Ok(())
    }

    /// What the attempt was asked for.
    pub(crate) fn trial(&self, id: TxnId) -> Option<&Request>
        ensures { option_copied result ≡ trial_by id.seq (find (is_caller id.client) self.now) }
    {
        match self.place_of(id.client) {
            Some(place) => self.list[place].trials.get(id.seq),
            None => None,
        }
    }
}
