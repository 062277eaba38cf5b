//! What attempts were asked for, and the lists of requests.
ghost use Rattle.std.specs.Prelude.{◌≡◌, ◌<◌, ◌≤◌, length, option_copied, slice_get, is_none, IsSome, OnOk, OnErr};
ghost use Rattle.mk_driver.specs.Agenda.{trial_in, with_place, put_trial, end_trial};
ghost use Rattle.mk_driver.specs.Delivery.{retries_after};
ghost use Rattle.mk_driver.specs.Stages.{after_request};

use crate::{Items, Request, Requests, Trials};
use mk_proc::Item;
use mk_txn::NoMemory;

impl Items {
    pub(crate) fn as_slice(&self) -> &[Item]
        ensures items { result.now ≡ self.now }
        ensures few { length result.now ≤ 16 }
    {
        self.list.as_slice()
    }
}

impl Requests {
    pub(crate) fn is_empty(&self) -> bool
        ensures { result ≡ is_none (slice_get self.now 0) }
    {
        self.list.is_empty()
    }

    /// The first request goes.
    pub(crate) fn drop_first(&mut self)
        ensures { self.new ≡ after_request self.old }
    {
        let _ = self.list.pop_front();
    }
}

impl Trials {
    /// What the attempt of this place was asked for.
    pub(crate) fn get(&self, seq: u32) -> Option<&Request>
        ensures { option_copied result ≡ trial_in self.now seq }
    {
        match self.list.get(seq as usize) {
            Some(trial) => trial.as_ref(),
            None => None,
        }
    }

    /// The trial ends, and gives what the attempt was asked for.
    pub(crate) fn remove(&mut self, seq: u32) -> Option<Request>
        ensures request { result ≡ trial_in self.old seq }
        ensures trials { self.new ≡ end_trial seq self.old }
    {
        match self.list.get_mut(seq as usize) {
            Some(trial) => trial.take(),
            None => None,
        }
    }

    // There is a place for the attempt.
    #[tactic(auto, using(crate::proofs::TrialLaws::place_more))]
    fn make_place(&mut self, seq: u32) -> Result<(), NoMemory>
        ensures ok { OnOk result (self.new ≡ with_place seq self.old) }
        ensures there { OnOk result (seq < length self.new) }
        ensures err { OnErr result (self.new ≡ self.old) }
    {
        let places = seq as usize + 1;
        if places <= self.list.len() {
            return Ok(());
        }
        self.list.reserve(places - self.list.len())?;
        while self.list.len() < places {
            self.list.push_reserved(None);
        }
        Ok(())
    }

    /// The first of the requests becomes that of the attempt of this place.
    pub(crate) fn take_first(&mut self, seq: u32, requests: &mut Requests) -> Result<(), NoMemory>
        requires { IsSome (slice_get requests.old 0) }
        ensures trials { OnOk result (self.new ≡ put_trial seq (slice_get requests.old 0) self.old) }
        ensures requests { OnOk result (requests.new ≡ after_request requests.old) }
        ensures err { OnErr result ((self.new ≡ self.old) × (requests.new ≡ requests.old)) }
    {
        self.make_place(seq)?;
        let request = requests.list.pop_front();
        self.list[seq as usize] = request;
        Ok(())
    }

    /// The trial ends, and what the attempt was asked for joins the requests while it has tries left.
    pub(crate) fn retry(&mut self, seq: u32, requests: &mut Requests) -> Result<(), NoMemory>
        ensures trials { OnOk result (self.new ≡ end_trial seq self.old) }
        ensures requests { OnOk result (requests.new ≡ retries_after (trial_in self.old seq) requests.old) }
        ensures err { OnErr result ((self.new ≡ self.old) × (requests.new ≡ requests.old)) }
    {
        requests.list.reserve(1)?;
        let Some(mut request) = self.remove(seq) else {
            return Ok(());
        };
        if request.tries > 0 {
            request.tries -= 1;
            if requests.list.push_back(request).is_err() {
                unreachable!();
            }
        }
        Ok(())
    }
}
