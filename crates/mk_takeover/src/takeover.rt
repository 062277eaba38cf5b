//! A takeover of an attempt by a backup coordinator.
ghost use Rattle.std.specs.Prelude.{◌≡◌, ◌<◌, ◌≤◌, Some, length};
ghost use Rattle.mk_quorum.specs.Sizes.{members};
ghost use Rattle.mk_quorum.specs.Slots.{count_slots};
ghost use Rattle.mk_words.specs.declared.Pick.TheVariants.{Propose};
ghost use Rattle.mk_words.specs.Picks.{new_takeover, reply_counted, accept_counted, takeover_proposed, takeover_taught, pick, by_promises as promises_pick, by_counts as counts_pick, by_accepts as accepts_pick, is_promise};
ghost use Rattle.mk_words.specs.Rulings.{count_accepts as accepts_of};

use crate::Pick;
use crate::promising::{count_oks, count_others, count_promises, highest_accepted};
use mk_quorum::{Size, count_accepts, fill};
use mk_txn::{Cause, Outcome};
use mk_words::Told;
use std::marker::Model;

/// What a takeover of one view took: replies, accepts of its proposal, and an outcome that it was taught.
#[derive(Drop)]
pub struct Takeover {
    size: Size,
    view: u32,
    told: [Option<Told>; 7],
    accepts: [Option<bool>; 7],
    proposed: Option<Outcome>,
    learned: Option<Outcome>,
}

impl Model for Takeover {
    ghost use Rattle.mk_words.specs.Rulings.{HasSlots};
    ghost use Rattle.mk_words.specs.Picks.{SizedTakeover, seen_takeover};

    ghost Value = { SizedTakeover };

    ghost view = { λ takeover. seen_takeover takeover.size takeover.view takeover.told takeover.accepts takeover.proposed takeover.learned };

    ghost invariant = { λ takeover. HasSlots takeover.size takeover.told takeover.accepts };
}

impl Takeover {
    /// A takeover at this view that has taken nothing.
    pub fn begin(size: Size, view: u32) -> Takeover
        requires { 1 ≤ view }
        ensures faults { result.faults ≡ size }
        ensures state { result.state ≡ new_takeover size view }
    {
        // so that seven slots are enough
        prove!(size.f() <= 3);
        Takeover {
            size,
            view,
            told: [None; 7],
            accepts: [None; 7],
            proposed: None,
            learned: None,
        }
    }

    /// Takes a replica's reply. Its first counts, and a final outcome in any teaches.
    pub fn take_told(&mut self, replica: u32, told: &Told)
        requires { replica < members self.old.faults }
        ensures { self.new ≡ record self.old { state = reply_counted replica told.now self.old.state } }
    {
        fill(&mut self.told, replica, *told);
        self.learned = self.learned.or(told.last);
    }

    /// Proposes the outcome that the promises give.
    pub fn propose(&mut self, outcome: Outcome)
        requires { pick self.old.faults self.old.state ≡ Propose outcome }
        ensures { self.new ≡ record self.old { state = takeover_proposed outcome self.old.state } }
    {
        self.proposed = Some(outcome);
    }

    /// What it proposed.
    pub fn proposed(&self) -> Option<Outcome>
        ensures { result ≡ self.now.state.proposed }
    {
        self.proposed
    }

    /// Takes that a replica accepted the proposal, which counts once for each.
    pub fn take_accepted(&mut self, replica: u32)
        requires { replica < members self.old.faults }
        ensures { self.new ≡ record self.old { state = accept_counted replica self.old.state } }
    {
        fill(&mut self.accepts, replica, true);
    }

    /// Learns an outcome that was told elsewhere. The first one stays.
    pub fn learn(&mut self, outcome: Outcome)
        ensures { self.new ≡ record self.old { state = takeover_taught (Some outcome) self.old.state } }
    {
        self.learned = self.learned.or(Some(outcome));
    }

    /// How many replicas promised the view.
    pub fn promise_count(&self) -> u32
        ensures { result ≡ count_slots (members self.now.faults) is_promise self.now.state.told }
    {
        count_promises(self.told()) as u32
    }

    /// How many replicas accepted the proposal.
    pub fn accept_count(&self) -> u32
        ensures { result ≡ accepts_of self.now.faults self.now.state.accepts }
    {
        count_accepts(self.accepts()) as u32
    }

    /// What was taken so far gives.
    pub fn decide(&self) -> Pick
        ensures { result ≡ pick self.now.faults self.now.state }
    {
        if let Some(outcome) = self.learned {
            return Pick::Known(outcome);
        }
        match self.proposed {
            Some(outcome) => by_accepts(self.size, outcome, self.accepts()),
            None => self.by_promises(),
        }
    }

    /// The replies of the replicas that there are.
    fn told(&self) -> &[Option<Told>]
        ensures slots { result.now ≡ self.now.state.told }
        ensures count { length result.now ≡ members self.now.faults }
        ensures few { length result.now ≤ 7 }
    {
        &self.told[..self.size.n() as usize]
    }

    /// Which of the replicas that there are accepted.
    fn accepts(&self) -> &[Option<bool>]
        ensures slots { result.now ≡ self.now.state.accepts }
        ensures count { length result.now ≡ members self.now.faults }
        ensures few { length result.now ≤ 7 }
    {
        &self.accepts[..self.size.n() as usize]
    }

    /// A majority of promises proposes again what was accepted in the highest view.
    fn by_promises(&self) -> Pick
        ensures { result ≡ promises_pick self.now.faults self.now.state }
    {
        let told = self.told();
        let promises = count_promises(told) as u32;
        if promises < self.size.majority() {
            return Pick::Short(promises);
        }
        match highest_accepted(told) {
            Some(accepted) => Pick::Propose(accepted.outcome),
            None => self.by_counts(),
        }
    }

    /// Where nothing was accepted, the votes in the promises count.
    fn by_counts(&self) -> Pick
        ensures { result ≡ counts_pick self.now.faults self.now.state }
    {
        let told = self.told();
        let oks = count_oks(told) as u32;
        let others = count_others(told) as u32;
        if self.size.majority() <= oks {
            Pick::Propose(Outcome::Commit)
        } else if self.size.block() <= others {
            Pick::Propose(Outcome::Abort(Cause::Takeover(self.view)))
        } else {
            Pick::Unclear {
                ok: oks,
                not_ok: others,
            }
        }
    }
}

/// A majority of accepts settles the proposal.
fn by_accepts(size: Size, outcome: Outcome, accepts: &[Option<bool>]) -> Pick
    requires { length accepts.now ≡ members size }
    ensures { result ≡ accepts_pick size outcome accepts.now }
{
    let accepted = count_accepts(accepts) as u32;
    if size.majority() <= accepted {
        Pick::Learned(outcome)
    } else {
        Pick::Unaccepted(accepted)
    }
}
