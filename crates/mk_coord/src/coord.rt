//! The own coordinator of an attempt, which works at view 0.
ghost use Rattle.std.specs.Prelude.{◌≡◌, ◌<◌, ◌≤◌, Some, length};
ghost use Rattle.mk_quorum.specs.Sizes.{members};
ghost use Rattle.mk_quorum.specs.Slots.{count_slots};
ghost use Rattle.mk_words.specs.declared.Ruling.TheVariants.{Propose};
ghost use Rattle.mk_words.specs.Rulings.{new_coord, vote_counted, accept_counted, coord_proposed, coord_taught, ruling, by_votes as votes_ruling, by_accepts as accepts_ruling, any_vote, count_accepts as accepts_of};

use crate::Ruling;
use crate::counting::{count_aborts, count_oks, count_votes, first_refusal};
use mk_quorum::{Size, count_accepts, fill};
use mk_txn::{Outcome, Vote};
use std::marker::Model;

/// What an attempt's own coordinator took: votes, accepts of its proposal, and an outcome that it was taught.
#[derive(Drop)]
pub struct Coord {
    size: Size,
    votes: [Option<Vote>; 7],
    accepts: [Option<bool>; 7],
    proposed: Option<Outcome>,
    learned: Option<Outcome>,
}

impl Model for Coord {
    ghost use Rattle.mk_words.specs.Rulings.{SizedCoord, seen_coord, HasSlots};

    ghost Value = { SizedCoord };

    ghost view = { λ coord. seen_coord coord.size coord.votes coord.accepts coord.proposed coord.learned };

    ghost invariant = { λ coord. HasSlots coord.size coord.votes coord.accepts };
}

impl Coord {
    /// A coordinator that has taken nothing.
    pub fn new(size: Size) -> Coord
        ensures faults { result.faults ≡ size }
        ensures state { result.state ≡ new_coord size }
    {
        // so that seven slots are enough
        prove!(size.f() <= 3);
        Coord {
            size,
            votes: [None; 7],
            accepts: [None; 7],
            proposed: None,
            learned: None,
        }
    }

    /// Takes a replica's vote. Its first counts.
    pub fn take_vote(&mut self, replica: u32, vote: Vote)
        requires { replica < members self.old.faults }
        ensures { self.new ≡ record self.old { state = vote_counted replica vote self.old.state } }
    {
        fill(&mut self.votes, replica, vote);
    }

    /// Proposes the outcome that the votes give.
    pub fn propose(&mut self, outcome: Outcome)
        requires { ruling self.old.faults self.old.state ≡ Propose outcome }
        ensures { self.new ≡ record self.old { state = coord_proposed outcome self.old.state } }
    {
        self.proposed = Some(outcome);
    }

    /// Takes that a replica accepted the proposal, which counts once for each.
    pub fn take_accepted(&mut self, replica: u32)
        requires { replica < members self.old.faults }
        ensures { self.new ≡ record self.old { state = accept_counted replica self.old.state } }
    {
        fill(&mut self.accepts, replica, true);
    }

    /// Learns an outcome that was told. The first one stays.
    pub fn learn(&mut self, outcome: Outcome)
        ensures { self.new ≡ record self.old { state = coord_taught (Some outcome) self.old.state } }
    {
        self.learned = self.learned.or(Some(outcome));
    }

    // The votes of the replicas that there are.
    fn votes(&self) -> &[Option<Vote>]
        ensures slots { result.now ≡ self.now.state.votes }
        ensures count { length result.now ≡ members self.now.faults }
        ensures few { length result.now ≤ 7 }
    {
        &self.votes[..self.size.n() as usize]
    }

    // Which of the replicas that there are accepted.
    fn accepts(&self) -> &[Option<bool>]
        ensures slots { result.now ≡ self.now.state.accepts }
        ensures count { length result.now ≡ members self.now.faults }
        ensures few { length result.now ≤ 7 }
    {
        &self.accepts[..self.size.n() as usize]
    }

    /// How many replicas voted.
    pub fn vote_count(&self) -> u32
        ensures { result ≡ count_slots (members self.now.faults) any_vote self.now.state.votes }
    {
        count_votes(self.votes()) as u32
    }

    /// How many replicas accepted the proposal.
    pub fn accept_count(&self) -> u32
        ensures { result ≡ accepts_of self.now.faults self.now.state.accepts }
    {
        count_accepts(self.accepts()) as u32
    }

    /// What was taken so far gives.
    pub fn decide(&self) -> Ruling
        ensures { result ≡ ruling self.now.faults self.now.state }
    {
        if let Some(outcome) = self.learned {
            return Ruling::Learned(outcome);
        }
        match self.proposed {
            Some(outcome) => by_accepts(self.size, outcome, self.accepts()),
            None => by_votes(self.size, self.votes()),
        }
    }
}

/// A majority of accepts settles the proposal.
fn by_accepts(size: Size, outcome: Outcome, accepts: &[Option<bool>]) -> Ruling
    requires { length accepts.now ≡ members size }
    ensures { result ≡ accepts_ruling size outcome accepts.now }
{
    let accepted = count_accepts(accepts) as u32;
    if size.majority() <= accepted {
        Ruling::Learned(outcome)
    } else {
        Ruling::Unaccepted(accepted)
    }
}

/// A fast quorum of equal votes decides, and else a majority of votes gives the proposal.
fn by_votes(size: Size, votes: &[Option<Vote>]) -> Ruling
    requires { length votes.now ≡ members size }
    ensures { result ≡ votes_ruling size votes.now }
{
    let oks = count_oks(votes) as u32;
    let all = count_votes(votes) as u32;
    if size.fast() <= oks {
        Ruling::Fast(Outcome::Commit)
    } else if size.fast() <= count_aborts(votes) as u32 {
        Ruling::Fast(first_refusal(votes))
    } else if all < size.majority() {
        Ruling::Short(all)
    } else if size.majority() <= oks {
        Ruling::Propose(Outcome::Commit)
    } else {
        Ruling::Propose(first_refusal(votes))
    }
}
