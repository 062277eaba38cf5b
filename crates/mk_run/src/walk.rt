//! A legal run, replayed round by round.
ghost use Rattle.std.specs.Prelude.{◌≡◌, ◌≤◌, ◌∷◌, ◌++◌, [], List, is_some, length, IfOk, OnOk};
ghost use Rattle.mk_history.specs.declared.RoundLog.{RoundLog as Round};
ghost use Rattle.mk_history.specs.Histories.{History};
ghost use Rattle.mk_kept.specs.Heads.{history};
ghost use Rattle.mk_run.specs.Firsts.{first_in};
ghost use Rattle.mk_run.specs.Walking.{HasWalked, MayWalk};

use crate::entering::note_lines;
use crate::firsts::FirstLearnings;
use crate::{Head, RoundLog};
use mk_column::Column;
use mk_merge::Base;
use mk_state::Whole;
use mk_txn::{NoMemory, TxnId};
use mk_whole::replay;
use std::alloc::Global;
use std::marker::Model;

/// A legal run, replayed round by round: its columns as the last round left them, and the attempts whose outcomes were
/// learned at the Enters of epochs so far.
#[derive(Drop)]
pub struct Walk {
    whole: Whole<Base>,
    entered: Vec<u32>,
    settled: FirstLearnings,
}

impl Model for Walk {
    ghost use Rattle.mk_run.specs.Walking.{WalkView};

    ghost Value = { WalkView };

    ghost view = { λ w. record { whole = w.whole; entered = w.entered.items; settled = w.settled } };
}

impl Walk {
    /// Before the first round of the head's runs, which have at most 64 clients.
    pub fn new(alloc: Global, head: &Head) -> Result<Walk, NoMemory>
        requires { length head.now.client_columns ≤ 64 }
        ensures { IfOk result (λ walk. (rounds : List Round) → HasWalked (history head.now rounds) walk []) }
    {
        Ok(Walk {
            whole: Whole::new(alloc, head)?,
            entered: Vec::new(alloc),
            settled: FirstLearnings::new(alloc),
        })
    }

    /// Replays the run's next round. Behind an error nothing is known of what is kept.
    pub fn replay(&mut self, round: &RoundLog) -> Result<(), NoMemory>
        requires { (run : History) × (done : List Round) × MayWalk run done self.old round.now }
        ensures { OnOk result ((run : History) (done : List Round) → MayWalk run done self.old round.now → HasWalked run self.new (done ++ round.now ∷ [])) }
    {
        let _flaw = replay(&mut self.whole, round)?;
        note_lines(
            &mut self.settled,
            &mut self.entered,
            self.whole.replicas(),
            round.globals.as_slice(),
        )
    }

    /// The columns, by number.
    pub fn columns(&self) -> &[Column]
        ensures { result.now ≡ self.now.whole.columns }
    {
        self.whole.columns()
    }

    /// Whether the attempt's outcome was learned at an Enter.
    pub fn is_settled(&self, id: TxnId) -> bool
        ensures { result ≡ is_some (first_in id self.now.settled) }
    {
        self.settled.find(id).is_some()
    }
}
