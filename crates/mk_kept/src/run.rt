//! A run.
ghost use Rattle.std.specs.Prelude.{◌≡◌};
ghost use Rattle.mk_history.specs.Shape.{HasShape};
ghost use Rattle.mk_kept.specs.Heads.{history, HasLimits};

use crate::Head;
use mk_history::{RoundLog, Rounds};
use std::marker::Model;

/// A run: its head and its rounds. Every number is in range and every table as large as the others ask for.
#[derive(Drop)]
pub struct Run {
    head: Head,
    rounds: Rounds,
}

impl Model for Run {
    ghost use Rattle.mk_history.specs.Histories.{History};
    ghost use Rattle.mk_history.specs.Shape.{HasShape};
    ghost use Rattle.mk_kept.specs.Heads.{history, HasLimits};

    ghost Value = { History };

    ghost view = { λ run. history run.head run.rounds };

    ghost invariant = { λ run. HasShape (history run.head run.rounds) × HasLimits run.head };
}

impl Run {
    pub fn new(head: Head, rounds: Rounds) -> Run
        requires shape { HasShape (history head rounds) }
        requires limits { HasLimits head }
        ensures { result ≡ history head rounds }
    {
        Run { head, rounds }
    }

    pub fn head(&self) -> &Head
        ensures parts { history result.now self.now.rounds ≡ self.now }
        ensures shape { HasShape self.now }
        ensures limits { HasLimits result.now }
    {
        &self.head
    }

    /// A run that is kept has the shape of a run. The function does nothing.
    pub fn has_shape(&self)
        ensures { HasShape self.now }
    {
        let _head = self.head();
    }

    /// The rounds, in order.
    pub fn rounds(&self) -> &[RoundLog]
        ensures { result.now ≡ self.now.rounds }
    {
        self.rounds.as_slice()
    }
}
