//! The machine that replays rounds, with what was learned first of each attempt.
ghost use Rattle.std.specs.Prelude.{◌≡◌, ◌≤◌, [], List, length, IfOk, OnOk};
ghost use Rattle.mk_model.specs.EpochState.{EpochState};
ghost use Rattle.mk_epoch.specs.Standing.{StandsFor};
ghost use Rattle.mk_history.specs.declared.RoundLog.{RoundLog as Round};
ghost use Rattle.mk_history.specs.Histories.{History};
ghost use Rattle.mk_history.specs.Learning.{entered_through};
ghost use Rattle.mk_kept.specs.Heads.{history};
ghost use Rattle.mk_whole.specs.Standings.{IsItself, MayReplay};
ghost use Rattle.mk_run.specs.Attempts.{tally_of};
ghost use Rattle.mk_run.specs.Firsts.{all_noted};
ghost use Rattle.mk_run.specs.Judging.{HasReplayed, IsReplayed};
ghost use Rattle.mk_run.specs.Lines.{lines_of_views};
ghost use Rattle.mk_run.specs.News.{all_news, told_in, news_by_lines, SameEpochs};

use crate::counting::tally;
use crate::entering::note_lines;
use crate::firsts::FirstLearnings;
use crate::hearing::{counts, note_columns};
use crate::lines::lines;
use crate::{AttemptLine, ColumnNumbers, GlobalEntry, Head, RoundLog, Tally};
use mk_merge::Base;
use mk_state::Whole;
use mk_txn::NoMemory;
use mk_verdict::PlacedFlaw;
use mk_whole::replay;
use std::alloc::Global;
use std::marker::Model;

/// The machine, what was learned first of each attempt, the epochs that were entered, and the column of each client.
#[derive(Drop)]
pub(crate) struct Watch {
    alloc: Global,
    whole: Whole<Base>,
    firsts: FirstLearnings,
    entered: Vec<u32>,
    client_columns: ColumnNumbers,
}

impl Model for Watch {
    ghost use Rattle.std.specs.Prelude.{◌≤◌, length};
    ghost use Rattle.mk_run.specs.Judging.{WatchView};

    ghost Value = { WatchView };

    ghost view = { λ w. record { whole = w.whole; firsts = w.firsts; entered = w.entered.items; client_columns = w.client_columns } };

    ghost invariant = { λ w. length w.client_columns ≤ 64 };
}

impl Watch {
    /// Before the first round of the head's runs.
    pub(crate) fn new(alloc: Global, head: &Head) -> Result<Watch, NoMemory>
        requires { length head.now.client_columns ≤ 64 }
        ensures { IfOk result (λ watch. (rounds : List Round) → HasReplayed (history head.now rounds) watch []) }
    {
        Ok(Watch {
            alloc,
            whole: Whole::new(alloc, head)?,
            firsts: FirstLearnings::new(alloc),
            entered: Vec::new(alloc),
            client_columns: head.client_columns.copy()?,
        })
    }

    /// Replays the run's next round up to its first flaw. Where it has none, what is learned in it is noted.
    pub(crate) fn replay(&mut self, round: &RoundLog) -> Result<Option<PlacedFlaw>, NoMemory>
        requires { (run : History) × (done : List Round) × MayReplay run done self.old.whole round.now }
        ensures { IfOk result (λ flaw. IsReplayed self.old round.now flaw self.new) }
    {
        let known = counts(self.alloc, self.whole.columns())?;
        let flaw = replay(&mut self.whole, round)?;
        if flaw.is_none() {
            self.learn(known.as_slice(), round.globals.as_slice())?;
        }
        Ok(flaw)
    }

    // What the columns have learned since they had learned so much is noted, and then what these lines tell.
    fn learn(&mut self, known: &[usize], lines: &[GlobalEntry]) -> Result<(), NoMemory>
        requires { length known.now ≡ length self.old.whole.columns }
        ensures firsts { OnOk result ((state : EpochState) → StandsFor IsItself self.old.whole.epochs state → self.new.firsts ≡ all_noted (news_by_lines (told_in state) self.old.entered lines.now) (all_noted (all_news self.old.whole.columns known.now) self.old.firsts)) }
        ensures entered { OnOk result (SameEpochs self.new.entered (entered_through self.old.entered lines.now)) }
        ensures whole { self.new.whole ≡ self.old.whole }
        ensures columns { self.new.client_columns ≡ self.old.client_columns }
    {
        note_columns(&mut self.firsts, self.whole.columns(), known)?;
        note_lines(
            &mut self.firsts,
            &mut self.entered,
            self.whole.replicas(),
            lines,
        )
    }

    /// The lines of all attempts, in order of their numbers.
    pub(crate) fn lines(&self) -> Result<Vec<AttemptLine>, NoMemory>
        ensures { IfOk result (λ lines. lines.items ≡ lines_of_views self.now.firsts self.now.whole.columns 1 self.now.client_columns) }
    {
        lines(
            self.alloc,
            self.whole.columns(),
            self.client_columns.as_slice(),
            &self.firsts,
        )
    }

    /// How the attempts ended.
    pub(crate) fn tally(&self) -> Tally
        ensures { result ≡ tally_of (lines_of_views self.now.firsts self.now.whole.columns 1 self.now.client_columns) }
    {
        tally(
            self.whole.columns(),
            self.client_columns.as_slice(),
            &self.firsts,
        )
    }
}
