//! The judge of runs, which is shown one round after the other and keeps none, and how the attempts of a run ended.
ghost use Rattle.std.specs.Prelude.{◌≡◌, ◌↔◌, ◌≤◌, ◌∷◌, ◌++◌, [], true, false, List, length, Option, IfOk, OnOk, OnErr, option_map, unwrap_or};
ghost use Rattle.mk_history.specs.declared.RoundLog.{RoundLog as Round};
ghost use Rattle.mk_history.specs.Legality.{IsLegal};
ghost use Rattle.mk_history.specs.Shape.{HasShape};
ghost use Rattle.mk_kept.specs.Heads.{history};
ghost use Rattle.mk_history.specs.Histories.{History};
ghost use Rattle.mk_verdict.specs.declared.PlacedFlaw.{PlacedFlaw as Placed};
ghost use Rattle.mk_verdict.specs.declared.Verdict.TheVariants.{Legal};
ghost use Rattle.mk_whole.specs.Standings.{MayReplay};
ghost use Rattle.mk_verdict.specs.Flaws.{broken, verdict_of};
ghost use Rattle.mk_run.specs.Attempts.{outcomes_of, tally_of};
ghost use Rattle.mk_run.specs.Judging.{IsReplayed, StandsForRounds, MayTake};

use crate::watch::Watch;
use crate::{AttemptLine, Head, RoundLog, Run, Tally, Verdict};
use mk_txn::NoMemory;
use mk_verdict::PlacedFlaw;
use std::alloc::Global;
use std::marker::Model;

/// A judge of a run that is shown round by round.
#[derive(Drop)]
pub struct Judge {
    head: Head,
    watch: Watch,
    taken: u32,
    verdict: Verdict,
    failed: bool,
}

impl Model for Judge {
    ghost use Rattle.mk_run.specs.Judging.{JudgeView};

    ghost Value = { JudgeView };

    ghost view = { λ j. record { head = j.head; watch = j.watch; taken = j.taken; verdict = j.verdict; failed = j.failed } };
}

// The verdict on a round behind legal ones, by its first flaw.
fn verdict(round: u32, flaw: Option<PlacedFlaw>) -> Verdict
    ensures { result ≡ unwrap_or (option_map (broken round) flaw) Legal }
{
    match flaw {
        Some(flaw) => Verdict::Broken {
            round,
            place: flaw.place,
            why: flaw.why,
        },
        None => Verdict::Legal,
    }
}

impl Judge {
    /// A judge of runs with this head, which have at most 64 clients. It was shown no round.
    pub fn new(alloc: Global, head: Head) -> Result<Judge, NoMemory>
        requires { length head.client_columns ≤ 64 }
        ensures head { IfOk result (λ judge. judge.head ≡ head) }
        ensures stands { IfOk result (λ judge. StandsForRounds judge []) }
        ensures works { IfOk result (λ judge. judge.failed ≡ false) }
    {
        Ok(Judge {
            watch: Watch::new(alloc, &head)?,
            head,
            taken: 0,
            verdict: Verdict::Legal,
            failed: false,
        })
    }

    // The next round behind legal ones, which was counted.
    fn judge_legal(&mut self, round: &RoundLog) -> Result<(), NoMemory>
        requires { (run : History) × (done : List Round) × MayReplay run done self.old.watch.whole round.now }
        ensures rest { self.new ≡ record self.old { watch = self.new.watch; verdict = self.new.verdict } }
        ensures flaw { OnOk result ((flaw : Option Placed) × (self.new.verdict ≡ unwrap_or (option_map (broken self.old.taken) flaw) Legal) × IsReplayed self.old.watch round.now flaw self.new.watch) }
    {
        let flaw = self.watch.replay(round)?;
        self.verdict = verdict(self.taken, flaw);
        Ok(())
    }

    // The next round. After the first flaw nothing is judged.
    fn judge(&mut self, round: &RoundLog) -> Result<(), NoMemory>
        requires { (rounds : List Round) × MayTake self.old rounds round.now }
        ensures head { self.new.head ≡ self.old.head }
        ensures stands { OnOk result ((rounds : List Round) → MayTake self.old rounds round.now → StandsForRounds self.new (rounds ++ round.now ∷ [])) }
        ensures works { self.new.failed ≡ self.old.failed }
    {
        self.taken += 1;
        match self.verdict {
            Verdict::Legal => self.judge_legal(round),
            Verdict::Broken { .. } => Ok(()),
        }
    }

    /// Takes the next round. A judge that has found no memory takes none any more.
    pub fn take_round(&mut self, round: &RoundLog) -> Result<(), NoMemory>
        requires shape { self.old.failed ≡ false → (rounds : List Round) × MayTake self.old rounds round.now }
        ensures head { self.new.head ≡ self.old.head }
        ensures stands { OnOk result ((rounds : List Round) → MayTake self.old rounds round.now → StandsForRounds self.new (rounds ++ round.now ∷ [])) }
        ensures works { OnOk result ((self.old.failed ≡ false) × (self.new.failed ≡ false)) }
        ensures err { OnErr result (self.new.failed ≡ true) }
    {
        if self.failed {
            return Err(NoMemory);
        }
        let taken = self.judge(round);
        if taken.is_err() {
            self.failed = true;
        }
        taken
    }

    /// The verdict on the rounds that were taken.
    pub fn verdict(&self) -> Verdict
        requires some { 1 ≤ self.now.taken }
        requires works { self.now.failed ≡ false }
        ensures kept { result ≡ self.now.verdict }
        ensures verdict { (rounds : List Round) → StandsForRounds self.now rounds → HasShape (history self.now.head rounds) → result ≡ verdict_of (history self.now.head rounds) }
        ensures legal { (rounds : List Round) → StandsForRounds self.now rounds → HasShape (history self.now.head rounds) → (result ≡ Legal) ↔ IsLegal (history self.now.head rounds) }
    {
        mk_verdict::verdicts_are_exact();
        self.verdict
    }

    /// How the attempts of the rounds that were taken ended.
    pub fn tally(&self) -> Tally
        requires some { 1 ≤ self.now.taken }
        requires works { self.now.failed ≡ false }
        requires legal { self.now.verdict ≡ Legal }
        ensures { (rounds : List Round) → StandsForRounds self.now rounds → HasShape (history self.now.head rounds) → result ≡ tally_of (outcomes_of (history self.now.head rounds)) }
    {
        self.watch.tally()
    }
}

/// Whether the run is legal, and else its first flaw.
pub fn check(alloc: Global, run: &Run) -> Result<Verdict, NoMemory>
    ensures verdict { IfOk result (λ verdict. verdict ≡ verdict_of run.now) }
    ensures legal { IfOk result (λ verdict. (verdict ≡ Legal) ↔ IsLegal run.now) }
{
    mk_verdict::verdicts_are_exact();
    let mut judge = Judge::new(alloc, run.head().copy()?)?;
    for round in run.rounds() {
        judge.take_round(round)?;
    }
    Ok(judge.verdict())
}

/// How the attempts of a legal run ended, in order of their numbers.
pub fn outcomes(alloc: Global, run: &Run) -> Result<Vec<AttemptLine>, NoMemory>
    requires { IsLegal run.now }
    ensures { IfOk result (λ lines. lines.items ≡ outcomes_of run.now) }
{
    let mut watch = Watch::new(alloc, run.head())?;
    for round in run.rounds() {
        let _flaw = watch.replay(round)?;
    }
    watch.lines()
}
