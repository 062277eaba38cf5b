//! What a judge says of a trace.
ghost use Rattle.std.specs.Prelude.{◌≡◌, ◌++◌, ◌≤◌, false, List, IfOk, OnOk};
ghost use Rattle.std.specs.String.{string_bytes};
ghost use Rattle.mk_history.specs.declared.RoundLog.{RoundLog as Round};
ghost use Rattle.mk_history.specs.Shape.{HasShape};
ghost use Rattle.mk_kept.specs.Heads.{history};
ghost use Rattle.mk_verdict.specs.Flaws.{verdict_of};
ghost use Rattle.mk_tool.specs.VerdictTexts.{check_text};
ghost use Rattle.mk_run.specs.Judging.{StandsForRounds};

use crate::spelling::{put_broken, put_legal};
use mk_kept::Head;
use mk_run::{Judge, Verdict};
use mk_txn::NoMemory;
use std::alloc::{AllocError, Global};

/// A verdict and its text.
#[derive(Drop)]
pub struct Judgement {
    pub verdict: Verdict,
    pub text: String,
}

/// Writes the verdict of a judge of runs with this head.
fn put_verdict(out: &mut String, head: &Head, judge: &Judge) -> Result<(), AllocError>
    requires head { judge.now.head ≡ head.now }
    requires some { 1 ≤ judge.now.taken }
    requires works { judge.now.failed ≡ false }
    ensures { (rounds : List Round) → StandsForRounds judge.now rounds → HasShape (history head.now rounds) →
        OnOk result (string_bytes out.new ≡ string_bytes out.old ++ check_text (history head.now rounds)) }
{
    match judge.verdict() {
        Verdict::Legal => put_legal(out, judge.tally()),
        Verdict::Broken { round, place, why } => {
            put_broken(out, &head.key_names, round, place, why)
        }
    }
}

/// What a judge of runs with this head says of the rounds that it was shown.
pub fn said(alloc: Global, head: &Head, judge: &Judge) -> Result<Judgement, NoMemory>
    requires head { judge.now.head ≡ head.now }
    requires some { 1 ≤ judge.now.taken }
    requires works { judge.now.failed ≡ false }
    ensures verdict { (rounds : List Round) → StandsForRounds judge.now rounds → HasShape (history head.now rounds) →
        IfOk result (λ j. j.verdict ≡ verdict_of (history head.now rounds)) }
    ensures text { (rounds : List Round) → StandsForRounds judge.now rounds → HasShape (history head.now rounds) →
        IfOk result (λ j. string_bytes j.text ≡ check_text (history head.now rounds)) }
{
    let mut text = String::new(alloc);
    put_verdict(&mut text, head, judge)?;
    Ok(Judgement {
        verdict: judge.verdict(),
        text,
    })
}
