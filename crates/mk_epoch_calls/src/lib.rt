//! What the calls of the epoch machine lead to.
//!
//! The code of the epoch machine is held here against the laws of epoch changes, which are said of the definitions alone:
//! what it stands for after a call is a state that such lines lead to. The function does nothing: what it promises is the
//! law.
#![tactic(auto)]

ghost use Rattle.std.specs.Prelude.{ℕ, Some};
ghost use Rattle.mk_words.specs.declared.GlobalLine.{GlobalLine};
ghost use Rattle.mk_words.specs.declared.GlobalLine.TheVariants.{Merge};
ghost use Rattle.mk_words.specs.declared.GlobalAnswer.{GlobalAnswer};
ghost use Rattle.mk_words.specs.Promises.{ArePromises};
ghost use Rattle.mk_model.specs.EpochState.{EpochState, first_epochs, promises_for};
ghost use Rattle.mk_model.specs.GlobalSteps.{HandedIn, nothing_handed};
ghost use Rattle.mk_epoch.specs.Standing.{ReplicasView, StandsFor, Does, Merges};
ghost use Rattle.mk_epoch_laws.specs.FitLaws.{LineFits, IsReached};
ghost use Rattle.mk_epoch_calls.specs.Leading.{LeadsOn};

use mk_epoch_laws::promises_fit;
use mk_merge::Keeping;

/// Where what is kept stands for a state that such lines lead to, a base may be made of the promises of every epoch, and a
/// call with its answer leads on to a state of this kind. The replica that promises hands in what it may.
pub fn calls_lead_on<B: Keeping>()
    ensures first { (f : ℕ) → IsReached (first_epochs f) }
    ensures fit { (state : EpochState) → IsReached state → (epoch : ℕ) → ArePromises (promises_for epoch state) }
    ensures does { (state : EpochState) (old new : ReplicasView B) (handed : HandedIn) (line : GlobalLine) (answer : GlobalAnswer) → IsReached state → StandsFor B.stands old state → LineFits state handed line → Does B.stands old new handed line (Some answer) → LeadsOn B.stands new state handed line answer }
    ensures merges { (state : EpochState) (old new : ReplicasView B) (epoch : ℕ) (answer : GlobalAnswer) → IsReached state → StandsFor B.stands old state → Merges B.stands old new epoch (Some answer) → LeadsOn B.stands new state nothing_handed (Merge epoch) answer }
{
    promises_fit();
}
