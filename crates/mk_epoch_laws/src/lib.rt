//! The laws of epoch changes.
//!
//! Each holds after every list of global lines whose answers are those that the epoch machine gives, whatever the
//! replicas hand in with their promises. The functions do nothing: what they promise is the law.
#![tactic(auto)]

ghost use Rattle.mk_epoch_laws.specs.Turns.{Always, AlwaysLater};
ghost use Rattle.mk_epoch_laws.specs.WordLaws.{WordsBound, WordsRise, PhaseAndWord, AdoptedOnTop, AdoptsOnce, PromiseGap, OnePromiseEach, PromisersAreThere};
ghost use Rattle.mk_epoch_laws.specs.BaseLaws.{BasesMade, BasesStay, BasesHeld, KeptGrows, CountedAreGiven, ServingWasEntered, EnteredWasHeld, ResetForGood};
ghost use Rattle.mk_epoch_laws.specs.FitLaws.{BasesListHanded, FirstIsReached, NextIsReached, PromisesAreFit, HandedInIsCoherent};
ghost use Rattle.mk_epoch_laws.specs.PathLaws.{EpochsInOrder, PathsPass, PathsStay, PathsKeep, HeldStands, ForceInOrder, ForceInLine};

/// Epoch words bound what replicas promised and adopted, and outlive a wipe.
pub fn words_hold()
    ensures words_bound { Always WordsBound }
    ensures words_rise { AlwaysLater WordsRise }
    ensures phase_and_word { Always PhaseAndWord }
    ensures adopted_on_top { Always AdoptedOnTop }
    ensures adopts_once { Always AdoptsOnce }
    ensures promise_gap { Always PromiseGap }
    ensures one_promise_each { Always OnePromiseEach }
    ensures promisers_are_there { Always PromisersAreThere }
    ensures reset_for_good { ResetForGood }
{}

/// A base is made once, of a majority's promises, on an earlier base, and lists what they handed in; it stays, and what is
/// served was entered.
pub fn bases_hold()
    ensures bases_made { Always BasesMade }
    ensures bases_stay { AlwaysLater BasesStay }
    ensures bases_held { Always BasesHeld }
    ensures kept_grows { AlwaysLater KeptGrows }
    ensures counted_are_given { Always CountedAreGiven }
    ensures bases_list_handed { Always BasesListHanded }
    ensures serving_was_entered { ServingWasEntered }
    ensures entered_was_held { EnteredWasHeld }
{}

/// No base is older than what a majority ever adopted, and along its path a base says what those below it say.
pub fn epochs_follow()
    ensures epochs_in_order { Always EpochsInOrder }
    ensures paths_pass { Always PathsPass }
    ensures paths_stay { AlwaysLater PathsStay }
    ensures paths_keep { Always PathsKeep }
    ensures held_stands { Always HeldStands }
    ensures force_in_order { AlwaysLater ForceInOrder }
    ensures force_in_line { Always ForceInLine }
{}

/// Where each replica hands in what it may, a base may be made of the promises of every epoch.
pub fn promises_fit()
    ensures first { FirstIsReached }
    ensures next { NextIsReached }
    ensures fit { PromisesAreFit }
    ensures coherent { HandedInIsCoherent }
{}
