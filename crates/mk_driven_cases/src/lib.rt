//! Runs of the cases of safety, and the scripts by which they go: a driver makes them.
//!
//! The function does nothing: what it promises is the case.
#![tactic(auto)]

ghost use Rattle.mk_driven_cases.specs.WholeScript.{LifeIsDriven};

/// The run with an epoch change, a loss of memory and a forgotten outcome goes by a script.
pub fn a_whole_life_is_driven()
    ensures { LifeIsDriven }
{}
