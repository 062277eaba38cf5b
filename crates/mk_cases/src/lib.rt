//! Runs that show what the laws of safety are about: each can happen, and the laws are worded as they are because of it.
//!
//! The functions do nothing: what they promise is the case.
#![tactic(auto)]

ghost use Rattle.mk_cases.specs.TwoBases.{TwoBasesDiffer};
ghost use Rattle.mk_cases.specs.ClashingCommits.{CommitsClash};
ghost use Rattle.mk_cases.specs.WholeLife.{IsWholeLife};

/// Two bases that were made can say different outcomes of an attempt that is older than both, the lower one being in force: only what a
/// majority held stands in every later base.
pub fn made_bases_can_differ()
    ensures { TwoBasesDiffer }
{}

/// A base that was made can have two commits that clash, but it is not in force then.
pub fn made_commits_can_clash()
    ensures { CommitsClash }
{
    mk_fate_laws::decisions_stand();
}

/// A run with an epoch change, a loss of memory and a forgotten outcome can happen, and it is safe.
pub fn a_whole_life_is_safe()
    ensures { IsWholeLife }
{
    mk_safety::legal_runs_are_safe();
}
