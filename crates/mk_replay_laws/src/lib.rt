//! What holds at every place at which a global line of a run is replayed.
//!
//! The function does nothing: what it promises is the law.
#![tactic(auto)]

ghost use Rattle.mk_replay_laws.specs.AtLines.{LinesAreReady};

/// Where the rounds before are legal, and the round so far is, the next line can be done: replicas may hand in what they
/// have, bases may be made of what was promised, and bases name keys that there are.
pub fn lines_are_ready()
    ensures { LinesAreReady }
{
    mk_run_laws::cuts_are_runs();
    mk_run_laws::columns_hold();
    mk_run_laws::moments_are_of_runs();
    mk_base_laws::bases_have_members();
    mk_base_laws::ends_are_reached();
}
