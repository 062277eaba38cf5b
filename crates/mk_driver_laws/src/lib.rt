//! The step that the driver's turns name is enabled, and how that goes on from step to step and from round to round.
//!
//! The functions do nothing: what they promise is the law.
#![tactic(auto)]

ghost use Rattle.mk_driver_laws.specs.Enabled.{NamedIsEnabled, HasComeAtFirst, HasComeAfterStep, HasComeAfterRound, NamedKeyIsEnabled, RoundEndsIdle, WantedIsThere};

/// Whatever the script that keeps the limits of scripts, the rounds that are past and the log so far: the step that the turns
/// name is enabled. `IsSure` leaves one thing open: whether the time of a Stamp is beyond the last one, which is then the one
/// condition that fails. Of an Unread it wants no more views than there are replicas.
pub fn named_is_enabled()
    ensures { NamedIsEnabled }
{}

/// What the law above asks of the past holds before the first step, after a named step that was enabled, and after a round in
/// which nothing is named any more.
pub fn has_come_goes_on()
    ensures at_first { HasComeAtFirst }
    ensures after_step { HasComeAfterStep }
    ensures after_round { HasComeAfterRound }
{}

/// A key call that is named is enabled with each answer that fits its act, it is at a replica and a key of the script, and no key
/// call is under way where a round ends.
pub fn named_key_is_enabled()
    ensures enabled { NamedKeyIsEnabled }
    ensures there { WantedIsThere }
    ensures ends_idle { RoundEndsIdle }
{}
