//! Scripts that are made from a number are quiet.
ghost use Rattle.mk_gen.specs.Generated.{GeneratedAreQuiet};

/// No two clients of the script of a number name one key, and nothing but transactions stands in it.
///
/// The function does nothing: what it promises is the law.
pub fn generated_are_quiet()
    ensures { GeneratedAreQuiet }
{}
