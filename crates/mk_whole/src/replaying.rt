//! The rounds of a run replayed, one after the other.
ghost use Rattle.std.specs.Prelude.{◌≡◌, None, List, IfOk};
ghost use Rattle.mk_history.specs.Histories.{History};
ghost use Rattle.mk_history.specs.Wholes.{first_state, state_through, after_round};
ghost use Rattle.mk_history.specs.declared.RoundLog.{RoundLog as Round};
ghost use Rattle.mk_state.specs.Standings.{IsAt};
ghost use Rattle.mk_verdict.specs.Flaws.{flaw_of_round};
ghost use Rattle.mk_whole.specs.Standings.{IsItself, MayReplay};

use crate::PlacedFlaw;
use crate::globals::replay_globals;
use crate::working::replay_work;
use mk_history::RoundLog;
use mk_merge::Base;
use mk_state::Whole;
use mk_txn::NoMemory;

/// The next round is replayed up to its first flaw, which this answers. Behind a flaw, and behind an error, nothing is
/// known of what is kept.
pub fn replay(whole: &mut Whole<Base>, round: &RoundLog) -> Result<Option<PlacedFlaw>, NoMemory>
    requires { (run : History) × (done : List Round) × MayReplay run done whole.old round.now }
    ensures flaw { IfOk result (λ flaw. (run : History) (done : List Round) → MayReplay run done whole.old round.now → flaw ≡ flaw_of_round run (state_through run (first_state run) done) round.now) }
    ensures after { IfOk result (λ flaw. flaw ≡ None → (run : History) (done : List Round) → MayReplay run done whole.old round.now → IsAt IsItself run whole.new (after_round run round.now (state_through run (first_state run) done))) }
{
    mk_replay_laws::lines_are_ready();
    whole.begin_round()?;
    let (mut columns, mut cells) = whole.take_work();
    let flaw = replay_work(
        whole.allocator(),
        whole.size(),
        whole.keys(),
        &mut columns,
        &mut cells,
        round,
    )?;
    whole.put_work(columns, cells);
    if flaw.is_some() {
        return Ok(flaw);
    }
    replay_globals(whole, round.globals.as_slice())
}
