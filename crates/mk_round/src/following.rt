//! That the next round can follow where one is at its end.
//!
//! The function does nothing: what it promises is the law.
ghost use Rattle.std.specs.Prelude.{◌++◌, ◌∷◌, [], List};
ghost use Rattle.mk_words.specs.declared.GlobalEntry.{GlobalEntry as Entry};
ghost use Rattle.mk_script.specs.Scripts.{ScriptParts};
ghost use Rattle.mk_history.specs.declared.RoundLog.{RoundLog as Round};
ghost use Rattle.mk_round.specs.Stores.{StoreView, IsBetween, HasWorked, AreDone};

use mk_driver::{next_round_is_left, stands_after_round};
use mk_driver_laws::has_come_goes_on;

/// Behind the work of a round and its global lines the store is between two rounds.
pub fn rounds_follow()
    ensures { (script : ScriptParts) (done : List Round) (round : Round) (entries : List Entry) (store new_store : StoreView) →
        HasWorked script done round store → AreDone script done round entries store new_store →
        IsBetween script (done ++ record round { globals = entries } ∷ []) new_store }
{
    next_round_is_left();
    stands_after_round();
    has_come_goes_on();
}
