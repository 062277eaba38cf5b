//! What was learned in a column, and how an attempt stands that nobody learned.
ghost use Rattle.std.specs.Prelude.{◌≡◌, map, option_map, IsSome, Some};
ghost use Rattle.mk_model.specs.ColumnState.{AttemptState, attempt_of};
ghost use Rattle.mk_history.specs.Leaving.{left_of};
ghost use Rattle.mk_column.specs.ColumnByCode.{learning_of_kept};

use crate::column::Column;
use crate::learned::Learned;
use mk_history::Left;
use mk_txn::TxnId;

impl Column {
    /// What was learned, in order.
    pub fn learned(&self) -> &[Learned]
        ensures { map learning_of_kept result.now ≡ self.now.state.learned }
    {
        self.parts.learned.as_slice()
    }

    /// How the attempt stands where nobody has learned its outcome.
    pub fn left(&self, id: TxnId) -> Left
        requires { IsSome (attempt_of self.now.state id) }
        ensures { option_map (λ (a : AttemptState). left_of self.now.setting.faults self.now.state a) (attempt_of self.now.state id) ≡ Some result }
    {
        let begun = self.parts.attempts.find(id).unwrap();
        if begun.shown().unread {
            return Left::Unread;
        }
        match self.parts.takeovers.last_of(id) {
            Some(backup) => backup.left(),
            None => begun.left(),
        }
    }
}
