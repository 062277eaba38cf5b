//! What a global line does.
ghost use Rattle.std.specs.Prelude.{◌≡◌, ◌<◌, None, Some, map, slice_set, length, IfOk, OnOk, OnErr};
ghost use Rattle.mk_lists.specs.Among.{Each};
ghost use Rattle.mk_quorum.specs.Sizes.{members};
ghost use Rattle.mk_words.specs.Promises.{leader_of};
ghost use Rattle.mk_words.specs.declared.GlobalLine.TheVariants as lines;
ghost use Rattle.mk_model.specs.Conditions.{wanted};
ghost use Rattle.mk_epoch.specs.Standing.{refusal_of, word_at};
ghost use Rattle.mk_history.specs.Histories.{History};
ghost use Rattle.mk_history.specs.Wholes.{WholeState};
ghost use Rattle.mk_state.specs.Cells.{states_of};
ghost use Rattle.mk_state.specs.Handing.{column_reset};
ghost use Rattle.mk_state.specs.Standings.{MayDo, WasDone};
ghost use Rattle.mk_state.specs.Words.{IsWordFor, IsWordAfter, IsWrittenBy, HasFaulted, KeepsWords};

use crate::handing::{entries_at, marks_at, reset_columns};
use crate::starting::first_cells;
use crate::{GlobalAnswer, GlobalLine, Whole};
use mk_cell::Cell;
use mk_epoch::EpochError;
use mk_io::EpochWord;
use mk_merge::Keeping;
use mk_txn::NoMemory;

// The answer of a line that was refused so.
fn refusal(error: EpochError) -> Result<GlobalAnswer, NoMemory>
    ensures ok { IfOk result (λ answer. refusal_of error ≡ Some answer) }
    ensures err { OnErr result (refusal_of error ≡ None) }
{
    match error {
        EpochError::Unasked => Ok(GlobalAnswer::Unasked),
        EpochError::Unmade => Ok(GlobalAnswer::Unmade),
        EpochError::Lacking => Ok(GlobalAnswer::Lacking),
        EpochError::Old(word) => Ok(GlobalAnswer::Old(word)),
        EpochError::WordFault => Ok(GlobalAnswer::WordFault),
        EpochError::Short(count) => Ok(GlobalAnswer::Short(count)),
        EpochError::NoMemory => Err(NoMemory),
    }
}

impl<K: Keeping> Whole<K> {
    // The replica begins with these cells, no entries and no marks.
    fn restart(&mut self, replica: u32, cells: Vec<Cell>)
        requires there { replica < length self.old.cells }
        requires columns { Each (λ column. replica < members column.setting.faults) self.old.columns }
        requires idle { Each (λ column. wanted column.state.work ≡ None) self.old.columns }
        ensures { self.new ≡ record self.old { columns = map (column_reset replica) self.old.columns; cells = slice_set self.old.cells replica (states_of cells.items) } }
    {
        self.cells[replica as usize] = cells;
        reset_columns(&mut self.columns, replica);
    }

    fn wipe(&mut self, replica: u32) -> Result<GlobalAnswer, NoMemory>
        requires { (run : History) × (state : WholeState) × MayDo K.stands run state self.old (lines.Wipe replica) }
        ensures { IfOk result (λ answer. (run : History) (state : WholeState) → MayDo K.stands run state self.old (lines.Wipe replica) → WasDone K.stands run state (lines.Wipe replica) answer self.new) }
    {
        let cells = first_cells(self.allocator(), self.keys)?;
        self.replicas.wipe(replica);
        self.restart(replica, cells);
        Ok(GlobalAnswer::Ok)
    }

    fn ask(&mut self, epoch: u32) -> Result<GlobalAnswer, NoMemory>
        requires { (run : History) × (state : WholeState) × MayDo K.stands run state self.old (lines.Ask epoch) }
        ensures { IfOk result (λ answer. (run : History) (state : WholeState) → MayDo K.stands run state self.old (lines.Ask epoch) → WasDone K.stands run state (lines.Ask epoch) answer self.new) }
    {
        match self.replicas.ask(epoch) {
            Ok(()) => Ok(GlobalAnswer::Ok),
            Err(error) => refusal(error),
        }
    }

    fn promise<W: EpochWord>(
        &mut self,
        epoch: u32,
        replica: u32,
        word: &mut W,
    ) -> Result<GlobalAnswer, NoMemory>
        requires may { (run : History) × (state : WholeState) × MayDo K.stands run state self.old (lines.Promise epoch replica) }
        requires word { W.kept word.old ≡ word_at self.old.epochs.replicas replica }
        ensures done { IfOk result (λ answer. (run : History) (state : WholeState) → MayDo K.stands run state self.old (lines.Promise epoch replica) → WasDone K.stands run state (lines.Promise epoch replica) answer self.new) }
        ensures word { IfOk result (λ answer. IsWrittenBy W.kept W.sets W.faults epoch answer word.old word.new) }
    {
        if let Err(error) = self.replicas.may_promise(epoch, replica) {
            return refusal(error);
        }
        let entries = entries_at(self.allocator(), self.columns.as_slice(), replica)?;
        let marks = marks_at(self.allocator(), self.columns.as_slice(), replica)?;
        match self
            .replicas
            .promise(epoch, replica, entries.as_slice(), &marks, word)
        {
            Ok(()) => Ok(GlobalAnswer::Ok),
            Err(error) => refusal(error),
        }
    }

    fn merge<W: EpochWord>(&mut self, epoch: u32, word: &W) -> Result<GlobalAnswer, NoMemory>
        requires may { (run : History) × (state : WholeState) × MayDo K.stands run state self.old (lines.Merge epoch) }
        requires word { W.kept word.now ≡ word_at self.old.epochs.replicas (leader_of self.old.epochs.faults epoch) }
        ensures { IfOk result (λ answer. (run : History) (state : WholeState) → MayDo K.stands run state self.old (lines.Merge epoch) → WasDone K.stands run state (lines.Merge epoch) answer self.new) }
    {
        mk_epoch_laws::promises_fit();
        match self.replicas.merge(epoch, word) {
            Ok((commits, aborts)) => Ok(GlobalAnswer::Counts { commits, aborts }),
            Err(error) => refusal(error),
        }
    }

    fn adopt<W: EpochWord>(
        &mut self,
        epoch: u32,
        replica: u32,
        word: &mut W,
    ) -> Result<GlobalAnswer, NoMemory>
        requires may { (run : History) × (state : WholeState) × MayDo K.stands run state self.old (lines.Adopt epoch replica) }
        requires word { W.kept word.old ≡ word_at self.old.epochs.replicas replica }
        ensures done { IfOk result (λ answer. (run : History) (state : WholeState) → MayDo K.stands run state self.old (lines.Adopt epoch replica) → WasDone K.stands run state (lines.Adopt epoch replica) answer self.new) }
        ensures word { IfOk result (λ answer. IsWrittenBy W.kept W.sets W.faults epoch answer word.old word.new) }
    {
        match self.replicas.adopt(epoch, replica, word) {
            Ok(()) => {
                let cells = self.replicas.base(replica).cells(self.keys)?;
                self.restart(replica, cells);
                Ok(GlobalAnswer::Ok)
            }
            Err(error) => refusal(error),
        }
    }

    fn enter(&mut self, epoch: u32) -> Result<GlobalAnswer, NoMemory>
        requires { (run : History) × (state : WholeState) × MayDo K.stands run state self.old (lines.Enter epoch) }
        ensures { IfOk result (λ answer. (run : History) (state : WholeState) → MayDo K.stands run state self.old (lines.Enter epoch) → WasDone K.stands run state (lines.Enter epoch) answer self.new) }
    {
        match self.replicas.enter(epoch) {
            Ok(count) => Ok(GlobalAnswer::Entered(count)),
            Err(error) => refusal(error),
        }
    }

    // The answer of the line, which is done.
    fn answer<W: EpochWord>(
        &mut self,
        line: GlobalLine,
        word: &mut W,
    ) -> Result<GlobalAnswer, NoMemory>
        requires may { (run : History) × (state : WholeState) × MayDo K.stands run state self.old line }
        requires word { IsWordFor line self.old.epochs (W.kept word.old) }
        ensures done { IfOk result (λ answer. (run : History) (state : WholeState) → MayDo K.stands run state self.old line → WasDone K.stands run state line answer self.new) }
        ensures word { IfOk result (λ answer. IsWordAfter W.kept W.sets W.faults line answer word.old word.new) }
    {
        match line {
            GlobalLine::Wipe(replica) => self.wipe(replica),
            GlobalLine::Ask(epoch) => self.ask(epoch),
            GlobalLine::Promise { epoch, replica } => self.promise(epoch, replica, word),
            GlobalLine::Merge(epoch) => self.merge(epoch, word),
            GlobalLine::Adopt { epoch, replica } => self.adopt(epoch, replica, word),
            GlobalLine::Enter(epoch) => self.enter(epoch),
        }
    }

    /// Does a global line, and gives its answer: the one that the state before it gives, or [`GlobalAnswer::WordFault`]
    /// where it would have been done and its word could not be written. `word` is that of the replica that promises or
    /// adopts, or of the epoch's leader where it merges; the other lines read and write none, and take any. Behind an
    /// error nothing is known of what is kept.
    pub fn do_line<W: EpochWord>(
        &mut self,
        line: GlobalLine,
        word: &mut W,
    ) -> Result<GlobalAnswer, NoMemory>
        requires may { (run : History) × (state : WholeState) × MayDo K.stands run state self.old line }
        requires word { IsWordFor line self.old.epochs (W.kept word.old) }
        ensures done { IfOk result (λ answer. (run : History) (state : WholeState) → MayDo K.stands run state self.old line → WasDone K.stands run state line answer self.new) }
        ensures word { IfOk result (λ answer. IsWordAfter W.kept W.sets W.faults line answer word.old word.new) }
        ensures faults { IfOk result (λ answer. HasFaulted answer (W.faults word.old) (W.faults word.new)) }
        ensures reads { OnOk result (IsWordFor line self.new.epochs (W.kept word.new)) }
        ensures others { OnOk result (KeepsWords line self.old.epochs self.new.epochs) }
    {
        self.answer(line, word)
    }
}
