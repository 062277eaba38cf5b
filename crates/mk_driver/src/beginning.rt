//! The tasks with which the parts begin, the last one put first.
ghost use Rattle.std.specs.Prelude.{◌≡◌, ◌<◌, ◌++◌, ◌∷◌, [], Some, flat_map, length, slice_get, OnOk};
ghost use Rattle.mk_model.specs.ColumnState.{numbers_from, open_at};
ghost use Rattle.mk_driver.specs.Keeping.{listed};
ghost use Rattle.mk_driver.specs.declared.Task.TheVariants.{Takeover};
ghost use Rattle.mk_driver.specs.Turns.{attempt_task as task_of, attempt_tasks, open_task};

use crate::{Agenda, Callers, Part, TakeoverList, Task};
use mk_column::Column;
use mk_script::TakeoverLine;
use mk_txn::{NoMemory, TxnId};

// What is done in the part with the attempt.
fn attempt_task(part: Part, id: TxnId, column: &Column) -> Option<Task>
    ensures { listed result ≡ task_of column.now.state part id }
{
    match part {
        Part::Resume => Some(Task::Resume { id }),
        Part::Settle => {
            if column.is_validated(id) {
                Some(Task::Settle { id })
            } else {
                None
            }
        }
        Part::Turns => None,
        Part::Takeovers => None,
        Part::Late => None,
    }
}

// Settling the takeover at this place, where it is open.
fn takeover_task(place: usize, column: &Column) -> Option<Task>
    ensures { listed result ≡ open_task (open_at column.now.state place) }
{
    match column.open_takeover(place) {
        Some((id, view)) => Some(Task::SettleTakeover { id, view }),
        None => None,
    }
}

impl Agenda {
    // The task comes first, if there is one.
    fn put(&mut self, task: Option<Task>) -> Result<(), NoMemory>
        ensures { OnOk result (self.new ≡ listed task ++ self.old) }
    {
        match task {
            Some(task) => self.push(task)?,
            None => {}
        }
        Ok(())
    }

    // What is done in the part with the client's attempts.
    fn put_attempts_of(&mut self, part: Part, client: u32, column: &Column) -> Result<(), NoMemory>
        ensures { OnOk result (self.new ≡ attempt_tasks column.now.state part client ++ self.old) }
    {
        if !column.has_client(client) {
            return Ok(());
        }
        let next = column.next_seq(client);
        let mut seq = next;
        while seq > 1 {
            seq -= 1;
            self.put(attempt_task(part, TxnId { client, seq }, column))?;
        }
        Ok(())
    }

    /// What is done in the part with the attempts of all clients.
    pub(crate) fn put_attempts(
        &mut self,
        part: Part,
        callers: &Callers,
        column: &Column,
    ) -> Result<(), NoMemory>
        ensures { OnOk result (self.new ≡ flat_map (λ caller. attempt_tasks column.now.state part caller.number) callers.now ++ self.old) }
    {
        let mut place = callers.len();
        while place > 0 {
            place -= 1;
            self.put_attempts_of(part, callers.number_at(place), column)?;
        }
        Ok(())
    }

    /// The takeover lines.
    pub(crate) fn put_takeovers(&mut self, takeovers: &TakeoverList) -> Result<(), NoMemory>
        ensures { OnOk result (self.new ≡ flat_map (λ line. Takeover line.id line.view ∷ []) takeovers.now ++ self.old) }
    {
        let mut place = takeovers.len();
        while place > 0 {
            place -= 1;
            let line = takeovers.at(place);
            self.push(Task::Takeover {
                id: line.id,
                view: line.view,
            })?;
        }
        Ok(())
    }

    /// Settling the takeovers that are open.
    pub(crate) fn put_open(&mut self, column: &Column) -> Result<(), NoMemory>
        ensures { OnOk result (self.new ≡ flat_map (λ place. open_task (open_at column.now.state place)) (numbers_from 0 (length column.now.state.takeovers)) ++ self.old) }
    {
        let mut place = column.takeover_count();
        while place > 0 {
            place -= 1;
            self.put(takeover_task(place, column))?;
        }
        Ok(())
    }
}

impl TakeoverList {
    fn len(&self) -> usize
        ensures { result ≡ length self.now }
    {
        self.list.len()
    }

    fn at(&self, place: usize) -> TakeoverLine
        requires { place < length self.now }
        ensures { slice_get self.now place ≡ Some result }
    {
        self.list[place]
    }
}
