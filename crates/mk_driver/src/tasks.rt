//! The tasks that are left, and the parts that are left.
ghost use Rattle.std.specs.Prelude.{◌≡◌, [], ◌∷◌, MatchOption, IsSome, slice_get, OnOk, OnErr, IsTrue, ◌↔◌};
ghost use Rattle.mk_driver.specs.Passing.{after_first};
ghost use Rattle.mk_driver.specs.Parts.{after_part};

use crate::{Agenda, Part, Parts, Task};
use mk_txn::NoMemory;
use std::alloc::Global;

impl Agenda {
    /// No task is left.
    pub(crate) fn new(alloc: Global) -> Agenda
        ensures { result ≡ [] }
    {
        Agenda {
            stack: Vec::new(alloc),
        }
    }

    pub(crate) fn allocator(&self) -> Global {
        *self.stack.allocator()
    }

    pub(crate) fn first(&self) -> Option<Task>
        ensures { MatchOption result (self.now ≡ []) (λ task. self.now ≡ task ∷ after_first self.now) }
    {
        match self.stack.last() {
            Some(task) => Some(*task),
            None => None,
        }
    }

    /// The first task goes.
    pub(crate) fn drop_first(&mut self)
        ensures { self.new ≡ after_first self.old }
    {
        let _ = self.stack.pop();
    }

    /// Another task comes in the place of the first.
    pub(crate) fn set_first(&mut self, task: Task)
        requires { IsSome (slice_get self.old 0) }
        ensures { self.new ≡ task ∷ after_first self.old }
    {
        let _ = self.stack.pop();
        self.stack.push_reserved(task);
    }

    /// Two tasks come in the place of the first.
    pub(crate) fn put_two(&mut self, one: Task, two: Task) -> Result<(), NoMemory>
        ensures ok { OnOk result (self.new ≡ one ∷ (two ∷ after_first self.old)) }
        ensures err { OnErr result (self.new ≡ self.old) }
    {
        self.stack.reserve(2)?;
        let _ = self.stack.pop();
        self.stack.push_reserved(two);
        self.stack.push_reserved(one);
        Ok(())
    }

    /// Three tasks come in the place of the first.
    pub(crate) fn put_three(&mut self, one: Task, two: Task, three: Task) -> Result<(), NoMemory>
        ensures ok { OnOk result (self.new ≡ one ∷ (two ∷ (three ∷ after_first self.old))) }
        ensures err { OnErr result (self.new ≡ self.old) }
    {
        self.stack.reserve(3)?;
        let _ = self.stack.pop();
        self.stack.push_reserved(three);
        self.stack.push_reserved(two);
        self.stack.push_reserved(one);
        Ok(())
    }

    /// Four tasks come in the place of the first.
    pub(crate) fn put_four(
        &mut self,
        one: Task,
        two: Task,
        three: Task,
        four: Task,
    ) -> Result<(), NoMemory>
        ensures ok { OnOk result (self.new ≡ one ∷ (two ∷ (three ∷ (four ∷ after_first self.old)))) }
        ensures err { OnErr result (self.new ≡ self.old) }
    {
        self.stack.reserve(4)?;
        let _ = self.stack.pop();
        self.stack.push_reserved(four);
        self.stack.push_reserved(three);
        self.stack.push_reserved(two);
        self.stack.push_reserved(one);
        Ok(())
    }

    /// A task comes first.
    pub(crate) fn push(&mut self, task: Task) -> Result<(), NoMemory>
        ensures ok { OnOk result (self.new ≡ task ∷ self.old) }
        ensures err { OnErr result (self.new ≡ self.old) }
    {
        self.stack.push(task)?;
        Ok(())
    }

    /// No task is left.
    pub(crate) fn clear(&mut self)
        ensures { self.new ≡ [] }
    {
        self.stack.clear();
    }
}

impl Parts {
    pub(crate) fn is_empty(&self) -> bool
        ensures { IsTrue result ↔ (self.now ≡ []) }
    {
        self.stack.is_empty()
    }

    pub(crate) fn first(&self) -> Option<Part>
        ensures { MatchOption result (self.now ≡ []) (λ part. self.now ≡ part ∷ after_part self.now) }
    {
        match self.stack.last() {
            Some(part) => Some(*part),
            None => None,
        }
    }

    /// The first part goes.
    pub(crate) fn drop_first(&mut self)
        ensures { self.new ≡ after_part self.old }
    {
        let _ = self.stack.pop();
    }
}
