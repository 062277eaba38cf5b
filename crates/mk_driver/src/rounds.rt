//! How a round begins.
ghost use Rattle.std.specs.Prelude.{◌≡◌, ◌<◌, ◌++◌, ◌∷◌, [], length, map, filter, slice_index, IfOk, OnOk, OnErr};
ghost use Rattle.std.specs.List.{list_any};
ghost use Rattle.mk_driver.specs.declared.Task.TheVariants.{Take};
ghost use Rattle.mk_driver.specs.declared.Part.TheVariants as parts;
ghost use Rattle.mk_driver.specs.Agenda.{is_caller};
ghost use Rattle.mk_driver.specs.Driven.{asked_more, is_for, begun_with};
ghost use Rattle.mk_driver.specs.Keeping.{with_lines};

use crate::{
    Agenda, Caller, Callers, DriverState, Items, Numbers, Part, Parts, Request, Requests,
    RoundLines, Submissions, TakeoverList, Task,
};
use mk_txn::NoMemory;
use std::alloc::Global;
use std::collections::VecDeque;

impl Numbers {
    fn len(&self) -> usize
        ensures { result ≡ length self.now }
    {
        self.list.len()
    }

    fn at(&self, place: usize) -> u64
        requires { place < length self.now }
        ensures { result ≡ slice_index self.now place }
    {
        self.list[place]
    }

    fn clear(&mut self)
        ensures { self.new ≡ [] }
    {
        self.list.clear();
    }
}

impl Parts {
    /// All parts are left.
    fn all(alloc: Global) -> Result<Parts, NoMemory>
        ensures { IfOk result (λ left. left ≡ parts.Resume ∷ (parts.Turns ∷ (parts.Takeovers ∷ (parts.Late ∷ (parts.Settle ∷ []))))) }
    {
        let mut stack = Vec::with_capacity(alloc, 5)?;
        stack.push_reserved(Part::Settle);
        stack.push_reserved(Part::Late);
        stack.push_reserved(Part::Takeovers);
        stack.push_reserved(Part::Turns);
        stack.push_reserved(Part::Resume);
        Ok(Parts { stack })
    }
}

impl Agenda {
    /// These messages are taken.
    fn put_takes(&mut self, numbers: &Numbers) -> Result<(), NoMemory>
        ensures { OnOk result (self.new ≡ map (λ number. Take number) numbers.now ++ self.old) }
    {
        let mut place = numbers.len();
        while place > 0 {
            place -= 1;
            self.push(Task::Take {
                number: numbers.at(place),
            })?;
        }
        Ok(())
    }
}

impl TakeoverList {
    /// The lines for these clients.
    fn of_clients(&self, callers: &Callers) -> Result<TakeoverList, NoMemory>
        ensures { IfOk result (λ lines. lines ≡ filter (is_for callers.now) self.now) }
    {
        let mut lines = Vec::new(*self.list.allocator());
        for line in &self.list {
            if callers.has(line.id.client) {
                lines.push(*line)?;
            }
        }
        Ok(TakeoverList { list: lines })
    }
}

impl Callers {
    /// Whether one has this number.
    fn has(&self, number: u32) -> bool
        ensures { result ≡ list_any (is_caller number) self.now }
    {
        match self.place_of(number) {
            Some(_) => true,
            None => false,
        }
    }

    /// The lines of each client, with those of the round behind them.
    fn lines_with(&self, submissions: &Submissions) -> Result<VecDeque<Requests>, NoMemory>
        ensures { IfOk result (λ lists. lists.items ≡ map (λ caller. (asked_more submissions.now caller).lines) self.now) }
    {
        let mut lists = VecDeque::new(*self.list.allocator());
        for caller in &self.list {
            lists.push_back(caller.lines_with(submissions)?)?;
        }
        Ok(lists)
    }

    /// Each client is asked for what is its own.
    fn submit(&mut self, submissions: &Submissions) -> Result<(), NoMemory>
        ensures ok { OnOk result (self.new ≡ map (asked_more submissions.now) self.old) }
        ensures err { OnErr result (self.new ≡ self.old) }
    {
        let lists = self.lines_with(submissions)?;
        put_lines(&mut self.list, lists);
        Ok(())
    }
}

// The lines of the clients become these.
fn put_lines(callers: &mut Vec<Caller>, lists: VecDeque<Requests>)
    ensures { callers.new.items ≡ with_lines lists.items callers.old.items }
{
    let mut left = lists;
    for caller in callers.iter_mut() {
        if let Some(lines) = left.pop_front() {
            caller.lines = lines;
        }
    }
}

impl Caller {
    // A copy of its lines, with those of the round behind them.
    fn lines_with(&self, submissions: &Submissions) -> Result<Requests, NoMemory>
        ensures { IfOk result (λ lines. lines ≡ (asked_more submissions.now self.now).lines) }
    {
        let mut lines = self.lines.copy()?;
        for submission in &submissions.list {
            if submission.client == self.number {
                lines.push(submission.request.copy()?)?;
            }
        }
        Ok(lines)
    }
}

impl Requests {
    fn copy(&self) -> Result<Requests, NoMemory>
        ensures { IfOk result (λ copy. copy ≡ self.now) }
    {
        let mut list = VecDeque::new(*self.list.allocator());
        for place in 0..self.list.len() {
            list.push_back(self.list[place].copy()?)?;
        }
        Ok(Requests { list })
    }

    fn push(&mut self, request: Request) -> Result<(), NoMemory>
        ensures { OnOk result (self.new ≡ self.old ++ request ∷ []) }
    {
        self.list.push_back(request)?;
        Ok(())
    }
}

impl Request {
    fn copy(&self) -> Result<Request, NoMemory>
        ensures { IfOk result (λ copy. copy ≡ self.now) }
    {
        Ok(Request {
            clock: self.clock,
            items: self.items.copy()?,
            tries: self.tries,
        })
    }
}

impl Items {
    fn copy(&self) -> Result<Items, NoMemory>
        ensures { IfOk result (λ copy. copy ≡ self.now) }
    {
        Ok(Items {
            list: Vec::from_slice(*self.list.allocator(), self.list.as_slice())?,
        })
    }
}

impl DriverState {
    /// A round with these lines begins. All memory is taken before anything changes.
    pub(crate) fn begin_round(&mut self, lines: &RoundLines) -> Result<(), NoMemory>
        ensures ok { OnOk result (self.new ≡ begun_with lines.now self.old) }
        ensures err { OnErr result (self.new ≡ self.old) }
    {
        let alloc = self.agenda.allocator();
        let mut agenda = Agenda::new(alloc);
        agenda.put_takes(&self.held)?;
        let parts = Parts::all(alloc)?;
        let takeovers = lines.takeovers.of_clients(&self.callers)?;
        self.callers.submit(&lines.submissions)?;
        self.agenda = agenda;
        self.parts = parts;
        self.held.clear();
        self.takeovers = takeovers;
        Ok(())
    }
}
