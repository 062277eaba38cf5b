//! The driver of a column before the first round.
ghost use Rattle.std.specs.Prelude.{◌≡◌, ◌≤◌, ◌<◌, [], None, length, map, slice_get, IsSome, IfOk};
ghost use Rattle.mk_driver.specs.Driven.{callers_from, new_driver, lines_of, submitted_by};
ghost use Rattle.mk_lists.specs.Among.{Each};
ghost use Rattle.mk_driver.specs.Keeping.{HasFew, HaveFew};
ghost use Rattle.mk_driver.specs.Standings.{driver_of};

use crate::{
    Agenda, Caller, Callers, Driver, DriverState, Items, Numbers, Parts, Request, Requests,
    RoundLines, Submission, Submissions, TakeoverList, Trials,
};
use mk_proc::Item;
use mk_script::{ClientLine, Round, Script, TakeoverLine, TxnLine};
use mk_txn::NoMemory;
use std::alloc::Global;
use std::collections::VecDeque;

impl Items {
    // A copy of the items.
    fn of(alloc: Global, items: &[Item]) -> Result<Items, NoMemory>
        requires { length items.now ≤ 16 }
        ensures { IfOk result (λ copy. copy ≡ items.now) }
    {
        Ok(Items {
            list: Vec::from_slice(alloc, items)?,
        })
    }
}

impl Submission {
    // What the line asks for.
    fn of(alloc: Global, retry: u32, line: &TxnLine) -> Result<Submission, NoMemory>
        requires { HasFew line.now }
        ensures { IfOk result (λ submission. submission ≡ submitted_by retry line.now) }
    {
        Ok(Submission {
            client: line.client,
            request: Request {
                clock: line.clock,
                items: Items::of(alloc, line.items.as_slice())?,
                tries: retry,
            },
        })
    }
}

impl Submissions {
    // What the lines ask for.
    #[tactic(auto, using(crate::proofs::FewLaws::each_at))]
    fn of(alloc: Global, retry: u32, lines: &[TxnLine]) -> Result<Submissions, NoMemory>
        requires { Each HasFew lines.now }
        ensures { IfOk result (λ submissions. submissions ≡ map (submitted_by retry) lines.now) }
    {
        let mut list = Vec::new(alloc);
        for line in lines {
            list.push(Submission::of(alloc, retry, line)?)?;
        }
        Ok(Submissions { list })
    }
}

impl TakeoverList {
    // A copy of the lines.
    fn of(alloc: Global, lines: &[TakeoverLine]) -> Result<TakeoverList, NoMemory>
        ensures { IfOk result (λ copy. copy ≡ lines.now) }
    {
        Ok(TakeoverList {
            list: Vec::from_slice(alloc, lines)?,
        })
    }
}

impl RoundLines {
    // The lines of the round.
    fn of(alloc: Global, retry: u32, round: &Round) -> Result<RoundLines, NoMemory>
        requires { HaveFew round.now }
        ensures { IfOk result (λ lines. lines ≡ lines_of retry round.now) }
    {
        Ok(RoundLines {
            submissions: Submissions::of(alloc, retry, round.txns.as_slice())?,
            takeovers: TakeoverList::of(alloc, round.takeovers.as_slice())?,
        })
    }
}

// The lines of all rounds.
#[tactic(auto, using(crate::proofs::FewLaws::each_at))]
fn rounds_of(alloc: Global, retry: u32, rounds: &[Round]) -> Result<VecDeque<RoundLines>, NoMemory>
    requires { Each HaveFew rounds.now }
    ensures { IfOk result (λ lines. lines.items ≡ map (lines_of retry) rounds.now) }
{
    let mut lines = VecDeque::new(alloc);
    for round in rounds {
        lines.push_back(RoundLines::of(alloc, retry, round)?)?;
    }
    Ok(lines)
}

impl Caller {
    fn new(alloc: Global, number: u32, home: u32) -> Caller
        ensures { result ≡ record { number = number; home = home; under_way = None; retries = []; lines = []; trials = [] } }
    {
        Caller {
            number,
            home,
            under_way: None,
            retries: Requests {
                list: VecDeque::new(alloc),
            },
            lines: Requests {
                list: VecDeque::new(alloc),
            },
            trials: Trials {
                list: Vec::new(alloc),
            },
        }
    }
}

// The clients of the column.
fn callers_of(alloc: Global, column: u32, clients: &[ClientLine]) -> Result<Vec<Caller>, NoMemory>
    requires { length clients.now ≤ 64 }
    ensures { IfOk result (λ callers. callers.items ≡ callers_from column 1 clients.now) }
{
    let mut callers = Vec::new(alloc);
    let mut number = 1;
    for client in clients {
        if client.column == column {
            callers.push(Caller::new(alloc, number, client.home))?;
        }
        number += 1;
    }
    Ok(callers)
}

impl Callers {
    // The clients of the column.
    #[tactic(auto, using(crate::specs::RisingNumbers::callers_rise))]
    fn of(alloc: Global, column: u32, clients: &[ClientLine]) -> Result<Callers, NoMemory>
        requires { length clients.now ≤ 64 }
        ensures { IfOk result (λ callers. callers ≡ callers_from column 1 clients.now) }
    {
        let list = callers_of(alloc, column, clients)?;
        Ok(Callers { list })
    }
}

impl DriverState {
    // The driver of the column before the first round.
    fn new(alloc: Global, script: &Script, column: u32) -> Result<DriverState, NoMemory>
        ensures { IfOk result (λ driver. driver ≡ new_driver script.now column) }
    {
        Ok(DriverState {
            agenda: Agenda::new(alloc),
            parts: Parts {
                stack: Vec::new(alloc),
            },
            late: Numbers {
                list: VecDeque::new(alloc),
            },
            held: Numbers {
                list: VecDeque::new(alloc),
            },
            takeovers: TakeoverList {
                list: Vec::new(alloc),
            },
            callers: Callers::of(alloc, column, script.clients.as_slice())?,
        })
    }
}

impl Driver {
    /// The driver of this column before the first round.
    #[tactic(auto, using(crate::proofs::FewLaws::whole_few, crate::proofs::StandingLaws::left_in))]
    pub fn new(alloc: Global, script: &Script, column: u32) -> Result<Driver, NoMemory>
        ensures driver { IfOk result (λ driver. driver ≡ driver_of script.now column) }
        ensures left { IfOk result (λ driver. 0 < length script.now.rounds → IsSome (slice_get driver.rounds 0)) }
    {
        Ok(Driver {
            size: script.size,
            column,
            round: 0,
            rounds: rounds_of(alloc, script.retry, script.rounds.as_slice())?,
            state: DriverState::new(alloc, script, column)?,
        })
    }
}
