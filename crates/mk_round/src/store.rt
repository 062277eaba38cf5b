//! A store that goes by a script.
ghost use Rattle.std.specs.Prelude.{◌≡◌, [], List, IfOk, OnOk};
ghost use Rattle.mk_script.specs.Scripts.{ScriptParts};
ghost use Rattle.mk_faults.specs.Fates.{RuleLines, rules_of};
ghost use Rattle.mk_history.specs.Histories.{History};
ghost use Rattle.mk_history.specs.Wholes.{WholeState};
ghost use Rattle.mk_history.specs.declared.RoundLog.{RoundLog as Round};
ghost use Rattle.mk_kept.specs.Heads.{history};
ghost use Rattle.mk_snap.specs.Snapshots.{SnapStands};
ghost use Rattle.mk_state.specs.Standings.{MayDo, WasDone};
ghost use Rattle.mk_state.specs.Words.{IsWordFor, IsWordAfter, HasFaulted, KeepsWords};
ghost use Rattle.mk_workers.specs.ByKey.{states_of};
ghost use Rattle.mk_round.specs.Pasts.{run_of};
ghost use Rattle.mk_round.specs.Stores.{IsBetween, HasWorked, MayWork};
ghost use Rattle.mk_round.specs.Begun.{IsAtWork, HaveLeft, with_work, without_work, round_with};

use crate::beginning::{begin_drivers, first_drivers, keeps_limits, no_outlets};
use crate::taking::take_logs;
use mk_column::NoOutlet;
use mk_driver::Driver;
use mk_driver_laws::has_come_goes_on;
use mk_faults::Rules;
use mk_history::{Globals, Logs, RoundLog};
use mk_io::EpochWord;
use mk_kept::Head;
use mk_lock::Gate;
use mk_proc::Procs;
use mk_script::Script;
use mk_snap::Snap;
use mk_state::Whole;
use mk_txn::NoMemory;
use mk_words::{GlobalAnswer, GlobalLine};
use mk_workers::{Worked, work};
use std::alloc::Global;
use std::marker::Model;
use std::sync::Wait;
use std::thread::Threads;

/// All of a store that goes by a script: columns, cells and epochs, and a driver for each column.
#[derive(Drop)]
pub struct Store {
    // how many rounds were begun
    round: u32,
    whole: Whole<Snap>,
    drivers: Vec<Driver>,
}

impl Model for Store {
    ghost use Rattle.mk_round.specs.Stores.{StoreView};

    ghost Value = { StoreView };

    ghost view = { λ s. record { round = s.round; whole = s.whole; drivers = s.drivers.items } };
}

impl Store {
    /// The store before the first round of the script. The head is that of the script's runs.
    pub fn new(alloc: Global, script: &Script, head: &Head) -> Result<Store, NoMemory>
        requires { history head.now [] ≡ run_of script.now [] }
        ensures { IfOk result (λ store. IsBetween script.now [] store) }
    {
        mk_driver::stands_at_first();
        has_come_goes_on();
        keeps_limits(script);
        Ok(Store {
            round: 0,
            whole: Whole::new(alloc, head)?,
            drivers: first_drivers(alloc, script, head.columns)?,
        })
    }

    // The next round begins in columns and drivers.
    fn begin_round(&mut self) -> Result<(), NoMemory>
        requires { (rules : RuleLines) × (script : ScriptParts) × (done : List Round) × MayWork rules script done self.old }
        ensures { OnOk result ((rules : RuleLines) (script : ScriptParts) (done : List Round) → MayWork rules script done self.old → IsAtWork script done self.new) }
    {
        self.round += 1;
        self.whole.begin_round()?;
        begin_drivers(&mut self.drivers, self.round)
    }

    // The columns go on to the end of the round, each in a thread of its own. None are left in the store.
    fn work_columns<G: Gate + Sync, R: Threads + Wait + Sync>(
        &mut self,
        rt: &R,
        alloc: Global,
        rules: &Rules,
        procs: &Procs,
        gate: &G,
    ) -> Result<Worked<NoOutlet>, NoMemory>
        requires { (script : ScriptParts) × (done : List Round) × (rules.now ≡ rules_of script) × IsAtWork script done self.old }
        ensures left { IfOk result (λ worked. (script : ScriptParts) (done : List Round) → rules.now ≡ rules_of script → IsAtWork script done self.old →
            HaveLeft script self.old worked.columns.items worked.drivers.items (states_of worked.cells.items) worked.journals) }
        ensures rest { OnOk result (self.new ≡ without_work self.old) }
    {
        let (columns, cells) = self.whole.take_work();
        let drivers = std::mem::replace(&mut self.drivers, Vec::new(alloc));
        let outlets = no_outlets(alloc, columns.len())?;
        work(
            rt, alloc, columns, drivers, cells, rules, procs, gate, outlets,
        )
    }

    // What the workers left comes back into the store, and their logs and journals are handed out.
    fn put_work(&mut self, alloc: Global, worked: Worked<NoOutlet>) -> Result<RoundLog, NoMemory>
        ensures round { IfOk result (λ round. round ≡ round_with worked.columns.items worked.journals) }
        ensures after { OnOk result (self.new ≡ with_work worked.columns.items worked.drivers.items (states_of worked.cells.items) self.old) }
    {
        let Worked {
            mut columns,
            drivers,
            cells,
            journals,
            outlets: _,
        } = worked;
        let logs = take_logs(alloc, &mut columns)?;
        self.whole.put_work(columns, cells);
        self.drivers = drivers;
        Ok(RoundLog {
            logs: Logs::of(logs),
            journals,
            globals: Globals::of(Vec::new(alloc)),
        })
    }

    /// The next round of the script, but for its global lines: all columns go on to its end. Gives their logs and the journals
    /// of all keys. Behind an error nothing is known of the store.
    pub fn work_round<G: Gate + Sync, R: Threads + Wait + Sync>(
        &mut self,
        rt: &R,
        alloc: Global,
        rules: &Rules,
        procs: &Procs,
        gate: &G,
    ) -> Result<RoundLog, NoMemory>
        requires { (script : ScriptParts) × (done : List Round) × MayWork rules.now script done self.old }
        ensures { IfOk result (λ round. (script : ScriptParts) (done : List Round) → MayWork rules.now script done self.old → HasWorked script done round self.new) }
    {
        self.begin_round()?;
        let worked = self.work_columns(rt, alloc, rules, procs, gate)?;
        self.put_work(alloc, worked)
    }

    /// Does a global line, as [`Whole::do_line`] does. Drivers stay as they are.
    pub fn do_line<W: EpochWord>(
        &mut self,
        line: GlobalLine,
        word: &mut W,
    ) -> Result<GlobalAnswer, NoMemory>
        requires may { (run : History) × (state : WholeState) × MayDo SnapStands run state self.old.whole line }
        requires word { IsWordFor line self.old.whole.epochs (W.kept word.old) }
        ensures done { IfOk result (λ answer. (run : History) (state : WholeState) → MayDo SnapStands run state self.old.whole line → WasDone SnapStands run state line answer self.new.whole) }
        ensures word { IfOk result (λ answer. IsWordAfter W.kept W.sets W.faults line answer word.old word.new) }
        ensures faults { IfOk result (λ answer. HasFaulted answer (W.faults word.old) (W.faults word.new)) }
        ensures reads { OnOk result (IsWordFor line self.new.whole.epochs (W.kept word.new)) }
        ensures others { OnOk result (KeepsWords line self.old.whole.epochs self.new.whole.epochs) }
        ensures rest { self.new ≡ record self.old { whole = self.new.whole } }
    {
        self.whole.do_line(line, word)
    }
}
