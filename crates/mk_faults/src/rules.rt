//! The fault lines and stop lines of a script, found by message and by attempt.
ghost use Rattle.std.specs.Prelude.{◌≡◌, [], ◌∷◌, ◌++◌, OnOk, OnErr, IfOk};
ghost use Rattle.mk_faults.specs.Fates.{fate_of as fate_by, stop_of as stop_by, rules_of, with_fault, with_stop};
ghost use Rattle.mk_faults.specs.Indexes.{KeepsFate, KeepsPoint};

use mk_script::{Fate, FaultLine, Point, Script, StopLine};
use mk_txn::{NoMemory, TxnId};
use mk_words::MsgKind;
use std::alloc::Global;
use std::collections::HashMap;
use std::marker::Model;

// What a fault line is about: the message of this place among those of its kind, attempt and replica.
#[derive(Clone, Copy, PartialEq, Eq, Hash)]
struct Target {
    kind: u8,
    client: u32,
    seq: u32,
    replica: u32,
    nth: u64,
}

impl Target {
    ghost use Rattle.mk_faults.specs.Indexes.{target_of};

    fn new(kind: MsgKind, id: TxnId, replica: u32, nth: u64) -> Target
        ensures { result ≡ target_of kind id replica nth }
    {
        Target {
            kind: kind as u8,
            client: id.client,
            seq: id.seq,
            replica,
            nth,
        }
    }
}

// What a stop line is about.
#[derive(Clone, Copy, PartialEq, Eq, Hash)]
struct Coordinator {
    client: u32,
    seq: u32,
}

impl Coordinator {
    ghost use Rattle.mk_faults.specs.Indexes.{coordinator_of};

    fn new(id: TxnId) -> Coordinator
        ensures { result ≡ coordinator_of id }
    {
        Coordinator {
            client: id.client,
            seq: id.seq,
        }
    }
}

// Keeps the fate of the target, unless one is kept.
fn keep_fate(fates: &mut HashMap<Target, Fate>, target: Target, fate: Fate) -> Result<(), NoMemory>
    ensures ok { OnOk result (KeepsFate target fate fates.old.entries fates.new.entries) }
    ensures err { OnErr result (fates.new.entries ≡ fates.old.entries) }
{
    if fates.get(&target).is_some() {
        return Ok(());
    }
    fates.insert(target, fate)?;
    Ok(())
}

// Keeps the point of the coordinator, unless one is kept.
fn keep_point(
    points: &mut HashMap<Coordinator, Point>,
    coordinator: Coordinator,
    point: Point,
) -> Result<(), NoMemory>
    ensures ok { OnOk result (KeepsPoint coordinator point points.old.entries points.new.entries) }
    ensures err { OnErr result (points.new.entries ≡ points.old.entries) }
{
    if points.get(&coordinator).is_some() {
        return Ok(());
    }
    points.insert(coordinator, point)?;
    Ok(())
}

/// The fault lines and stop lines of a script.
#[derive(Drop)]
pub struct Rules {
    faults: Vec<FaultLine>,
    stops: Vec<StopLine>,
    // the first line of each message, and of each attempt
    fates: HashMap<Target, Fate>,
    points: HashMap<Coordinator, Point>,
}

impl Model for Rules {
    ghost use Rattle.mk_faults.specs.Fates.{RuleLines};
    ghost use Rattle.mk_faults.specs.Indexes.{IsIndexed};

    ghost Value = { RuleLines };

    ghost view = { λ rules. record { faults = rules.faults.items; stops = rules.stops.items } };

    ghost invariant = { λ rules. IsIndexed rules.faults.items rules.stops.items rules.fates.entries rules.points.entries };
}

impl Rules {
    /// The rules of the script.
    pub fn new(alloc: Global, script: &Script) -> Result<Rules, NoMemory>
        ensures { IfOk result (λ rules. rules ≡ rules_of script.now) }
    {
        let mut rules = Rules {
            faults: Vec::new(alloc),
            stops: Vec::new(alloc),
            fates: HashMap::new(alloc),
            points: HashMap::new(alloc),
        };
        for line in script.faults.as_slice() {
            rules.add_fault(*line)?;
        }
        for line in script.stops.as_slice() {
            rules.add_stop(*line)?;
        }
        Ok(rules)
    }

    fn add_fault(&mut self, line: FaultLine) -> Result<(), NoMemory>
        ensures { OnOk result (self.new ≡ with_fault line self.old) }
    {
        self.faults.reserve(1)?;
        let target = Target::new(line.kind, line.id, line.replica, line.nth);
        keep_fate(&mut self.fates, target, line.fate)?;
        if self.faults.push(line).is_err() {
            unreachable!();
        }
        Ok(())
    }

    fn add_stop(&mut self, line: StopLine) -> Result<(), NoMemory>
        ensures { OnOk result (self.new ≡ with_stop line self.old) }
    {
        self.stops.reserve(1)?;
        keep_point(&mut self.points, Coordinator::new(line.id), line.point)?;
        if self.stops.push(line).is_err() {
            unreachable!();
        }
        Ok(())
    }

    /// The fate of the `nth` message of its kind, attempt and replica, counted from 1: that of its fault line, and delivery
    /// where there is none.
    pub fn fate_of(&self, kind: MsgKind, id: TxnId, replica: u32, nth: u64) -> Fate
        ensures { result ≡ fate_by self.now kind id replica nth }
    {
        let target = Target::new(kind, id, replica, nth);
        self.fates.get(&target).copied().unwrap_or(Fate::Deliver)
    }

    /// Where the attempt's own coordinator stops, if a line says so.
    pub fn stop_of(&self, id: TxnId) -> Option<Point>
        ensures { result ≡ stop_by self.now id }
    {
        self.points.get(&Coordinator::new(id)).copied()
    }
}
