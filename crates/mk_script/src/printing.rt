//! The text of a script.
ghost use Rattle.std.specs.Prelude.{◌≡◌, ◌++◌, ◌∷◌, [], Ok, OnOk, IfOk, map};
ghost use Rattle.std.specs.List.{flat_map};
ghost use Rattle.std.specs.String.{string_bytes};
ghost use Rattle.mk_script.specs.LineWords as texts;
ghost use Rattle.mk_script.specs.Grammar.Line.{Opens, Sizes, Declares, Retries, Injects, Halts, Tries, TakesOver, Changes, NextRound};
ghost use Rattle.mk_script.specs.Printed as spec;
ghost use Rattle.mk_script.specs.Printed.{line_text, text_of};
ghost use Rattle.mk_script.specs.Texts.{IsScript};
ghost use Rattle.mk_script.specs.Parsed.{script_text};
ghost use Rattle.mk_script.specs.Whole.{IsWhole};

use crate::lines::{ClientLine, Fate, FaultLine, Point, Round, StopLine, TakeoverLine, TxnLine};
use crate::script::Script;
use mk_names::Names;
use mk_proc::{Item, ProcKind};
use mk_txn::NoMemory;
use mk_words::{GlobalLine, MsgKind};
use std::alloc::{AllocError, Global};

/// The text of the script: the version, the size, the clients, `retry` where it is not 0, the faults, the stops and the
/// rounds, each with its transactions, takeovers and global lines.
pub fn print(alloc: Global, script: &Script) -> Result<Vec<u8>, NoMemory>
    ensures text { IfOk result (λ bytes. bytes.items ≡ spec.print_text script.now) }
    // The text stands in the grammar, for this script,
    ensures stands { IfOk result (λ bytes. IsScript bytes.items script.now) }
    // and parsing it gives this script again.
    ensures parsed { IfOk result (λ bytes. script_text bytes.items ≡ Ok script.now) }
{
    text_bytes(alloc, script)
}

fn text_bytes(alloc: Global, script: &Script) -> Result<Vec<u8>, NoMemory>
    ensures text { IfOk result (λ bytes. bytes.items ≡ spec.print_text script.now) }
    // Every script keeps the rules of the format.
    ensures whole { OnOk result (IsWhole script.now) }
{
    let mut out = String::new(alloc);
    put_head(&mut out, script)?;
    put_clients(&mut out, script.clients.as_slice())?;
    put_retry(&mut out, script.retry)?;
    put_faults(
        &mut out,
        script.clients.as_slice(),
        script.faults.as_slice(),
    )?;
    put_stops(&mut out, script.clients.as_slice(), script.stops.as_slice())?;
    put_rounds(
        &mut out,
        script.clients.as_slice(),
        &script.keys,
        script.rounds.as_slice(),
    )?;
    Ok(out.into_bytes())
}

fn put_head(out: &mut String, script: &Script) -> Result<(), AllocError>
    ensures { OnOk result (string_bytes out.new ≡ string_bytes out.old ++ text_of (Opens script.now.version ∷ Sizes script.now.size ∷ [])) }
{
    let version = script.version;
    let f = script.size.f();
    writeln!(out, "meerkat {version}")?;
    writeln!(out, "size {f}")?;
    Ok(())
}

fn client_name(clients: &[ClientLine], number: u32) -> &str
    ensures { result.now ≡ spec.client_name clients.now number }
{
    match clients.get(number.saturating_sub(1) as usize) {
        Some(client) => client.name.as_str(),
        None => "",
    }
}

fn key_name(keys: &Names, number: u32) -> &str
    ensures { result.now ≡ spec.key_name keys.now.names number }
{
    match keys.name(number) {
        Some(name) => name,
        None => "",
    }
}

fn put_client(out: &mut String, client: &ClientLine) -> Result<(), AllocError>
    ensures { OnOk result (string_bytes out.new ≡ string_bytes out.old ++ line_text (spec.client_line client.now)) }
{
    let name = client.name.as_str();
    let column = client.column;
    let home = client.home;
    writeln!(out, "client {name} {column} {home}")?;
    Ok(())
}

fn put_clients(out: &mut String, clients: &[ClientLine]) -> Result<(), AllocError>
    ensures { OnOk result (string_bytes out.new ≡ string_bytes out.old ++ text_of (map spec.client_line clients.now)) }
{
    'each: for client in clients {
        put_client(out, client)?;
    }
    Ok(())
}

fn put_retry(out: &mut String, retry: u32) -> Result<(), AllocError>
    ensures { OnOk result (string_bytes out.new ≡ string_bytes out.old ++ text_of (spec.retry_lines retry)) }
{
    if retry != 0 {
        writeln!(out, "retry {retry}")?;
    }
    Ok(())
}

fn kind_word(kind: MsgKind) -> &'static str
    ensures { result.now ≡ texts.kind_text kind }
{
    match kind {
        MsgKind::Validate => "validate",
        MsgKind::Vote => "vote",
        MsgKind::Accept => "accept",
        MsgKind::Accepted => "accepted",
        MsgKind::Decide => "decide",
        MsgKind::Ask => "ask",
        MsgKind::Told => "told",
        MsgKind::Moved => "moved",
    }
}

fn fate_word(fate: Fate) -> &'static str
    ensures { result.now ≡ texts.fate_text fate }
{
    match fate {
        Fate::Deliver => "deliver",
        Fate::Lose => "lose",
        Fate::Twice => "twice",
        Fate::Late => "late",
        Fate::NextRound => "next",
    }
}

fn put_fault(out: &mut String, clients: &[ClientLine], fault: &FaultLine) -> Result<(), AllocError>
    ensures { OnOk result (string_bytes out.new ≡ string_bytes out.old ++ line_text (spec.fault_line clients.now fault.now)) }
{
    let kind = kind_word(fault.kind);
    let name = client_name(clients, fault.id.client);
    let seq = fault.id.seq;
    let replica = fault.replica;
    let nth = fault.nth;
    let fate = fate_word(fault.fate);
    writeln!(out, "fault {kind} {name}.{seq} {replica} {nth} {fate}")?;
    Ok(())
}

fn put_faults(
    out: &mut String,
    clients: &[ClientLine],
    faults: &[FaultLine],
) -> Result<(), AllocError>
    ensures { OnOk result (string_bytes out.new ≡ string_bytes out.old ++ text_of (map (spec.fault_line clients.now) faults.now)) }
{
    'each: for fault in faults {
        put_fault(out, clients, fault)?;
    }
    Ok(())
}

fn point_word(point: Point) -> &'static str
    ensures { result.now ≡ texts.point_text point }
{
    match point {
        Point::Read => "read",
        Point::Votes => "votes",
        Point::Accepts => "accepts",
    }
}

fn put_stop(out: &mut String, clients: &[ClientLine], stop: &StopLine) -> Result<(), AllocError>
    ensures { OnOk result (string_bytes out.new ≡ string_bytes out.old ++ line_text (spec.stop_line clients.now stop.now)) }
{
    let name = client_name(clients, stop.id.client);
    let seq = stop.id.seq;
    let point = point_word(stop.point);
    writeln!(out, "stop {name}.{seq} {point}")?;
    Ok(())
}

fn put_stops(out: &mut String, clients: &[ClientLine], stops: &[StopLine]) -> Result<(), AllocError>
    ensures { OnOk result (string_bytes out.new ≡ string_bytes out.old ++ text_of (map (spec.stop_line clients.now) stops.now)) }
{
    'each: for stop in stops {
        put_stop(out, clients, stop)?;
    }
    Ok(())
}

fn proc_word(kind: ProcKind) -> &'static str
    ensures { result.now ≡ texts.proc_text kind }
{
    match kind {
        ProcKind::Add => "add",
        ProcKind::Sum => "sum",
        ProcKind::Max => "max",
    }
}

fn put_item(out: &mut String, keys: &Names, item: Item) -> Result<(), AllocError>
    ensures { OnOk result (string_bytes out.new ≡ string_bytes out.old ++ spec.item_text keys.now.names item) }
{
    match item {
        Item::Read(key) => {
            let name = key_name(keys, key);
            write!(out, " r:{name}")?;
        }
        Item::Write { key, value } => {
            let name = key_name(keys, key);
            write!(out, " w:{name}={value}")?;
        }
        Item::Compute { key, proc, arg } => {
            let name = key_name(keys, key);
            let word = proc_word(proc);
            write!(out, " c:{name}={word}({arg})")?;
        }
        Item::Delete(key) => {
            let name = key_name(keys, key);
            write!(out, " d:{name}")?;
        }
    }
    Ok(())
}

fn put_items(out: &mut String, keys: &Names, items: &[Item]) -> Result<(), AllocError>
    ensures { OnOk result (string_bytes out.new ≡ string_bytes out.old ++ flat_map (spec.item_text keys.now.names) items.now) }
{
    'each: for item in items {
        put_item(out, keys, *item)?;
    }
    Ok(())
}

fn put_txn_head(out: &mut String, name: &str, clock: u64) -> Result<(), AllocError>
    ensures { OnOk result (string_bytes out.new ≡ string_bytes out.old ++ spec.txn_head name.now clock) }
{
    write!(out, "txn {name} {clock}")?;
    Ok(())
}

fn put_txn(
    out: &mut String,
    clients: &[ClientLine],
    keys: &Names,
    txn: &TxnLine,
) -> Result<(), AllocError>
    ensures { OnOk result (string_bytes out.new ≡ string_bytes out.old ++ line_text (spec.txn_line clients.now keys.now.names txn.now)) }
{
    put_txn_head(out, client_name(clients, txn.client), txn.clock)?;
    put_items(out, keys, txn.items.as_slice())?;
    writeln!(out)?;
    Ok(())
}

fn put_txns(
    out: &mut String,
    clients: &[ClientLine],
    keys: &Names,
    txns: &[TxnLine],
) -> Result<(), AllocError>
    ensures { OnOk result (string_bytes out.new ≡ string_bytes out.old ++ text_of (map (spec.txn_line clients.now keys.now.names) txns.now)) }
{
    'each: for txn in txns {
        put_txn(out, clients, keys, txn)?;
    }
    Ok(())
}

fn put_takeover(
    out: &mut String,
    clients: &[ClientLine],
    takeover: &TakeoverLine,
) -> Result<(), AllocError>
    ensures { OnOk result (string_bytes out.new ≡ string_bytes out.old ++ line_text (spec.takeover_line clients.now takeover.now)) }
{
    let name = client_name(clients, takeover.id.client);
    let seq = takeover.id.seq;
    let view = takeover.view;
    writeln!(out, "takeover {name}.{seq} {view}")?;
    Ok(())
}

fn put_takeovers(
    out: &mut String,
    clients: &[ClientLine],
    takeovers: &[TakeoverLine],
) -> Result<(), AllocError>
    ensures { OnOk result (string_bytes out.new ≡ string_bytes out.old ++ text_of (map (spec.takeover_line clients.now) takeovers.now)) }
{
    'each: for takeover in takeovers {
        put_takeover(out, clients, takeover)?;
    }
    Ok(())
}

fn put_global(out: &mut String, line: GlobalLine) -> Result<(), AllocError>
    ensures { OnOk result (string_bytes out.new ≡ string_bytes out.old ++ line_text (spec.global_line line)) }
{
    match line {
        GlobalLine::Wipe(replica) => writeln!(out, "wipe {replica}")?,
        GlobalLine::Ask(epoch) => writeln!(out, "ask {epoch}")?,
        GlobalLine::Promise { epoch, replica } => writeln!(out, "promise {epoch} {replica}")?,
        GlobalLine::Merge(epoch) => writeln!(out, "merge {epoch}")?,
        GlobalLine::Adopt { epoch, replica } => writeln!(out, "adopt {epoch} {replica}")?,
        GlobalLine::Enter(epoch) => writeln!(out, "enter {epoch}")?,
    }
    Ok(())
}

fn put_globals(out: &mut String, globals: &[GlobalLine]) -> Result<(), AllocError>
    ensures { OnOk result (string_bytes out.new ≡ string_bytes out.old ++ text_of (map spec.global_line globals.now)) }
{
    'each: for line in globals {
        put_global(out, *line)?;
    }
    Ok(())
}

fn put_round(
    out: &mut String,
    clients: &[ClientLine],
    keys: &Names,
    round: &Round,
) -> Result<(), AllocError>
    ensures { OnOk result (string_bytes out.new ≡ string_bytes out.old ++ text_of (spec.round_lines clients.now keys.now.names round.now)) }
{
    put_txns(out, clients, keys, round.txns.as_slice())?;
    put_takeovers(out, clients, round.takeovers.as_slice())?;
    put_globals(out, round.globals.as_slice())
}

fn put_next_rounds(
    out: &mut String,
    clients: &[ClientLine],
    keys: &Names,
    rounds: &[Round],
) -> Result<(), AllocError>
    ensures { OnOk result (string_bytes out.new ≡ string_bytes out.old ++ text_of (flat_map (spec.next_lines clients.now keys.now.names) rounds.now)) }
{
    'each: for round in rounds {
        writeln!(out, "round")?;
        put_round(out, clients, keys, round)?;
    }
    Ok(())
}

fn put_rounds(
    out: &mut String,
    clients: &[ClientLine],
    keys: &Names,
    rounds: &[Round],
) -> Result<(), AllocError>
    ensures { OnOk result (string_bytes out.new ≡ string_bytes out.old ++ text_of (spec.rounds_lines clients.now keys.now.names rounds.now)) }
{
    match rounds {
        [] => Ok(()),
        [first, rest @ ..] => {
            put_round(out, clients, keys, first)?;
            put_next_rounds(out, clients, keys, rest)
        }
    }
}
