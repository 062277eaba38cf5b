//! A script.
use crate::lines::{ClientLine, FaultLine, Lines, Round, StopLine};
use mk_names::Names;
use mk_quorum::Size;
use std::marker::Model;

/// A script: its clients, faults, stops and rounds. It keeps the limits, the numberings and the rules of the format, so
/// that it has a text.
#[derive(Drop)]
pub struct Script {
    /// 1 or 2.
    pub version: u32,
    pub size: Size,
    /// At most 64, numbered from 1.
    pub clients: Lines<ClientLine>,
    /// At most 256, numbered from 0 in order of first mention.
    pub keys: Names,
    /// How often a transaction line is tried again, 0 to 3.
    pub retry: u32,
    /// Together with the stops at most 1,024.
    pub faults: Lines<FaultLine>,
    pub stops: Lines<StopLine>,
    /// 1 to 16.
    pub rounds: Lines<Round>,
}

impl Model for Script {
    ghost use Rattle.mk_script.specs.Scripts.{ScriptParts};
    ghost use Rattle.mk_script.specs.Whole.{IsWhole};

    ghost Value = { ScriptParts };

    ghost view = { λ a. record { version = a.version; size = a.size; clients = a.clients; keys = a.keys.names; retry = a.retry; faults = a.faults; stops = a.stops; rounds = a.rounds } };

    ghost invariant = { λ a. IsWhole (record { version = a.version; size = a.size; clients = a.clients; keys = a.keys.names; retry = a.retry; faults = a.faults; stops = a.stops; rounds = a.rounds }) };
}
