//! Bases kept as snapshots: the outcomes that the marks do not cover, the marks, and what the commits leave at each key.
#![tactic(auto)]

mod keeping;
mod lefts;
mod merging;

use mk_merge::Left;
use mk_trim::Kept;
use std::alloc::Global;
use std::collections::BTreeMap;
use std::marker::Model;

/// What is asked of a base once it is made, without its transactions.
#[derive(Drop)]
pub struct Snap {
    alloc: Global,
    kept: Kept,
    // what the commits leave at each key that they read or wrote
    lefts: BTreeMap<u32, Left>,
}

impl Model for Snap {
    ghost use Rattle.mk_snap.specs.Snapshots.{SnapState};

    ghost Value = { SnapState };

    ghost view = { λ snap. record { kept = snap.kept; lefts = snap.lefts.entries } };
}
