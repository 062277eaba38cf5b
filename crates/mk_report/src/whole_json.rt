//! The JSON of a run.
ghost use Rattle.std.specs.Prelude.{◌≡◌, ◌++◌, ◌∷◌, [], IfOk, false};
ghost use Rattle.serde_json.specs.View.{view};
ghost use Rattle.serde_json.specs.Written.{has_float, compact_text};
ghost use Rattle.mk_report.specs.WholeJson as spec;

use crate::json::{json_attempts, json_globals, json_stores};
use crate::report::tally;
use mk_history::RoundLog;
use mk_names::Names;
use mk_replay::OneCopy;
use mk_run::{AttemptLine, Tally};
use mk_txn::NoMemory;
use serde_json::{Value as Json, json};
use std::alloc::{AllocError, Global};

fn json_whole(
    alloc: Global,
    counted: Tally,
    attempts: Json,
    globals: Json,
    stores: Json,
) -> Result<Json, AllocError>
    ensures { IfOk result (λ v. view v ≡ spec.whole_data counted (view attempts) (view globals) (view stores)) }
{
    json!(in alloc; {
        "aborts": counted.aborts,
        "attempts": attempts,
        "commits": counted.commits,
        "globals": globals,
        "opens": counted.opens,
        "store": stores
    })
}

fn json_run(
    alloc: Global,
    clients: &Names,
    keys: &Names,
    lines: &[AttemptLine],
    rounds: &[RoundLog],
    copy: &OneCopy,
) -> Result<Json, NoMemory>
    ensures { IfOk result (λ v. view v ≡ spec.run_data clients.now.names keys.now.names lines.now rounds.now copy.now) }
{
    let attempts = json_attempts(alloc, clients, keys, lines)?;
    let globals = json_globals(alloc, rounds)?;
    let stores = json_stores(alloc, keys, copy)?;
    Ok(json_whole(alloc, tally(lines), attempts, globals, stores)?)
}

// The compact text of a value without floats, and a line feed.
fn text_of(alloc: Global, value: &Json) -> Result<Vec<u8>, AllocError>
    requires { has_float (view value.now) ≡ false }
    ensures { IfOk result (λ text. text.items ≡ compact_text (view value.now) ++ 10 ∷ []) }
{
    let mut text = value.to_vec(alloc)?;
    text.push(b'\n')?;
    Ok(text)
}

/// The JSON of these lines of attempts, rounds and one copy.
pub fn json_bytes(
    alloc: Global,
    clients: &Names,
    keys: &Names,
    lines: &[AttemptLine],
    rounds: &[RoundLog],
    copy: &OneCopy,
) -> Result<Vec<u8>, NoMemory>
    ensures { IfOk result (λ text. text.items ≡ spec.json_text clients.now.names keys.now.names lines.now rounds.now copy.now) }
{
    let value = json_run(alloc, clients, keys, lines, rounds, copy)?;
    Ok(text_of(alloc, &value)?)
}
