//! What is written of a run for the words `at` and `why`.
ghost use Rattle.std.specs.Prelude.{◌≡◌, ◌++◌, List, Some, IfOk, OnOk, IfErr};
ghost use Rattle.std.specs.String.{string_bytes};
ghost use Rattle.mk_txn.specs.Transactions.{Transaction};
ghost use Rattle.mk_history.specs.Legality.{IsLegal};
ghost use Rattle.mk_report.specs.StoreTexts.{stores_text};
ghost use Rattle.mk_past.specs.Pasts.{copy_at};
ghost use Rattle.mk_past.specs.Indexes.{IsPastOf};
ghost use Rattle.mk_tool.specs.Asking.{id_named, HasNamed, HasAsked};
ghost use Rattle.mk_tool.specs.Asking.Asked.{ForReason};
ghost use Rattle.mk_tool.specs.Checked.{IsTold, IsUntold};
ghost use Rattle.mk_tool.specs.Seen.{seen_question};
ghost use Rattle.mk_tool.specs.VerdictTexts as verdicts;
ghost use Rattle.mk_tool.specs.PastTexts as spec;

use crate::asking::Question;
use crate::judging::Judgement;
use crate::spelling::put_broken;
use mk_ending::Why;
use mk_kept::Head;
use mk_names::Names;
use mk_past::{Past, Reasoned, attempts_have_lines, why};
use mk_report::{by_name, put_conflict, put_held, put_id, put_left, put_path, put_stamp};
use mk_run::{Flaw, Place, Run, State, Verdict, check};
use mk_trace_lines::key_name;
use mk_txn::{Conflict, NoMemory, Outcome, Stamp, TxnId};
use std::alloc::{AllocError, Global};

/// The store lines of what the commits up to the stamp left.
fn put_stores_at(
    out: &mut String,
    alloc: Global,
    keys: &Names,
    past: &Past,
    stamp: Stamp,
) -> Result<(), NoMemory>
    ensures { OnOk result ((commits : List Transaction) → IsPastOf past.now commits → string_bytes out.new ≡ string_bytes out.old ++ stores_text keys.now.names (copy_at stamp commits)) }
{
    let table = by_name(alloc, keys)?;
    'each: for (name, number) in &table {
        let (version, value) = past.at(*number, stamp);
        put_held(out, name, version, value)?;
    }
    Ok(())
}

/// The last line: the stamp, and how many commits there were by then.
fn put_at(out: &mut String, stamp: Stamp, count: u64) -> Result<(), AllocError>
    ensures { OnOk result (string_bytes out.new ≡ string_bytes out.old ++ spec.at_text stamp count) }
{
    write!(out, "at ")?;
    put_stamp(out, stamp)?;
    writeln!(out, " {count}")
}

/// The past of a legal run at the stamp.
fn past_text(alloc: Global, run: &Run, stamp: Stamp) -> Result<String, NoMemory>
    requires { IsLegal run.now }
    ensures { IfOk result (λ text. string_bytes text ≡ spec.past_text run.now stamp) }
{
    let past = Past::new(alloc, run)?;
    let mut out = String::new(alloc);
    put_stores_at(&mut out, alloc, &run.head().key_names, &past, stamp)?;
    put_at(&mut out, stamp, past.count(stamp))?;
    Ok(out)
}

fn state_word(state: State) -> &'static str
    ensures { result.now ≡ spec.state_word state }
{
    match state {
        State::Learned { outcome, path: _ } => match outcome {
            Outcome::Commit => "commit",
            Outcome::Abort(_) => "abort",
        },
        State::Left(_) => "open",
    }
}

/// The refused check of an attempt that aborted by a conflict.
#[derive(Clone, Copy)]
struct Refusal {
    conflict: Conflict,
    round: u32,
    replica: u32,
    entry: u64,
    owner: TxnId,
    state: State,
}

fn put_refusal(
    out: &mut String,
    clients: &Names,
    keys: &Names,
    refusal: &Refusal,
) -> Result<(), AllocError>
    ensures { OnOk result (string_bytes out.new ≡ string_bytes out.old ++ spec.refusal_text clients.now.names keys.now.names refusal.now.conflict refusal.now.round refusal.now.replica refusal.now.entry refusal.now.owner refusal.now.state) }
{
    let round = refusal.round;
    let replica = refusal.replica;
    let key = key_name(keys, refusal.conflict.key);
    let entry = refusal.entry;
    let word = state_word(refusal.state);
    put_conflict(out, keys, refusal.conflict)?;
    write!(out, " round {round} cell {replica} {key} {entry} owner ")?;
    put_id(out, clients, refusal.owner)?;
    write!(out, " {word}")
}

fn put_reason(
    out: &mut String,
    clients: &Names,
    keys: &Names,
    reason: Reasoned,
) -> Result<(), AllocError>
    ensures { OnOk result (string_bytes out.new ≡ string_bytes out.old ++ spec.reason_text clients.now.names keys.now.names reason) }
{
    match reason {
        Reasoned::Commit(path) => {
            write!(out, "commit ")?;
            put_path(out, path)
        }
        Reasoned::Conflict {
            conflict,
            round,
            replica,
            entry,
            owner,
            state,
        } => {
            let refusal = Refusal {
                conflict,
                round,
                replica,
                entry,
                owner,
                state,
            };
            put_refusal(out, clients, keys, &refusal)
        }
        Reasoned::Takeover(view) => write!(out, "takeover {view}"),
        Reasoned::Epoch(epoch) => write!(out, "epoch {epoch}"),
        Reasoned::Open(left) => {
            write!(out, "open ")?;
            put_left(out, left)
        }
    }
}

fn put_why(
    out: &mut String,
    clients: &Names,
    keys: &Names,
    id: TxnId,
    reason: Reasoned,
) -> Result<(), AllocError>
    ensures { OnOk result (string_bytes out.new ≡ string_bytes out.old ++ spec.why_text clients.now.names keys.now.names id reason) }
{
    write!(out, "why ")?;
    put_id(out, clients, id)?;
    write!(out, " ")?;
    put_reason(out, clients, keys, reason)?;
    writeln!(out)
}

/// The line of an attempt with this reason.
fn why_text(alloc: Global, run: &Run, id: TxnId, reason: Reasoned) -> Result<String, NoMemory>
    ensures { IfOk result (λ text. string_bytes text ≡ spec.why_text run.now.client_names run.now.key_names id reason) }
{
    let head = run.head();
    let mut out = String::new(alloc);
    put_why(&mut out, &head.client_names, &head.key_names, id, reason)?;
    Ok(out)
}

/// The attempt of a client's name and a seq; clients have the numbers from 1.
fn id_of(run: &Run, client: &str, seq: u32) -> Option<TxnId>
    ensures { result ≡ id_named client.now seq run.now }
{
    let place = run.head().client_names.find(client)?;
    Some(TxnId {
        client: place + 1,
        seq,
    })
}

/// The reason of an attempt of a legal run, where it has the attempt.
fn reason_text(alloc: Global, run: &Run, client: &str, seq: u32) -> Result<String, Why>
    requires { IsLegal run.now }
    ensures text { IfOk result (λ text. spec.why_of run.now (id_named client.now seq run.now) ≡ Some (string_bytes text)) }
    ensures has { OnOk result (HasNamed (id_named client.now seq run.now) run.now) }
    ensures err { IfErr result (IsUntold (ForReason client.now seq) run.now) }
{
    attempts_have_lines();
    run.has_shape();
    let Some(id) = id_of(run, client, seq) else {
        return Err(Why::NoAttempt);
    };
    let Some(reason) = why(alloc, run, id)? else {
        return Err(Why::NoAttempt);
    };
    Ok(why_text(alloc, run, id, reason)?)
}

fn legal_text(alloc: Global, run: &Run, question: Question<'_>) -> Result<String, Why>
    requires { IsLegal run.now }
    ensures text { IfOk result (λ text. spec.legal_answer (seen_question question.entry) run.now ≡ Some (string_bytes text)) }
    ensures has { OnOk result (HasAsked (seen_question question.entry) run.now) }
    ensures err { IfErr result (IsUntold (seen_question question.entry) run.now) }
{
    match question {
        Question::Past(stamp) => Ok(past_text(alloc, run, stamp)?),
        Question::Reason { client, seq } => reason_text(alloc, run, client, seq),
    }
}

fn broken_text(
    alloc: Global,
    head: &Head,
    round: u32,
    place: Place,
    why: Flaw,
) -> Result<String, NoMemory>
    ensures { IfOk result (λ text. string_bytes text ≡ verdicts.broken_text head.now.key_names.names round place why) }
{
    let mut out = String::new(alloc);
    put_broken(&mut out, &head.key_names, round, place, why)?;
    Ok(out)
}

/// What is told of a run that is asked this: of one that is not legal the verdict.
pub fn answer(alloc: Global, run: &Run, question: Question<'_>) -> Result<Judgement, Why>
    ensures told { IfOk result (λ j. IsTold (seen_question question.entry) run.now j.verdict (string_bytes j.text)) }
    ensures err { IfErr result (IsUntold (seen_question question.entry) run.now) }
{
    let verdict = check(alloc, run)?;
    match verdict {
        Verdict::Legal => {
            let text = legal_text(alloc, run, question)?;
            Ok(Judgement { verdict, text })
        }
        Verdict::Broken { round, place, why } => {
            let text = broken_text(alloc, run.head(), round, place, why)?;
            Ok(Judgement { verdict, text })
        }
    }
}
