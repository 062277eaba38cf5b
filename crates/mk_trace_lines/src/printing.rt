//! The text of acts, steps, entries and global lines.
ghost use Rattle.std.specs.Prelude.{◌≡◌, ◌++◌, ◌∷◌, [], OnOk, codes};
ghost use Rattle.std.specs.List.{flat_map, join_with_byte};
ghost use Rattle.std.specs.Fmt.{decimal};
ghost use Rattle.std.specs.String.{string_bytes};
ghost use Rattle.mk_trace_lines.specs.LineWords as texts;
ghost use Rattle.mk_trace_lines.specs.TraceLines as spec;
ghost use Rattle.mk_trace_lines.specs.TraceLines.{spaced, line_text};
ghost use Rattle.mk_trace_lines.specs.TraceLines.TraceLine.{Logged, Kept, Changed};

use itoa::Buffer;
use mk_names::Names;
use mk_txn::{Reason, Stamp, TxnId, Value, WriteItem};
use mk_words::{Act, Answer, GlobalAnswer, GlobalEntry, GlobalLine, JournalEntry, KeyCall, Step};
use std::alloc::AllocError;

/// The name of the client of this number, which counts from 1.
pub fn client_name(clients: &Names, number: u32) -> &str
    ensures { result.now ≡ spec.client_name clients.now.names number }
{
    match clients.name(number.saturating_sub(1)) {
        Some(name) => name,
        None => "",
    }
}

/// The name of the key of this number, which counts from 0.
pub fn key_name(keys: &Names, number: u32) -> &str
    ensures { result.now ≡ spec.key_name keys.now.names number }
{
    match keys.name(number) {
        Some(name) => name,
        None => "",
    }
}

fn reason_word(reason: Reason) -> &'static str
    ensures { result.now ≡ texts.reason_text reason }
{
    match reason {
        Reason::ReadStale => "read-stale",
        Reason::ReadPending => "read-pending",
        Reason::WriteLate => "write-late",
        Reason::WritePending => "write-pending",
    }
}

/// Appends the digits of a number.
fn put_number(out: &mut String, n: u64) -> Result<(), AllocError>
    ensures { OnOk result (string_bytes out.new ≡ string_bytes out.old ++ decimal n) }
{
    let mut digits = Buffer::new();
    out.push_str(digits.format(n))
}

/// Appends an attempt.
fn put_attempt(out: &mut String, clients: &Names, client: u32, seq: u64) -> Result<(), AllocError>
    ensures { OnOk result (string_bytes out.new ≡ string_bytes out.old ++ spec.attempt_text clients.now.names client seq) }
{
    out.push_str(client_name(clients, client))?;
    out.push_str(".")?;
    put_number(out, seq)
}

fn put_stamp(out: &mut String, stamp: Stamp) -> Result<(), AllocError>
    ensures { OnOk result (string_bytes out.new ≡ string_bytes out.old ++ (32 ∷ spec.stamp_text stamp)) }
{
    out.push_str(" ")?;
    put_number(out, stamp.time)?;
    out.push_str(".")?;
    put_number(out, u64::from(stamp.client))
}

fn put_value(out: &mut String, value: Value) -> Result<(), AllocError>
    ensures { OnOk result (string_bytes out.new ≡ string_bytes out.old ++ spec.value_text value) }
{
    match value {
        Value::Number(n) => put_number(out, n),
        Value::Absent => out.push_str("none"),
    }
}

fn put_spaced_value(out: &mut String, value: Value) -> Result<(), AllocError>
    ensures { OnOk result (string_bytes out.new ≡ string_bytes out.old ++ (32 ∷ spec.value_text value)) }
{
    out.push_str(" ")?;
    put_value(out, value)
}

fn put_stamped(out: &mut String, word: &str, stamp: Stamp) -> Result<(), AllocError>
    ensures { OnOk result (string_bytes out.new ≡ string_bytes out.old ++ spaced (word.now ∷ spec.stamp_text stamp ∷ [])) }
{
    out.push_str(" ")?;
    out.push_str(word)?;
    put_stamp(out, stamp)
}

fn put_act(out: &mut String, act: Act) -> Result<(), AllocError>
    ensures { OnOk result (string_bytes out.new ≡ string_bytes out.old ++ spaced (spec.act_words act)) }
{
    match act {
        Act::Get => out.push_str(" get"),
        Act::CheckRead { ts, version } => {
            put_stamped(out, "checkread", ts)?;
            put_stamp(out, version)
        }
        Act::CheckWrite { ts } => put_stamped(out, "checkwrite", ts),
        Act::CommitRead { ts } => put_stamped(out, "commitread", ts),
        Act::CommitWrite { ts, value } => {
            put_stamped(out, "commitwrite", ts)?;
            put_spaced_value(out, value)
        }
        Act::ReleaseRead { ts } => put_stamped(out, "releaseread", ts),
        Act::ReleaseWrite { ts } => put_stamped(out, "releasewrite", ts),
    }
}

fn put_answer(out: &mut String, answer: Answer) -> Result<(), AllocError>
    ensures { OnOk result (string_bytes out.new ≡ string_bytes out.old ++ spaced (spec.answer_words answer)) }
{
    match answer {
        Answer::Version { version, value } => {
            put_stamp(out, version)?;
            put_spaced_value(out, value)
        }
        Answer::Okay => out.push_str(" ok"),
        Answer::Refused { reason, stamp } => put_stamped(out, reason_word(reason), stamp),
        Answer::Done => Ok(()),
    }
}

fn put_turn(out: &mut String, act: Act, answer: Answer) -> Result<(), AllocError>
    ensures { OnOk result (string_bytes out.new ≡ string_bytes out.old ++ spaced (spec.turn_words act answer)) }
{
    put_act(out, act)?;
    put_answer(out, answer)
}

fn put_turn_step(
    out: &mut String,
    keys: &Names,
    call: KeyCall,
    answer: Answer,
) -> Result<(), AllocError>
    ensures { OnOk result (string_bytes out.new ≡ string_bytes out.old ++ spec.ended (spec.turn_text keys.now.names call answer)) }
{
    out.push_str("key ")?;
    put_number(out, u64::from(call.replica))?;
    out.push_str(" ")?;
    out.push_str(key_name(keys, call.key))?;
    put_turn(out, call.act, answer)?;
    out.push_str("\n")
}

fn put_write(out: &mut String, keys: &Names, item: WriteItem) -> Result<(), AllocError>
    ensures { OnOk result (string_bytes out.new ≡ string_bytes out.old ++ (32 ∷ spec.write_text keys.now.names item)) }
{
    out.push_str(" ")?;
    out.push_str(key_name(keys, item.key))?;
    out.push_str("=")?;
    put_value(out, item.value)
}

fn put_writes(out: &mut String, keys: &Names, writes: &[WriteItem]) -> Result<(), AllocError>
    ensures { OnOk result (string_bytes out.new ≡ string_bytes out.old ++ flat_map (spec.spaced_write keys.now.names) writes.now) }
{
    'each: for item in writes {
        put_write(out, keys, *item)?;
    }
    Ok(())
}

fn put_stamp_step(
    out: &mut String,
    clients: &Names,
    keys: &Names,
    id: TxnId,
    clock: u64,
    writes: &[WriteItem],
) -> Result<(), AllocError>
    ensures { OnOk result (string_bytes out.new ≡ string_bytes out.old ++ spec.ended (spec.stamped_text clients.now.names keys.now.names id clock writes.now)) }
{
    out.push_str("stamp ")?;
    put_attempt(out, clients, id.client, u64::from(id.seq))?;
    out.push_str(" ")?;
    put_number(out, clock)?;
    put_writes(out, keys, writes)?;
    out.push_str("\n")
}

fn put_alone(out: &mut String, clients: &Names, word: &str, id: TxnId) -> Result<(), AllocError>
    ensures { OnOk result (string_bytes out.new ≡ string_bytes out.old ++ spec.ended (word.now ++ 32 ∷ spec.attempt_text clients.now.names id.client id.seq)) }
{
    out.push_str(word)?;
    out.push_str(" ")?;
    put_attempt(out, clients, id.client, u64::from(id.seq))?;
    out.push_str("\n")
}

fn put_viewed(
    out: &mut String,
    clients: &Names,
    word: &str,
    id: TxnId,
    view: u32,
) -> Result<(), AllocError>
    ensures { OnOk result (string_bytes out.new ≡ string_bytes out.old ++
        spec.ended (word.now ++ 32 ∷ (spec.attempt_text clients.now.names id.client id.seq ++ 32 ∷ decimal view))) }
{
    out.push_str(word)?;
    out.push_str(" ")?;
    put_attempt(out, clients, id.client, u64::from(id.seq))?;
    out.push_str(" ")?;
    put_number(out, u64::from(view))?;
    out.push_str("\n")
}

fn put_begin(
    out: &mut String,
    clients: &Names,
    client: u32,
    seq: u64,
    replica: u32,
) -> Result<(), AllocError>
    ensures { OnOk result (string_bytes out.new ≡ string_bytes out.old ++
        spec.ended (codes "begin " ++ (spec.attempt_text clients.now.names client seq ++ 32 ∷ decimal replica))) }
{
    out.push_str("begin ")?;
    put_attempt(out, clients, client, seq)?;
    out.push_str(" ")?;
    put_number(out, u64::from(replica))?;
    out.push_str("\n")
}

fn put_unread(out: &mut String, clients: &Names, client: u32, seq: u64) -> Result<(), AllocError>
    ensures { OnOk result (string_bytes out.new ≡ string_bytes out.old ++ spec.ended (codes "unread " ++ spec.attempt_text clients.now.names client seq)) }
{
    out.push_str("unread ")?;
    put_attempt(out, clients, client, seq)?;
    out.push_str("\n")
}

fn put_read(
    out: &mut String,
    clients: &Names,
    keys: &Names,
    id: TxnId,
    key: u32,
) -> Result<(), AllocError>
    ensures { OnOk result (string_bytes out.new ≡ string_bytes out.old ++
        spec.ended (codes "read " ++ (spec.attempt_text clients.now.names id.client id.seq ++ 32 ∷ spec.key_name keys.now.names key))) }
{
    out.push_str("read ")?;
    put_attempt(out, clients, id.client, u64::from(id.seq))?;
    out.push_str(" ")?;
    out.push_str(key_name(keys, key))?;
    out.push_str("\n")
}

fn put_take(out: &mut String, number: u64) -> Result<(), AllocError>
    ensures { OnOk result (string_bytes out.new ≡ string_bytes out.old ++ spec.ended (codes "take " ++ decimal number)) }
{
    out.push_str("take ")?;
    put_number(out, number)?;
    out.push_str("\n")
}

/// Appends the line of a step, with the seq that it begins.
pub fn put_step(
    out: &mut String,
    clients: &Names,
    keys: &Names,
    seq: u64,
    step: &Step,
) -> Result<(), AllocError>
    ensures { OnOk result (string_bytes out.new ≡ string_bytes out.old ++ line_text clients.now.names keys.now.names (Logged seq step.now)) }
{
    match step {
        Step::Begin { client, replica } => put_begin(out, clients, *client, seq, *replica),
        Step::Unread { client } => put_unread(out, clients, *client, seq),
        Step::Read { id, key } => put_read(out, clients, keys, *id, *key),
        Step::Stamp { id, clock, writes } => {
            put_stamp_step(out, clients, keys, *id, *clock, writes.as_slice())
        }
        Step::Validate { id } => put_alone(out, clients, "validate", *id),
        Step::Take { number } => put_take(out, *number),
        Step::Key { call, answer } => put_turn_step(out, keys, *call, *answer),
        Step::Rule { id } => put_alone(out, clients, "rule", *id),
        Step::Again { id } => put_alone(out, clients, "again", *id),
        Step::Takeover { id, view } => put_viewed(out, clients, "takeover", *id, *view),
        Step::Pick { id, view } => put_viewed(out, clients, "pick", *id, *view),
        Step::Stop { id } => put_alone(out, clients, "stop", *id),
    }
}

/// Appends the line of an entry of a journal.
pub fn put_entry(
    out: &mut String,
    clients: &Names,
    keys: &Names,
    entry: JournalEntry,
) -> Result<(), AllocError>
    ensures { OnOk result (string_bytes out.new ≡ string_bytes out.old ++ line_text clients.now.names keys.now.names (Kept entry)) }
{
    put_number(out, u64::from(entry.seat))?;
    put_turn(out, entry.act, entry.answer)?;
    out.push_str("\n")?;
    Ok(())
}

fn put_reply(out: &mut String, answer: GlobalAnswer) -> Result<(), AllocError>
    ensures { OnOk result (string_bytes out.new ≡ string_bytes out.old ++ spaced (spec.reply_words answer)) }
{
    match answer {
        GlobalAnswer::Ok => write!(out, " ok")?,
        GlobalAnswer::Counts { commits, aborts } => write!(out, " ok {commits} {aborts}")?,
        GlobalAnswer::Entered(k) => write!(out, " ok {k}")?,
        GlobalAnswer::Unasked => write!(out, " unasked")?,
        GlobalAnswer::Unmade => write!(out, " unmade")?,
        GlobalAnswer::Lacking => write!(out, " lacking")?,
        GlobalAnswer::Old(word) => write!(out, " old {word}")?,
        GlobalAnswer::WordFault => write!(out, " word-fault")?,
        GlobalAnswer::Short(k) => write!(out, " short {k}")?,
    }
    Ok(())
}

fn put_global(out: &mut String, line: GlobalLine) -> Result<(), AllocError>
    ensures { OnOk result (string_bytes out.new ≡ string_bytes out.old ++ join_with_byte 32 (spec.global_words line)) }
{
    match line {
        GlobalLine::Wipe(replica) => write!(out, "wipe {replica}")?,
        GlobalLine::Ask(epoch) => write!(out, "ask {epoch}")?,
        GlobalLine::Promise { epoch, replica } => write!(out, "promise {epoch} {replica}")?,
        GlobalLine::Merge(epoch) => write!(out, "merge {epoch}")?,
        GlobalLine::Adopt { epoch, replica } => write!(out, "adopt {epoch} {replica}")?,
        GlobalLine::Enter(epoch) => write!(out, "enter {epoch}")?,
    }
    Ok(())
}

fn put_answered(out: &mut String, line: GlobalLine, answer: GlobalAnswer) -> Result<(), AllocError>
    ensures { OnOk result (string_bytes out.new ≡ string_bytes out.old ++ spaced (spec.answered_words line answer)) }
{
    match line {
        GlobalLine::Wipe(_) | GlobalLine::Ask(_) => Ok(()),
        _ => put_reply(out, answer),
    }
}

/// Appends a global line with its answer.
#[tactic(auto, using(crate::proofs::Spaced::joined_global))]
pub fn put_change(
    out: &mut String,
    clients: &Names,
    keys: &Names,
    entry: GlobalEntry,
) -> Result<(), AllocError>
    ensures { OnOk result (string_bytes out.new ≡ string_bytes out.old ++ line_text clients.now.names keys.now.names (Changed entry)) }
{
    put_global(out, entry.line)?;
    put_answered(out, entry.line, entry.answer)?;
    writeln!(out)?;
    Ok(())
}

/// The name of the key of this number, however large it is.
pub fn key_name_at(keys: &Names, place: usize) -> &str
    ensures { result.now ≡ spec.key_name keys.now.names place }
{
    if place < keys.len() as usize {
        key_name(keys, place as u32)
    } else {
        ""
    }
}
