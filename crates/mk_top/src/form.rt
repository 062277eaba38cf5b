//! What the words of a call ask for.
ghost use Rattle.std.specs.Prelude.{◌≡◌, ◌≤◌, IfOk, IfSome, map};
ghost use Rattle.std.specs.String.{string_bytes};
ghost use Rattle.mk_spelling.specs.Words.{number as number_in};
ghost use Rattle.mk_top.specs.Forms as spec;

use mk_ending::is_word;
use mk_spelling::TextFault;
use mk_text::number;

/// What a script is made from: a number, and how many clients, transactions and keys it has.
#[derive(Clone, Copy)]
pub struct Load {
    pub number: u64,
    /// 1 to 64.
    pub clients: u32,
    /// At most 4,096.
    pub txns: u32,
    /// At least one for each client, and at most 256.
    pub keys: u32,
}

/// A form of words.
#[derive(Clone, Copy)]
pub enum Form {
    /// The script that is read is run, and the report of its run is written.
    Report,
    /// The same with the trace of the run.
    Trace,
    /// The same with the JSON of the run.
    Json,
    /// The same with the report and what is shown of the run, round by round.
    Follow,
    /// The script of this load is run, and the summary of its run is written.
    Summary(Load),
}

fn one_word(word: &String) -> Option<Form>
    ensures { result ≡ spec.one_word (string_bytes word.now) }
{
    if is_word(word, "run") {
        Some(Form::Report)
    } else {
        None
    }
}

fn option_form(option: &String) -> Option<Form>
    ensures { result ≡ spec.option_form (string_bytes option.now) }
{
    if is_word(option, "--trace") {
        Some(Form::Trace)
    } else if is_word(option, "--json") {
        Some(Form::Json)
    } else if is_word(option, "--follow") {
        Some(Form::Follow)
    } else {
        None
    }
}

fn two_words(word: &String, option: &String) -> Option<Form>
    ensures { result ≡ spec.two_words (string_bytes word.now) (string_bytes option.now) }
{
    if is_word(word, "run") {
        option_form(option)
    } else {
        None
    }
}

/// The number from `low` to `high` that the word is.
fn count(word: &String, low: u32, high: u32) -> Result<u32, TextFault>
    ensures is { result ≡ number_in low high (string_bytes word.now) }
    ensures above { IfOk result (λ n. low ≤ n) }
    ensures below { IfOk result (λ n. n ≤ high) }
{
    let number = number(word.as_bytes(), u64::from(low), u64::from(high))?;
    Ok(number as u32)
}

fn load_in(
    number_word: &String,
    clients: &String,
    txns: &String,
    keys: &String,
) -> Result<Load, TextFault>
    ensures is { result ≡ spec.load_of (string_bytes number_word.now) (string_bytes clients.now) (string_bytes txns.now) (string_bytes keys.now) }
    ensures fits { IfOk result spec.IsLoad }
{
    let number = number(number_word.as_bytes(), 0, u64::MAX)?;
    let clients = count(clients, 1, 64)?;
    let txns = count(txns, 0, 4096)?;
    let keys = count(keys, clients, 256)?;
    Ok(Load {
        number,
        clients,
        txns,
        keys,
    })
}

fn five_words(
    word: &String,
    number: &String,
    clients: &String,
    txns: &String,
    keys: &String,
) -> Option<Form>
    ensures is { result ≡ spec.five_words (string_bytes word.now) (string_bytes number.now) (string_bytes clients.now) (string_bytes txns.now) (string_bytes keys.now) }
    ensures fits { IfSome result spec.Fits }
{
    if !is_word(word, "gen") {
        return None;
    }
    match load_in(number, clients, txns, keys) {
        Ok(load) => Some(Form::Summary(load)),
        Err(_) => None,
    }
}

/// The form that the words have.
pub fn form_of(words: &[String]) -> Option<Form>
    ensures is { result ≡ spec.form_of (map string_bytes words.now) }
    ensures fits { IfSome result spec.Fits }
{
    match words {
        [word] => one_word(word),
        [word, option] => two_words(word, option),
        [word, number, clients, txns, keys] => five_words(word, number, clients, txns, keys),
        _ => None,
    }
}
