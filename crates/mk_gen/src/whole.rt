//! The script of a number.
ghost use Rattle.std.specs.Prelude.{◌≡◌, ◌≤◌, [], length, map, IfOk, OnOk};
ghost use Rattle.mk_script.specs.Whole.{IsWhole};
ghost use Rattle.mk_script.specs.Grammar.{keys_after};
ghost use Rattle.mk_gen.specs.WordStream.{words_of};
ghost use Rattle.mk_gen.specs.Drawn as drawn;
ghost use Rattle.mk_gen.specs.Generated as spec;

use crate::draw::{Share, draw_count, draw_items, words};
use crate::keys::number_items;
use mk_names::Names;
use mk_quorum::Size;
use mk_script::{ClientLine, Lines, Name, Round, Script, TxnLine};
use mk_txn::NoMemory;
use rand_pcg::Lcg64Xsh32;
use std::alloc::Global;

/// The line of a client, counted from 1.
fn client_line(alloc: Global, client: u32) -> Result<ClientLine, NoMemory>
    requires { 1 ≤ client }
    ensures { IfOk result (λ line. line ≡ spec.client_line client) }
{
    let name = format!(in alloc; "c{client}")?;
    Ok(ClientLine {
        name: Name::of(name),
        column: (client - 1) % 8,
        home: client % 3,
    })
}

/// The lines of the first clients.
fn client_lines(alloc: Global, clients: u32) -> Result<Vec<ClientLine>, NoMemory>
    requires { clients ≤ 64 }
    ensures { IfOk result (λ lines. lines.items ≡ spec.client_lines clients) }
{
    let mut lines = Vec::new(alloc);
    'each: for client in 0..clients {
        lines.push(client_line(alloc, client + 1)?)?;
    }
    Ok(lines)
}

/// The script of these clients, key names and transactions, in one round.
fn script(alloc: Global, clients: u32, names: Names, txns: Vec<TxnLine>) -> Result<Script, NoMemory>
    requires few { clients ≤ 64 }
    requires whole { IsWhole (spec.one_round clients names.names txns.items) }
    ensures { IfOk result (λ script. script ≡ spec.one_round clients names.names txns.items) }
{
    let clients = client_lines(alloc, clients)?;
    let mut rounds = Vec::new(alloc);
    rounds.push(Round {
        txns: Lines::of(txns),
        takeovers: Lines::of(Vec::new(alloc)),
        globals: Lines::of(Vec::new(alloc)),
    })?;
    Ok(Script {
        version: 1,
        size: Size::new(1).unwrap(),
        clients: Lines::of(clients),
        keys: names,
        retry: 0,
        faults: Lines::of(Vec::new(alloc)),
        stops: Lines::of(Vec::new(alloc)),
        rounds: Lines::of(rounds),
    })
}

/// Transaction `t`, counted from 0, with its keys' numbers in the script.
fn draw_txn(
    alloc: Global,
    words: &mut Lcg64Xsh32,
    names: &mut Names,
    share: Share,
    t: u32,
) -> Result<TxnLine, NoMemory>
    requires limit { names.old.limit ≡ 256 }
    requires named { spec.AreKeyNames 256 names.old.names }
    requires share { share ≡ drawn.share_of share.clients share.keys t }
    ensures line { IfOk result (λ line. line ≡ spec.numbered names.new.names (drawn.txn_drawn share.clients share.keys t words.old)) }
    ensures names { OnOk result (names.new.names ≡ keys_after names.old.names (spec.mentions (drawn.txn_drawn share.clients share.keys t words.old))) }
    ensures rest { OnOk result (words.new ≡ drawn.after_txn words.old) }
    ensures limit { OnOk result (names.new.limit ≡ 256) }
    ensures named { OnOk result (spec.AreKeyNames 256 names.new.names) }
{
    let count = draw_count(words);
    let items = draw_items(alloc, words, share, count)?;
    let items = number_items(alloc, names, &items)?;
    Ok(TxnLine {
        client: share.client(),
        clock: 1000 * (u64::from(t) + 1),
        items: Lines::of(items),
    })
}

/// So many transactions of the number, and their keys by name.
fn draw_txns(
    alloc: Global,
    names: &mut Names,
    number: u64,
    clients: u32,
    txns: u32,
    keys: u32,
) -> Result<Vec<TxnLine>, NoMemory>
    requires some { 1 ≤ clients }
    requires enough { clients ≤ keys }
    requires few { keys ≤ 256 }
    requires limit { names.old.limit ≡ 256 }
    requires empty { names.old.names ≡ [] }
    ensures names { let txns = drawn.txns_drawn clients keys txns 0 (words_of number) in OnOk result (names.new.names ≡ spec.keys_of_txns txns) }
    ensures lines { let txns = drawn.txns_drawn clients keys txns 0 (words_of number) in IfOk result (λ lines. lines.items ≡ map (spec.numbered (spec.keys_of_txns txns)) txns) }
    ensures few { OnOk result (length names.new.names ≤ 256) }
{
    let mut words = words(number);
    let mut lines = Vec::new(alloc);
    'each: for t in 0..txns {
        let share = Share::of(clients, keys, t);
        lines.push(draw_txn(alloc, &mut words, names, share, t)?)?;
    }
    Ok(lines)
}

/// The script of a number with so many clients (1 to 64), transactions (at most 4,096) and keys (at least one for each
/// client, at most 256). No two clients name one key.
pub fn generate(
    alloc: Global,
    number: u64,
    clients: u32,
    txns: u32,
    keys: u32,
) -> Result<Script, NoMemory>
    requires some_clients { 1 ≤ clients }
    requires few_clients { clients ≤ 64 }
    requires few_txns { txns ≤ 4096 }
    requires enough_keys { clients ≤ keys }
    requires few_keys { keys ≤ 256 }
    ensures script { IfOk result (λ script. script ≡ spec.generated number clients txns keys) }
{
    let mut names = Names::new(alloc);
    let lines = draw_txns(alloc, &mut names, number, clients, txns, keys)?;
    script(alloc, clients, names, lines)
}
