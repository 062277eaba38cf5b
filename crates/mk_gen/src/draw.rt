//! What is drawn from the words of a number.
ghost use Rattle.std.specs.Prelude.{◌≡◌, ◌<◌, ◌≤◌, IfOk, OnOk};
ghost use Rattle.mk_lists.specs.Among.{Each};
ghost use Rattle.mk_proc.specs.Items.{key_of};
ghost use Rattle.mk_gen.specs.WordStream as stream;
ghost use Rattle.mk_gen.specs.Drawn as spec;

use mk_proc::{Item, ProcKind};
use mk_txn::NoMemory;
use rand_core::utils::NextWord;
use rand_pcg::Lcg64Xsh32;
use std::alloc::Global;
use std::marker::Model;

/// One of the clients that share the keys, counted from 1.
#[derive(Clone, Copy)]
pub struct Share {
    client: u32,
    clients: u32,
    keys: u32,
}

impl Model for Share {
    ghost use Rattle.std.specs.Prelude.{◌≤◌};
    ghost use Rattle.mk_gen.specs.Drawn as drawn;

    ghost Value = { drawn.Share };

    ghost view = { λ a. record { client = a.client; clients = a.clients; keys = a.keys } };

    ghost inverse = { λ a. record { client = a.client; clients = a.clients; keys = a.keys } };

    ghost invariant = { λ a. (1 ≤ a.client) × (a.client ≤ a.clients) × (a.clients ≤ a.keys) × (a.keys ≤ 256) };
}

impl Share {
    ghost use Rattle.std.specs.Prelude.{◌≡◌, ◌<◌, ◌≤◌};
    ghost use Rattle.mk_gen.specs.Drawn.{share_of, key_picked};

    /// The share of transaction `t`, counted from 0.
    pub fn of(clients: u32, keys: u32, t: u32) -> Share
        requires some { 1 ≤ clients }
        requires enough { clients ≤ keys }
        requires few { keys ≤ 256 }
        ensures { result ≡ share_of clients keys t }
    {
        Share {
            client: t % clients + 1,
            clients,
            keys,
        }
    }

    /// The client, counted from 1.
    pub fn client(self) -> u32
        ensures { result ≡ self.client }
    {
        self.client
    }

    /// The key that a word picks.
    fn key(self, word: u32) -> u32
        ensures key { result ≡ key_picked self word }
        ensures below { result < self.keys }
    {
        let count = (self.keys - self.client) / self.clients + 1;
        (self.client - 1) + self.clients * (word / 4 % count)
    }
}

/// All words of a number, from the first.
pub fn words(number: u64) -> Lcg64Xsh32
    ensures { result ≡ stream.words_of number }
{
    Lcg64Xsh32::new(number, 1)
}

/// The next word.
fn next(words: &mut Lcg64Xsh32) -> u32
    ensures word { result ≡ stream.word words.old }
    ensures rest { words.new ≡ stream.rest words.old }
{
    words.next_word()
}

/// How many items a transaction has.
pub fn draw_count(words: &mut Lcg64Xsh32) -> u32
    ensures count { result ≡ spec.item_count words.old }
    ensures rest { words.new ≡ stream.rest words.old }
    ensures few { (1 ≤ result) × (result ≤ 4) }
{
    1 + next(words) % 4
}

/// The next item, with its key's own number.
fn draw_item(words: &mut Lcg64Xsh32, share: Share) -> Item
    ensures item { result ≡ spec.item_drawn share words.old }
    ensures rest { words.new ≡ spec.after_item words.old }
    ensures below { key_of result < 256 }
{
    let word = next(words);
    let key = share.key(word);
    match word % 4 {
        2 => {
            let value = u64::from(next(words));
            Item::Write { key, value }
        }
        3 => Item::Compute {
            key,
            proc: ProcKind::Add,
            arg: 1,
        },
        _ => Item::Read(key),
    }
}

/// So many items, with their keys' own numbers.
pub fn draw_items(
    alloc: Global,
    words: &mut Lcg64Xsh32,
    share: Share,
    count: u32,
) -> Result<Vec<Item>, NoMemory>
    ensures items { IfOk result (λ items. items.items ≡ spec.items_drawn share count words.old) }
    ensures rest { OnOk result (words.new ≡ spec.after_items count words.old) }
    ensures below { IfOk result (λ items. Each (λ item. key_of item < 256) items.items) }
{
    let mut items = Vec::new(alloc);
    'each: for _ in 0..count {
        items.push(draw_item(words, share))?;
    }
    Ok(items)
}
