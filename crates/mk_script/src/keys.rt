//! The numbers of keys.
ghost use Rattle.std.specs.Prelude.{◌≡◌, ◌<◌, ◌≤◌, IsTrue, IsOk, IfOk, IfErr, OnOk, length, map};
ghost use Rattle.mk_spelling.specs.Words.{is_name, words};
ghost use Rattle.mk_names.specs.NameLists.{with_name};
ghost use Rattle.mk_script.specs.Grammar.{keys_after, number_of, item_of, key_of};
ghost use Rattle.mk_script.specs.ItemShapes.{mentions_of};
ghost use Rattle.mk_script.specs.Seen.{IsFull, mention_view, mentioned};

use crate::error::LineError;
use crate::items::{Named, mention};
use mk_names::Names;
use mk_proc::Item;
use mk_text::{name_text, next_word};
use std::alloc::Global;

/// The number of a key, a new one last.
fn number_key(keys: &mut Names, name: &[u8]) -> Result<u32, LineError>
    requires named { IsTrue (is_name name.now) }
    requires limit { keys.old.limit ≡ 256 }
    requires few { length keys.old.names ≤ 256 }
    ensures keys { OnOk result (keys.new.names ≡ with_name keys.old.names name.now) }
    ensures limit { keys.new.limit ≡ 256 }
    ensures few { length keys.new.names ≤ 256 }
    ensures number { IfOk result (λ n. n ≡ number_of keys.new.names name.now) }
    ensures full { IfErr result (λ e. IsFull e (with_name keys.old.names name.now)) }
{
    let number = keys.intern(name_text(name))?;
    Ok(number)
}

/// An item with its key's number.
fn number_item(keys: &mut Names, item: Named<'_>) -> Result<Item, LineError>
    requires named { IsTrue (is_name (key_of (mention_view item))) }
    requires limit { keys.old.limit ≡ 256 }
    requires few { length keys.old.names ≤ 256 }
    ensures keys { OnOk result (keys.new.names ≡ with_name keys.old.names (key_of (mention_view item.entry))) }
    ensures limit { keys.new.limit ≡ 256 }
    ensures few { length keys.new.names ≤ 256 }
    ensures item { IfOk result (λ i. i ≡ item_of keys.new.names (mention_view item.entry)) }
    ensures full { IfErr result (λ e. IsFull e (with_name keys.old.names (key_of (mention_view item.entry)))) }
{
    match item {
        Named::Read(name) => Ok(Item::Read(number_key(keys, name)?)),
        Named::Write(name, value) => {
            let key = number_key(keys, name)?;
            Ok(Item::Write { key, value })
        }
        Named::Compute(name, kind, arg) => {
            let key = number_key(keys, name)?;
            Ok(Item::Compute {
                key,
                proc: kind,
                arg,
            })
        }
        Named::Delete(name) => Ok(Item::Delete(number_key(keys, name)?)),
    }
}

/// The items of a text whose words pass their tests.
pub fn number_items(alloc: Global, keys: &mut Names, items: &[u8]) -> Result<Vec<Item>, LineError>
    requires passed { IsOk (mentions_of (words items.now)) }
    requires limit { keys.old.limit ≡ 256 }
    requires few { length keys.old.names ≤ 256 }
    ensures keys { OnOk result (keys.new.names ≡ keys_after keys.old.names (mentioned (words items.now))) }
    ensures limit { keys.new.limit ≡ 256 }
    ensures few { length keys.new.names ≤ 256 }
    ensures items { IfOk result (λ v. v.items ≡ map (item_of keys.new.names) (mentioned (words items.now))) }
    ensures full { IfErr result (λ e. IsFull e (keys_after keys.old.names (mentioned (words items.now)))) }
{
    let mut made = Vec::new(alloc);
    let mut left = Some(items);
    while let Some(behind) = left {
        let (word, rest) = next_word(behind);
        let item = mention(word)?;
        made.push(number_item(keys, item)?)?;
        left = rest;
    }
    Ok(made)
}
