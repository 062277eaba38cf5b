//! The numbers of keys in a script.
ghost use Rattle.std.specs.Prelude.{◌≡◌, ◌<◌, ◌≤◌, ◌^◌, IfOk, OnOk, map};
ghost use Rattle.mk_lists.specs.Among.{Each};
ghost use Rattle.mk_names.specs.NameLists.{with_name};
ghost use Rattle.mk_proc.specs.Items as numbers;
ghost use Rattle.mk_script.specs.Grammar.{keys_after, item_of, number_of, key_of};
ghost use Rattle.mk_gen.specs.Generated.{AreKeyNames, key_name, mention};

use mk_names::{NameError, Names};
use mk_proc::Item;
use mk_txn::NoMemory;
use std::alloc::Global;

/// The number of a key, a new one last.
fn number_key(alloc: Global, names: &mut Names, key: u32) -> Result<u32, NoMemory>
    requires below { key < 256 }
    requires limit { names.old.limit ≡ 256 }
    requires named { AreKeyNames 256 names.old.names }
    ensures number { IfOk result (λ n. n ≡ number_of names.new.names (key_name key)) }
    ensures names { OnOk result (names.new.names ≡ with_name names.old.names (key_name key)) }
    ensures limit { OnOk result (names.new.limit ≡ 256) }
    ensures named { OnOk result (AreKeyNames 256 names.new.names) }
{
    let name = format!(in alloc; "k{key}")?;
    match names.intern(&name) {
        Ok(number) => Ok(number),
        Err(NameError::NoMemory) => Err(NoMemory),
        Err(NameError::BadName) => unreachable!(),
        Err(NameError::Full) => unreachable!(),
    }
}

/// An item with its key's number.
fn number_item(alloc: Global, names: &mut Names, item: Item) -> Result<Item, NoMemory>
    requires below { numbers.key_of item < 256 }
    requires limit { names.old.limit ≡ 256 }
    requires named { AreKeyNames 256 names.old.names }
    ensures item { IfOk result (λ i. i ≡ item_of names.new.names (mention item)) }
    ensures names { OnOk result (names.new.names ≡ with_name names.old.names (key_of (mention item))) }
    ensures limit { OnOk result (names.new.limit ≡ 256) }
    ensures named { OnOk result (AreKeyNames 256 names.new.names) }
{
    let number = number_key(alloc, names, item.key())?;
    Ok(match item {
        Item::Read(_) => Item::Read(number),
        Item::Write { key: _, value } => Item::Write { key: number, value },
        Item::Compute { key: _, proc, arg } => Item::Compute {
            key: number,
            proc,
            arg,
        },
        Item::Delete(_) => Item::Delete(number),
    })
}

/// The items with their keys' numbers.
pub fn number_items(alloc: Global, names: &mut Names, items: &[Item]) -> Result<Vec<Item>, NoMemory>
    requires below { Each (λ item. numbers.key_of item < 256) items.now }
    requires limit { names.old.limit ≡ 256 }
    requires named { AreKeyNames 256 names.old.names }
    ensures items { IfOk result (λ v. v.items ≡ map (item_of names.new.names) (map mention items.now)) }
    ensures names { OnOk result (names.new.names ≡ keys_after names.old.names (map mention items.now)) }
    ensures limit { OnOk result (names.new.limit ≡ 256) }
    ensures named { OnOk result (AreKeyNames 256 names.new.names) }
{
    let mut made = Vec::new(alloc);
    'each: for item in items {
        made.push(number_item(alloc, names, *item)?)?;
    }
    Ok(made)
}
