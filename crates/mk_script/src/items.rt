//! The items of a transaction as words.
ghost use Rattle.std.specs.Prelude.{◌≡◌};
ghost use Rattle.mk_spelling.specs.Words as text;
ghost use Rattle.mk_spelling.specs.Words.{seen_one};
ghost use Rattle.mk_spelling.specs.Fields.{found, named};
ghost use Rattle.mk_spelling.specs.declared.fault.TextFault.TheVariants.{Unknown};
ghost use Rattle.mk_script.specs.Seen.{seen_shape, seen_named, counted};
ghost use Rattle.mk_script.specs.LineWords as texts;
ghost use Rattle.mk_script.specs.ItemShapes as spec;

use mk_proc::ProcKind;
use mk_text::{TextFault, cut, is_name, need, next_word, number};

/// The parts of an item's word.
#[derive(Clone, Copy)]
pub enum ItemShape<'a> {
    Read(&'a [u8]),
    Write(&'a [u8], &'a [u8]),
    Compute(&'a [u8], &'a [u8], &'a [u8]),
    Delete(&'a [u8]),
}

/// An item with its key's name.
#[derive(Clone, Copy)]
pub enum Named<'a> {
    Read(&'a [u8]),
    Write(&'a [u8], u64),
    Compute(&'a [u8], ProcKind, u64),
    Delete(&'a [u8]),
}

fn procedure(word: &[u8]) -> Result<ProcKind, TextFault>
    ensures { result ≡ found Unknown (named texts.proc_text texts.proc_list word.now) }
{
    match word {
        b"add" => Ok(ProcKind::Add),
        b"sum" => Ok(ProcKind::Sum),
        b"max" => Ok(ProcKind::Max),
        _ => Err(TextFault::Unknown),
    }
}

/// What stands before the bracket at the end.
fn closed(bytes: &[u8]) -> Option<&[u8]>
    ensures { seen_one result ≡ spec.closed bytes.now }
{
    match bytes {
        [front @ .., b')'] => Some(front),
        _ => None,
    }
}

fn call_shape(rest: &[u8]) -> Option<ItemShape<'_>>
    ensures { seen_shape result ≡ spec.compute_shape (text.cut 61 rest.now) }
{
    let (key, call) = cut(b'=', rest)?;
    let (procedure, argument) = cut(b'(', call)?;
    let argument = closed(argument)?;
    Some(ItemShape::Compute(key, procedure, argument))
}

fn write_shape(rest: &[u8]) -> Option<ItemShape<'_>>
    ensures { seen_shape result ≡ spec.write_shape (text.cut 61 rest.now) }
{
    let (key, value) = cut(b'=', rest)?;
    Some(ItemShape::Write(key, value))
}

/// The parts of an item.
fn shape(word: &[u8]) -> Option<ItemShape<'_>>
    ensures { seen_shape result ≡ spec.shape word.now }
{
    match word {
        [b'r', b':', key @ ..] => Some(ItemShape::Read(key)),
        [b'w', b':', rest @ ..] => write_shape(rest),
        [b'c', b':', rest @ ..] => call_shape(rest),
        [b'd', b':', key @ ..] => Some(ItemShape::Delete(key)),
        _ => None,
    }
}

/// Whether an item has this form in the version.
fn fits_version(version: u32, shape: Option<ItemShape<'_>>) -> bool
    ensures { result ≡ spec.fits_version version (seen_shape shape.entry) }
{
    match shape {
        None => false,
        Some(ItemShape::Delete(_)) => version == 2,
        Some(_) => true,
    }
}

/// The item that the word is.
pub fn mention(word: &[u8]) -> Result<Named<'_>, TextFault>
    ensures { seen_named result ≡ spec.mention_of (spec.shape word.now) }
{
    match shape(word).ok_or(TextFault::Form)? {
        ItemShape::Read(key) => {
            need(is_name(key), TextFault::Name)?;
            Ok(Named::Read(key))
        }
        ItemShape::Write(key, value) => {
            let value = number(value, 0, u64::MAX)?;
            need(is_name(key), TextFault::Name)?;
            Ok(Named::Write(key, value))
        }
        ItemShape::Compute(key, procedure_word, value) => {
            let value = number(value, 0, u64::MAX)?;
            need(is_name(key), TextFault::Name)?;
            Ok(Named::Compute(key, procedure(procedure_word)?, value))
        }
        ItemShape::Delete(key) => {
            need(is_name(key), TextFault::Name)?;
            Ok(Named::Delete(key))
        }
    }
}

/// Whether each word of the text has an item's form.
pub fn are_items(version: u32, items: &[u8]) -> bool
    ensures { result ≡ spec.are_items version (text.words items.now) }
{
    let mut left = Some(items);
    while let Some(behind) = left {
        let (word, rest) = next_word(behind);
        if !fits_version(version, shape(word)) {
            return false;
        }
        left = rest;
    }
    true
}

/// How many items the text has, and 17 where it has more.
pub fn count_items(items: &[u8]) -> Result<usize, TextFault>
    ensures { result ≡ counted (spec.mentions_of (text.words items.now)) }
{
    let mut n: usize = 0;
    let mut left = Some(items);
    while let Some(behind) = left {
        let (word, rest) = next_word(behind);
        mention(word)?;
        n = (n + 1).min(17);
        left = rest;
    }
    Ok(n)
}
