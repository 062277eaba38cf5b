//! What the columns learn, noted in order.
ghost use Rattle.std.specs.Prelude.{◌≡◌, length, map, IfOk, OnOk};
ghost use Rattle.mk_column.specs.ColumnByCode.{way_of, learning_of_kept};
ghost use Rattle.mk_history.specs.Learning.{path_of as path_named};
ghost use Rattle.mk_run.specs.Firsts.{all_noted, kept_of_learning, kept_by_enter};
ghost use Rattle.mk_run.specs.News.{news_of, all_news, known_of};

use crate::firsts::{FirstLearning, FirstLearnings};
use mk_column::{Column, Learned, Way};
use mk_history::Path;
use mk_trim::Kept;
use mk_txn::NoMemory;
use std::alloc::Global;

// The path that a way of learning names.
fn path_of(way: Way) -> Option<Path>
    ensures { result ≡ path_named (way_of way) }
{
    match way {
        Way::Votes => Some(Path::Fast),
        Way::Accepts => Some(Path::Slow),
        Way::Pick(view) => Some(Path::Takeover(view)),
        Way::Moved(epoch) => Some(Path::Moved(epoch)),
        Way::Telling => None,
        Way::Finishing => None,
    }
}

// What is kept of it.
fn kept(learned: &Learned) -> FirstLearning
    ensures { result ≡ kept_of_learning (learning_of_kept learned.now) }
{
    FirstLearning {
        id: learned.id,
        outcome: learned.outcome,
        path: path_of(learned.way),
    }
}

// What was learned in a column is noted, in order.
fn note_all(firsts: &mut FirstLearnings, learned: &[Learned]) -> Result<(), NoMemory>
    ensures { OnOk result (firsts.new ≡ all_noted (map (λ l. kept_of_learning (learning_of_kept l)) learned.now) firsts.old) }
{
    for one in learned {
        firsts.note(kept(one))?;
    }
    Ok(())
}

// What the column has learned since it had learned so much is noted, in order.
fn note_column(firsts: &mut FirstLearnings, column: &Column, known: usize) -> Result<(), NoMemory>
    ensures { OnOk result (firsts.new ≡ all_noted (news_of column.now known) firsts.old) }
{
    let learned = column.learned();
    if known < learned.len() {
        note_all(firsts, &learned[known..])
    } else {
        Ok(())
    }
}

/// What each column has learned since it had learned so much is noted, column by column.
pub(crate) fn note_columns(
    firsts: &mut FirstLearnings,
    columns: &[Column],
    known: &[usize],
) -> Result<(), NoMemory>
    requires { length known.now ≡ length columns.now }
    ensures { OnOk result (firsts.new ≡ all_noted (all_news columns.now known.now) firsts.old) }
{
    for (place, column) in columns.iter().enumerate() {
        note_column(firsts, column, known[place])?;
    }
    Ok(())
}

// How much the column has learned.
fn count(column: &Column) -> usize
    ensures { result ≡ known_of column.now }
{
    column.learned().len()
}

/// How much each column has learned.
pub(crate) fn counts(alloc: Global, columns: &[Column]) -> Result<Vec<usize>, NoMemory>
    ensures { IfOk result (λ counts. counts.items ≡ map known_of columns.now) }
{
    let mut counts = Vec::new(alloc);
    for column in columns {
        counts.push(count(column))?;
    }
    Ok(counts)
}

/// What the base of this epoch tells is noted, in order.
pub(crate) fn note_base(
    firsts: &mut FirstLearnings,
    epoch: u32,
    kept: &Kept,
) -> Result<(), NoMemory>
    ensures { OnOk result (firsts.new ≡ all_noted (map (kept_by_enter epoch) kept.now.outcomes) firsts.old) }
{
    for fate in kept.list() {
        firsts.note(FirstLearning {
            id: fate.0,
            outcome: fate.1,
            path: Some(Path::Epoch(epoch)),
        })?;
    }
    Ok(())
}
