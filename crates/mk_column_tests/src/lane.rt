//! A column of three replicas, and texts of moves that it goes through.
use crate::steps::step_of;
use mk_column::{Column, ColumnError, Phase, ReplicaView};
use mk_merge::{Base, Keeping};
use mk_quorum::Size;
use mk_trim::Kept;
use mk_txn::{Marks, Outcome, Stamp, Txn, TxnId, Value, WriteItem};
use mk_words::Fated;
use std::alloc::Global;
use std::test::*;

/// The first attempt of client 1.
pub(crate) const ID: TxnId = TxnId { client: 1, seq: 1 };

const TEN: Stamp = Stamp {
    time: 10,
    client: 1,
};

const WRITE: WriteItem = WriteItem {
    key: 0,
    value: Value::Number(5),
};

// The fates of a base that holds the attempt with a commit.
fn known(alloc: Global) -> Result<Kept, Fail> {
    let txn = Txn::new(alloc, ID, TEN, &[], &[WRITE])?;
    let outcome = Outcome::Commit;
    let mut list = Vec::new(alloc);
    list.push(Fated { txn, outcome })?;
    let base = Base::of(alloc, list)?;
    Ok(base.fates().copy()?)
}

// The fates of a base whose marks cover the attempt.
fn covered(alloc: Global) -> Result<Kept, Fail> {
    let mut marks = Marks::new(alloc);
    marks.raise(1, 1)?;
    let mut fates = Kept::new(alloc);
    fates.cover(&marks)?;
    Ok(fates)
}

// How a column sees a replica. One that knows or covers serves epoch 1.
fn view_of(alloc: Global, word: &str) -> Result<ReplicaView, Fail> {
    let (phase, epoch, fates) = match word {
        "serves" => (Phase::Serving, 0, Kept::new(alloc)),
        "paused" => (Phase::Paused, 0, Kept::new(alloc)),
        "adopted" => (Phase::Adopted, 0, Kept::new(alloc)),
        "knows" => (Phase::Serving, 1, known(alloc)?),
        "covers" => (Phase::Serving, 1, covered(alloc)?),
        _ => (Phase::Lacking, 0, Kept::new(alloc)),
    };
    Ok(ReplicaView {
        phase,
        epoch,
        fates,
    })
}

/// The next round begins, in which the replicas are seen so.
pub(crate) fn round(alloc: Global, column: &mut Column, sights: &str) -> Result<(), Fail> {
    let mut views = Vec::new(alloc);
    for word in sights.split_ascii_whitespace() {
        views.push(view_of(alloc, word)?)?;
    }
    if column.wants().is_some() || views.len() != column.size().n() as usize {
        return Err(Fail::new("no round can begin"));
    }
    column.begin_round(views);
    Ok(())
}

/// A column of client 1 over so many keys in its first round.
pub(crate) fn column_of(
    alloc: Global,
    keys: u32,
    version: u32,
    sights: &str,
) -> Result<Box<Column>, Fail> {
    let size = Size::new(1).ok_or("a size")?;
    let column = Column::new(alloc, size, 0, &[1], keys, version)?;
    let mut column = Box::new(alloc, column)?;
    round(alloc, &mut column, sights)?;
    Ok(column)
}

/// A column of client 1 over keys 0 and 1, whose three replicas serve epoch 0.
pub(crate) fn fresh(alloc: Global) -> Result<Box<Column>, Fail> {
    column_of(alloc, 2, 1, "serves serves serves")
}

// Whether the line's move is done; where a number stands before it, whether that condition refuses it.
fn goes(alloc: Global, column: &mut Column, id: TxnId, line: &str) -> bool {
    let mut words = line.split_ascii_whitespace();
    let Some(mut word) = words.next() else {
        return true;
    };
    let number = word.parse().ok();
    if number.is_some() {
        word = words.next().unwrap_or("");
    }
    let Some(step) = step_of(alloc, id, word, &mut words) else {
        return false;
    };
    let blocked = column.blocked(&step);
    let error = column.step(step).err();
    blocked == number && error == number.map(ColumnError::NotEnabled)
}

/// The moves of the text, a line each, of the client's attempt of this place. A number before a move is that of the
/// condition that refuses it.
pub(crate) fn play(alloc: Global, column: &mut Column, seq: u32, text: &str) -> Result<(), Fail> {
    let id = TxnId { client: 1, seq };
    for line in text.lines() {
        if !goes(alloc, column, id, line) {
            return Err(Fail::new(line));
        }
    }
    Ok(())
}

/// What the own coordinator of the first attempt learned.
pub(crate) fn learned(column: &Column) -> Option<Outcome> {
    column.attempt(ID)?.learned
}

/// Whether a commit is what the own coordinator of the first attempt learned, and what was decided of it.
pub(crate) fn commits(column: &Column) -> bool {
    learned(column) == Some(Outcome::Commit) && is_committed(column)
}

/// Whether a commit was decided of the first attempt.
pub(crate) fn is_committed(column: &Column) -> bool {
    column.decided(ID) == Some(Outcome::Commit)
}
