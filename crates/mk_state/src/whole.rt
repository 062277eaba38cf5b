//! The columns, the cells and the epochs, as the rounds so far left them.
ghost use Rattle.std.specs.Prelude.{◌≡◌, ◌≤◌, [], List, length, map, IfOk, OnOk};
ghost use Rattle.mk_quorum.specs.Sizes.{members};
ghost use Rattle.mk_model.specs.EpochState.{EpochState, views_of};
ghost use Rattle.mk_epoch.specs.Standing.{StandsFor};
ghost use Rattle.mk_history.specs.Histories.{History};
ghost use Rattle.mk_history.specs.Wholes.{WholeState, first_state};
ghost use Rattle.mk_history.specs.declared.RoundLog.{RoundLog as Round};
ghost use Rattle.mk_kept.specs.Heads.{history};
ghost use Rattle.mk_state.specs.Beginning.{column_begun};
ghost use Rattle.mk_state.specs.Cells.{states_of};
ghost use Rattle.mk_state.specs.Standings.{IsAt, IsBegun};

use crate::beginning::begin_columns;
use crate::starting::{all_cells, first_columns};
use mk_cell::Cell;
use mk_column::Column;
use mk_epoch::Replicas;
use mk_kept::Head;
use mk_merge::Keeping;
use mk_quorum::Size;
use mk_trim::ReplicaView;
use mk_txn::NoMemory;
use std::alloc::Global;
use std::marker::Model;

/// The columns, the cells and the epochs, with bases that are kept as `K`.
#[derive(Drop)]
pub struct Whole<K> {
    alloc: Global,
    pub(crate) size: Size,
    pub(crate) keys: u32,
    pub(crate) columns: Vec<Column>,
    // by replica and key
    pub(crate) cells: Vec<Vec<Cell>>,
    pub(crate) replicas: Replicas<K>,
}

impl<K> Model for Whole<K> {
    ghost use Rattle.std.specs.Prelude.{map};
    ghost use Rattle.mk_state.specs.Cells.{states_of};
    ghost use Rattle.mk_state.specs.Standings.{WholeView};

    ghost Value = { WholeView K };

    ghost view = { λ w. record { faults = w.size; keys = w.keys; columns = w.columns.items; cells = map (λ row. states_of row.items) w.cells.items; epochs = w.replicas } };
}

// What columns see of the replicas.
fn views<K: Keeping>(
    alloc: Global,
    size: Size,
    replicas: &Replicas<K>,
) -> Result<Vec<ReplicaView>, NoMemory>
    requires { replicas.now.faults ≡ size }
    ensures { IfOk result (λ views. (state : EpochState) → StandsFor K.stands replicas.now state → length state.replicas ≡ members size → views.items ≡ views_of state) }
{
    let mut views = Vec::new(alloc);
    for replica in 0..size.n() {
        let fates = replicas.base(replica).fates().copy()?;
        views.push(ReplicaView {
            phase: replicas.phase(replica),
            epoch: replicas.adopted(replica),
            fates,
        })?;
    }
    Ok(views)
}

impl<K: Keeping> Whole<K> {
    /// What there is before the first round of the head's runs, which have at most 64 clients.
    pub fn new(alloc: Global, head: &Head) -> Result<Whole<K>, NoMemory>
        requires { length head.now.client_columns ≤ 64 }
        ensures { IfOk result (λ whole. (rounds : List Round) → IsAt K.stands (history head.now rounds) whole (first_state (history head.now rounds))) }
    {
        let keys = head.key_names.len();
        Ok(Whole {
            alloc,
            size: head.size,
            keys,
            columns: first_columns(
                alloc,
                head.size,
                head.columns,
                head.client_columns.as_slice(),
                keys,
                head.version,
            )?,
            cells: all_cells(alloc, head.size.n(), keys)?,
            replicas: Replicas::new(alloc, head.size)?,
        })
    }

    /// How many replicas there are.
    pub fn size(&self) -> Size
        ensures { result ≡ self.now.faults }
    {
        self.size
    }

    /// How many keys there are.
    pub fn keys(&self) -> u32
        ensures { result ≡ self.now.keys }
    {
        self.keys
    }

    /// The columns, by number.
    pub fn columns(&self) -> &[Column]
        ensures { result.now ≡ self.now.columns }
    {
        self.columns.as_slice()
    }

    /// The cells, by replica and key.
    pub fn cells(&self) -> &[Vec<Cell>]
        ensures { map (λ row. states_of row.items) result.now ≡ self.now.cells }
    {
        self.cells.as_slice()
    }

    /// The epochs.
    pub fn replicas(&self) -> &Replicas<K>
        ensures { result.now ≡ self.now.epochs }
    {
        &self.replicas
    }

    /// Where memory is taken from.
    pub fn allocator(&self) -> Global {
        self.alloc
    }

    /// Hands out the columns, by number, and the cells, by replica and key, for the work of a round. None are left.
    pub fn take_work(&mut self) -> (Vec<Column>, Vec<Vec<Cell>>)
        ensures columns { result.0.items ≡ self.old.columns }
        ensures cells { map (λ row. states_of row.items) result.1.items ≡ self.old.cells }
        ensures rest { self.new ≡ record self.old { columns = []; cells = [] } }
    {
        let columns = std::mem::replace(&mut self.columns, Vec::new(self.alloc));
        let cells = std::mem::replace(&mut self.cells, Vec::new(self.alloc));
        (columns, cells)
    }

    /// Takes back columns and cells.
    pub fn put_work(&mut self, columns: Vec<Column>, cells: Vec<Vec<Cell>>)
        ensures { self.new ≡ record self.old { columns = columns.items; cells = map (λ row. states_of row.items) cells.items } }
    {
        self.columns = columns;
        self.cells = cells;
    }

    /// A round begins in each column: it sees the replicas as they are, what still read is over, and its log is empty.
    pub fn begin_round(&mut self) -> Result<(), NoMemory>
        requires { (run : History) × (state : WholeState) × IsAt K.stands run self.old state }
        ensures begun { OnOk result ((run : History) (state : WholeState) → IsAt K.stands run self.old state → IsBegun K.stands run self.new state) }
        ensures after { OnOk result ((run : History) (state : WholeState) → IsAt K.stands run self.old state → self.new ≡ record self.old { columns = map (column_begun (views_of state.epochs)) self.old.columns }) }
    {
        let views = views(self.alloc, self.size, &self.replicas)?;
        begin_columns(self.alloc, &mut self.columns, views.as_slice())
    }
}
