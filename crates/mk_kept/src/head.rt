//! What a run says before its rounds.
ghost use Rattle.std.specs.Prelude.{◌≡◌, IfOk};

use mk_history::ColumnNumbers;
use mk_names::Names;
use mk_quorum::Size;
use mk_txn::NoMemory;

/// The version and the size, how many columns there are, the column of each client, and the names of clients and keys.
#[derive(Drop)]
pub struct Head {
    pub version: u32,
    pub size: Size,
    pub columns: u32,
    pub client_columns: ColumnNumbers,
    pub client_names: Names,
    pub key_names: Names,
}

impl Head {
    pub fn copy(&self) -> Result<Head, NoMemory>
        ensures { IfOk result (λ head. head ≡ self.now) }
    {
        Ok(Head {
            version: self.version,
            size: self.size,
            columns: self.columns,
            client_columns: self.client_columns.copy()?,
            client_names: self.client_names.copy()?,
            key_names: self.key_names.copy()?,
        })
    }
}
