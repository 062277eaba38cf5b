//! What the runs of a script say before their rounds.
ghost use Rattle.std.specs.Prelude.{◌≡◌, ◌≤◌, [], map, IfOk, OnOk};
ghost use Rattle.mk_names.specs.NameLists.{with_name};
ghost use Rattle.mk_history.specs.Shape.{columns_of};
ghost use Rattle.mk_kept.specs.Heads.{history, HasLimits};
ghost use Rattle.mk_script.specs.Scripts.{names_of};
ghost use Rattle.mk_script.specs.Whole.{Prefixed, IsClientBehind};
ghost use Rattle.mk_round.specs.Pasts.{run_of};

use mk_kept::{ColumnNumbers, Head};
use mk_names::Names;
use mk_quorum::Size;
use mk_script::{ClientLine, Script};
use mk_txn::NoMemory;
use std::alloc::Global;

// The column of each client.
fn columns_by_client(alloc: Global, clients: &[ClientLine]) -> Result<Vec<u32>, NoMemory>
    ensures { IfOk result (λ columns. columns.items ≡ map (λ line. line.column) clients.now) }
{
    let mut columns = Vec::new(alloc);
    for line in clients {
        columns.push(line.column)?;
    }
    Ok(columns)
}

// How many columns there are: one more than the greatest.
fn count_columns(columns: &[u32]) -> u32
    requires { columns_of columns.now ≤ 8 }
    ensures { result ≡ columns_of columns.now }
{
    let mut count = 0;
    for column in columns {
        count = count.max(*column + 1);
    }
    count
}

// A name that stands in a script is well formed, and these are few; so where it gets no number there is no memory.
fn put_name(names: &mut Names, name: &str) -> Result<(), NoMemory>
    ensures { OnOk result (names.new ≡ record names.old { names = with_name names.old.names name.now }) }
{
    match names.intern(name) {
        Ok(_) => Ok(()),
        Err(_) => Err(NoMemory),
    }
}

// The names of the clients.
fn client_names(alloc: Global, size: Size, clients: &[ClientLine]) -> Result<Names, NoMemory>
    requires { Prefixed (IsClientBehind size) [] clients.now }
    ensures { IfOk result (λ names. names ≡ record { names = names_of clients.now; limit = 64 }) }
{
    let mut names = Names::with_limit(alloc, 64);
    for line in clients {
        put_name(&mut names, line.name.as_str())?;
    }
    Ok(names)
}

// The names of the keys, of which there may be 256.
fn key_names(alloc: Global, keys: &Names) -> Result<Names, NoMemory>
    ensures { IfOk result (λ names. names ≡ record { names = keys.now.names; limit = 256 }) }
{
    let mut names = Names::with_limit(alloc, 256);
    for number in 0..keys.len() {
        let name = keys.name(number).unwrap();
        put_name(&mut names, name)?;
    }
    Ok(names)
}

/// The head of the script's runs.
pub fn head_of(alloc: Global, script: &Script) -> Result<Head, NoMemory>
    ensures run { IfOk result (λ head. history head [] ≡ run_of script.now []) }
    ensures limits { IfOk result HasLimits }
{
    let clients = script.clients.as_slice();
    let columns = columns_by_client(alloc, clients)?;
    Ok(Head {
        version: script.version,
        size: script.size,
        columns: count_columns(columns.as_slice()),
        client_columns: ColumnNumbers::of(columns),
        client_names: client_names(alloc, script.size, clients)?,
        key_names: key_names(alloc, &script.keys)?,
    })
}
