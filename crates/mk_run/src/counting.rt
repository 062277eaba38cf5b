//! How many attempts were learned to commit, to abort, and not at all.
ghost use Rattle.std.specs.Prelude.{◌≡◌, ◌+◌, ◌<◌, ◌≤◌, ◌^◌, length, IsSome, option_copied};
ghost use Rattle.mk_model.specs.ColumnState.{attempt_of, client_of};
ghost use Rattle.mk_run.specs.Attempts.{tally_of};
ghost use Rattle.mk_run.specs.Counting.{total_of, counted, counted_where, plus_lines};
ghost use Rattle.mk_run.specs.Firsts.{first_in};
ghost use Rattle.mk_run.specs.Lines.{lines_of_client, lines_of_views, view_at};

use crate::Tally;
use crate::firsts::{FirstLearning, FirstLearnings};
use mk_column::Column;
use mk_txn::{Outcome, TxnId};

impl Tally {
    // One attempt more, of which this was learned first.
    fn count(&mut self, first: Option<&FirstLearning>)
        requires { total_of self.old < 2 ^ 63 }
        ensures { self.new ≡ counted (option_copied first.entry) self.old }
    {
        match first {
            Some(first) => match first.outcome {
                Outcome::Commit => self.commits += 1,
                Outcome::Abort(_) => self.aborts += 1,
            },
            None => self.opens += 1,
        }
    }

    // One attempt more, where the column has it.
    fn count_at(&mut self, column: &Column, firsts: &FirstLearnings, id: TxnId)
        requires { total_of self.old < 2 ^ 63 }
        ensures { self.new ≡ counted_where (attempt_of column.now.state id) (first_in id firsts.now) self.old }
    {
        if column.attempt(id).is_some() {
            self.count(firsts.find(id));
        }
    }

    // The attempts of the client more.
    fn count_client(&mut self, column: &Column, firsts: &FirstLearnings, client: u32)
        requires few { total_of self.old ≤ 2 ^ 62 }
        requires there { IsSome (client_of column.now.state client) }
        ensures counted { self.new ≡ plus_lines self.old (lines_of_client firsts.now column.now client) }
        ensures few { total_of self.new ≤ total_of self.old + 2 ^ 32 }
    {
        for seq in 1..column.next_seq(client) {
            self.count_at(column, firsts, TxnId { client, seq });
        }
    }

    // The attempts of the client more, where its column has this number.
    fn count_client_at(
        &mut self,
        columns: &[Column],
        number: u32,
        firsts: &FirstLearnings,
        client: u32,
    )
        requires { total_of self.old ≤ 2 ^ 62 }
        ensures counted { self.new ≡ plus_lines self.old (lines_of_client firsts.now (view_at columns.now number) client) }
        ensures few { total_of self.new ≤ total_of self.old + 2 ^ 32 }
    {
        let Some(column) = columns.get(number as usize) else {
            return;
        };
        if column.has_client(client) {
            self.count_client(column, firsts, client);
        }
    }
}

/// The attempts of all clients, where these are the numbers of the clients' columns.
pub(crate) fn tally(columns: &[Column], client_columns: &[u32], firsts: &FirstLearnings) -> Tally
    requires { length client_columns.now ≤ 64 }
    ensures { result ≡ tally_of (lines_of_views firsts.now columns.now 1 client_columns.now) }
{
    let mut tally = Tally {
        commits: 0,
        aborts: 0,
        opens: 0,
    };
    for (place, number) in client_columns.iter().enumerate() {
        tally.count_client_at(columns, *number, firsts, place as u32 + 1);
    }
    tally
}
