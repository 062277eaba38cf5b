// The right of one caller to use a lock.
ghost use Rattle.std.specs.Prelude.{◌≡◌, []};

use crate::journal::Journal;
use crate::view::View;
use std::marker::Model;

pub(crate) type Token = atomic_table::Seat<Journal, View>;

/// The right of one caller to use a lock. A contract sees which lock it is, the seat's number, and the list of its own
/// entries in that lock's journal.
pub struct Seat {
    pub(crate) number: u32,
    pub(crate) token: Token,
}

// Written out, so that a crate above proves one call, and not the drop of each part.
impl Drop for Seat {
    fn drop(self) {
        let Seat {
            number: _,
            token: _token,
        } = self;
    }
}

impl Model for Seat {
    ghost use Rattle.std.specs.Prelude.{◌≡◌};
    ghost use Rattle.mk_lock.specs.Seats.{SeatView, first_entries, resting};

    ghost Value = { SeatView };

    ghost view = { λ s. record { lock = s.token.table_id; number = s.number; entries = first_entries s.token.me.0 } };

    ghost invariant = { λ s. s.token.me ≡ resting s.number (first_entries s.token.me.0) };
}

impl Seat {
    ghost use Rattle.mk_lock.specs.Seats.{resting, seat_view};

    /// Its number, which each of its entries has. The seats of a lock are numbered from 0.
    pub fn number(&self) -> u32
        ensures { result ≡ self.now.number }
    {
        self.number
    }

    pub(crate) fn of(number: u32, token: Token) -> Seat
        requires { token.me ≡ resting number [] }
        ensures { result ≡ seat_view token.table_id number [] }
    {
        Seat { number, token }
    }

    pub(crate) fn into_token(self) -> Token
        ensures { (result.table_id ≡ self.lock) × (result.me ≡ resting self.number self.entries) }
    {
        let Seat { number: _, token } = self;
        token
    }
}
