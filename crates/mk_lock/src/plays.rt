// The rule of the lock's table, and what its steps tell.
use crate::journal::Journal;
use crate::view::{Origin, View};
use atomic_table::{Join, Play, Split, TableRule};

pub struct Turns;

impl TableRule<Journal, View, Origin> for Turns {
    ghost use Rattle.mk_lock.specs.Turns.{IsKept, begins};

    ghost holds = { λ key s. IsKept key s };

    ghost first = { begins };
}

// Draws a ticket.
pub(crate) struct Draw;

impl Play<Journal, View> for Draw {
    ghost use Rattle.mk_lock.specs.Turns.{Drawn};

    ghost then = { Drawn };
}

// Looks whether the ticket is served.
pub(crate) struct Await;

impl Play<Journal, View> for Await {
    ghost use Rattle.mk_lock.specs.Turns.{Awaited};

    ghost then = { Awaited };
}

// Ends the turn.
pub(crate) struct End;

impl Play<Journal, View> for End {
    ghost use Rattle.mk_lock.specs.Turns.{Ended};

    ghost then = { Ended };
}

// Counts one sleeper more or less, of which no seat knows.
pub(crate) struct Count;

impl Play<Journal, View> for Count {
    ghost use Rattle.mk_lock.specs.Turns.{Counted};

    ghost then = { Counted };
}

// Gives away the first number.
pub(crate) struct Deal;

impl Split<View> for Deal {
    ghost use Rattle.mk_lock.specs.Turns.{first_seat, other_seats};

    ghost left = { other_seats };

    ghost right = { first_seat };
}

// Takes in the numbers of another seat.
pub(crate) struct Gather;

impl Join<View> for Gather {
    ghost use Rattle.mk_lock.specs.Turns.{both_seats, spent};

    ghost both = { both_seats };

    ghost spent = { spent };
}
