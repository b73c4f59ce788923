//! What a caller holds between its turns.
ghost use Rattle.std.specs.Prelude.{◌≡◌, true};
ghost use Rattle.turn_lock.specs.Views.{is_live};

use crate::grows::Grows;
use crate::line::LockSeat;
use std::marker::Model;

/// A caller's right to enter one lock. Contracts see which lock it is of, the caller's number and the list that it has seen.
/// Keep it: a lock is closed with all its passes.
#[derive(Drop)]
pub struct Pass<V: Grows> {
    number: u64,
    seat: LockSeat<V>,
    ghost live: { is_live seat.me.0 ≡ true },
}

impl<V: Grows> Model for Pass<V> {
    ghost use Rattle.turn_lock.specs.LockValues.{PassValue, pass_code, pass_value};
    ghost use Rattle.turn_lock.specs.Seats.{IsAway};
    ghost use Rattle.turn_lock.specs.Views.{known_of};

    ghost Value = { PassValue V.Item V.Name };

    ghost coded = { pass_code V.Item.code V.Name.code };

    ghost view = { λ p. pass_value p.seat.table_id (known_of p.seat.me.0 p.live) };

    ghost invariant = { λ p. IsAway p.number (known_of p.seat.me.0 p.live) p.seat.me.1 };
}

impl<V: Grows> Pass<V> {
    ghost use Rattle.turn_lock.specs.Seats.{Rests, IsPassOf};

    /// The caller's number, from 1 to the number of callers.
    pub fn number(&self) -> u64
        ensures { result ≡ self.now.number }
    {
        self.number
    }

    // The pass of a seat that is away.
    pub(crate) fn of(number: u64, seat: LockSeat<V>) -> Pass<V>
        requires { Rests number seat.me }
        ensures { IsPassOf result seat.table_id seat.me }
    {
        Pass { number, seat }
    }

    pub(crate) fn into_seat(self) -> LockSeat<V>
        ensures { IsPassOf self result.table_id result.me }
    {
        let Pass { number: _, seat } = self;
        seat
    }
}
