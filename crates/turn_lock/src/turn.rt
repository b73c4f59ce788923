//! What a caller holds during its turn.
ghost use Rattle.std.specs.Prelude.{◌≡◌, true};
ghost use Rattle.turn_lock.specs.Views.{is_live};

use crate::grows::Grows;
use crate::line::LockSeat;
use std::marker::Model;

/// A caller's turn in a lock, with the value. Contracts see which lock it is, the caller's number, the list that it found and the value now.
/// It has no `Drop`, so that nobody forgets to leave: until then all others wait.
pub struct Turn<V: Grows> {
    number: u64,
    seat: LockSeat<V>,
    value: V,
    ghost live: { is_live seat.me.0 ≡ true },
}

impl<V: Grows> Model for Turn<V> {
    ghost use Rattle.turn_lock.specs.LockValues.{TurnValue, turn_code, turn_value};
    ghost use Rattle.turn_lock.specs.Seats.{IsInside};
    ghost use Rattle.turn_lock.specs.Views.{known_of};

    ghost Value = { TurnValue V V.Item V.Name };

    ghost coded = { turn_code V.code V.Item.code V.Name.code };

    ghost view = { λ t. turn_value t.seat.table_id (known_of t.seat.me.0 t.live) t.value };

    ghost invariant = { λ t. IsInside t.number (known_of t.seat.me.0 t.live) t.seat.me.1 };
}

impl<V: Grows> Turn<V> {
    ghost use Rattle.std.specs.Borrow.{Lends, sem};
    ghost use Rattle.turn_lock.specs.contracts.turn.Turn.{the_row};
    ghost use Rattle.turn_lock.specs.LockValues.{with_value};
    ghost use Rattle.turn_lock.specs.Seats.{Holds, IsTurnOf};

    // The turn of a seat that is in and has taken the value out.
    pub(crate) fn of(number: u64, seat: LockSeat<V>, value: V) -> Turn<V>
        requires { Holds number seat.me }
        ensures { IsTurnOf result seat.table_id seat.me value }
    {
        Turn {
            number,
            seat,
            value,
        }
    }

    pub(crate) fn into_parts(self) -> (LockSeat<V>, V)
        ensures { IsTurnOf self result.0.table_id result.0.me result.1 }
    {
        let Turn {
            number: _,
            seat,
            value,
        } = self;
        (seat, value)
    }

    /// The caller's number.
    pub fn number(&self) -> u64
        ensures { result ≡ self.now.number }
    {
        self.number
    }

    /// The value.
    pub fn value(&self) -> &V
        ensures { result.now ≡ self.now.value }
    {
        &self.value
    }
    /// The value, to be changed. When the borrow ends, the turn has what was written through it.
    pub fn value_mut(&mut self) -> &mut V
        ensures* writes_back { sem 𝓛 (Lends (the_row V.row V.Item.row V.Name.row V.Grows) V.row self.entry result (with_value self.old)) }
        ensures value { result.now ≡ self.old.value }
    {
        &mut self.value
    }
}
