//! What a click does.

ghost use Rattle.std.specs.Prelude.{◌≡◌};
ghost use Rattle.desk_types.specs.Money.{is_escrowed};

use desk_types::{Fate, Placement};

/// What a click on a number does at a moment.
#[derive(Clone, Copy, Debug, PartialEq, Eq)]
pub enum Clicked {
    /// There is no placement of this number.
    Unknown,
    /// It settles: the price of the placement is escrowed.
    Settles,
    /// It changes nothing: the placement was clicked before, or its deadline has come.
    Same,
}

/// Whether the price of a placement is escrowed at a moment, in seconds: it was not clicked, and its deadline is to come.
pub fn is_escrowed(placement: &Placement, moment: u64) -> bool
    ensures { result ≡ is_escrowed moment placement.now }
{
    placement.fate == Fate::Open && moment < placement.deadline
}
