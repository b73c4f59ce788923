//! Where links come from.

ghost use Rattle.std.specs.Prelude.{◌≤◌};
ghost use Rattle.desk_doors.specs.Accepting.{Comes, IsGivenBack};

use desk_io::Link;

/// What an accept answers.
#[derive(Debug)]
pub enum Came<L> {
    /// The next link.
    Linked(L),
    /// No link waits, and none will.
    Closed,
    /// The accept failed; the count of faults rose.
    Failed,
}

/// Where links wait to be served, and where they are given back. A door may tell both lists, counts its faults and the
/// links that are out, and knows whether it is shut.
pub trait Door {
    ghost use Rattle.std.specs.Prelude.{◌≡◌, true, [], IfSome};
    ghost use Rattle.desk_doors.specs.DoorView.{DoorView};

    /// Its links.
    type L: Link;

    ghost door: { Self → DoorView Self.L };

    /// Takes the next link that waits.
    ///
    /// `Closed` comes only where none waits, and shuts the door. `Failed` comes only where the count of faults rose, and
    /// leaves the links.
    fn accept(&mut self) -> Came<Self::L>
        ensures { Comes (door self.old) result (door self.new) };

    /// Gives back a link, where one is out, as it stands. It takes no memory.
    fn give_back(&mut self, link: Self::L)
        requires out { 1 ≤ (door self.old).out }
        ensures given { IsGivenBack (door self.old) link (door self.new) };

    // at a door that is shut nothing waits
    ghost shut_is_empty: { (d : Self) → (door d).shut ≡ true → IfSome (door d).waiting (λ links. links ≡ []) };
}
