//! What holds the rows of a desk.

ghost use Rattle.std.specs.Prelude.{◌≡◌};
ghost use Rattle.desk_keeper.specs.Keeping.{Applies, Loads};

use desk_types::{Change, Tables};

/// Why a keeper did not do what it was asked.
#[derive(Clone, Copy, Debug, PartialEq, Eq)]
pub enum KeeperFault {
    /// It failed, and its count of faults rose.
    Failed,
    /// Memory was wanted.
    NoMemory,
}

/// Holds the rows of a desk.
///
/// Contracts see its tables, where it tells them, its count of faults, whether setting one fate takes no memory, and
/// whether it never fails. No call lowers the count or changes the last two.
pub trait Keeper {
    ghost use Rattle.desk_keeper.specs.KeeperView.{KeeperView};

    /// What it holds, and how often it failed.
    ghost keeper: { Self → KeeperView };

    /// The tables that it holds. They stay as they are.
    ///
    /// `KeeperFault::Failed` comes only where its count rose, and never of a keeper that is sure.
    fn load(&mut self) -> Result<Tables, KeeperFault>
        ensures loads { Loads (keeper self.old) result (keeper self.new) };

    /// Puts the changes in order, all of them, or none where it does not answer `Ok`.
    ///
    /// `KeeperFault::Failed` comes only where its count rose, and never of a keeper that is sure. Where setting a fate
    /// takes no memory, a list of one fate is never answered `KeeperFault::NoMemory`.
    fn apply(&mut self, changes: &[Change]) -> Result<(), KeeperFault>
        ensures applies { Applies (keeper self.old) changes.now result (keeper self.new) };

    /// How often it failed, as far as 64 bits count.
    fn faults(&self) -> u64
        ensures { result ≡ (keeper self.now).faults };
}
