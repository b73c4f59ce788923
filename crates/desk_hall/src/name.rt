//! The name of a hall.

ghost use Rattle.std.specs.Borrow.{ftrue};
ghost use Rattle.turn_lock.specs.LockValues.{LockId};
ghost use Rattle.desk_core.specs.declared.name.DeskName.{DeskName};

use std::marker::Model;

/// The name of a hall: which lock it has, and the name of the desk that it was made with. It has no bytes, and clauses
/// alone read it.
pub struct HallName {
    /// The lock.
    pub ghost lock: { LockId DeskName },
}

impl Model for HallName {
    ghost Value = { LockId DeskName };

    ghost view = { λ n. n.lock };

    ghost also_owns = { λ _. ftrue };
}
