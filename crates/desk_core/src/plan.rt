//! What an accepted call changes, and what it replies.

use crate::told::Told;
use desk_types::{Change, Fate, Placement};
use query_words::List;

/// What an accepted call changes, and what it replies.
#[derive(Drop)]
pub struct Plan {
    /// The changes.
    pub changes: Changes,
    /// The reply.
    pub told: Told,
}

/// Changes to the rows, in order. None and a fate take no memory.
#[derive(Drop)]
pub enum Changes {
    /// There is none.
    Nothing,
    /// The fate of a placement is set.
    Fate {
        /// The placement's number.
        number: u64,
        /// What became of it.
        fate: Fate,
    },
    /// These placements are put.
    Placed(List<Placement>),
    /// These changes of the catalogue are put.
    Catalogue(List<Change>),
}
