//! What a service leaves.

use desk_core::Desk;
use desk_keeper::Keeper;

/// What the workers did, in all.
#[derive(Clone, Copy, Debug, PartialEq, Eq)]
pub struct Totals {
    /// How many sessions they held.
    pub sessions: u64,
    /// How many answers they wrote wholly.
    pub messages: u64,
    /// Whether one of them ended since its door failed.
    pub door_failed: bool,
}

/// A desk that was served, and what the workers did.
#[derive(Drop)]
pub struct ServedDesk<K: Keeper> {
    /// The desk, with the journal of all calls.
    pub desk: Desk<K>,
    /// What the workers did.
    pub totals: Totals,
}
