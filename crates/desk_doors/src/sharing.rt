//! Doors may be moved into threads.

use crate::{Door, MemDoor, TcpDoor};

// A door that may be moved into a thread.
fn may_move<D: Door + Send>(_door: &D) {}

/// A law, with nothing to do: doors in memory and doors over TCP may be moved into threads.
pub fn doors_may_move(in_memory: &MemDoor, over_tcp: &TcpDoor<'_>) {
    may_move(in_memory);
    may_move(over_tcp);
}
