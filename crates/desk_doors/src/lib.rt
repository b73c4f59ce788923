//! Doors: where links come from, one after another, and where they are given back.
//! A door tells the links that wait and those that were given back, or neither, and counts the accepts that failed.
//! It stands on `desk_io` for links.
//! Who serves a link, and how, is left to the crates above.
#![tactic(auto)]

mod door;
mod limits;
mod mem_door;
mod sharing;
mod tcp_door;
mod tcp_link;

pub use door::{Came, Door};
pub use limits::{ACCEPT_TRIES_MAX, READ_SECONDS_MAX, WRITE_SECONDS_MAX, door_limits_are_these};
pub use mem_door::MemDoor;
pub use sharing::doors_may_move;
pub use tcp_door::TcpDoor;
pub use tcp_link::TcpLink;

#[cfg(test)]
mod tests;
