//! What the lock knows of each caller. No value of these types is made.
use std::collections::LinkedList;

/// Where a caller stands.
pub enum Place {
    /// It has no ticket.
    Away,
    /// It waits with this ticket.
    Waiting(u64),
    /// It is in, with this ticket.
    Inside(u64),
}

/// A number, and the list that it had seen.
pub struct Joined<I> {
    pub number: u64,
    pub seen: LinkedList<I>,
}

/// What a live seat knows.
pub struct Known<I, N> {
    /// Its number.
    pub number: u64,
    pub place: Place,
    /// The list that it has seen.
    pub seen: LinkedList<I>,
    /// The lock's name.
    pub name: N,
    /// It has the highest number so far.
    pub newest: bool,
    /// The numbers and lists of the seats that were joined into it.
    pub joined: LinkedList<Joined<I>>,
}

/// A seat's view.
pub enum View<I, N> {
    Live(Known<I, N>),
    /// It was joined into another.
    Spent,
}
