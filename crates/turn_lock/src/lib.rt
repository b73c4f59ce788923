//! A lock round one value that grows a list, which callers enter in turns, in the order of their tickets.
//! Whoever enters finds what it has seen, as a prefix of the list, and of its own items those alone that it put there.
//! It stands on three words and one slot of `atomic_table`, under one rule that each step keeps.
//! What the items are, and that anybody gets on, it leaves to others: it promises no progress, no fairness and no time.
#![tactic(auto)]

mod grows;
mod line;
mod lock;
mod pass;
mod steps;
#[cfg(test)]
mod tests;
mod turn;
mod view;

pub use grows::Grows;
pub use lock::TurnLock;
pub use pass::Pass;
pub use turn::Turn;
