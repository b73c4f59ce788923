//! Tests of a hall and its callers, by their public calls, in one thread and in eight.
//! They stand here and not in their crate, since a crate with tests is proved twice.
#![tactic(auto)]

#[cfg(test)]
mod calling;
#[cfg(test)]
mod in_turn;
#[cfg(test)]
mod on_threads;
