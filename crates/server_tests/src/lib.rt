//! Tests of a desk that several workers serve, by the public calls.
//! They stand here and not in their crate, since a crate with tests is proved twice.
#![tactic(auto)]

#[cfg(test)]
mod doors;
#[cfg(test)]
mod meeting;
#[cfg(test)]
mod overlap;
#[cfg(test)]
mod serving;
