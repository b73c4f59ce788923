//! Tests of sessions of HTTP on a desk, by the public calls.
//! They stand here and not in their crates, since a crate with tests is proved twice.
#![tactic(auto)]

#[cfg(test)]
mod ends;
#[cfg(test)]
mod files;
#[cfg(test)]
mod judgements;
#[cfg(test)]
mod requests;
#[cfg(test)]
mod served;
