//! The judging of edits.

mod accounts;
mod changed;
mod imports;
pub(crate) mod lines;
mod negatives;
mod owners;
