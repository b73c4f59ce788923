//! Tests of the crates below the ledger, by their public calls: lines and ends, texts, patterns, ads, pages and prices.
//! They stand here and not in their crates, since a crate with tests is proved twice.
#![tactic(auto)]

#[cfg(test)]
mod ads;
#[cfg(test)]
mod io;
#[cfg(test)]
mod pages;
#[cfg(test)]
mod patterns;
#[cfg(test)]
mod prices;
#[cfg(test)]
mod texts;
