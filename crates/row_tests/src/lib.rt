//! Tests of the ledger's types, of the rules of tables, of the book of accounts and of placements, by their public calls.
//! They stand here and not in their crates, since a crate with tests is proved twice.
#![tactic(auto)]

#[cfg(test)]
mod books;
#[cfg(test)]
mod fates;
#[cfg(test)]
mod rules;
#[cfg(test)]
mod types;
