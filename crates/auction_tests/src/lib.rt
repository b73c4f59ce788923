//! Tests of auctions, by the public call.
//! They stand here and not in `auction_page`, since a crate with tests is proved twice.
#![tactic(auto)]

#[cfg(test)]
mod auctions;
