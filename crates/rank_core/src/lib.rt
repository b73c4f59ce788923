//! The page of an auction: the best ads of the accounts, each with the next below.
//! `Top` keeps the best entrants of the ads offered to it, and `page_of` gives the page of a list: the entrants with the first
//! places, in order, each with the entrant next below it.
//! It stands on `auction_types`, and on `arrayvec` for the bounded list.
//! Which ads compete and what a place costs are left to the crates beside and above.
#![tactic(auto)]

mod page;
mod top;

pub use page::{Ranked, page_of};
pub use top::Top;
