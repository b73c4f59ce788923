//! The desk: one ledger, asked one call after another, and the journal of its calls.
//! `Desk::open` opens one on the rows that a keeper holds, and `Desk::call` gives the ledger's answer, has the keeper put what
//! changes, and puts the call's entry. `Solo` is a desk that serves one caller.
//! It stands on `desk_types` for the definitions, on `desk_keeper` for the keeper, on `accounts` for the catalogue and its
//! edits, on `placements` for what was shown, on `rank_core` and `gsp_price` for pages and prices.
//! Where calls come from, and how they are read and answered, is left to the crates above.
#![tactic(auto)]

mod asking;
mod click;
mod credit;
mod desk;
mod edit;
mod eligible;
mod journal;
mod ledger;
mod lookup;
mod money;
mod name;
mod open;
mod plan;
mod putting;
mod reports;
mod search;
mod showing;
mod solo;
mod stop;
mod summary;
mod sums;
mod told;

pub use desk::Desk;
pub use name::DeskName;
pub use open::OpenFault;
pub use solo::Solo;
