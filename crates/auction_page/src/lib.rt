//! Auctions without a desk: an auction is read from an input, and its page is written: the best ads at the least prices
//! that keep their places. The page is that of `rank_core`, the prices are those of `gsp_price`.
#![tactic(auto)]

mod auction;
mod fault;
mod form;
mod heading;
mod limits;
mod page;
mod parts;
mod reading;
mod serve;

pub use limits::{ADS_MAX, FREE_MAX, NUMBER_MAX, auction_limits_are_these};
pub use serve::serve_auction;
