//! The types of the subject, the definitions of the ledger, and `Service`.
//! `ledger_laws` says what holds of every history, and the contract of `Service` that each call has the ledger's answer.
//! The rules that rows keep, and how they are put by their keys, are said here once for all crates above.
//! It stands on `auction_types` for ads, pages and prices, on `query_words` and `match_types` for texts, words and patterns,
//! and on `arrayvec` for links.
//! Ranking, pricing, the rows of a desk and keeping them are left to the crates above.
#![tactic(auto)]

mod call;
mod day;
mod entry;
mod fields;
pub mod keyed;
pub mod ledger_laws;
pub mod limits;
mod link;
mod refusal;
mod reply;
mod rows;
mod service;
mod settings;
mod summary;
mod tables;

pub use call::{Call, ImportRow, Part};
pub use day::day_of;
pub use entry::{Entry, Fault, Outcome};
pub use fields::{is_headline, is_key};
pub use link::LinkText;
pub use refusal::{Detail, Field, Refusal};
pub use reply::{CampaignDay, DayReport, HostDay, Reply, ShownFate, ShownRow, Spot};
pub use rows::{Account, Batch, BudgetSet, Campaign, Fate, Line, Negative, Placement};
pub use service::Service;
pub use settings::Settings;
pub use summary::Summary;
pub use tables::{BadTables, Change, Tables};
