//! Workers: each takes links from its door, runs a session on each over its own service, and gives it back.
//! `work` says which links passed the door, what each session did, and how it ended; `serve` says so of each of several.
//! It stands on `desk_doors` for doors and on `http_api` for sessions.
//! What answers the calls, and whether services share a history, is left to the crates above.
#![tactic(auto)]

mod limits;
mod serving;
#[cfg(test)]
mod tests;
mod worker;
mod working;

pub use limits::{SESSIONS_MAX, work_limits_are_these};
pub use serving::serve;
pub use worker::{Worker, WorkerEnd};
pub use working::work;
