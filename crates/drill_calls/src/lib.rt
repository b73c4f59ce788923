//! The drill: a list of calls that a start and a size determine, made one after another on any service.
//! `drill` makes exactly these calls, each at its moment, each click of the greatest placement that was answered before it.
//! It stands on `desk_types` for calls, answers and services, and on `query_words` for texts.
//! What answers the calls, and the summary of what they left, are left to the crates above.
#![tactic(auto)]

mod account;
mod answer;
mod draws;
mod laws;
mod limits;
mod run;
mod search;
mod texts;

pub use laws::a_drill_has_forty_one_calls_for_each_account;
pub use limits::{SIZE_MAX, START_MAX, drill_limits_are_these};
pub use run::drill;
