//! The report of a day as an advertiser reads it: a table of text.
//! `write_day` puts the titles, a line for each campaign and the sums, byte for byte, without memory.
//! It stands on `desk_io` for output and on `desk_types` for reports.
//! What a report tells is left to the desk.
#![tactic(auto)]

mod cell;
mod day;
mod line;
mod totals;

pub use day::write_day;
