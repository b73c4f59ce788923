//! The rows of a desk but its placements: accounts, campaigns, budgets, lines, negatives and batches, and their edits.
//! `Book::judge` gives the changes and the reply of an edit, or its first refusal, as the ledger does, `Book::make_room` takes
//! the memory for them, and `Book::commit` puts them; `Book::load` makes the book of sound tables. Rows are kept for each
//! account by their numbers.
//! It stands on `desk_types` for rows, calls and definitions, on `match_types` and `query_words` for patterns and texts.
//! Placements, searches and the journal are left to the crates above.
#![tactic(auto)]

mod book;
mod commit;
mod judging;
pub mod laws;
mod line_table;
mod loading;
mod plan;
pub mod raising;
mod searching;
mod shelf;

pub use book::Book;
pub use plan::{EditFault, Plan};
