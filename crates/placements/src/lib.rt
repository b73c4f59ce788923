//! The placements of a desk, and what becomes of them.
//! A placement is found by its number, without a search, and those of an account by that account alone: `judge_click` says
//! whether a click settles one, `click` and `credit` set its fate, and `shown_on` goes over an account's placements of a day.
//! `load` takes the placements of a desk that has shown some.
//! It stands on `desk_types` for rows and definitions. Who is shown, at which price, is left to the crates above.
#![tactic(auto)]

mod clicked;
mod day;
mod placements;
mod rows;
mod shown_on;
mod statement;

pub use clicked::{Clicked, is_escrowed};
pub use placements::Placements;
pub use shown_on::ShownOn;
