//! The words that the program is called with: a command, and what stands behind it.
//! `desk_words` gives what the words tell, in full and within the limits, or refuses them.
//! It stands on the library `clap` for options, on `desk_io` for numbers, and on `desk_types` for settings and keys.
//! What a command does is left to the program.
#![tactic(auto)]

mod command;
mod limits;
mod options;
mod told;
mod values;
mod words;

pub use command::Command;
pub use limits::{
    DRILL_SIZE_MAX, DRILL_START_MAX, PORT_MAX, SESSIONS_MAX, SESSIONS_USUAL, WORKERS_MAX,
    word_limits_are_these,
};
pub use told::{Told, WordsFault};
pub use words::desk_words;

#[cfg(test)]
mod tests;
