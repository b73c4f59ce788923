//! What a call of the program says last, and with which status it ends.
//!
//! `say` writes a text by its pieces and answers its status, or that a write failed or memory was wanted; `say_fault` says
//! what is wrong with a line. The statuses of the process stand here once.
#![tactic(auto)]

mod saying;
mod status;

pub use saying::{say, say_fault};
pub use status::{
    BAD_LINE, BAD_TABLES, DOOR_FAULT, ENDED, KEEPER_FAULT, NO_MEMORY, PAST_LIMIT, READ_FAULT,
    WORDS_REFUSED, WRITE_FAULT,
};
