//! The texts and lists of the project, and the words of a text.
//!
//! `words` gives the longest stretches of a text, its case folded and its characters decomposed,
//! that hold no cutting character; it refuses exactly the texts that are too long or have too many.
//! It stands on `caseless` and `unicode_normalization` for Unicode's folding and decomposition.
//! What a keyword pattern makes of words is left to `match_types`.
#![tactic(auto)]

mod cut;
mod laws;
mod list;
mod text;
mod twin;
mod word_list;

pub use cut::{QUERY_BYTES, QUERY_WORDS, WordsError, words};
pub use laws::{limits_are_these, same_key_same_words};
pub use list::List;
pub use std::alloc::AllocError as NoMemory;
pub use text::Text;
pub use twin::Twin;
pub use word_list::Words;
