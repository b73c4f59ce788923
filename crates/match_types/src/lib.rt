//! Keyword patterns, and which queries they match.
//!
//! `matches` holds exactly where a pattern's words meet a query's by the pattern's kind; `Pattern::read`
//! gives the pattern of a text, or the first cause for which the text is none.
//! It stands on `query_words` for texts and for the words of a text.
//! Which line of which campaign has a pattern, and what it bids, is left to the crates above.
#![tactic(auto)]

mod fingerprint;
mod kind;
mod matching;
mod pattern;
mod reading;

pub use kind::MatchType;
pub use matching::{exact_is_phrase, matches, phrase_is_broad};
pub use pattern::Pattern;
pub use reading::{PATTERN_BYTES, PATTERN_WORDS, PatternCause, PatternError, limits_are_these};
