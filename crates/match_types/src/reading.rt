// The text of a pattern: its spaces, its marks and what stands between them.
ghost use Rattle.std.specs.Prelude.{◌≡◌, ◌↔◌, false, IsNone, IfSome};
ghost use Rattle.match_types.specs.Marks.{trimmed, begins_with, minus, without_minus, kind_of, inside, is_closed};
ghost use Rattle.match_types.specs.Pattern.{cause_of};

use crate::kind::MatchType;
use thiserror::Error;

/// The most bytes of a pattern's text.
pub const PATTERN_BYTES: usize = 80;

/// The most words of a pattern.
pub const PATTERN_WORDS: usize = 10;

/// A law: a pattern's text has at most 80 bytes and 10 words.
pub fn limits_are_these()
    ensures bytes { PATTERN_BYTES ≡ 80 }
    ensures words { PATTERN_WORDS ≡ 10 }
{}

/// Why a text is no pattern, in the order in which it is judged.
#[derive(Clone, Copy, Debug, PartialEq, Eq)]
pub enum PatternCause {
    /// The text has more than `PATTERN_BYTES` bytes, spaces at its ends among them.
    TooLong,
    /// The text without the spaces at its ends begins with `-`.
    Minus,
    /// It begins with `[` or `"` and has no `]` or second `"` at its end.
    Unclosed,
    /// It has no word.
    NoWords,
    /// It has more than `PATTERN_WORDS` words.
    TooMany,
}

/// Why a text was not read as a pattern: for a cause, or for want of memory.
#[derive(Clone, Copy, Debug, PartialEq, Eq, Error)]
pub enum PatternError {
    /// The text has more than `PATTERN_BYTES` bytes, spaces at its ends among them.
    #[error("the pattern has more than {most} bytes", most = PATTERN_BYTES)]
    TooLong,
    /// The text without the spaces at its ends begins with `-`.
    #[error("the pattern begins with `-`")]
    Minus,
    /// It begins with `[` or `"` and has no `]` or second `"` at its end.
    #[error("the pattern's mark is not closed")]
    Unclosed,
    /// It has no word.
    #[error("the pattern has no word")]
    NoWords,
    /// It has more than `PATTERN_WORDS` words.
    #[error("the pattern has more than {most} words", most = PATTERN_WORDS)]
    TooMany,
    /// Memory was wanted.
    #[error("out of memory")]
    NoMemory,
}

impl PatternError {
    /// The cause for which the text is no pattern; `None` where memory was wanted.
    pub fn cause(&self) -> Option<PatternCause>
        ensures { result ≡ cause_of self.now }
    {
        match self {
            PatternError::TooLong => Some(PatternCause::TooLong),
            PatternError::Minus => Some(PatternCause::Minus),
            PatternError::Unclosed => Some(PatternCause::Unclosed),
            PatternError::NoWords => Some(PatternCause::NoWords),
            PatternError::TooMany => Some(PatternCause::TooMany),
            PatternError::NoMemory => None,
        }
    }
}

/// The text without the spaces at its ends.
pub(crate) fn trim_spaces(text: &str) -> &str
    ensures { result.now ≡ trimmed text.now }
{
    text.trim_start_matches(' ').trim_end_matches(' ')
}

/// Whether the text begins with `-`.
pub(crate) fn begins_with_minus(text: &str) -> bool
    ensures { result ≡ begins_with minus text.now }
{
    text.starts_with('-')
}

/// The text without one `-` at its start, if there is one.
pub(crate) fn drop_minus(text: &str) -> &str
    ensures { result.now ≡ without_minus text.now }
{
    text.strip_prefix('-').unwrap_or(text)
}

/// The kind of a text without spaces at its ends, and what stands between its marks. `None` says
/// that a mark is not closed.
pub(crate) fn unmarked(text: &str) -> Option<(MatchType, &str)>
    ensures unclosed { IsNone result ↔ (is_closed text.now ≡ false) }
    ensures kind { IfSome result (λ parts. parts.0 ≡ kind_of text.now) }
    ensures inside { IfSome result (λ parts. parts.1.now ≡ inside text.now) }
{
    if let Some(rest) = text.strip_prefix('[') {
        return Some((MatchType::Exact, rest.strip_suffix(']')?));
    }
    if let Some(rest) = text.strip_prefix('"') {
        return Some((MatchType::Phrase, rest.strip_suffix('"')?));
    }
    Some((MatchType::Broad, text))
}
