//! Patterns and matching, on texts.

use match_types::{MatchType, Pattern, PatternError, matches};
use query_words::words;
use std::alloc::Global;

/// Whether the query meets the pattern, each by its text.
fn meets(alloc: Global, pattern: &str, query: &str) -> Option<bool> {
    let pattern = Pattern::read(alloc, pattern).ok()?;
    let query = words(alloc, query).ok()?;
    Some(matches(pattern.kind(), pattern.words(), &query))
}

/// Whether the query meets `tennis shoes` as an exact, a phrase and a broad pattern.
fn meets_each(alloc: Global, query: &str) -> Option<(bool, bool, bool)> {
    let exact = meets(alloc, "[tennis shoes]", query)?;
    let phrase = meets(alloc, "\"tennis shoes\"", query)?;
    let broad = meets(alloc, "shoes tennis", query)?;
    Some((exact, phrase, broad))
}

/// A query, and whether it meets `tennis shoes` as an exact, a phrase and a broad pattern.
static MEETINGS: [(&str, (bool, bool, bool)); 9] = [
    ("Tennis SHOES red", (false, true, true)),
    ("shoes tennis", (false, false, true)),
    ("tennis-shoes!", (true, true, true)),
    ("red tennis shoes", (false, true, true)),
    ("tennis red shoes", (false, false, true)),
    ("tennis", (false, false, false)),
    ("tennis shoe", (false, false, false)),
    ("tabletennis shoes", (false, false, false)),
    ("", (false, false, false)),
];

#[test]
fn queries_meet_patterns_by_their_kind(rt: HostRuntime) {
    for (query, met) in &MEETINGS {
        assert!(rt; meets_each(rt.alloc(), query) == Some(*met), "{query}");
    }
}

/// A pattern with a word twice or in another spelling, a query, and whether it is met.
static SPELLINGS: [(&str, &str, bool); 3] = [
    ("shoes shoes", "shoes", true),
    ("[shoes shoes]", "shoes", false),
    ("[CAF\u{c9} STRASSE]", "cafe\u{301} stra\u{df}e", true),
];

#[test]
fn words_are_met_by_their_keys(rt: HostRuntime) {
    for (pattern, query, met) in &SPELLINGS {
        assert!(rt;
            meets(rt.alloc(), pattern, query) == Some(*met),
            "{pattern}"
        );
    }
}

/// Whether a pattern has this text, this kind and so many words.
fn has(pattern: &Pattern, kept: &str, kind: MatchType, count: usize) -> bool {
    pattern.text() == kept && pattern.kind() == kind && pattern.words().as_slice().len() == count
}

/// Whether the text is read as a pattern of which this is kept.
fn is_read(alloc: Global, text: &str, kept: &str, kind: MatchType, count: usize) -> bool {
    Pattern::read(alloc, text).is_ok_and(|pattern| has(&pattern, kept, kind, count))
}

/// A text, what is kept of it, the kind of the pattern, and the number of its words.
static READ: [(&str, &str, MatchType, usize); 14] = [
    ("tennis shoes", "tennis shoes", MatchType::Broad, 2),
    ("  [a b]  ", "[a b]", MatchType::Exact, 2),
    ("[ a b ]", "[ a b ]", MatchType::Exact, 2),
    ("\"a\"", "\"a\"", MatchType::Phrase, 1),
    ("\" a-b \"", "\" a-b \"", MatchType::Phrase, 2),
    ("a]", "a]", MatchType::Broad, 1),
    ("a\"", "a\"", MatchType::Broad, 1),
    ("[[a]]", "[[a]]", MatchType::Exact, 1),
    ("[\"a\"]", "[\"a\"]", MatchType::Exact, 1),
    ("\"[a]\"", "\"[a]\"", MatchType::Phrase, 1),
    ("[a] [b]", "[a] [b]", MatchType::Exact, 2),
    ("a - b", "a - b", MatchType::Broad, 2),
    ("\ta\t", "\ta\t", MatchType::Broad, 1),
    (TEN_WORDS, TEN_WORDS, MatchType::Broad, 10),
];

/// As many words as a pattern has at most.
const TEN_WORDS: &str = "a b c d e f g h i j";

#[test]
fn texts_are_read_as_patterns(rt: HostRuntime) {
    for (text, kept, kind, count) in &READ {
        assert!(rt; is_read(rt.alloc(), text, kept, *kind, *count), "{text}");
    }
}

/// Why the text is no pattern; `None` where it is one.
fn fault_of(alloc: Global, text: &str) -> Option<PatternError> {
    Pattern::read(alloc, text).err()
}

/// A text of 80 bytes, as many as a pattern has at most, and texts of 81.
const LONGEST: &str =
    "abcdefghijklmnopqrstuvwxyzabcdefghijklmnopqrstuvwxyzabcdefghijklmnopqrstuvwxyzab";

const LONGER: &str =
    "abcdefghijklmnopqrstuvwxyzabcdefghijklmnopqrstuvwxyzabcdefghijklmnopqrstuvwxyzabc";

const LONGER_BY_SPACES: &str =
    "-                                                                                ";

const LONGER_BY_A_MINUS: &str =
    "-abcdefghijklmnopqrstuvwxyzabcdefghijklmnopqrstuvwxyzabcdefghijklmnopqrstuvwxyzab";

/// A text, and why it is no pattern.
static REFUSED: [(&str, Option<PatternError>); 21] = [
    (LONGEST, None),
    (LONGER, Some(PatternError::TooLong)),
    (LONGER_BY_SPACES, Some(PatternError::TooLong)),
    ("-", Some(PatternError::Minus)),
    ("-a", Some(PatternError::Minus)),
    ("  --a", Some(PatternError::Minus)),
    ("-[a", Some(PatternError::Minus)),
    ("[", Some(PatternError::Unclosed)),
    ("[a", Some(PatternError::Unclosed)),
    ("[a]b", Some(PatternError::Unclosed)),
    ("[a\"", Some(PatternError::Unclosed)),
    ("\"", Some(PatternError::Unclosed)),
    ("\"a", Some(PatternError::Unclosed)),
    ("\"a]", Some(PatternError::Unclosed)),
    ("[]", Some(PatternError::NoWords)),
    ("\"\"", Some(PatternError::NoWords)),
    ("", Some(PatternError::NoWords)),
    ("   ", Some(PatternError::NoWords)),
    ("[ - ]", Some(PatternError::NoWords)),
    ("\"-,.\"", Some(PatternError::NoWords)),
    ("a b c d e f g h i j k", Some(PatternError::TooMany)),
];

#[test]
fn texts_are_refused_by_their_first_cause(rt: HostRuntime) {
    for (text, fault) in &REFUSED {
        assert!(rt; fault_of(rt.alloc(), text) == *fault, "{text}");
    }
}

/// Whether the text is read as a negative of which this is kept.
fn is_negative(alloc: Global, text: &str, kept: &str, kind: MatchType, count: usize) -> bool {
    Pattern::read_negative(alloc, text).is_ok_and(|pattern| has(&pattern, kept, kind, count))
}

/// A text, what is kept of it as a negative, its kind, and the number of its words.
static NEGATIVES: [(&str, &str, MatchType, usize); 5] = [
    (
        "-\"running shoes\"",
        "\"running shoes\"",
        MatchType::Phrase,
        2,
    ),
    ("running", "running", MatchType::Broad, 1),
    ("  - [a]  ", "[a]", MatchType::Exact, 1),
    ("-[a]", "[a]", MatchType::Exact, 1),
    ("-a b c d e f g h i j", TEN_WORDS, MatchType::Broad, 10),
];

#[test]
fn negatives_lose_one_minus(rt: HostRuntime) {
    for (text, kept, kind, count) in &NEGATIVES {
        assert!(rt;
            is_negative(rt.alloc(), text, kept, *kind, *count),
            "{text}"
        );
    }
}

/// Why the text is no negative; `None` where it is one.
fn fault_as_negative(alloc: Global, text: &str) -> Option<PatternError> {
    Pattern::read_negative(alloc, text).err()
}

/// A text, and why it is no negative.
static REFUSED_NEGATIVES: [(&str, Option<PatternError>); 5] = [
    ("-", Some(PatternError::NoWords)),
    ("--a", Some(PatternError::Minus)),
    ("-[a", Some(PatternError::Unclosed)),
    (LONGER_BY_A_MINUS, Some(PatternError::TooLong)),
    ("-a b c d e f g h i j k", Some(PatternError::TooMany)),
];

#[test]
fn negatives_are_refused_by_their_first_cause(rt: HostRuntime) {
    for (text, fault) in &REFUSED_NEGATIVES {
        assert!(rt; fault_as_negative(rt.alloc(), text) == *fault, "{text}");
    }
}
