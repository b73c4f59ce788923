//! The forms of texts and the ranges of settings.

use desk_types::{LinkText, Settings, is_headline, is_key};
use std::process::Abort;
use std::test::Fail;

/// A text that is a link or is none.
static LINKS: [(&str, bool); 9] = [
    ("http://s.example/", true),
    ("https://s.example/", true),
    ("http://", true),
    ("", false),
    ("s.example", false),
    ("ftp://s.example/", false),
    ("HTTP://s.example/", false),
    ("http://s.example/ ", false),
    ("http://s.example/\u{E9}", false),
];

#[test]
fn a_link_is_visible_and_has_a_scheme(rt: HostRuntime) {
    for (text, is_link) in &LINKS {
        assert!(rt; is_read(text) == *is_link, "{text}");
    }
}

/// Whether the text is read as a link, which keeps it.
fn is_read(text: &str) -> bool {
    LinkText::read(text).is_some_and(|link| link.as_str() == text)
}

#[test]
fn a_link_has_512_bytes_at_most(rt: HostRuntime) -> Result<(), Fail> {
    let mut link = String::from_str(rt.alloc(), "https://")?;
    for _ in 8..512 {
        link.push('a')?;
    }
    assert!(rt; is_read(link.as_str()));
    link.push('a')?;
    assert!(rt; !is_read(link.as_str()));
    Ok(())
}

/// A number of letters, and whether they are a key and a headline.
static LENGTHS: [(usize, bool, bool); 8] = [
    (0, false, false),
    (1, false, true),
    (7, false, true),
    (8, true, true),
    (64, true, true),
    (65, false, true),
    (90, false, true),
    (91, false, false),
];

#[test]
fn keys_and_headlines_have_their_lengths(rt: HostRuntime) -> Result<(), Fail> {
    for (length, key, headline) in &LENGTHS {
        let text = "k".repeat(rt.alloc(), *length)?;
        check_text(&rt, text.as_str(), *key, *headline);
    }
    Ok(())
}

/// A text, and whether it is a key and a headline.
static TEXTS: [(&str, bool, bool); 4] = [
    ("red shoes", false, true),
    ("caf\u{E9}-shoes", false, true),
    ("red\tshoes", false, false),
    ("red\u{7F}shoes", false, false),
];

#[test]
fn keys_and_headlines_have_their_bytes(rt: HostRuntime) {
    for (text, key, headline) in &TEXTS {
        check_text(&rt, text, *key, *headline);
    }
}

fn check_text(rt: &impl Abort, text: &str, key: bool, headline: bool) {
    assert_eq!(rt; is_key(text), key, "{text}, as a key");
    assert_eq!(rt; is_headline(text), headline, "{text}, as a headline");
}

/// A reserve, a floor, places, entries and bytes of a journal, and placements.
type Numbers = (u64, u64, u64, u64, u64, u64);

/// What a row shows, settings, and whether they are in range.
static SETTINGS: [(&str, Numbers, bool); 13] = [
    ("the least", (1, 0, 1, 1, 1, 1), true),
    (
        "the greatest",
        (
            1_000_000,
            100_000_000,
            8,
            4_000_000,
            1_000_000_000,
            2_000_000,
        ),
        true,
    ),
    ("no reserve", (0, 0, 1, 1, 1, 1), false),
    ("a reserve above", (1_000_001, 0, 1, 1, 1, 1), false),
    ("a floor above", (1, 100_000_001, 1, 1, 1, 1), false),
    ("no places", (1, 0, 0, 1, 1, 1), false),
    ("nine places", (1, 0, 9, 1, 1, 1), false),
    ("no journal", (1, 0, 1, 0, 1, 1), false),
    ("a journal above", (1, 0, 1, 4_000_001, 1, 1), false),
    ("no bytes", (1, 0, 1, 1, 0, 1), false),
    ("bytes above", (1, 0, 1, 1, 1_000_000_001, 1), false),
    ("no placements", (1, 0, 1, 1, 1, 0), false),
    ("placements above", (1, 0, 1, 1, 1, 2_000_001), false),
];

#[test]
fn settings_are_in_range(rt: HostRuntime) {
    for (case, numbers, made) in &SETTINGS {
        assert!(rt; settings_of(*numbers).is_some() == *made, "{case}");
    }
}

fn settings_of(numbers: Numbers) -> Option<Settings> {
    let (reserve, floor, places, journal, journal_bytes, placements) = numbers;
    Settings::new(reserve, floor, places, journal, journal_bytes, placements)
}
