//! Texts with their words.

use query_words::{List, Twin, WordsError, words};
use std::alloc::{AllocError, Global};
use std::fmt::Write;
use std::test::Fail;

/// What a row shows, its text, and the bytes of its words in hexadecimal digits, a space between words.
///
/// The words are those of the Unicode Character Database: canonical decomposition, full case folding
/// (statuses C and F) and White_Space, taken from its files as Python's `unicodedata` has them.
static WORDS: [(&str, &str, &str); 55] = [
    ("no text", "", ""),
    ("a letter", "A", "61"),
    (
        "spaces and capitals",
        "Tennis SHOES red",
        "74656e6e6973 73686f6573 726564",
    ),
    (
        "hyphen and exclamation mark",
        "tennis-shoes!",
        "74656e6e6973 73686f6573",
    ),
    ("separators alone", " --,. ", ""),
    ("low line and digits", "a_b2C 42", "61 623263 3432"),
    (
        "every ASCII mark",
        "a!b\"c#d$e%f&g'h(i)j*k+l,m-n.o/p:q;r<s=t>u?v@w[x\\y]z^0_1`2{3|4}5~",
        "61 62 63 64 65 66 67 68 69 6a 6b 6c 6d 6e 6f 70 71 72 73 74 75 76 77 78 79 7a 30 31 32 33 34 35",
    ),
    (
        "control characters",
        "a\tb\nc\rd\u{0}e\u{7f}f",
        "61 62 63 64 65 66",
    ),
    (
        "composed accent",
        "CAF\u{c9} STRASSE",
        "63616665cc81 73747261737365",
    ),
    (
        "combining accent and sharp s",
        "cafe\u{301} stra\u{df}e",
        "63616665cc81 73747261737365",
    ),
    ("capital sharp s", "GRO\u{1e9e}", "67726f7373"),
    ("sharp s at the end", "wei\u{df}", "7765697373"),
    (
        "capital sigma at the end",
        "\u{39f}\u{394}\u{39f}\u{3a3}",
        "cebfceb4cebfcf83",
    ),
    (
        "final sigma",
        "\u{3bf}\u{3b4}\u{3bf}\u{3c2}",
        "cebfceb4cebfcf83",
    ),
    (
        "sigma in the middle",
        "\u{3bf}\u{3b4}\u{3bf}\u{3c3}",
        "cebfceb4cebfcf83",
    ),
    (
        "Turkish capital dotted i",
        "\u{130}STANBUL",
        "69cc877374616e62756c",
    ),
    ("Turkish small dotless i", "\u{131}s\u{131}", "c4b173c4b1"),
    ("capital i without a language", "ISI", "697369"),
    (
        "Hangul syllables",
        "\u{d55c}\u{ad6d}\u{c5b4} \u{d55c}",
        "e18492e185a1e186abe18480e185aee186a8e1848be185a5 e18492e185a1e186ab",
    ),
    (
        "Hangul in two characters",
        "\u{ac00}\u{11a8}",
        "e18480e185a1e186a8",
    ),
    ("Hangul in one character", "\u{ac01}", "e18480e185a1e186a8"),
    (
        "mark above, then mark below",
        "a\u{301}\u{323}",
        "61cca3cc81",
    ),
    (
        "mark below, then mark above",
        "a\u{323}\u{301}",
        "61cca3cc81",
    ),
    (
        "two composed marks",
        "\u{1ec7}\u{1e69}",
        "65cca3cc8273cca3cc87",
    ),
    ("ligature fi", "\u{fb01}n OFFICE", "66696e 6f6666696365"),
    ("ligature ffi", "o\u{fb03}ce", "6f6666696365"),
    ("ligatures st", "\u{fb05}\u{fb06}", "73747374"),
    ("Armenian ligature", "\u{587}", "d5a5d682"),
    ("no-break space", "red\u{a0}shoes", "726564 73686f6573"),
    ("narrow no-break space", "10\u{202f}km", "3130 6b6d"),
    (
        "ideographic space",
        "\u{9774}\u{3000}\u{8d64}",
        "e99db4 e8b5a4",
    ),
    ("em space and thin space", "a\u{2003}b\u{2009}c", "61 62 63"),
    (
        "ogham space and mathematical space",
        "a\u{1680}b\u{205f}c",
        "61 62 63",
    ),
    (
        "next line, line and paragraph separators",
        "a\u{85}b\u{2028}c\u{2029}d",
        "61 62 63 64",
    ),
    ("zero-width joiner", "a\u{200d}b", "61e2808d62"),
    ("zero-width space", "a\u{200b}b", "61e2808b62"),
    (
        "soft hyphen and word joiner",
        "a\u{ad}b\u{2060}c",
        "61c2ad62e281a063",
    ),
    ("Arabic digits", "\u{663}\u{664} \u{6f5}", "d9a3d9a4 dbb5"),
    (
        "Devanagari digits and letters",
        "\u{967}\u{968} \u{915}\u{93f}",
        "e0a5a7e0a5a8 e0a495e0a4bf",
    ),
    (
        "emoji beside letters",
        "red\u{1f45f}shoes",
        "726564f09f919f73686f6573",
    ),
    (
        "emoji sequence",
        "\u{1f468}\u{200d}\u{1f469}\u{200d}\u{1f467} \u{2764}\u{fe0f}",
        "f09f91a8e2808df09f91a9e2808df09f91a7 e29da4efb88f",
    ),
    (
        "typographic apostrophe and dash",
        "l\u{2019}\u{e9}t\u{e9}\u{2013}now",
        "6ce2809965cc817465cc81e280936e6f77",
    ),
    (
        "fullwidth letters and comma",
        "\u{ff21}\u{ff22}\u{ff0c}\u{ff23}",
        "efbd81efbd82efbc8cefbd83",
    ),
    ("small Cherokee letters", "\u{ab70}\u{13f8}", "e18ea0e18fb0"),
    ("Deseret capitals", "\u{10400}\u{10428}", "f09090a8f09090a8"),
    ("Greek accent and capital", "\u{38e}\u{3b2}", "cf85cc81ceb2"),
    (
        "Greek iota below",
        "\u{1f80}\u{1fbc}",
        "ceb1cc93ceb9ceb1ceb9",
    ),
    (
        "iota below before an accent",
        "\u{3b1}\u{345}\u{301}",
        "ceb1cc81ceb9",
    ),
    ("caron letter", "\u{1f0}\u{1c5}", "6acc8cc786"),
    ("kelvin and angstrom signs", "\u{212a}\u{212b}", "6b61cc8a"),
    ("long s", "\u{17f}ea", "736561"),
    ("titlecase digraph", "\u{1c8}\u{1f2}", "c789c7b3"),
    (
        "Hebrew points in disorder",
        "\u{5d1}\u{5bc}\u{5b0}",
        "d791d6b0d6bc",
    ),
    (
        "Kana and its voiced mark",
        "\u{304c}\u{304b}\u{3099}",
        "e3818be38299e3818be38299",
    ),
    (
        "private use and last character",
        "\u{e000}\u{10ffff}",
        "ee8080f48fbfbf",
    ),
];

/// The words of a text as `WORDS` writes them.
fn in_hexadecimal(alloc: Global, text: &str) -> Option<String> {
    let found = words(alloc, text).ok()?;
    let mut written = String::new(alloc);
    for word in found.as_slice() {
        write_word(&mut written, word.as_str()).ok()?;
    }
    Some(written)
}

/// Writes a word behind others.
fn write_word(written: &mut String, word: &str) -> Result<(), AllocError> {
    if !written.is_empty() {
        written.push(' ')?;
    }
    for byte in word.bytes() {
        write!(written, "{byte:02x}")?;
    }
    Ok(())
}

/// Whether the text has these words.
fn has_words(alloc: Global, text: &str, wanted: &str) -> bool {
    in_hexadecimal(alloc, text).is_some_and(|written| written.as_str() == wanted)
}

#[test]
fn texts_of_many_scripts_have_their_words(rt: HostRuntime) {
    for (shows, text, wanted) in &WORDS {
        assert!(rt; has_words(rt.alloc(), text, wanted), "{shows}");
    }
}

/// Why a text that repeats another so many times has no words; `None` where it has.
fn fault_of(alloc: Global, part: &str, times: usize) -> Option<WordsError> {
    let text = part.repeat(alloc, times).ok()?;
    words(alloc, text.as_str()).err()
}

/// A text, how often it is repeated, and why the whole has no words.
static LIMITS: [(&str, usize, Option<WordsError>); 5] = [
    ("a", 1_024, None),
    ("a", 1_025, Some(WordsError::TooLong(1_025))),
    ("a-", 32, None),
    ("a-", 33, Some(WordsError::TooMany(33))),
    ("a ", 600, Some(WordsError::TooLong(1_200))),
];

#[test]
fn long_texts_and_many_words_are_refused_with_their_number(rt: HostRuntime) {
    for (part, times, fault) in &LIMITS {
        assert!(rt;
            fault_of(rt.alloc(), part, *times) == *fault,
            "{times} times {part}"
        );
    }
}

#[test]
fn copies_are_equal(rt: HostRuntime) -> Result<(), Fail> {
    let found = words(rt.alloc(), "Red SHOES")?;
    let copy = found.twin()?;
    assert!(rt; copy.as_slice() == found.as_slice());
    assert!(rt; copy.as_slice().first() != copy.as_slice().last());
    Ok(())
}

#[test]
fn lists_keep_their_items(rt: HostRuntime) -> Result<(), Fail> {
    let mut list = List::new(rt.alloc());
    for number in 1..=20_u64 {
        list.push(number)?;
    }
    let numbers = list.into_vec();
    assert_eq!(rt; List::from_vec(numbers).as_slice().last(), Some(&20));
    Ok(())
}
