// What holds of the words of any texts.
ghost use Rattle.std.specs.Prelude.{◌≡◌, chars};
ghost use Rattle.unicode_normalization.specs.Forms.{nfd};
ghost use Rattle.query_words.specs.Words.{key, words_of};

use crate::cut::{QUERY_BYTES, QUERY_WORDS};

/// A law, with nothing to run: case and canonical form never matter. Texts with one key have the
/// same words, and so do texts that are canonically equivalent.
pub fn same_key_same_words(first: &str, second: &str)
    ensures by_key { key first.now ≡ key second.now → words_of first.now ≡ words_of second.now }
    ensures by_canonical_form { nfd (chars first.now) ≡ nfd (chars second.now) → words_of first.now ≡ words_of second.now }
{}

/// A law: a query has at most 1,024 bytes and 32 words.
pub fn limits_are_these()
    ensures bytes { QUERY_BYTES ≡ 1024 }
    ensures words { QUERY_WORDS ≡ 32 }
{}
