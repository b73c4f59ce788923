// The words of a text: its key, cut into pieces.
ghost use Rattle.std.specs.Prelude.{◌≡◌, map, filter, chars, encode_utf8_all, string_bytes, IfOk, OnOk, IfErr};
ghost use Rattle.std.specs.List.{slice_split};
ghost use Rattle.query_words.specs.Limits.{IsWithinLimits, HasCause};
ghost use Rattle.query_words.specs.Words.{key, is_cutting, is_nonempty, words_of};

use crate::list::List;
use crate::text::Text;
use crate::word_list::Words;
use caseless::default_case_fold_str;
use std::alloc::{AllocError as NoMemory, Global};
use thiserror::Error;
use unicode_normalization::to_nfd;

/// The most bytes of a text that is cut into words.
pub const QUERY_BYTES: usize = 1_024;

/// The most words of a text.
pub const QUERY_WORDS: usize = 32;

/// Why a text has no words here.
#[derive(Clone, Copy, Debug, PartialEq, Eq, Error)]
pub enum WordsError {
    /// The text has this many bytes, more than `QUERY_BYTES`.
    #[error("the text has {0} bytes, more than {most}", most = QUERY_BYTES)]
    TooLong(u64),
    /// The text has this many words, more than `QUERY_WORDS`.
    #[error("the text has {0} words, more than {most}", most = QUERY_WORDS)]
    TooMany(u64),
    /// Memory was wanted.
    #[error("out of memory")]
    NoMemory,
}

/// The words of a text, in order: the longest stretches of NFD(toCasefold(NFD(text)))
/// (The Unicode Standard, D145) without an ASCII character that is no letter or digit
/// and without white space.
///
/// A text above `QUERY_BYTES` bytes is `TooLong`, any other with above `QUERY_WORDS` words `TooMany`.
pub fn words(alloc: Global, text: &str) -> Result<Words, WordsError>
    ensures found { IfOk result (λ found. found ≡ words_of text.now) }
    ensures fits { OnOk result (IsWithinLimits text.now) }
    ensures refused { IfErr result (HasCause text.now) }
{
    if text.len() > QUERY_BYTES {
        return Err(WordsError::TooLong(text.len() as u64));
    }
    let found = all_words(alloc, text).map_err(|_| WordsError::NoMemory)?;
    let count = found.as_slice().len();
    if count > QUERY_WORDS {
        return Err(WordsError::TooMany(count as u64));
    }
    Ok(Words::from_list(found))
}

/// The words of a text of any length.
fn all_words(alloc: Global, text: &str) -> Result<List<Text>, NoMemory>
    ensures { IfOk result (λ found. found ≡ words_of text.now) }
{
    let folded = folded(alloc, text)?;
    pieces(alloc, folded.as_str())
}

/// The key of a text. Of ASCII it is the text in lower case.
fn folded(alloc: Global, text: &str) -> Result<String, NoMemory>
    ensures { IfOk result (λ folded. string_bytes folded ≡ encode_utf8_all (key text.now)) }
{
    if text.is_ascii() {
        return text.to_ascii_lowercase(alloc);
    }
    let decomposed = to_nfd(alloc, text)?;
    let folded = default_case_fold_str(alloc, decomposed.as_str())?;
    to_nfd(alloc, folded.as_str())
}

/// The pieces of a text between cutting characters that are not empty.
fn pieces(alloc: Global, text: &str) -> Result<List<Text>, NoMemory>
    ensures { IfOk result (λ found. found ≡ map encode_utf8_all (filter is_nonempty (slice_split is_cutting (chars text.now)))) }
{
    let mut found = Vec::new(alloc);
    for piece in text.split(|c| is_cutting(c)) {
        if !piece.is_empty() {
            found.push(Text::new(alloc, piece)?)?;
        }
    }
    Ok(List::from_vec(found))
}

/// Whether a text is cut at this character.
fn is_cutting(c: char) -> bool
    ensures { result ≡ is_cutting c }
{
    (c.is_ascii() && !c.is_ascii_alphanumeric()) || c.is_whitespace()
}
