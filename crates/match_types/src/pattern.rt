// A pattern, and its reading.
ghost use Rattle.std.specs.Prelude.{◌≡◌, ◌≢◌, ◌≤◌, ◌↔◌, ℕ, List, None, Some, length, IsTrue, IfOk, OnOk, IfErr};
ghost use Rattle.query_words.specs.Words.{words_of};
ghost use Rattle.match_types.specs.Fingerprint.{fingerprint_from};
ghost use Rattle.match_types.specs.Marks.{trimmed, kind_of};
ghost use Rattle.match_types.specs.Pattern.{cause_of, words_in, refusal, negative_text, negative_refusal, words_cause, IsPattern, IsSamePattern};
ghost use Rattle.match_types.specs.Tests.{is_same_pattern};

use crate::fingerprint::{joined, joined_words, kind_number};
use crate::kind::MatchType;
use crate::matching::matches;
use crate::reading::{
    PATTERN_BYTES, PATTERN_WORDS, PatternError, begins_with_minus, drop_minus, trim_spaces,
    unmarked,
};
use query_words::{NoMemory, Text, Twin, Words, WordsError, words};
use std::alloc::Global;
use std::marker::Model;

/// A keyword pattern. Contracts see it as its text; its kind and its words follow from that.
#[derive(Debug, Drop)]
pub struct Pattern {
    text: Text,
    kind: MatchType,
    words: Words,
}

impl Model for Pattern {
    ghost use Rattle.std.specs.Prelude.{◌≡◌, ℕ, List};
    ghost use Rattle.match_types.specs.Pattern.{IsRead};

    ghost Value = { List ℕ };

    ghost view = { λ p. p.text };

    ghost invariant = { λ p. IsRead p.text p.kind p.words };
}

impl Pattern {
    /// The pattern of a text, or the first cause for which it is none.
    ///
    /// `[..]` is exact, `".."` a phrase, and any other text broad. Spaces at the text's ends are dropped.
    pub fn read(alloc: Global, text: &str) -> Result<Self, PatternError>
        ensures text { IfOk result (λ pattern. pattern ≡ trimmed text.now) }
        ensures accepted { OnOk result (refusal text.now ≡ None) }
        ensures refused { IfErr result (λ error. error ≢ PatternError.NoMemory → refusal text.now ≡ cause_of error) }
    {
        if text.len() > PATTERN_BYTES {
            return Err(PatternError::TooLong);
        }
        let trimmed = trim_spaces(text);
        if begins_with_minus(trimmed) {
            return Err(PatternError::Minus);
        }
        let Some((kind, inside)) = unmarked(trimmed) else {
            return Err(PatternError::Unclosed);
        };
        let words = words_between(alloc, inside)?;
        match Text::new(alloc, trimmed) {
            Ok(text) => Ok(Pattern { text, kind, words }),
            Err(_) => Err(PatternError::NoMemory),
        }
    }

    /// The pattern of a negative's text, which may have a `-` in front, or the first cause for which
    /// it is none. The length is that of the whole text.
    pub fn read_negative(alloc: Global, text: &str) -> Result<Self, PatternError>
        ensures text { IfOk result (λ pattern. pattern ≡ negative_text text.now) }
        ensures accepted { OnOk result (negative_refusal text.now ≡ None) }
        ensures refused { IfErr result (λ error. error ≢ PatternError.NoMemory → negative_refusal text.now ≡ cause_of error) }
    {
        let unsigned = drop_minus(trim_spaces(text));
        let length = text.len();
        if length > PATTERN_BYTES {
            return Err(PatternError::TooLong);
        }
        Pattern::read(alloc, unsigned)
    }

    /// The text that was read, without its end spaces and, of a negative, without the `-`. Reading
    /// it, as a pattern or as a negative, gives this pattern again.
    pub fn text(&self) -> &str
        ensures value { result.now ≡ self.now }
        ensures reads_again { IsPattern self.now }
        ensures reads_again_as_negative { (negative_refusal self.now ≡ None) × (negative_text self.now ≡ self.now) }
    {
        self.text.as_str()
    }

    /// How its words are to meet those of a query.
    pub fn kind(&self) -> MatchType
        ensures { result ≡ kind_of self.now }
    {
        self.kind
    }

    /// Its words, 1 to `PATTERN_WORDS` of them.
    pub fn words(&self) -> &Words
        ensures value { result.now ≡ words_in self.now }
        ensures some { 1 ≤ length result.now }
        ensures few { length result.now ≤ PATTERN_WORDS }
    {
        &self.words
    }

    /// Whether the two have the same kind and the same words, in order.
    pub fn is_same(&self, other: &Pattern) -> bool
        ensures meaning { IsTrue result ↔ IsSamePattern self.now other.now }
        ensures test { result ≡ is_same_pattern self.now other.now }
    {
        self.kind == other.kind && matches(MatchType::Exact, &self.words, &other.words)
    }

    /// A number of its kind and its words, begun from another. From the same start, patterns that are the same have the
    /// same fingerprint, and others hardly ever have.
    #[tactic(auto, using(crate::proofs::Fingerprints::same_fingerprint), unfolding(crate::specs::Fingerprint::fingerprint_from))]
    pub fn fingerprint(&self, start: u64) -> u64
        ensures value { result ≡ fingerprint_from start self.now }
        ensures same { (other : List ℕ) → IsTrue (is_same_pattern other self.now)
            → fingerprint_from start other ≡ result }
    {
        let begun = joined(start, kind_number(self.kind));
        joined_words(begun, self.words.as_slice())
    }
}

impl Twin for Pattern {
    fn twin(&self) -> Result<Self, NoMemory> {
        Ok(Pattern {
            text: self.text.twin()?,
            kind: self.kind,
            words: self.words.twin()?,
        })
    }
}

/// The words of the text between a pattern's marks, which has no more bytes than a pattern.
fn words_between(alloc: Global, inside: &str) -> Result<Words, PatternError>
    requires { length inside.now ≤ PATTERN_BYTES }
    ensures value { IfOk result (λ found. found ≡ words_of inside.now) }
    ensures accepted { OnOk result (words_cause (words_of inside.now) ≡ None) }
    ensures refused { IfErr result (λ error. error ≢ PatternError.NoMemory → words_cause (words_of inside.now) ≡ cause_of error) }
{
    match words(alloc, inside) {
        Ok(found) => few_words(found),
        Err(WordsError::TooMany(_)) => Err(PatternError::TooMany),
        Err(WordsError::NoMemory) => Err(PatternError::NoMemory),
        Err(WordsError::TooLong(_)) => unreachable!(),
    }
}

/// The words, if there are 1 to `PATTERN_WORDS`.
fn few_words(found: Words) -> Result<Words, PatternError>
    ensures value { IfOk result (λ kept. kept ≡ found) }
    ensures accepted { OnOk result (words_cause found ≡ None) }
    ensures refused { IfErr result (λ error. words_cause found ≡ cause_of error) }
{
    match found.as_slice().len() {
        0 => Err(PatternError::NoWords),
        1..=PATTERN_WORDS => Ok(found),
        _ => Err(PatternError::TooMany),
    }
}
