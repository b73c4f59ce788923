// Whether a pattern's words meet a query's.
ghost use Rattle.std.specs.Prelude.{◌≡◌, ◌↔◌, IsTrue, All, Contains};
ghost use Rattle.match_types.specs.Meets.{Meets, HasPhrase};
ghost use Rattle.match_types.specs.Tests.{meets};

use crate::kind::MatchType;
use query_words::{Text, Words};

/// Whether the words of a query meet those of a pattern of this kind. It takes no memory.
pub fn matches(kind: MatchType, pattern: &Words, query: &Words) -> bool
    ensures meaning { IsTrue result ↔ Meets kind pattern.now query.now }
    ensures test { result ≡ meets kind pattern.now query.now }
{
    is_met(kind, pattern.as_slice(), query.as_slice())
}

/// The same of lists of words.
fn is_met(kind: MatchType, wanted: &[Text], words: &[Text]) -> bool
    ensures { IsTrue result ↔ Meets kind wanted.now words.now }
{
    match kind {
        MatchType::Exact => words == wanted,
        MatchType::Phrase => has_phrase(words, wanted),
        MatchType::Broad => has_words(words, wanted),
    }
}

/// Whether the word is one of the words.
fn has_word(words: &[Text], word: &Text) -> bool
    ensures { IsTrue result ↔ Contains words.now word.now }
{
    words.contains(word)
}

/// Whether each wanted word is one of the words.
fn has_words(words: &[Text], wanted: &[Text]) -> bool
    ensures { IsTrue result ↔ All (λ word. Contains words.now word) wanted.now }
{
    wanted.iter().all(|word| has_word(words, word))
}

/// Whether the phrase stands in the words without a break.
fn has_phrase(words: &[Text], phrase: &[Text]) -> bool
    ensures { IsTrue result ↔ HasPhrase phrase.now words.now }
{
    for start in 0..=words.len() {
        if words[start..].starts_with(phrase) {
            return true;
        }
    }
    false
}

/// A law, with nothing to run: what matches exactly matches as a phrase.
pub fn exact_is_phrase(pattern: &Words, query: &Words)
    ensures { Meets MatchType.Exact pattern.now query.now → Meets MatchType.Phrase pattern.now query.now }
{}

/// A law, with nothing to run: what matches as a phrase matches broadly.
pub fn phrase_is_broad(pattern: &Words, query: &Words)
    ensures { Meets MatchType.Phrase pattern.now query.now → Meets MatchType.Broad pattern.now query.now }
{}
