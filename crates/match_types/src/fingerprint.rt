// Numbers by which patterns are told apart.
ghost use Rattle.std.specs.Prelude.{◌≡◌};
ghost use Rattle.std.specs.List.{fold};
ghost use Rattle.match_types.specs.Fingerprint.{joined, joined_word, kind_number};

use crate::kind::MatchType;
use query_words::Text;

/// What a fingerprint is multiplied by before a number is joined to it: 2^64 over the golden ratio, made odd.
const FINGERPRINT_FACTOR: u64 = 0x9e37_79b9_7f4a_7c15;

/// The number of a kind.
pub(crate) fn kind_number(kind: MatchType) -> u64
    ensures { result ≡ kind_number kind }
{
    match kind {
        MatchType::Exact => 1,
        MatchType::Phrase => 2,
        MatchType::Broad => 3,
    }
}

/// A fingerprint with a number joined to it.
#[tactic(auto, unfolding(crate::specs::Fingerprint::joined))]
pub(crate) fn joined(fingerprint: u64, number: u64) -> u64
    ensures { result ≡ joined fingerprint number }
{
    fingerprint
        .wrapping_mul(FINGERPRINT_FACTOR)
        .wrapping_add(number)
}

/// A fingerprint with the bytes of a word joined to it, and a zero behind them.
fn joined_word(fingerprint: u64, word: &Text) -> u64
    ensures { result ≡ joined_word fingerprint word.now }
{
    let bytes = word.as_str().as_bytes();
    let mut longer = fingerprint;
    for byte in bytes {
        longer = joined(longer, *byte as u64);
    }
    joined(longer, 0)
}

/// A fingerprint with words joined to it.
pub(crate) fn joined_words(fingerprint: u64, words: &[Text]) -> u64
    ensures { result ≡ fold joined_word fingerprint words.now }
{
    let mut longer = fingerprint;
    for word in words {
        longer = joined_word(longer, word);
    }
    longer
}
