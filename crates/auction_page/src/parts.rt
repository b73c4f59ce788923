//! The parts of a text, which dots part.

ghost use Rattle.std.specs.Prelude.{◌≡◌, ◌≢◌, ◌∷◌, [], length, MatchOption};
ghost use Rattle.auction_page.specs.Form.{parts};

use memchr::memchr;

/// The three parts of a text between its two dots, or `None` where it has another number of dots.
#[tactic(auto, using(crate::proofs::PartLemmas::parts_some))]
pub fn three_parts(text: &str) -> Option<(&str, &str, &str)>
    ensures { MatchOption result (length (parts text.now) ≢ 3)
        (λ p. parts text.now ≡ p.0.now ∷ p.1.now ∷ p.2.now ∷ []) }
{
    let (first, rest) = cut_at_dot(text)?;
    let (second, third) = cut_at_dot(rest)?;
    match cut_at_dot(third) {
        Some(_) => None,
        None => Some((first, second, third)),
    }
}

/// What stands before the first dot of a text and what stands behind it, or `None` where it has no dot.
fn cut_at_dot(text: &str) -> Option<(&str, &str)>
    ensures { MatchOption result (parts text.now ≡ text.now ∷ [])
        (λ cut. parts text.now ≡ cut.0.now ∷ parts cut.1.now) }
{
    let end = memchr(b'.', text.as_bytes())?;
    Some((&text[..end], &text[end + 1..]))
}
