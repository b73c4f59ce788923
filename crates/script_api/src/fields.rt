//! The fields of a text, which spaces part, and the texts behind them.

ghost use Rattle.std.specs.Prelude.{◌≡◌, ◌≢◌, ℕ, ◌<◌, ◌≤◌, ◌∷◌, [], length, slice_index, IfSome, MatchOption};
ghost use Rattle.script_api.specs.LineFields.{fields, unspaced, unspaced_end, behind_first, behind_third, behind_fifth};

use memchr::memchr;

/// The text without the spaces in front.
pub fn without_spaces(text: &str) -> &str
    ensures { result.now ≡ unspaced text.now }
{
    &text[spaces_in_front(text.as_bytes())..]
}

/// How many spaces stand in front of a text.
fn spaces_in_front(text: &[u8]) -> usize
    ensures within { result ≤ length text.now }
    ensures spaces { (k : ℕ) → k < result → slice_index text.now k ≡ 32 }
    ensures other { result < length text.now → slice_index text.now result ≢ 32 }
{
    text.iter()
        .position(|byte| *byte != b' ')
        .unwrap_or(text.len())
}

/// The text without the spaces at its end.
pub fn without_end_spaces(text: &str) -> &str
    ensures { result.now ≡ unspaced_end text.now }
{
    text.trim_end_matches(' ')
}

/// The first field of a text and what stands behind it and the space that ends it, or `None` where
/// the text has no field.
pub fn first_field(text: &str) -> Option<(&str, &str)>
    ensures fields { MatchOption result (fields text.now ≡ []) (λ cut. fields text.now ≡ cut.0.now ∷ fields cut.1.now) }
    ensures behind { IfSome result (λ cut. cut.1.now ≡ behind_first text.now) }
{
    let text = without_spaces(text);
    if text.is_empty() {
        return None;
    }
    match memchr(b' ', text.as_bytes()) {
        Some(end) => Some((&text[..end], &text[end + 1..])),
        None => Some((text, "")),
    }
}

/// The first three fields of a text and what stands behind them, or `None` where it has fewer.
pub fn first_three(text: &str) -> Option<(&str, &str, &str, &str)>
    ensures fields { MatchOption result (length (fields text.now) < 3)
        (λ cut. fields text.now ≡ cut.0.now ∷ cut.1.now ∷ cut.2.now ∷ fields cut.3.now) }
    ensures behind { IfSome result (λ cut. cut.3.now ≡ behind_third text.now) }
{
    let (first, rest) = first_field(text)?;
    let (second, rest) = first_field(rest)?;
    let (third, rest) = first_field(rest)?;
    Some((first, second, third, rest))
}

/// The first five fields of a text and what stands behind them, or `None` where it has fewer.
pub fn first_five(text: &str) -> Option<(&str, &str, &str, &str, &str, &str)>
    ensures fields { MatchOption result (length (fields text.now) < 5)
        (λ cut. fields text.now ≡ cut.0.now ∷ cut.1.now ∷ cut.2.now ∷ cut.3.now ∷ cut.4.now ∷ fields cut.5.now) }
    ensures behind { IfSome result (λ cut. cut.5.now ≡ behind_fifth text.now) }
{
    let (first, second, third, rest) = first_three(text)?;
    let (fourth, rest) = first_field(rest)?;
    let (fifth, rest) = first_field(rest)?;
    Some((first, second, third, fourth, fifth, rest))
}

/// The one field of a text, or `None` where it has another number of them.
pub fn one_field(text: &str) -> Option<&str>
    ensures { MatchOption result (length (fields text.now) ≢ 1) (λ f. fields text.now ≡ f.now ∷ []) }
{
    let (field, rest) = first_field(text)?;
    match first_field(rest) {
        Some(_) => None,
        None => Some(field),
    }
}

/// The two fields of a text, or `None` where it has another number of them.
pub fn two_fields(text: &str) -> Option<(&str, &str)>
    ensures { MatchOption result (length (fields text.now) ≢ 2) (λ f. fields text.now ≡ f.0.now ∷ f.1.now ∷ []) }
{
    let (first, rest) = first_field(text)?;
    let second = one_field(rest)?;
    Some((first, second))
}

/// The three fields of a text, or `None` where it has another number of them.
pub fn three_fields(text: &str) -> Option<(&str, &str, &str)>
    ensures { MatchOption result (length (fields text.now) ≢ 3)
        (λ f. fields text.now ≡ f.0.now ∷ f.1.now ∷ f.2.now ∷ []) }
{
    let (first, rest) = first_field(text)?;
    let (second, third) = two_fields(rest)?;
    Some((first, second, third))
}

/// The four fields of a text, or `None` where it has another number of them.
pub fn four_fields(text: &str) -> Option<(&str, &str, &str, &str)>
    ensures { MatchOption result (length (fields text.now) ≢ 4)
        (λ f. fields text.now ≡ f.0.now ∷ f.1.now ∷ f.2.now ∷ f.3.now ∷ []) }
{
    let (first, rest) = first_field(text)?;
    let (second, third, fourth) = three_fields(rest)?;
    Some((first, second, third, fourth))
}

/// The five fields of a text, or `None` where it has another number of them.
pub fn five_fields(text: &str) -> Option<(&str, &str, &str, &str, &str)>
    ensures { MatchOption result (length (fields text.now) ≢ 5)
        (λ f. fields text.now ≡ f.0.now ∷ f.1.now ∷ f.2.now ∷ f.3.now ∷ f.4.now ∷ []) }
{
    let (first, rest) = first_field(text)?;
    let (second, third, fourth, fifth) = four_fields(rest)?;
    Some((first, second, third, fourth, fifth))
}
