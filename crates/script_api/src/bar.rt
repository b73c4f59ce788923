//! Two texts round a bar.

ghost use Rattle.std.specs.Prelude.{◌≡◌, MatchOption, Some, None};
ghost use Rattle.script_api.specs.Bar.{cut_at_bar as bar_cut, both};

/// What stands before the first space, bar, space of a text and what stands behind it, or `None`
/// where the text has none or one of the two is empty.
pub fn texts_round_bar(text: &str) -> Option<(&str, &str)>
    ensures { MatchOption result (both (bar_cut text.now) ≡ None)
        (λ cut. both (bar_cut text.now) ≡ Some (cut.0.now, cut.1.now)) }
{
    let (before, behind) = cut_at_bar(text)?;
    if before.is_empty() {
        return None;
    }
    if behind.is_empty() {
        return None;
    }
    Some((before, behind))
}

/// What stands before the first space, bar, space of a text and what stands behind it.
fn cut_at_bar(text: &str) -> Option<(&str, &str)>
    ensures { MatchOption result (bar_cut text.now ≡ None) (λ cut. bar_cut text.now ≡ Some (cut.0.now, cut.1.now)) }
{
    match text.split_once(" | ") {
        Some(cut) => Some(cut),
        None => None,
    }
}
