//! Whether an earlier row of the campaign has the same pattern.

ghost use Rattle.std.specs.Prelude.{◌≡◌, ◌==◌, ◌&&◌, ◌++◌, [], ◌∷◌, ℕ, List, true, map, nat_le, OnOk};
ghost use Rattle.std.specs.List.{list_any};
ghost use Rattle.match_types.specs.Fingerprint.{fingerprint_from};
ghost use Rattle.match_types.specs.Tests.{is_same_pattern};
ghost use Rattle.desk_types.specs.Rules.{last_passes};
ghost use Rattle.desk_keeper.specs.OwnRows.{AreOwnRows, AreSeen};

use crate::soundness::own_rows::{OwnRow, own_rows};
use desk_types::{Line, Negative};
use match_types::Pattern;
use std::alloc::AllocError;

/// A row of a campaign, that has a pattern.
pub(crate) trait PatternRow: OwnRow {
    ghost group: { Self → ℕ };

    ghost text: { Self → List ℕ };

    /// The campaign's number.
    fn campaign(&self) -> u64
        ensures { result ≡ group self.now };

    /// The pattern.
    fn pattern(&self) -> &Pattern
        ensures { result.now ≡ text self.now };
}

/// Whether one of the rows before a row is of its campaign and has its pattern. The fingerprints are those of the last
/// one's account.
pub(crate) fn is_repeated<R: PatternRow>(before: &[R], seen: &[u64], row: &R) -> bool
    requires rows { AreOwnRows R.owner R.place before.now }
    requires behind { last_passes (λ r. nat_le (R.owner r) (R.owner row.now)) before.now ≡ true }
    requires seen { AreSeen R.owner (λ r. fingerprint_from (R.group r) (R.text r)) before.now seen.now }
    ensures { result ≡ list_any (λ r. R.owner r == R.owner row.now
        && (R.group r == R.group row.now && is_same_pattern (R.text r) (R.text row.now))) before.now }
{
    let own = own_rows(before, row.account());
    if own.is_empty() {
        return false;
    }
    has_like(own, seen, row)
}

/// Whether one of an account's rows is of the row's campaign and has its pattern. The fingerprints are those of the
/// rows: only where one is equal the patterns are compared.
fn has_like<R: PatternRow>(own: &[R], fingerprints: &[u64], row: &R) -> bool
    requires { fingerprints.now ≡ map (λ r. fingerprint_from (R.group r) (R.text r)) own.now }
    ensures { result
        ≡ list_any (λ r. R.group r == R.group row.now && is_same_pattern (R.text r) (R.text row.now)) own.now }
{
    let wanted = fingerprint(row);
    for (i, other) in fingerprints.iter().enumerate() {
        if *other == wanted && is_like(&own[i], row) {
            return true;
        }
    }
    false
}

/// The fingerprint of a row's pattern, begun from its campaign.
fn fingerprint<R: PatternRow>(row: &R) -> u64
    ensures value { result ≡ fingerprint_from (R.group row.now) (R.text row.now) }
    ensures same { (other : List ℕ) → is_same_pattern other (R.text row.now) ≡ true
        → fingerprint_from (R.group row.now) other ≡ result }
{
    row.pattern().fingerprint(row.campaign())
}

/// Whether a row is of another one's campaign and has its pattern.
fn is_like<R: PatternRow>(other: &R, row: &R) -> bool
    ensures { result ≡ (R.group other.now == R.group row.now && is_same_pattern (R.text other.now) (R.text row.now)) }
{
    other.campaign() == row.campaign() && other.pattern().is_same(row.pattern())
}

/// Adds the fingerprint of a row to those of the rows before it of its account.
pub(crate) fn note<R: PatternRow>(
    before: &[R],
    row: &R,
    seen: &mut Vec<u64>,
) -> Result<(), AllocError>
    requires rows { AreOwnRows R.owner R.place before.now }
    requires behind { last_passes (λ r. nat_le (R.owner r) (R.owner row.now)) before.now ≡ true }
    requires seen { AreSeen R.owner (λ r. fingerprint_from (R.group r) (R.text r)) before.now seen.old.items }
    ensures { OnOk result
        (AreSeen R.owner (λ r. fingerprint_from (R.group r) (R.text r)) (before.now ++ row.now ∷ []) seen.new.items) }
{
    if own_rows(before, row.account()).is_empty() {
        seen.clear();
    }
    seen.push(fingerprint(row))?;
    Ok(())
}

impl PatternRow for Line {
    ghost group = { λ l. l.campaign };

    ghost text = { λ l. l.pattern };

    fn campaign(&self) -> u64 {
        self.campaign
    }

    fn pattern(&self) -> &Pattern {
        &self.pattern
    }
}

impl PatternRow for Negative {
    ghost group = { λ n. n.campaign };

    ghost text = { λ n. n.pattern };

    fn campaign(&self) -> u64 {
        self.campaign
    }

    fn pattern(&self) -> &Pattern {
        &self.pattern
    }
}
