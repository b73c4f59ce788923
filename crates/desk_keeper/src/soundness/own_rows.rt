//! Rows that stand by account and number.

ghost use Rattle.std.specs.Prelude.{◌≡◌, ◌<◌, ◌==◌, ◌&&◌, [], ◌∷◌, ℕ, true, filter, find, length, nat_le};
ghost use Rattle.std.specs.Option.{option_copied};
ghost use Rattle.desk_types.specs.Keys.{is_less_key};
ghost use Rattle.desk_types.specs.Rules.{last_passes};
ghost use Rattle.desk_types.specs.Sound.{AreInOrder};
ghost use Rattle.desk_keeper.specs.OwnRows.{AreOwnRows, own_key};

use desk_types::{Campaign, Line, Negative};

/// A row of an account, that has a number within it.
pub(crate) trait OwnRow: Drop {
    ghost owner: { Self → ℕ };

    ghost place: { Self → ℕ };

    /// The account's number.
    fn account(&self) -> u64
        ensures { result ≡ owner self.now };

    /// Its number within the account.
    fn number(&self) -> u64
        ensures { result ≡ place self.now };
}

/// The rows of an account, where none is of a greater one: they stand last.
pub(crate) fn own_rows<R: OwnRow>(rows: &[R], account: u64) -> &[R]
    requires rows { AreOwnRows R.owner R.place rows.now }
    requires behind { last_passes (λ r. nat_le (R.owner r) account) rows.now ≡ true }
    ensures own { result.now ≡ filter (λ r. R.owner r == account) rows.now }
    ensures last { 0 < length result.now → last_passes (λ r. R.owner r == account) rows.now ≡ true }
{
    let Some((last, _)) = rows.split_last() else {
        return rows;
    };
    if last.account() != account {
        return &rows[rows.len()..];
    }
    let count = last.number() as usize;
    &rows[rows.len() - count..]
}

/// The row of an account and a number, if there is one. It is found by halving.
pub(crate) fn find_own<R: OwnRow>(rows: &[R], account: u64, number: u64) -> Option<&R>
    requires in_order { AreInOrder (own_key R.owner R.place) rows.now }
    ensures { option_copied result ≡ find (λ r. R.owner r == account && R.place r == number) rows.now }
{
    let place = rows.partition_point(|row| is_before(row, account, number));
    let row = rows.get(place)?;
    if row.account() == account && row.number() == number {
        Some(row)
    } else {
        None
    }
}

/// Whether a row stands before the one of an account and a number.
fn is_before<R: OwnRow>(row: &R, account: u64, number: u64) -> bool
    ensures { result ≡ is_less_key (own_key R.owner R.place row.now) (account ∷ number ∷ []) }
{
    row.account() < account || (row.account() == account && row.number() < number)
}

impl OwnRow for Campaign {
    ghost owner = { λ c. c.account };

    ghost place = { λ c. c.number };

    fn account(&self) -> u64 {
        self.account
    }

    fn number(&self) -> u64 {
        self.number
    }
}

impl OwnRow for Line {
    ghost owner = { λ l. l.account };

    ghost place = { λ l. l.number };

    fn account(&self) -> u64 {
        self.account
    }

    fn number(&self) -> u64 {
        self.number
    }
}

impl OwnRow for Negative {
    ghost owner = { λ n. n.account };

    ghost place = { λ n. n.number };

    fn account(&self) -> u64 {
        self.account
    }

    fn number(&self) -> u64 {
        self.number
    }
}
