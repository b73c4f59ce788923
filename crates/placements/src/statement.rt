//! Statements of an account's placements.

ghost use Rattle.std.specs.Prelude.{◌≡◌, filter, length, nat_le, reverse, take, drop, IfOk};
ghost use Rattle.desk_types.specs.Reports.{is_stated};
ghost use Rattle.placements.specs.Linked.{is_of_day};

use crate::placements::Placements;
use desk_types::Placement;
use desk_types::limits::STATEMENT_MAX;
use query_words::List;
use std::alloc::AllocError;

impl Placements {
    /// The first placements of an account that were shown on a day and have at least this number, as many as a statement
    /// has. Only the account's own are looked at.
    pub fn of_account(
        &self,
        account: u64,
        day: u64,
        from: u64,
    ) -> Result<List<Placement>, AllocError>
        ensures { IfOk result (λ list. list ≡ take STATEMENT_MAX (filter (is_stated account day from) self.now.rows)) }
    {
        let later = self
            .count_from(account, day, from)
            .saturating_sub(STATEMENT_MAX as usize);
        let mut rows = self.rows_from(account, day, from, later)?;
        rows.reverse();
        Ok(List::from_vec(rows))
    }

    /// How many placements of an account were shown on a day and have at least this number.
    fn count_from(&self, account: u64, day: u64, from: u64) -> usize
        ensures { result ≡ length (filter (λ p. nat_le from p.number)
            (reverse (filter (is_of_day account day) self.now.rows))) }
    {
        self.shown_on(account, day)
            .filter(|row| from <= row.number)
            .count()
    }

    /// These placements, the latest first, without so many of the latest.
    fn rows_from(
        &self,
        account: u64,
        day: u64,
        from: u64,
        later: usize,
    ) -> Result<Vec<Placement>, AllocError>
        ensures { IfOk result (λ rows. rows.items ≡ drop later (filter (λ p. nat_le from p.number)
            (reverse (filter (is_of_day account day) self.now.rows)))) }
    {
        self.shown_on(account, day)
            .filter(|row| from <= row.number)
            .skip(later)
            .copied()
            .collect(self.alloc())
    }
}
