//! An account's placements of a day, from the latest back.

ghost use Rattle.std.specs.Prelude.{◌≡◌, ◌<◌, ◌≤◌, ◌-◌, ℕ, slice_index_or, length, true};
ghost use Rattle.desk_types.specs.declared.rows.Placement.{Placement};
ghost use Rattle.placements.specs.Linked.{IsLast, is_of, is_of_day};

use crate::placements::Placements;
use desk_types::day_of;

impl Placements {
    /// The number of the last placement of an account, or 0 where it has none.
    pub(crate) fn last_of(&self, account: u64) -> u64
        ensures { IsLast (is_of account) result (length self.now.rows) self.now.rows }
    {
        match self.last.get(&account) {
            Some(number) => *number,
            None => 0,
        }
    }

    /// The number of the last placement before this one that is of the same account and was shown on the day, or 0 where
    /// there is none.
    pub(crate) fn earlier(&self, number: u64, day: u64) -> u64
        requires some { 0 < number }
        requires within { number ≤ length self.now.rows }
        ensures { (account : ℕ) (d : Placement) → is_of account (slice_index_or self.now.rows (number - 1) d) ≡ true
            → IsLast (is_of_day account day) result (number - 1) self.now.rows }
    {
        let before = self.before[number as usize - 1];
        self.on_day(before, day)
    }

    /// The number of the last placement of the day, from this one on back among those of its account; 0 where there is none.
    pub(crate) fn on_day(&self, from: u64, day: u64) -> u64
        requires { from ≤ length self.now.rows }
        ensures { (account bound : ℕ) → bound ≤ length self.now.rows → IsLast (is_of account) from bound self.now.rows
            → IsLast (is_of_day account day) result bound self.now.rows }
    {
        let mut number = from;
        while number > 0 {
            let place = number as usize - 1;
            let shown = day_of(self.rows[place].shown);
            if shown == day {
                return number;
            }
            if shown < day {
                return 0;
            }
            number = self.before[place];
        }
        0
    }
}
