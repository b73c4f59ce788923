//! Going over an account's placements of a day.

ghost use Rattle.std.specs.Prelude.{◌≡◌, ◌<◌, ◌^◌, filter, length, reverse};
ghost use Rattle.std.specs.Iterator.{YieldsFirstRef, item_count};
ghost use Rattle.placements.specs.Linked.{is_of_day};

use crate::placements::Placements;
use desk_types::Placement;
use std::marker::Model;

/// An account's placements of a day, the latest first. Contracts see it as the list of those that are left.
#[derive(Drop)]
pub struct ShownOn<'a> {
    placements: &'a Placements,
    account: u64,
    day: u64,
    /// The number of the next one, or 0 where none is left.
    number: u64,
}

impl<'a> Model for ShownOn<'a> {
    ghost use Rattle.std.specs.Prelude.{List, filter, reverse, take};
    ghost use Rattle.desk_types.specs.declared.rows.Placement.{Placement};

    ghost Value = { List Placement };

    ghost use Rattle.placements.specs.Linked.{IsThere, is_of_day};

    ghost view = { λ s. reverse (filter (is_of_day s.account s.day) (take s.number s.placements.now.rows)) };

    ghost invariant = { λ s. IsThere (is_of_day s.account s.day) s.number s.placements.now.rows };
}

impl Placements {
    /// The placements of an account that were shown on a day, the latest first. No placement of another account is looked
    /// at, and none of an earlier day but one.
    pub fn shown_on(&self, account: u64, day: u64) -> ShownOn<'_>
        ensures list { result ≡ reverse (filter (is_of_day account day) self.now.rows) }
        ensures below { length result < 2 ^ 63 }
    {
        let _ = &self.rows;
        let last = self.last_of(account);
        ShownOn {
            placements: self,
            account,
            day,
            number: self.on_day(last, day),
        }
    }
}

impl<'a> Iterator for ShownOn<'a> {
    type Item = &'a Placement;

    ghost next_gives = { YieldsFirstRef (λ left. left) };

    ghost remaining = { item_count (λ left. left) };

    fn next(&mut self) -> Option<&'a Placement> {
        let placements = self.placements;
        let row = placements.row(self.number)?;
        self.number = placements.earlier(self.number, self.day);
        Some(row)
    }
}
