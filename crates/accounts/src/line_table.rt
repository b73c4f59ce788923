//! The lines of an account, in which the one of a pattern is looked for.

ghost use Rattle.std.specs.Prelude.{◌≡◌, ◌+◌, ◌≤◌, ◌==◌, ◌&&◌, ◌++◌, [], ◌∷◌, length, find, OnOk};
ghost use Rattle.std.specs.List.{insert as inserted, position};
ghost use Rattle.std.specs.Option.{option_copied};
ghost use Rattle.desk_types.specs.Keys.{line_key};
ghost use Rattle.desk_types.specs.Sound.{AreInOrder};
ghost use Rattle.desk_types.specs.Tables.{put_row};
ghost use Rattle.match_types.specs.Tests.{is_same_pattern};
ghost use Rattle.accounts.specs.BookValue.{line_fingerprint};

use desk_types::Line;
use desk_types::keyed::{Slot, slot_of};
use match_types::Pattern;
use std::alloc::{AllocError, Global};
use std::marker::Model;

/// Lines of one account. Contracts see them as their rows, and the room for more.
#[derive(Drop)]
pub(crate) struct LineTable {
    rows: Vec<Line>,
    /// The fingerprint of each row's pattern, begun from its campaign. Rows are large: a search reads these first.
    fingerprints: Vec<u64>,
}

impl Model for LineTable {
    ghost use Rattle.std.specs.Prelude.{◌≡◌, ◌-◌, map, min};
    ghost use Rattle.std.specs.Vec.{vec_capacity, vec_len};
    ghost use Rattle.accounts.specs.BookValue.{LinesValue, line_fingerprint};

    ghost Value = { LinesValue };

    ghost view = { λ t. record {
      rows = t.rows.items;
      spare = min (vec_capacity t.rows - vec_len t.rows) (vec_capacity t.fingerprints - vec_len t.fingerprints);
    } };

    ghost invariant = { λ t. t.fingerprints.items ≡ map line_fingerprint t.rows.items };
}

impl LineTable {
    /// No lines. It takes no memory.
    pub(crate) fn new(alloc: Global) -> LineTable
        ensures { result.rows ≡ [] }
    {
        LineTable {
            rows: Vec::new(alloc),
            fingerprints: Vec::new(alloc),
        }
    }

    /// The rows, in order.
    pub(crate) fn as_slice(&self) -> &[Line]
        ensures { result.now ≡ self.now.rows }
    {
        &self.rows
    }

    /// The rows of this table. It takes no memory.
    pub(crate) fn into_rows(self) -> Vec<Line>
        ensures { result.items ≡ self.rows }
    {
        let LineTable { rows, .. } = self;
        rows
    }

    /// The first line that is of the campaign and has the pattern.
    pub(crate) fn line_like(&self, campaign: u64, pattern: &Pattern) -> Option<&Line>
        ensures { option_copied result
            ≡ find (λ l. l.campaign == campaign && is_same_pattern l.pattern pattern.now) self.now.rows }
    {
        let first = first_place(&self.fingerprints, pattern.fingerprint(campaign))?;
        let rows = &self.rows[first..];
        line_like(rows, campaign, pattern)
    }

    /// Makes room for so many lines. The rows stay as they are.
    pub(crate) fn make_room(&mut self, count: usize) -> Result<(), AllocError>
        ensures rows { self.new.rows ≡ self.old.rows }
        ensures room { OnOk result (count ≤ self.new.spare) }
        ensures kept { self.old.spare ≤ self.new.spare }
    {
        self.rows.reserve(count)?;
        self.fingerprints.reserve(count)
    }

    /// Puts a line by its key. It takes no memory.
    pub(crate) fn put(&mut self, row: Line)
        requires in_order { AreInOrder line_key self.old.rows }
        requires room { 1 ≤ self.old.spare }
        ensures put { self.new.rows ≡ put_row line_key row self.old.rows }
        ensures left { self.old.spare ≤ self.new.spare + 1 }
    {
        match slot_of(&self.rows, &row) {
            Slot::Taken(place) => {
                self.fingerprints[place] = row.pattern.fingerprint(row.campaign);
                self.rows[place] = row;
            }
            Slot::Free(place) => self.insert(place, row),
        }
    }

    /// Puts a line behind the others.
    pub(crate) fn push(&mut self, row: Line) -> Result<(), AllocError>
        ensures { OnOk result (self.new.rows ≡ self.old.rows ++ row ∷ []) }
    {
        self.make_room(1)?;
        let count = self.rows.len();
        self.insert(count, row);
        Ok(())
    }

    /// Puts a line before the one at this place, or last. It takes no memory.
    fn insert(&mut self, place: usize, row: Line)
        requires place { place ≤ length self.old.rows }
        requires room { 1 ≤ self.old.spare }
        ensures rows { self.new.rows ≡ inserted self.old.rows place row }
        ensures left { self.old.spare ≤ self.new.spare + 1 }
    {
        let fingerprint = row.pattern.fingerprint(row.campaign);
        let Ok(()) = self.fingerprints.insert(place, fingerprint) else {
            unreachable!()
        };
        let Ok(()) = self.rows.insert(place, row) else {
            unreachable!()
        };
    }
}

/// The place of the first of these numbers that is the wanted one.
fn first_place(numbers: &[u64], wanted: u64) -> Option<usize>
    ensures { result ≡ position (λ number. number == wanted) numbers.now }
{
    numbers.iter().position(|number| *number == wanted)
}

/// The first of these lines that is of the campaign and has the pattern.
fn line_like<'a>(lines: &'a [Line], campaign: u64, pattern: &Pattern) -> Option<&'a Line>
    ensures { option_copied result
        ≡ find (λ l. l.campaign == campaign && is_same_pattern l.pattern pattern.now) lines.now }
{
    lines.iter().find(|row| row.campaign == campaign && row.pattern.is_same(pattern))
}
