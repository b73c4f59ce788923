//! The placements.

ghost use Rattle.std.specs.Prelude.{◌≡◌, ◌<◌, ◌≤◌, ◌+◌, ◌-◌, ◌^◌, ◌==◌, ◌||◌, ◌++◌, ◌∷◌, [], ℕ, is_none, nat_lt, slice_index_or, length, IfOk, IsTrue, MatchOption, OnOk};
ghost use Rattle.std.specs.Option.{option_copied};
ghost use Rattle.desk_types.specs.declared.rows.Placement.{Placement};
ghost use Rattle.desk_types.specs.Keys.{placement_key};
ghost use Rattle.desk_types.specs.Tables.{put_row};
ghost use Rattle.placements.specs.Clicks.{clicked, fated, found, is_settled};
ghost use Rattle.placements.specs.PlacementsValue.{AreShownInTurn, IsNext};

use crate::clicked::{Clicked, is_escrowed};
use desk_types::{Fate, Placement};
use query_words::List;
use std::alloc::{AllocError, Global};
use std::collections::HashMap;
use std::marker::Model;

/// The placements of a desk, by number. Contracts see them as the list of rows, and how many more can be shown without
/// memory.
#[derive(Drop)]
pub struct Placements {
    pub(crate) rows: Vec<Placement>,
    /// For each row the number of the one before it of its account, or 0.
    pub(crate) before: Vec<u64>,
    /// For each account that was shown the number of its last row.
    pub(crate) last: HashMap<u64, u64>,
}

impl Model for Placements {
    ghost use Rattle.std.specs.Prelude.{◌-◌, min, nat_eq, unwrap_or};
    ghost use Rattle.std.specs.Vec.{vec_capacity, vec_len};
    ghost use Rattle.std.specs.HashMap.{get, spare};
    ghost use Rattle.placements.specs.PlacementsValue.{PlacementsValue};
    ghost use Rattle.placements.specs.Linked.{AreKept};

    ghost Value = { PlacementsValue };

    ghost view = { λ p. record {
      rows = p.rows.items;
      spare = min (vec_capacity p.rows - vec_len p.rows)
          (min (vec_capacity p.before - vec_len p.before) (spare p.last));
    } };

    ghost invariant = { λ p. AreKept p.rows.items p.before.items (λ account. unwrap_or (get nat_eq p.last account) 0) };
}

impl Placements {
    /// Placements of a desk that has shown none. It takes no memory.
    pub fn new(alloc: Global) -> Placements
        ensures { result.rows ≡ [] }
    {
        Placements {
            rows: Vec::new(alloc),
            before: Vec::new(alloc),
            last: HashMap::new(alloc),
        }
    }

    /// The placements of a desk that has shown these, at its moment in seconds. For now the moment is not looked at: whether
    /// a deadline has passed is asked with the moment of each call.
    pub fn load(
        alloc: Global,
        rows: List<Placement>,
        _moment: u64,
    ) -> Result<Placements, AllocError>
        requires in_turn { AreShownInTurn rows }
        ensures { IfOk result (λ loaded. loaded.rows ≡ rows) }
    {
        let mut placements = Placements::new(alloc);
        for row in rows.as_slice() {
            placements.make_room(1)?;
            placements.show(*row);
        }
        Ok(placements)
    }

    /// Makes room for so many more placements. The rows stay as they are, also where memory is wanted.
    pub fn make_room(&mut self, more: u64) -> Result<(), AllocError>
        ensures rows { self.new.rows ≡ self.old.rows }
        ensures room { OnOk result (more ≤ self.new.spare) }
        ensures spare { self.old.spare ≤ self.new.spare }
    {
        let more = more as usize;
        self.rows.reserve(more)?;
        self.before.reserve(more)?;
        self.last.reserve(more)
    }

    /// Where they take their memory.
    pub fn alloc(&self) -> Global {
        *self.rows.allocator()
    }

    /// How many placements there are.
    pub fn count(&self) -> u64
        ensures count { result ≡ length self.now.rows }
        ensures below { result < 2 ^ 63 }
        ensures in_turn { AreShownInTurn self.now.rows }
    {
        self.rows.len() as u64
    }

    /// Shows the next placement, for which there is room. It takes no memory.
    pub fn show(&mut self, row: Placement)
        requires next { IsNext self.old.rows row }
        requires room { 1 ≤ self.old.spare }
        ensures rows { self.new.rows ≡ self.old.rows ++ row ∷ [] }
        ensures put { self.new.rows ≡ put_row placement_key row self.old.rows }
        ensures spare { self.old.spare ≤ self.new.spare + 1 }
    {
        let Ok(before) = self.last.insert(row.account, row.number) else {
            unreachable!()
        };
        let Ok(()) = self.before.push(before.unwrap_or(0)) else {
            unreachable!()
        };
        let Ok(()) = self.rows.push(row) else {
            unreachable!()
        };
    }

    /// The placement of a number, if there is one: from 1 up to the count. It is found without a search.
    pub fn get(&self, number: u64) -> Option<&Placement>
        ensures found { option_copied result ≡ found number self.now.rows }
        ensures none { is_none result ≡ (number == 0 || nat_lt (length self.now.rows) number) }
    {
        let _ = &self.rows;
        self.row(number)
    }

    /// The row of a number, by its place.
    pub(crate) fn row(&self, number: u64) -> Option<&Placement>
        ensures { MatchOption result (0 < number → length self.now.rows < number)
            (λ row. (0 < number) × (number ≤ length self.now.rows)
            × (row.now ≡ slice_index_or self.now.rows (number - 1) row.now)) }
    {
        let place = number.checked_sub(1)?;
        self.rows.get(place as usize)
    }

    /// What a click on a number does at a moment, in seconds.
    pub fn judge_click(&self, number: u64, moment: u64) -> Clicked
        ensures { result ≡ clicked moment (found number self.now.rows) }
    {
        match self.get(number) {
            None => Clicked::Unknown,
            Some(row) if is_escrowed(row, moment) => Clicked::Settles,
            Some(_) => Clicked::Same,
        }
    }

    /// Settles a placement by a click at a moment, in seconds.
    pub fn click(&mut self, number: u64, moment: u64)
        requires { clicked moment (found number self.old.rows) ≡ Clicked.Settles }
        ensures rows { self.new.rows ≡ fated (Fate.Settled moment) (found number self.old.rows) self.old.rows }
        ensures spare { self.new.spare ≡ self.old.spare }
    {
        self.put_fate(number, Fate::Settled(moment));
    }

    /// Credits a placement that a click settled, at a moment in seconds.
    pub fn credit(&mut self, number: u64, moment: u64)
        requires { IsTrue (is_settled (found number self.old.rows)) }
        ensures rows { (p : Placement) (settled : ℕ) → found number self.old.rows ≡ Some p → p.fate ≡ Fate.Settled settled
            → self.new.rows ≡ fated (Fate.Credited settled moment) (Some p) self.old.rows }
        ensures spare { self.new.spare ≡ self.old.spare }
    {
        let Some(row) = self.get(number) else {
            unreachable!()
        };
        let Fate::Settled(settled) = row.fate else {
            unreachable!()
        };
        self.put_fate(number, Fate::Credited(settled, moment));
    }

    /// Sets the fate of the placement of a number, where there is one.
    pub fn put_fate(&mut self, number: u64, fate: Fate)
        ensures rows { self.new.rows ≡ fated fate (found number self.old.rows) self.old.rows }
        ensures spare { self.new.spare ≡ self.old.spare }
    {
        if number == 0 || number > self.rows.len() as u64 {
            return;
        }
        let place = number as usize - 1;
        self.rows[place].fate = fate;
    }
}
