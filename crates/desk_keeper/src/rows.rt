//! The rows of a keeper, as they are changed.

ghost use Rattle.std.specs.Prelude.{◌≡◌, ◌≤◌, ◌+◌, ◌==◌, find, length, IsTrue, OnOk};
ghost use Rattle.std.specs.Vec.{vec_capacity, vec_len};
ghost use Rattle.desk_types.specs.Keys.{placement_key};
ghost use Rattle.desk_types.specs.Sound.{AreInOrder, StandInOrder};
ghost use Rattle.desk_types.specs.Tables.{placement_of, put as put_change, put_all, put_fate};
ghost use Rattle.desk_keeper.specs.RowsValue.{with_fate};

use crate::slots::{place_of_number, put_by};
use desk_types::{
    Account, Batch, BudgetSet, Campaign, Change, Fate, Line, Negative, Placement, Tables,
};
use query_words::List;
use std::alloc::AllocError;
use std::marker::Model;

/// The rows of tables. Contracts see them as the tables, and the room for more rows in each.
#[derive(Drop)]
pub(crate) struct Rows {
    accounts: Vec<Account>,
    campaigns: Vec<Campaign>,
    budgets: Vec<BudgetSet>,
    lines: Vec<Line>,
    negatives: Vec<Negative>,
    placements: Vec<Placement>,
    batches: Vec<Batch>,
}

impl Model for Rows {
    ghost use Rattle.std.specs.Prelude.{◌-◌, min};
    ghost use Rattle.std.specs.Vec.{vec_capacity, vec_len};
    ghost use Rattle.desk_keeper.specs.RowsValue.{RowsValue};

    ghost Value = { RowsValue };

    ghost view = { λ r. record {
      tables = record {
        accounts = r.accounts.items;
        campaigns = r.campaigns.items;
        budgets = r.budgets.items;
        lines = r.lines.items;
        negatives = r.negatives.items;
        placements = r.placements.items;
        batches = r.batches.items;
      };
      room = min (vec_capacity r.accounts - vec_len r.accounts) (min (vec_capacity r.campaigns - vec_len r.campaigns)
          (min (vec_capacity r.budgets - vec_len r.budgets) (min (vec_capacity r.lines - vec_len r.lines)
          (min (vec_capacity r.negatives - vec_len r.negatives)
          (min (vec_capacity r.placements - vec_len r.placements) (vec_capacity r.batches - vec_len r.batches))))));
    } };
}

impl Rows {
    /// The rows of tables. It takes no memory.
    pub(crate) fn of(tables: Tables) -> Rows
        ensures { result.tables ≡ tables }
    {
        Rows {
            accounts: tables.accounts.into_vec(),
            campaigns: tables.campaigns.into_vec(),
            budgets: tables.budgets.into_vec(),
            lines: tables.lines.into_vec(),
            negatives: tables.negatives.into_vec(),
            placements: tables.placements.into_vec(),
            batches: tables.batches.into_vec(),
        }
    }

    /// The tables of these rows. It takes no memory.
    pub(crate) fn into_tables(self) -> Tables
        ensures { result ≡ self.tables }
    {
        Tables {
            accounts: List::from_vec(self.accounts),
            campaigns: List::from_vec(self.campaigns),
            budgets: List::from_vec(self.budgets),
            lines: List::from_vec(self.lines),
            negatives: List::from_vec(self.negatives),
            placements: List::from_vec(self.placements),
            batches: List::from_vec(self.batches),
        }
    }

    /// Makes room for so many more rows in each table. The rows stay as they are.
    pub(crate) fn make_room(&mut self, count: usize) -> Result<(), AllocError>
        ensures tables { self.new.tables ≡ self.old.tables }
        ensures room { OnOk result (count ≤ self.new.room) }
    {
        self.accounts.reserve(count)?;
        self.campaigns.reserve(count)?;
        self.budgets.reserve(count)?;
        self.lines.reserve(count)?;
        self.negatives.reserve(count)?;
        self.placements.reserve(count)?;
        self.batches.reserve(count)
    }

    /// Puts changes, for which there is room, in order.
    pub(crate) fn put_all(&mut self, changes: Vec<Change>, in_order: bool)
        requires in_order { IsTrue in_order → StandInOrder self.old.tables }
        requires room { length changes.items ≤ self.old.room }
        ensures { self.new.tables ≡ put_all self.old.tables changes.items }
    {
        for change in changes {
            self.put(change, in_order);
        }
    }

    /// Puts a change, for which there is room.
    #[tactic(auto, unfolding(desk_types::specs::Tables::put))]
    fn put(&mut self, change: Change, in_order: bool)
        requires in_order { IsTrue in_order → StandInOrder self.old.tables }
        requires room { 1 ≤ self.old.room }
        ensures put { self.new.tables ≡ put_change self.old.tables change }
        ensures room { self.old.room ≤ self.new.room + 1 }
    {
        match change {
            Change::PutAccount(row) => put_by(&mut self.accounts, row, in_order),
            Change::PutCampaign(row) => put_by(&mut self.campaigns, row, in_order),
            Change::PutBudget(row) => put_by(&mut self.budgets, row, in_order),
            Change::PutLine(row) => put_by(&mut self.lines, row, in_order),
            Change::PutNegative(row) => put_by(&mut self.negatives, row, in_order),
            Change::PutPlacement(row) => put_by(&mut self.placements, row, in_order),
            Change::PutBatch(row) => put_by(&mut self.batches, row, in_order),
            Change::PutFate { number, fate } => self.put_fate(number, fate, in_order),
        }
    }

    /// Sets the fate of the placement of a number, where it is there. It takes no memory.
    fn put_fate(&mut self, number: u64, fate: Fate, in_order: bool)
        requires in_order { IsTrue in_order → StandInOrder self.old.tables }
        ensures put { let T = self.old.tables in self.new.tables ≡ put_fate T fate (placement_of T number) }
        ensures room { self.new.room ≡ self.old.room }
    {
        set_fate(&mut self.placements, number, fate, in_order);
    }
}

/// Sets the fate of the first placement of a number, where it is there. It takes no memory.
pub(crate) fn set_fate(rows: &mut Vec<Placement>, number: u64, fate: Fate, in_order: bool)
    requires in_order { IsTrue in_order → AreInOrder placement_key rows.old.items }
    ensures set { rows.new.items ≡ with_fate fate (find (λ p. p.number == number) rows.old.items) rows.old.items }
    ensures capacity { vec_capacity rows.new ≡ vec_capacity rows.old }
    ensures length { vec_len rows.new ≡ vec_len rows.old }
{
    let place = place_of_number(rows, number, in_order);
    if place < rows.len() {
        rows[place].fate = fate;
    }
}
