//! The putting of changes into the book.

ghost use Rattle.std.specs.Prelude.{◌≡◌, false, ℕ, ◌+◌, ◌<◌, ◌≤◌, length, All, OnOk};
ghost use Rattle.desk_types.specs.declared.tables.Change.{Change};
ghost use Rattle.desk_types.specs.Tables.{put_all, put as put_change};
ghost use Rattle.accounts.specs.AtHome.{AreAtHome, HasOwner, IsAtHome};
ghost use Rattle.accounts.specs.BookValue.{HasLeft, HasLeftSpare, HasRoom, HasRoomFor, HasSpareFor, is_of_account, owner_of as the_owner_of};
ghost use Rattle.accounts.specs.Shelved.{AreShelvedInOrder, HasRowsOf, put_on};

use crate::book::Book;
use crate::plan::Plan;
use crate::shelf::Shelf;
use desk_types::keyed::put;
use desk_types::{Account, Change, Reply};
use query_words::List;
use std::alloc::AllocError;

impl Shelf {
    /// Makes room for so many rows in the table that a change puts into. The rows stay as they are.
    pub(crate) fn make_room_for(&mut self, change: &Change, count: usize) -> Result<(), AllocError>
        ensures rows { HasRowsOf self.old self.new }
        ensures room { OnOk result (HasSpareFor self.new.spare count change.now) }
        ensures kept { HasLeftSpare 0 self.old.spare self.new.spare }
    {
        match change {
            Change::PutCampaign(_) => self.campaigns.reserve(count),
            Change::PutBudget(_) => self.budgets.reserve(count),
            Change::PutLine(_) => self.lines.make_room(count),
            Change::PutNegative(_) => self.negatives.reserve(count),
            Change::PutBatch(_) => self.batches.reserve(count),
            Change::PutAccount(_) | Change::PutPlacement(_) | Change::PutFate { .. } => Ok(()),
        }
    }

    /// Puts a change to the rows of the account of this number, for which there is room. It takes no memory.
    pub(crate) fn put(&mut self, change: Change)
        requires in_order { AreShelvedInOrder self.old }
        requires room { HasSpareFor self.old.spare 1 change }
        ensures put { HasRowsOf (put_on self.old change) self.new }
        ensures left { HasLeftSpare 1 self.old.spare self.new.spare }
    {
        match change {
            Change::PutAccount(row) => self.account = row,
            Change::PutCampaign(row) => put(&mut self.campaigns, row),
            Change::PutBudget(row) => put(&mut self.budgets, row),
            Change::PutLine(row) => self.lines.put(row),
            Change::PutNegative(row) => put(&mut self.negatives, row),
            Change::PutBatch(row) => put(&mut self.batches, row),
            Change::PutPlacement(_) | Change::PutFate { .. } => {}
        }
    }
}

impl Book {
    /// Makes room for the changes of a plan. The rows stay as they are, also where memory is wanted.
    pub fn make_room(&mut self, plan: &Plan) -> Result<(), AllocError>
        requires owners { All (HasOwner self.old.tables) plan.now.changes }
        ensures tables { self.new.tables ≡ self.old.tables }
        ensures room { OnOk result (HasRoom self.new.room plan.now.changes) }
    {
        self.make_room_for_all(plan.changes.as_slice())
    }

    /// Makes room for changes. The rows stay as they are, also where memory is wanted.
    pub fn make_room_for_all(&mut self, changes: &[Change]) -> Result<(), AllocError>
        requires owners { All (HasOwner self.old.tables) changes.now }
        ensures tables { self.new.tables ≡ self.old.tables }
        ensures room { OnOk result (HasRoom self.new.room changes.now) }
    {
        for change in changes {
            self.make_room_for(change, changes.len())?;
        }
        Ok(())
    }

    /// Makes room for so many rows in the table that a change puts into.
    #[tactic(auto, using(crate::proofs::Committing::room_account))]
    pub(crate) fn make_room_for(&mut self, change: &Change, count: usize) -> Result<(), AllocError>
        requires owner { HasOwner self.old.tables change.now }
        ensures tables { self.new.tables ≡ self.old.tables }
        ensures room { OnOk result (HasRoomFor self.new.room count change.now) }
        ensures kept { HasLeft 0 self.old.room self.new.room }
    {
        if puts_account(change) {
            self.make_account_room(count)
        } else {
            self.make_row_room(change, count)
        }
    }

    /// Makes room for so many accounts.
    fn make_account_room(&mut self, count: usize) -> Result<(), AllocError>
        ensures tables { self.new.tables ≡ self.old.tables }
        ensures room { OnOk result (count ≤ self.new.room.accounts) }
        ensures kept { HasLeft 0 self.old.room self.new.room }
    {
        self.shelves.reserve(count)
    }

    /// Makes room for so many rows in the table of an account that a change puts into.
    fn make_row_room(&mut self, change: &Change, count: usize) -> Result<(), AllocError>
        requires owner { HasOwner self.old.tables change.now }
        requires row { is_of_account change.now ≡ false }
        ensures tables { self.new.tables ≡ self.old.tables }
        ensures room { OnOk result (HasRoomFor self.new.room count change.now) }
        ensures kept { HasLeft 0 self.old.room self.new.room }
    {
        let _ = &self.shelves;
        let place = owner_of(change) as usize - 1;
        self.shelves[place].make_room_for(change, count)
    }

    /// Puts the changes of a plan, for which there is room, in order, and gives its reply. It takes no memory.
    pub fn commit(&mut self, plan: Plan) -> Reply
        requires at_home { AreAtHome self.old.tables plan.changes }
        requires room { HasRoom self.old.room plan.changes }
        ensures tables { self.new.tables ≡ put_all self.old.tables plan.changes }
        ensures reply { result ≡ plan.reply }
    {
        self.put_all(plan.changes);
        plan.reply
    }

    /// Puts changes, for which there is room, in order. It takes no memory.
    pub fn put_all(&mut self, changes: List<Change>)
        requires at_home { AreAtHome self.old.tables changes }
        requires room { HasRoom self.old.room changes }
        ensures { self.new.tables ≡ put_all self.old.tables changes }
    {
        for change in changes.into_vec() {
            self.put(change);
        }
    }

    /// Puts a change.
    pub(crate) fn put(&mut self, change: Change)
        requires at_home { IsAtHome self.old.tables change }
        requires room { HasRoomFor self.old.room 1 change }
        ensures tables { self.new.tables ≡ put_change self.old.tables change }
        ensures left { HasLeft 1 self.old.room self.new.room }
    {
        let count = self.shelves.len();
        let place = owner_of(&change) as usize - 1;
        if place < count {
            self.shelves[place].put(change);
        } else {
            self.put_new(change);
        }
    }

    /// Puts the next account.
    fn put_new(&mut self, change: Change)
        requires at_home { IsAtHome self.old.tables change }
        requires new { length self.old.tables.accounts < the_owner_of change }
        requires room { HasRoomFor self.old.room 1 change }
        ensures tables { self.new.tables ≡ put_change self.old.tables change }
        ensures left { HasLeft 1 self.old.room self.new.room }
    {
        let _ = &self.shelves;
        match change {
            Change::PutAccount(row) => self.push(row),
            _ => unreachable!(),
        }
    }

    /// Puts an account behind the others.
    fn push(&mut self, row: Account)
        requires next { row.number ≡ length self.old.tables.accounts + 1 }
        requires room { 1 ≤ self.old.room.accounts }
        ensures tables { self.new.tables ≡ put_change self.old.tables (Change.PutAccount row) }
        ensures left { HasLeft 1 self.old.room self.new.room }
    {
        let shelf = Shelf::new(self.alloc(), row);
        let Ok(()) = self.shelves.push(shelf) else {
            unreachable!()
        };
    }
}

/// The account of the row that a change puts.
fn owner_of(change: &Change) -> u64
    ensures { result ≡ the_owner_of change.now }
{
    match change {
        Change::PutAccount(row) => row.number,
        Change::PutCampaign(row) => row.account,
        Change::PutBudget(row) => row.account,
        Change::PutLine(row) => row.account,
        Change::PutNegative(row) => row.account,
        Change::PutPlacement(row) => row.account,
        Change::PutBatch(row) => row.account,
        Change::PutFate { .. } => 0,
    }
}

/// Whether a change puts an account, and not a row of one.
fn puts_account(change: &Change) -> bool
    ensures { result ≡ is_of_account change.now }
{
    matches!(change, Change::PutAccount(_))
}
