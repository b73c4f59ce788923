//! The putting of changes into the rows.

ghost use Rattle.std.specs.Prelude.{◌≡◌, ◌<◌, ◌≤◌, ◌+◌, ◌-◌, ◌++◌, ◌∷◌, ◌^◌, [], length, map, IsOk, IsTrue, OnOk};
ghost use Rattle.std.specs.List.{list_any};
ghost use Rattle.accounts.specs.AtHome.{CanBePut};
ghost use Rattle.accounts.specs.BookValue.{HasRoom as HasRoomInBook};
ghost use Rattle.accounts.specs.Planned.{is_of_catalogue};
ghost use Rattle.desk_types.specs.declared.tables.Change.{Change};
ghost use Rattle.desk_types.specs.Tables.{put as put_change, put_all, put_fate, placement_of};
ghost use Rattle.desk_core.specs.LedgerValue.{HasRoom};
ghost use Rattle.desk_core.specs.Planned.{CanBePutIn, changes_catalogue, listed, needs_no_room, with_changes};
ghost use Rattle.placements.specs.PlacementsValue.{AreNext, IsNext};

use crate::ledger::Ledger;
use crate::plan::Changes;
use desk_types::{Change, Fate, Placement};
use query_words::List;
use std::alloc::AllocError;

impl Ledger {
    /// Makes room for changes in the tables that they put into. The rows stay as they are, also where memory is
    /// wanted. No change and a fate need no room.
    pub fn make_room(&mut self, changes: &Changes) -> Result<(), AllocError>
        requires can_be_put { CanBePutIn self.old.state.tables changes.now }
        ensures state { self.new.state ≡ self.old.state }
        ensures room { OnOk result (HasRoom self.new.spare changes.now) }
        ensures succeeds { IsTrue (needs_no_room changes.now) → IsOk result }
    {
        match changes {
            Changes::Nothing | Changes::Fate { .. } => Ok(()),
            Changes::Placed(list) => self.placements.make_room(list.as_slice().len() as u64),
            Changes::Catalogue(list) => self.make_room_in_book(list),
        }
    }

    /// Makes room for changes of the catalogue.
    fn make_room_in_book(&mut self, list: &List<Change>) -> Result<(), AllocError>
        requires can_be_put { CanBePut self.old.state.tables list.now }
        ensures state { self.new.state ≡ self.old.state }
        ensures room { OnOk result (HasRoomInBook self.new.spare.book list.now) }
    {
        self.book.make_room_for_all(list.as_slice())
    }

    /// Puts the changes of an accepted call, for which there is room. The edition rises where they change the
    /// catalogue. It takes no memory.
    pub fn accept(&mut self, changes: Changes)
        requires can_be_put { CanBePutIn self.old.state.tables changes }
        requires room { HasRoom self.old.spare changes }
        requires edition { self.old.state.edition < 2 ^ 64 - 1 }
        ensures { self.new.state ≡ with_changes self.old.state changes }
    {
        let rises = changes_catalogue(&changes);
        self.put_changes(changes);
        if rises {
            self.edition += 1;
        }
    }

    /// Puts changes, in order.
    #[tactic(auto, unfolding(desk_types::specs::Tables::put_all, desk_types::specs::Tables::put))]
    fn put_changes(&mut self, changes: Changes)
        requires can_be_put { CanBePutIn self.old.state.tables changes }
        requires room { HasRoom self.old.spare changes }
        ensures { self.new.state ≡ record self.old.state { tables = put_all self.old.state.tables (listed changes) } }
    {
        match changes {
            Changes::Nothing => {}
            Changes::Fate { number, fate } => self.put_fate(number, fate),
            Changes::Placed(list) => self.show_all(list.as_slice()),
            Changes::Catalogue(list) => self.put_in_book(list),
        }
    }

    /// Puts changes of the catalogue, in order.
    fn put_in_book(&mut self, list: List<Change>)
        requires can_be_put { CanBePut self.old.state.tables list }
        requires room { HasRoomInBook self.old.spare.book list }
        ensures { self.new.state ≡ record self.old.state { tables = put_all self.old.state.tables list } }
    {
        self.book.put_all(list);
    }

    /// Shows placements, in order.
    fn show_all(&mut self, list: &[Placement])
        requires next { AreNext self.old.state.tables.placements list.now }
        requires room { length list.now ≤ self.old.spare.placements }
        ensures { self.new.state ≡ record self.old.state {
          tables = put_all self.old.state.tables (map Change.PutPlacement list.now);
        } }
    {
        for placement in list {
            self.show(*placement);
        }
    }

    /// Shows a placement.
    #[tactic(auto, unfolding(desk_types::specs::Tables::put))]
    fn show(&mut self, row: Placement)
        requires next { IsNext self.old.state.tables.placements row }
        requires room { 1 ≤ self.old.spare.placements }
        ensures state { self.new.state ≡ record self.old.state {
          tables = put_change self.old.state.tables (Change.PutPlacement row);
        } }
        ensures rows { self.new.state.tables.placements ≡ self.old.state.tables.placements ++ row ∷ [] }
        ensures left { self.old.spare.placements ≤ self.new.spare.placements + 1 }
    {
        self.placements.show(row);
    }

    /// Sets the fate of the placement of this number, where it is there.
    #[tactic(auto, using(crate::proofs::Settled::fate_put))]
    fn put_fate(&mut self, number: u64, fate: Fate)
        ensures { let T = self.old.state.tables in
            self.new.state ≡ record self.old.state { tables = put_fate T fate (placement_of T number) } }
    {
        self.placements.put_fate(number, fate);
    }
}

/// Whether changes change the catalogue.
fn changes_catalogue(changes: &Changes) -> bool
    ensures { result ≡ changes_catalogue changes.now }
{
    match changes {
        Changes::Nothing | Changes::Fate { .. } | Changes::Placed(_) => false,
        Changes::Catalogue(list) => has_catalogue(list.as_slice()),
    }
}

/// Whether one of these changes is of the catalogue.
fn has_catalogue(list: &[Change]) -> bool
    ensures { result ≡ list_any is_of_catalogue list.now }
{
    list.iter().any(|change| is_of_catalogue(change))
}

/// Whether a change is of the catalogue: of an account, a campaign, a line or a negative.
fn is_of_catalogue(change: &Change) -> bool
    ensures { result ≡ is_of_catalogue change.now }
{
    matches!(
        change,
        Change::PutAccount(_) | Change::PutCampaign(_) | Change::PutLine(_) | Change::PutNegative(_)
    )
}
