//! The opening of a desk, and its end.

ghost use Rattle.std.specs.Prelude.{◌≡◌, IfErr, IfOk, IfSome};
ghost use Rattle.desk_core.specs.DeskValue.{state};
ghost use Rattle.desk_core.specs.Opened.{IsOpened, IsUnopened};

use crate::desk::Desk;
use crate::journal::Journal;
use crate::ledger::Ledger;
use desk_keeper::{BadTables, CheckFault, Keeper, KeeperFault, check};
use desk_types::Settings;
use std::alloc::Global;

/// Why a desk was not opened. The keeper comes back.
#[derive(Debug, Drop)]
pub enum OpenFault<K> {
    /// The keeper failed.
    Keeper(K),
    /// The tables loaded break this rule first.
    BadTables(K, BadTables),
    /// Memory was wanted.
    NoMemory(K),
}

impl<K: Keeper> Desk<K> {
    /// Opens a desk on the rows that the keeper holds, with an empty journal.
    ///
    /// `OpenFault::Keeper` comes only where the keeper's count rose, and never of one that is sure.
    /// `OpenFault::BadTables` comes exactly where the tables loaded break a rule, but that `OpenFault::NoMemory` may come in
    /// its place. The keeper holds what it held, whatever comes.
    pub fn open(alloc: Global, keeper: K, settings: Settings) -> Result<Desk<K>, OpenFault<K>>
        ensures opened { IfOk result (IsOpened (K.keeper keeper) settings) }
        ensures unopened { IfErr result (IsUnopened K.keeper (K.keeper keeper)) }
    {
        let mut keeper = keeper;
        let base = keeper.faults();
        let opening = match keeper.load() {
            Ok(tables) => tables,
            Err(KeeperFault::Failed) => return Err(OpenFault::Keeper(keeper)),
            Err(KeeperFault::NoMemory) => return Err(OpenFault::NoMemory(keeper)),
        };
        match check(alloc, &opening) {
            Ok(()) => {}
            Err(CheckFault::Bad(bad)) => return Err(OpenFault::BadTables(keeper, bad)),
            Err(CheckFault::NoMemory) => return Err(OpenFault::NoMemory(keeper)),
        }
        let Ok(ledger) = Ledger::load(alloc, &opening, settings) else {
            return Err(OpenFault::NoMemory(keeper));
        };
        Ok(Desk {
            ledger,
            journal: Journal::new(alloc, settings),
            opening,
            base,
            keeper,
        })
    }

    /// The keeper, with the rows of the desk where it tells them.
    pub fn end(self) -> K
        ensures keeper { K.keeper result ≡ self.keeper }
        ensures held { IfSome (K.keeper result).held (λ held. held ≡ (state self).tables) }
    {
        let Desk {
            ledger: _,
            journal: _,
            opening: _,
            base: _,
            keeper,
        } = self;
        keeper
    }
}
