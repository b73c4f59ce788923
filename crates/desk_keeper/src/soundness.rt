//! Whether tables are sound.

ghost use Rattle.std.specs.Prelude.{◌≡◌, None, IfErr, IfOk, OnOk};
ghost use Rattle.desk_types.specs.Rules.{broken};
ghost use Rattle.desk_keeper.specs.Checking.{IsBroken};

mod accounts;
mod batches;
mod budgets;
mod campaigns;
mod charges;
mod found;
mod lines;
mod negatives;
mod order;
mod own_rows;
mod patterns;
mod placements;

use accounts::first_bad_account;
use batches::first_bad_batch;
use budgets::first_bad_budget;
use campaigns::first_bad_campaign;
use desk_types::{BadTables, Tables};
use lines::first_bad_line;
use negatives::first_bad_negative;
use placements::first_bad_placement;
use std::alloc::{AllocError, Global};

/// Why tables are not taken for sound.
#[derive(Clone, Copy, Debug, PartialEq, Eq)]
pub enum CheckFault {
    /// They break a rule: the first one, of the first row of the first table that breaks one.
    Bad(BadTables),
    /// Memory was wanted.
    NoMemory,
}

/// Whether the tables are sound, or the rule that is broken first.
pub fn check(alloc: Global, tables: &Tables) -> Result<(), CheckFault>
    ensures sound { OnOk result (broken tables.now ≡ None) }
    ensures bad { IfErr result (IsBroken tables.now) }
{
    match first_broken(alloc, tables) {
        Ok(None) => Ok(()),
        Ok(Some(bad)) => Err(CheckFault::Bad(bad)),
        Err(AllocError) => Err(CheckFault::NoMemory),
    }
}

/// The rule that the tables break first, if they break one. A table is looked at only where no row before it is bad.
#[tactic(auto, unfolding(desk_types::specs::Rules::broken))]
fn first_broken(alloc: Global, tables: &Tables) -> Result<Option<BadTables>, AllocError>
    ensures { IfOk result (λ found. found ≡ broken tables.now) }
{
    if let Some(bad) = first_bad_account(tables.accounts.as_slice()) {
        return Ok(Some(bad));
    }
    if let Some(bad) = first_bad_campaign(tables, alloc)? {
        return Ok(Some(bad));
    }
    if let Some(bad) = first_bad_budget(tables) {
        return Ok(Some(bad));
    }
    if let Some(bad) = first_bad_line(tables, alloc)? {
        return Ok(Some(bad));
    }
    if let Some(bad) = first_bad_negative(tables, alloc)? {
        return Ok(Some(bad));
    }
    if let Some(bad) = first_bad_placement(tables, alloc)? {
        return Ok(Some(bad));
    }
    Ok(first_bad_batch(tables))
}
