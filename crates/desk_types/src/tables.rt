//! The tables of a desk's rows, and changes to them.

ghost use Rattle.std.specs.Prelude.{◌≡◌, map};
ghost use Rattle.desk_types.specs.Opening.{fate_moment, greatest, latest, placement_moment};
ghost use Rattle.desk_types.specs.Tables.{no_rows};

use crate::rows::{Account, Batch, BudgetSet, Campaign, Fate, Line, Negative, Placement};
use query_words::{List, NoMemory, Twin};
use std::alloc::Global;

/// The rows of a desk, each table in the order of its keys.
#[derive(Debug, Drop)]
pub struct Tables {
    /// The accounts, by number.
    pub accounts: List<Account>,
    /// The campaigns, by account and number.
    pub campaigns: List<Campaign>,
    /// The budget settings, by account, campaign and day.
    pub budgets: List<BudgetSet>,
    /// The lines, by account and number.
    pub lines: List<Line>,
    /// The negatives, by account and number.
    pub negatives: List<Negative>,
    /// The placements, by number.
    pub placements: List<Placement>,
    /// The batches, by account and number.
    pub batches: List<Batch>,
}

/// A change to the tables. A row that is put takes the place of the one with its key, or else goes
/// where its key stands in order.
#[derive(Debug, Drop)]
pub enum Change {
    /// Puts an account.
    PutAccount(Account),
    /// Puts a campaign.
    PutCampaign(Campaign),
    /// Puts a budget setting.
    PutBudget(BudgetSet),
    /// Puts a line.
    PutLine(Line),
    /// Puts a negative.
    PutNegative(Negative),
    /// Puts a placement.
    PutPlacement(Placement),
    /// Puts a batch.
    PutBatch(Batch),
    /// Sets the fate of a placement, where it is there.
    PutFate {
        /// The placement's number.
        number: u64,
        /// What became of it.
        fate: Fate,
    },
}

/// The first rule that tables break, of the first row of the first table that breaks one.
#[derive(Clone, Copy, Debug, PartialEq, Eq)]
pub struct BadTables {
    /// The rule's number, 1 to 9.
    pub rule: u64,
    /// The table's number, 1 to 7, in the order of `Tables`.
    pub table: u64,
    /// The row's place in its table, from 1.
    pub row: u64,
}

impl Tables {
    /// Tables without rows. It takes no memory.
    pub fn new(alloc: Global) -> Tables
        ensures { result ≡ no_rows }
    {
        Tables {
            accounts: List::new(alloc),
            campaigns: List::new(alloc),
            budgets: List::new(alloc),
            lines: List::new(alloc),
            negatives: List::new(alloc),
            placements: List::new(alloc),
            batches: List::new(alloc),
        }
    }

    /// The last moment that the rows tell, in seconds: the greatest of those at which budgets were set, and of those at
    /// which placements were shown, settled and credited, or 0.
    #[tactic(auto, unfolding(crate::specs::Opening::latest))]
    pub fn latest(&self) -> u64
        ensures { result ≡ latest self.now }
    {
        latest_setting(self.budgets.as_slice()).max(latest_showing(self.placements.as_slice()))
    }
}

/// The greatest moment at which one of the budgets was set, or 0.
fn latest_setting(budgets: &[BudgetSet]) -> u64
    ensures { result ≡ greatest (map (λ b. b.at) budgets.now) }
{
    let mut latest = 0;
    for row in budgets {
        latest = row.at.max(latest);
    }
    latest
}

/// The greatest moment that one of the placements tells, or 0.
fn latest_showing(placements: &[Placement]) -> u64
    ensures { result ≡ greatest (map placement_moment placements.now) }
{
    let mut latest = 0;
    for row in placements {
        latest = row.shown.max(fate_moment(row.fate)).max(latest);
    }
    latest
}

/// The last moment that a fate tells, or 0.
fn fate_moment(fate: Fate) -> u64
    ensures { result ≡ fate_moment fate }
{
    match fate {
        Fate::Open => 0,
        Fate::Settled(at) => at,
        Fate::Credited(settled, credited) => settled.max(credited),
    }
}

impl Twin for Tables {
    fn twin(&self) -> Result<Self, NoMemory> {
        Ok(Tables {
            accounts: self.accounts.twin()?,
            campaigns: self.campaigns.twin()?,
            budgets: self.budgets.twin()?,
            lines: self.lines.twin()?,
            negatives: self.negatives.twin()?,
            placements: self.placements.twin()?,
            batches: self.batches.twin()?,
        })
    }
}

impl Twin for Change {
    fn twin(&self) -> Result<Self, NoMemory> {
        Ok(match self {
            Change::PutAccount(row) => Change::PutAccount(row.twin()?),
            Change::PutCampaign(row) => Change::PutCampaign(row.twin()?),
            Change::PutBudget(row) => Change::PutBudget(row.twin()?),
            Change::PutLine(row) => Change::PutLine(row.twin()?),
            Change::PutNegative(row) => Change::PutNegative(row.twin()?),
            Change::PutPlacement(row) => Change::PutPlacement(row.twin()?),
            Change::PutBatch(row) => Change::PutBatch(row.twin()?),
            Change::PutFate { number, fate } => Change::PutFate {
                number: *number,
                fate: *fate,
            },
        })
    }
}
