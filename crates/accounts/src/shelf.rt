//! The rows of one account.

ghost use Rattle.std.specs.Prelude.{◌≡◌, ℕ, ◌-◌, ◌<◌, ◌≤◌, ◌^◌, ◌==◌, ◌&&◌, not, [], get_or, length, find, MatchOption};
ghost use Rattle.std.specs.Option.{option_copied};
ghost use Rattle.desk_types.specs.declared.tables.Tables.{Tables};
ghost use Rattle.match_types.specs.Tests.{is_same_pattern};
ghost use Rattle.desk_types.specs.Judged.{is_dropped_like, is_live_like};
ghost use Rattle.desk_types.specs.Tables.{campaign_of, campaigns_of, line_of, lines_of, negative_of, negatives_of};
ghost use Rattle.accounts.specs.Shelved.{HasShelf};

use crate::line_table::LineTable;
use desk_types::{Account, Batch, BudgetSet, Campaign, Line, Negative};
use match_types::Pattern;
use std::alloc::Global;
use std::marker::Model;

/// An account with its rows, each table by number, the settings by campaign and day.
#[derive(Drop)]
pub(crate) struct Shelf {
    pub(crate) account: Account,
    pub(crate) campaigns: Vec<Campaign>,
    pub(crate) budgets: Vec<BudgetSet>,
    pub(crate) lines: LineTable,
    pub(crate) negatives: Vec<Negative>,
    pub(crate) batches: Vec<Batch>,
}

impl Model for Shelf {
    ghost use Rattle.std.specs.Prelude.{◌-◌};
    ghost use Rattle.std.specs.Vec.{vec_capacity, vec_len};
    ghost use Rattle.accounts.specs.BookValue.{ShelfValue};

    ghost Value = { ShelfValue };

    ghost view = { λ s. record {
      account = s.account;
      campaigns = s.campaigns.items;
      budgets = s.budgets.items;
      lines = s.lines.rows;
      negatives = s.negatives.items;
      batches = s.batches.items;
      spare = record {
        campaigns = vec_capacity s.campaigns - vec_len s.campaigns;
        budgets = vec_capacity s.budgets - vec_len s.budgets;
        lines = s.lines.spare;
        negatives = vec_capacity s.negatives - vec_len s.negatives;
        batches = vec_capacity s.batches - vec_len s.batches;
      };
    } };
}

impl Shelf {
    /// An account without rows. It takes no memory.
    pub(crate) fn new(alloc: Global, account: Account) -> Shelf
        ensures { let s = result in (s.account ≡ account) × (s.campaigns ≡ []) × (s.budgets ≡ []) × (s.lines ≡ [])
            × (s.negatives ≡ []) × (s.batches ≡ []) }
    {
        Shelf {
            account,
            campaigns: Vec::new(alloc),
            budgets: Vec::new(alloc),
            lines: LineTable::new(alloc),
            negatives: Vec::new(alloc),
            batches: Vec::new(alloc),
        }
    }
}

/// The row of a number, from 1, in a table whose numbers run from 1.
pub(crate) fn row_of<R>(rows: &[R], number: u64) -> Option<&R>
    ensures { MatchOption result ((1 ≤ number → number ≤ length rows.now → ⊥))
        (λ row. (1 ≤ number) × (number ≤ length rows.now) × (row.now ≡ get_or rows.now (number - 1) row.now)) }
{
    let place = number.checked_sub(1)?;
    rows.get(place as usize)
}

impl Shelf {
    /// The campaign of a number, if there is one.
    pub(crate) fn campaign(&self, number: u64) -> Option<&Campaign>
        ensures { (T : Tables) (account : ℕ) → HasShelf T account self.now
            → option_copied result ≡ campaign_of T account number }
    {
        row_of(&self.campaigns, number)
    }

    /// The line of a number, if there is one.
    pub(crate) fn line(&self, number: u64) -> Option<&Line>
        ensures { (T : Tables) (account : ℕ) → HasShelf T account self.now
            → option_copied result ≡ line_of T account number }
    {
        row_of(self.lines.as_slice(), number)
    }

    /// The negative of a number, if there is one.
    pub(crate) fn negative(&self, number: u64) -> Option<&Negative>
        ensures { (T : Tables) (account : ℕ) → HasShelf T account self.now
            → option_copied result ≡ negative_of T account number }
    {
        row_of(&self.negatives, number)
    }

    /// The live negative of a campaign with the same pattern, if there is one.
    pub(crate) fn live_negative(&self, campaign: u64, pattern: &Pattern) -> Option<&Negative>
        ensures { (T : Tables) (account : ℕ) → HasShelf T account self.now
            → option_copied result ≡ find (is_live_like account campaign pattern.now) T.negatives }
    {
        live_like(&self.negatives, campaign, pattern)
    }

    /// The dropped negative of a campaign with the same pattern, if there is one.
    pub(crate) fn dropped_negative(&self, campaign: u64, pattern: &Pattern) -> Option<&Negative>
        ensures { (T : Tables) (account : ℕ) → HasShelf T account self.now
            → option_copied result ≡ find (is_dropped_like account campaign pattern.now) T.negatives }
    {
        dropped_like(&self.negatives, campaign, pattern)
    }

    /// How many campaigns the account has.
    #[tactic(auto, using(crate::proofs::Finds::campaigns_counted))]
    pub(crate) fn count_campaigns(&self) -> u64
        ensures count { (T : Tables) (account : ℕ) → HasShelf T account self.now → result ≡ campaigns_of T account }
        ensures below { result < 2 ^ 63 }
    {
        self.campaigns.len() as u64
    }

    /// How many lines the account has.
    #[tactic(auto, using(crate::proofs::Finds::lines_counted))]
    pub(crate) fn count_lines(&self) -> u64
        ensures count { (T : Tables) (account : ℕ) → HasShelf T account self.now → result ≡ lines_of T account }
        ensures below { result < 2 ^ 63 }
    {
        self.lines.as_slice().len() as u64
    }

    /// How many negatives the account has, dropped ones among them.
    #[tactic(auto, using(crate::proofs::Finds::negatives_counted))]
    pub(crate) fn count_negatives(&self) -> u64
        ensures count { (T : Tables) (account : ℕ) → HasShelf T account self.now → result ≡ negatives_of T account }
        ensures below { result < 2 ^ 63 }
    {
        self.negatives.len() as u64
    }
}

/// The first of these negatives that is of the campaign, lives and has the pattern.
fn live_like<'a>(
    negatives: &'a [Negative],
    campaign: u64,
    pattern: &Pattern,
) -> Option<&'a Negative>
    ensures { option_copied result
        ≡ find (λ n. n.campaign == campaign && (n.live && is_same_pattern n.pattern pattern.now)) negatives.now }
{
    negatives.iter().find(|row| row.campaign == campaign
        && row.live
        && row.pattern.is_same(pattern))
}

/// The first of these negatives that is of the campaign, was dropped and has the pattern.
fn dropped_like<'a>(
    negatives: &'a [Negative],
    campaign: u64,
    pattern: &Pattern,
) -> Option<&'a Negative>
    ensures { option_copied result
        ≡ find (λ n. n.campaign == campaign && (not n.live && is_same_pattern n.pattern pattern.now)) negatives.now }
{
    negatives.iter().find(|row| row.campaign == campaign
        && !row.live
        && row.pattern.is_same(pattern))
}
