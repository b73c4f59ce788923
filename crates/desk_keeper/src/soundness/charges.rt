//! What placements are charged to the budgets of their campaigns and days.

ghost use Rattle.std.specs.Prelude.{◌≡◌, ◌<◌, ◌+◌, ◌^◌, ◌||◌, ◌++◌, ◌∷◌, [], IfOk, List};
ghost use Rattle.desk_types.specs.declared.rows.Placement.{Placement};
ghost use Rattle.desk_types.specs.Day.{day_of as the_day_of};
ghost use Rattle.desk_types.specs.Keys.{budget_key, is_less_key};
ghost use Rattle.desk_types.specs.Money.{budget_in, is_escrowed, is_spent};
ghost use Rattle.desk_types.specs.Sound.{AreInOrder};
ghost use Rattle.desk_keeper.specs.DayTotals.{AreTotals, total_of};

use desk_types::{BudgetSet, Fate, Placement, day_of};
use std::alloc::{AllocError, Global};
use std::collections::HashMap;

/// What placements are charged: those that a click settled, or whose price is held at the tables' moment.
#[derive(Drop)]
pub(crate) struct Charges {
    /// The tables' moment.
    moment: u64,
    /// The cents by account, campaign and day.
    totals: HashMap<(u64, u64, u64), u64>,
}

impl Charges {
    /// The charges of no placements. It takes no memory.
    pub(crate) fn new(moment: u64, alloc: Global) -> Charges
        ensures totals { AreTotals result [] }
        ensures moment { result.moment ≡ moment }
    {
        Charges {
            moment,
            totals: HashMap::new(alloc),
        }
    }

    /// Adds a placement, and gives what its campaign is charged on its day.
    pub(crate) fn add(&mut self, row: &Placement) -> Result<u64, AllocError>
        requires fits { total_of self.old row.now.account row.now.campaign (the_day_of row.now.shown)
            + row.now.price < 2 ^ 64 }
        ensures totals { IfOk result (λ total. (before : List Placement) → AreTotals self.old before
            → AreTotals self.new (before ++ row.now ∷ [])) }
        ensures total { IfOk result (λ total. total
            ≡ total_of self.new row.now.account row.now.campaign (the_day_of row.now.shown)) }
        ensures moment { self.new.moment ≡ self.old.moment }
    {
        let key = (row.account, row.campaign, day_of(row.shown));
        let mut total = self.totals.get(&key).copied().unwrap_or(0);
        if is_charged(row, self.moment) {
            total += row.price;
        }
        self.totals.insert(key, total)?;
        Ok(total)
    }
}

/// Whether the price of a placement is spent, or escrowed at the moment.
fn is_charged(row: &Placement, moment: u64) -> bool
    ensures { result ≡ (is_spent row.now.fate || is_escrowed moment row.now) }
{
    match row.fate {
        Fate::Open => moment < row.deadline,
        Fate::Settled(_) | Fate::Credited(_, _) => true,
    }
}

/// The budget of a campaign on a day, in cents: the amount of its setting of the latest day up to that one, or 0 where
/// it has none. It is found by halving.
pub(crate) fn budget_on(budgets: &[BudgetSet], account: u64, campaign: u64, day: u64) -> u64
    requires in_order { AreInOrder budget_key budgets.now }
    ensures { result ≡ budget_in budgets.now account campaign day }
{
    let end = budgets.partition_point(|setting| is_up_to(setting, account, campaign, day));
    let Some((setting, _)) = budgets[..end].split_last() else {
        return 0;
    };
    if setting.account == account && setting.campaign == campaign {
        setting.amount
    } else {
        0
    }
}

/// Whether a setting stands before those of a campaign of later days.
fn is_up_to(setting: &BudgetSet, account: u64, campaign: u64, day: u64) -> bool
    ensures { result ≡ is_less_key (budget_key setting.now) (account ∷ campaign ∷ (day + 1) ∷ []) }
{
    setting.account < account
        || (setting.account == account
            && (setting.campaign < campaign
                || (setting.campaign == campaign && day_of(setting.at) <= day)))
}
