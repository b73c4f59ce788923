//! The money of a campaign on a day.

ghost use Rattle.std.specs.Prelude.{◌≡◌, ◌<◌, ◌^◌, ◌&&◌, nat_lt, filter, find, length, option_map, sum_by, unwrap_or};
ghost use Rattle.std.specs.List.{list_any};
ghost use Rattle.desk_types.specs.Day.{day_of as the_day_of};
ghost use Rattle.desk_types.specs.Eligible.{can_pay};
ghost use Rattle.desk_types.specs.Money.{budget, is_latest, is_set_by, is_shown_on, is_spent, used};
ghost use Rattle.desk_types.specs.Rules.{is_charged};

use crate::ledger::Ledger;
use desk_types::{BudgetSet, Fate, Line, Placement, day_of};
use placements::{ShownOn, is_escrowed};

/// A campaign of an account, and a day.
#[derive(Clone, Copy)]
pub(crate) struct CampaignAndDay {
    pub account: u64,
    pub campaign: u64,
    pub day: u64,
}

impl Ledger {
    /// Whether what is free today of its campaign's budget is at least the line's bid.
    pub(crate) fn can_pay(&self, line: &Line) -> bool
        ensures { result ≡ can_pay self.now.state line.now }
    {
        let today = CampaignAndDay {
            account: line.account,
            campaign: line.campaign,
            day: day_of(self.moment),
        };
        let budget = self.budget(today);
        let used = self.used(today);
        u128::from(line.bid) + used <= u128::from(budget)
    }

    /// The budget of a campaign on a day, in cents.
    #[tactic(auto, unfolding(desk_types::specs::Money::budget))]
    pub(crate) fn budget(&self, of: CampaignAndDay) -> u64
        ensures { result ≡ budget self.now.state of.account of.campaign of.day }
    {
        latest_amount(self.book.budgets(of.account), of)
    }

    /// What is spent or escrowed of it, in cents. Only the account's placements of the day are looked at.
    pub(crate) fn used(&self, of: CampaignAndDay) -> u128
        ensures sum { result ≡ used self.now.state of.account of.campaign of.day }
        ensures fits { result < 2 ^ 127 }
    {
        charged(
            self.placements.shown_on(of.account, of.day),
            of,
            self.moment,
        )
    }
}

/// The amount of the campaign's setting of the latest day up to this one, or 0 where it has none.
fn latest_amount(budgets: &[BudgetSet], of: CampaignAndDay) -> u64
    ensures { result ≡ unwrap_or (option_map (λ b. b.amount) (find (λ b. is_set_by of.account of.campaign of.day b
        && is_latest budgets.now of.account of.campaign of.day b) budgets.now)) 0 }
{
    budgets
        .iter()
        .find(|setting| is_set_by(setting, of) && is_latest(setting, budgets, of))
        .map_or(0, |setting| setting.amount)
}

/// Whether a setting is of this campaign, and of this day or an earlier one.
fn is_set_by(setting: &BudgetSet, of: CampaignAndDay) -> bool
    ensures { result ≡ is_set_by of.account of.campaign of.day setting.now }
{
    setting.account == of.account && setting.campaign == of.campaign && day_of(setting.at) <= of.day
}

/// Whether no setting of the campaign up to the day is of a later day than this one.
fn is_latest(setting: &BudgetSet, budgets: &[BudgetSet], of: CampaignAndDay) -> bool
    ensures { result ≡ is_latest budgets.now of.account of.campaign of.day setting.now }
{
    !is_replaced(setting, budgets, of)
}

/// Whether some setting of the campaign up to the day is of a later day than this one.
fn is_replaced(setting: &BudgetSet, budgets: &[BudgetSet], of: CampaignAndDay) -> bool
    ensures { result ≡ list_any (λ other. is_set_by of.account of.campaign of.day other
        && nat_lt (the_day_of setting.now.at) (the_day_of other.at)) budgets.now }
{
    budgets.iter().any(|other| replaces(other, setting, of))
}

/// Whether a setting of the campaign up to the day is of a later day than another one.
fn replaces(other: &BudgetSet, setting: &BudgetSet, of: CampaignAndDay) -> bool
    ensures { result ≡ (is_set_by of.account of.campaign of.day other.now
        && nat_lt (the_day_of setting.now.at) (the_day_of other.now.at)) }
{
    is_set_by(other, of) && day_of(setting.at) < day_of(other.at)
}

/// The prices, added up, of those of these placements of the campaign that were shown on the day and are spent, or
/// escrowed at the moment.
fn charged(placements: ShownOn<'_>, of: CampaignAndDay, moment: u64) -> u128
    requires { length placements < 2 ^ 63 }
    ensures sum { result
        ≡ sum_by (λ p. p.price) (filter (is_charged of.account of.campaign of.day moment) placements.entry) }
    ensures fits { result < 2 ^ 127 }
{
    let mut sum = 0;
    for placement in placements {
        if is_charged(placement, of, moment) {
            sum += u128::from(placement.price);
        }
    }
    sum
}

/// Whether a placement counts against the budget of the campaign and the day.
fn is_charged(placement: &Placement, of: CampaignAndDay, moment: u64) -> bool
    ensures { result ≡ is_charged of.account of.campaign of.day moment placement.now }
{
    is_shown_on(placement, of) && (is_spent(placement.fate) || is_escrowed(placement, moment))
}

/// Whether a placement is of this campaign and was shown on this day.
pub(crate) fn is_shown_on(placement: &Placement, of: CampaignAndDay) -> bool
    ensures { result ≡ is_shown_on of.account of.campaign of.day placement.now }
{
    placement.account == of.account
        && placement.campaign == of.campaign
        && day_of(placement.shown) == of.day
}

/// Whether the price is spent: a click settled it.
pub(crate) fn is_spent(fate: Fate) -> bool
    ensures { result ≡ is_spent fate }
{
    match fate {
        Fate::Open => false,
        Fate::Settled(_) | Fate::Credited(_, _) => true,
    }
}
