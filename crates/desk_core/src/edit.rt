//! Edits.

ghost use Rattle.std.specs.Prelude.{◌≡◌, IfErr, IfOk, IsTrue};
ghost use Rattle.accounts.specs.Planned.{HasUsed, is_edit};
ghost use Rattle.desk_types.specs.Judged.{used_today};
ghost use Rattle.desk_types.specs.Sound.{IsSound};
ghost use Rattle.desk_core.specs.Planned.{IsPlanned, IsStop};

use crate::ledger::Ledger;
use crate::money::CampaignAndDay;
use crate::plan::{Changes, Plan};
use crate::stop::Stop;
use crate::told::Told;
use desk_types::{Call, day_of};

impl Ledger {
    /// Plans an edit, as the book of accounts judges it.
    pub(crate) fn plan_edit(&self, call: &Call) -> Result<Plan, Stop>
        requires sound { IsSound self.now.state }
        requires edit { IsTrue (is_edit call.now) }
        ensures planned { IfOk result (IsPlanned self.now.state call.now) }
        ensures stopped { IfErr result (IsStop self.now.state call.now) }
    {
        let plan = self.book.judge(call, self.moment, self.used_by(call))?;
        Ok(Plan {
            changes: Changes::Catalogue(plan.changes),
            told: Told::of(plan.reply),
        })
    }
    /// What is used today of the campaign whose budget a call sets, in cents; 0 for any other call.
    fn used_by(&self, call: &Call) -> u64
        requires sound { IsSound self.now.state }
        ensures { HasUsed self.now.state call.now result }
    {
        match call {
            Call::SetBudget {
                account,
                campaign,
                ..
            } => self.used_today(*account, *campaign),
            _ => 0,
        }
    }

    /// What is used today of a campaign, in cents.
    fn used_today(&self, account: u64, campaign: u64) -> u64
        requires sound { IsSound self.now.state }
        ensures { result ≡ used_today self.now.state account campaign }
    {
        let day = day_of(self.moment);
        self.used(CampaignAndDay {
            account,
            campaign,
            day,
        }) as u64
    }
}
