//! Reports and statements of a day. They change nothing.

ghost use Rattle.std.specs.Prelude.{◌≡◌, ◌==◌, [], ◌∷◌, None, filter, map, IfErr, IfOk, OnOk};
ghost use Rattle.desk_types.specs.declared.call.Call.{Call};
ghost use Rattle.desk_types.specs.Judged.{day_row, first, owner_rows};
ghost use Rattle.desk_types.specs.Reports.{campaign_day, host_day, shown_row};
ghost use Rattle.desk_types.specs.Sound.{IsSound};
ghost use Rattle.desk_core.specs.Planned.{IsFirst, IsPlanned, IsStop};
ghost use Rattle.desk_core.specs.Sums.{HasRoomFor, with_rows};

use crate::ledger::Ledger;
use crate::money::CampaignAndDay;
use crate::plan::{Changes, Plan};
use crate::stop::Stop;
use crate::sums::sums_of;
use crate::told::Told;
use desk_types::limits::DAY_MAX;
use desk_types::{
    Campaign, CampaignDay, DayReport, Fate, Field, HostDay, Placement, Refusal, ShownFate, ShownRow,
};
use query_words::{List, Text};
use std::alloc::AllocError;

impl Ledger {
    /// Plans the report of an account on a day: the numbers of each campaign.
    #[tactic(auto, unfolding(desk_types::specs::Judged::refusals, desk_types::specs::Changes::changes, desk_types::specs::Changes::raises_edition, desk_types::specs::Changes::reply))]
    pub(crate) fn plan_report(&self, account: u64, key: &Text, day: u64) -> Result<Plan, Stop>
        requires sound { IsSound self.now.state }
        ensures planned { IfOk result (IsPlanned self.now.state (Call.Report account key.now day)) }
        ensures stopped { IfErr result (IsStop self.now.state (Call.Report account key.now day)) }
    {
        self.check_asker(account, key, day)?;
        let rows = self.campaign_days(account, day)?;
        let rows = List::from_vec(rows);
        Ok(Plan {
            changes: Changes::Nothing,
            told: Told::Day(DayReport { day, rows }),
        })
    }

    /// Plans the statement of an account on a day: the placements that were shown, from a number on.
    #[tactic(auto, unfolding(desk_types::specs::Judged::refusals, desk_types::specs::Changes::changes, desk_types::specs::Changes::raises_edition, desk_types::specs::Changes::reply))]
    pub(crate) fn plan_statement(
        &self,
        account: u64,
        key: &Text,
        day: u64,
        from: u64,
    ) -> Result<Plan, Stop>
        ensures planned { IfOk result (IsPlanned self.now.state (Call.Shown account key.now day from)) }
        ensures stopped { IfErr result (IsStop self.now.state (Call.Shown account key.now day from)) }
    {
        self.check_asker(account, key, day)?;
        let placements = self.placements.of_account(account, day, from)?;
        let rows = self.shown_rows(placements.as_slice())?;
        Ok(Plan {
            changes: Changes::Nothing,
            told: Told::ShownRows(List::from_vec(rows)),
        })
    }

    /// Plans the host's report of a day: the sums of all campaigns.
    #[tactic(auto, unfolding(desk_types::specs::Judged::refusals, desk_types::specs::Changes::changes, desk_types::specs::Changes::raises_edition, desk_types::specs::Changes::reply))]
    pub(crate) fn plan_host_report(&self, day: u64) -> Result<Plan, Stop>
        requires sound { IsSound self.now.state }
        ensures planned { IfOk result (IsPlanned self.now.state (Call.HostReport day)) }
        ensures stopped { IfErr result (IsStop self.now.state (Call.HostReport day)) }
    {
        check_day(day)?;
        Ok(Plan {
            changes: Changes::Nothing,
            told: Told::HostDay(self.host_day(day)),
        })
    }

    /// Judges an account, its key and a day. The refusals are those of a report.
    #[tactic(auto, unfolding(desk_types::specs::Judged::refusals))]
    fn check_asker(&self, account: u64, key: &Text, day: u64) -> Result<(), Stop>
        ensures passed { OnOk result (first (owner_rows self.now.state.tables account key.now) ≡ None) }
        ensures good_day { OnOk result (day_row day ≡ None) }
        ensures stopped { IfErr result (IsStop self.now.state (Call.Report account key.now day)) }
    {
        if self.book.account(account).is_none() {
            return Err(Stop::Refused(Refusal::NoAccount));
        }
        if !self.book.key_fits(account, key.as_str()) {
            return Err(Stop::Refused(Refusal::BadKey));
        }
        check_day(day)
    }

    /// The numbers of each campaign of an account on a day.
    fn campaign_days(&self, account: u64, day: u64) -> Result<Vec<CampaignDay>, AllocError>
        requires sound { IsSound self.now.state }
        ensures { IfOk result (λ rows. let S = self.now.state in
            rows.items ≡ map (campaign_day S day) (filter (λ c. c.account == account) S.tables.campaigns)) }
    {
        let campaigns = self.book.campaigns(account);
        let mut rows = Vec::with_capacity(self.alloc(), campaigns.len())?;
        for campaign in campaigns {
            rows.push(self.campaign_day(campaign, day))?;
        }
        Ok(rows)
    }

    /// The numbers of a campaign on a day. Only its account's placements of the day are looked at.
    #[tactic(auto, unfolding(desk_types::specs::Reports::campaign_day))]
    fn campaign_day(&self, campaign: &Campaign, day: u64) -> CampaignDay
        requires sound { IsSound self.now.state }
        ensures { result ≡ campaign_day self.now.state day campaign.now }
    {
        let of = CampaignAndDay {
            account: campaign.account,
            campaign: campaign.number,
            day,
        };
        let budget = self.budget(of);
        let sums = sums_of(self.placements.shown_on(of.account, day), of, self.moment);
        let spent = sums.spent as u64;
        let escrowed = sums.escrowed as u64;
        CampaignDay {
            campaign: campaign.number,
            budget,
            shown: sums.shown,
            clicks: sums.clicks,
            spent,
            escrowed,
            free: budget - (spent + escrowed),
            credited: sums.credited as u64,
        }
    }

    /// The sums of all campaigns on a day.
    fn host_day(&self, day: u64) -> HostDay
        requires sound { IsSound self.now.state }
        ensures { result ≡ host_day self.now.state day }
    {
        prove!(self.placements.count() < u64::MAX);
        let accounts = self.book.count();
        let mut sums = HostDay {
            day,
            accounts,
            shown: 0,
            clicks: 0,
            spent: 0,
            escrowed: 0,
            credited: 0,
        };
        for before in 0..accounts {
            sums = self.with_campaigns(sums, self.book.campaigns(before + 1));
        }
        sums
    }

    /// Sums with these campaigns.
    fn with_campaigns(&self, sums: HostDay, campaigns: &[Campaign]) -> HostDay
        requires sound { IsSound self.now.state }
        requires room { HasRoomFor sums (map (campaign_day self.now.state sums.day) campaigns.now) }
        ensures { result ≡ with_rows sums (map (campaign_day self.now.state sums.day) campaigns.now) }
    {
        let mut all = sums;
        for campaign in campaigns {
            let row = self.campaign_day(campaign, sums.day);
            all = HostDay {
                shown: all.shown + row.shown,
                clicks: all.clicks + row.clicks,
                spent: all.spent + row.spent,
                escrowed: all.escrowed + row.escrowed,
                credited: all.credited + row.credited,
                ..all
            };
        }
        all
    }

    /// Placements as their account is told of them.
    fn shown_rows(&self, placements: &[Placement]) -> Result<Vec<ShownRow>, AllocError>
        ensures { IfOk result (λ rows. rows.items ≡ map (shown_row self.now.state.moment) placements.now) }
    {
        let mut rows = Vec::with_capacity(self.alloc(), placements.len())?;
        for placement in placements {
            rows.push(shown_row(placement, self.moment))?;
        }
        Ok(rows)
    }
}

/// Judges a day.
fn check_day(day: u64) -> Result<(), Stop>
    ensures passed { OnOk result (day_row day ≡ None) }
    ensures stopped { IfErr result (IsFirst (day_row day ∷ [])) }
{
    if day > DAY_MAX {
        return Err(Stop::Refused(Refusal::BadField(Field::Day)));
    }
    Ok(())
}

/// A placement as its account is told of it at a moment.
fn shown_row(placement: &Placement, moment: u64) -> ShownRow
    ensures { result ≡ shown_row moment placement.now }
{
    let fate = match placement.fate {
        Fate::Open if moment < placement.deadline => ShownFate::Open,
        Fate::Open => ShownFate::Expired,
        Fate::Settled(at) => ShownFate::Settled(at),
        Fate::Credited(settled, credited) => ShownFate::Credited(settled, credited),
    };
    ShownRow {
        placement: placement.number,
        campaign: placement.campaign,
        line: placement.line,
        place: placement.place,
        price: placement.price,
        shown: placement.shown,
        fate,
    }
}
