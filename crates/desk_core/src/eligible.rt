//! Which lines compete for a query.

ghost use Rattle.std.specs.Prelude.{◌≡◌, ◌==◌, ◌&&◌, ◌++◌, filter, map, All, IfOk, OnOk};
ghost use Rattle.std.specs.List.{list_any};
ghost use Rattle.auction_types.specs.AdValue.{IsInRange};
ghost use Rattle.desk_types.specs.Eligible.{ad_of, eligible_ads, has_active_account, has_active_campaign, is_candidate, is_eligible, is_kept_out, is_matched, meets_floor, meets_reserve};

use crate::ledger::Ledger;
use auction_types::Ad;
use desk_types::{Line, Negative};
use match_types::{Pattern, matches};
use query_words::Words;
use std::alloc::AllocError;

impl Ledger {
    /// The lines that compete for the words of a query, as ads: those of one account after another.
    pub(crate) fn eligible_ads(&self, query: &Words) -> Result<Vec<Ad>, AllocError>
        requires { All (λ l. IsInRange (ad_of l)) self.now.state.tables.lines }
        ensures { IfOk result (λ ads. ads.items ≡ eligible_ads self.now.state query.now) }
    {
        let mut ads = Vec::new(self.alloc());
        for before in 0..self.book.count() {
            self.push_eligible(query, self.book.lines(before + 1), &mut ads)?;
        }
        Ok(ads)
    }

    /// Puts those of some lines that compete for the words of a query behind other ads.
    fn push_eligible(
        &self,
        query: &Words,
        lines: &[Line],
        ads: &mut Vec<Ad>,
    ) -> Result<(), AllocError>
        requires { All (λ l. IsInRange (ad_of l)) lines.now }
        ensures { OnOk result (ads.new.items
            ≡ ads.old.items ++ map ad_of (filter (is_eligible self.now.state query.now) lines.now)) }
    {
        for line in lines {
            if self.is_eligible(query, line) {
                ads.push(ad_of(line))?;
            }
        }
        Ok(())
    }

    /// Whether a line competes for the words of a query.
    fn is_eligible(&self, query: &Words, line: &Line) -> bool
        requires { IsInRange (ad_of line.now) }
        ensures { result ≡ is_eligible self.now.state query.now line.now }
    {
        self.is_candidate(query, line) && self.can_pay(line)
    }

    /// Whether a line competes for the words of a query, its campaign's money aside.
    #[tactic(auto, unfolding(desk_types::specs::Eligible::is_candidate))]
    fn is_candidate(&self, query: &Words, line: &Line) -> bool
        requires { IsInRange (ad_of line.now) }
        ensures { result ≡ is_candidate self.now.state query.now line.now }
    {
        line.on
            && is_matched(&line.pattern, query)
            && self.meets_reserve(line)
            && self.meets_floor(line)
            && self.has_active_account(line)
            && self.has_active_campaign(line)
            && !self.is_kept_out(query, line)
    }

    /// Whether its account is there and not suspended.
    fn has_active_account(&self, line: &Line) -> bool
        ensures { result ≡ has_active_account self.now.state line.now }
    {
        self.book.is_active_account(line.account)
    }

    /// Whether its campaign is there and on.
    fn has_active_campaign(&self, line: &Line) -> bool
        ensures { result ≡ has_active_campaign self.now.state line.now }
    {
        self.book.is_active_campaign(line.account, line.campaign)
    }

    /// Whether a live negative of its campaign matches the query.
    fn is_kept_out(&self, query: &Words, line: &Line) -> bool
        ensures { result ≡ is_kept_out self.now.state query.now line.now }
    {
        keep_out(self.book.negatives(line.account), query, line.campaign)
    }

    /// Whether its bid is at least the reserve.
    fn meets_reserve(&self, line: &Line) -> bool
        ensures { result ≡ meets_reserve self.now.state line.now }
    {
        self.settings.reserve() <= line.bid
    }

    /// Whether its score is at least the floor.
    fn meets_floor(&self, line: &Line) -> bool
        requires { IsInRange (ad_of line.now) }
        ensures { result ≡ meets_floor self.now.state line.now }
    {
        self.settings.floor() <= ad_of(line).score()
    }
}

/// A line as an ad.
fn ad_of(line: &Line) -> Ad
    requires { IsInRange (ad_of line.now) }
    ensures { result ≡ ad_of line.now }
{
    match Ad::new(
        line.account,
        line.campaign,
        line.number,
        line.bid,
        line.quality,
    ) {
        Some(ad) => ad,
        None => unreachable!(),
    }
}

/// Whether one of these negatives is a live one of this campaign that matches the query.
fn keep_out(negatives: &[Negative], query: &Words, campaign: u64) -> bool
    ensures { result ≡ list_any (λ n. n.campaign == campaign && (n.live && is_matched n.pattern query.now))
        negatives.now }
{
    negatives
        .iter()
        .any(|negative| keeps_out(negative, query, campaign))
}

/// Whether a negative is a live one of this campaign that matches the query.
fn keeps_out(negative: &Negative, query: &Words, campaign: u64) -> bool
    ensures { result ≡ (negative.now.campaign == campaign
        && (negative.now.live && is_matched negative.now.pattern query.now)) }
{
    negative.campaign == campaign && negative.live && is_matched(&negative.pattern, query)
}

/// Whether a pattern matches the words of a query.
fn is_matched(pattern: &Pattern, query: &Words) -> bool
    ensures { result ≡ is_matched pattern.now query.now }
{
    matches(pattern.kind(), pattern.words(), query)
}
