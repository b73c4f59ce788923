//! An ad that competes for a place, and the order of ads.

ghost use Rattle.std.specs.Prelude.{◌≡◌, ◌≤◌, ◌↔◌, IsSome, IfSome};
ghost use Rattle.auction_types.specs.AdValue.{IsBid, IsQuality, score};
ghost use Rattle.auction_types.specs.Order.{better as is_better, wins_tie as is_tie_won};

use crate::limits::{BID_MAX, BID_MIN, QUALITY_MAX, QUALITY_MIN};
use std::marker::Model;

/// A line that competes for a place: whose it is, what it bids and its quality.
///
/// The bid is 1 to 1,000,000 cents per click and the quality is 1 to 100.
#[derive(Clone, Copy, Debug, PartialEq, Eq)]
pub struct Ad {
    account: u64,
    campaign: u64,
    line: u64,
    bid: u64,
    quality: u64,
}

impl Model for Ad {
    ghost use Rattle.auction_types.specs.AdValue.{AdValue, IsInRange};

    ghost Value = { AdValue };

    ghost view = { λ a.
        record { account = a.account; campaign = a.campaign; line = a.line; bid = a.bid; quality = a.quality } };

    ghost invariant = { λ a.
        IsInRange (record { account = a.account; campaign = a.campaign; line = a.line; bid = a.bid; quality = a.quality }) };

    ghost inverse = { λ d.
        record { account = d.account; campaign = d.campaign; line = d.line; bid = d.bid; quality = d.quality } };
}

impl Ad {
    /// The ad of a line, where the bid (cents per click) and the quality are in range, else `None`.
    pub fn new(account: u64, campaign: u64, line: u64, bid: u64, quality: u64) -> Option<Ad>
        ensures in_range { IsSome result ↔ (IsBid bid × IsQuality quality) }
        ensures made { IfSome result (λ ad.
            ad ≡ record { account = account; campaign = campaign; line = line; bid = bid; quality = quality }) }
    {
        if bid < BID_MIN || bid > BID_MAX || quality < QUALITY_MIN || quality > QUALITY_MAX {
            return None;
        }
        Some(Ad {
            account,
            campaign,
            line,
            bid,
            quality,
        })
    }

    /// The number of the account whose line it is.
    pub fn account(&self) -> u64
        ensures { result ≡ self.now.account }
    {
        self.account
    }

    /// The number of the campaign, within its account.
    pub fn campaign(&self) -> u64
        ensures { result ≡ self.now.campaign }
    {
        self.campaign
    }

    /// The number of the line, within its account.
    pub fn line(&self) -> u64
        ensures { result ≡ self.now.line }
    {
        self.line
    }

    /// What it bids, in cents per click: 1 to 1,000,000.
    pub fn bid(&self) -> u64
        ensures bid { result ≡ self.now.bid }
        ensures in_range { IsBid result }
    {
        self.bid
    }

    /// Its quality: 1 to 100.
    pub fn quality(&self) -> u64
        ensures quality { result ≡ self.now.quality }
        ensures in_range { IsQuality result }
    {
        self.quality
    }

    /// The score, by which ads are ranked first: bid times quality, 1 to 100,000,000.
    pub fn score(&self) -> u64
        ensures score { result ≡ score self.now }
        ensures in_range { (1 ≤ result) × (result ≤ 100000000) }
    {
        self.bid * self.quality
    }
}

impl Default for Ad {
    ghost is_default = { λ ad. ad ≡ record { account = 0; campaign = 0; line = 0; bid = 1; quality = 1 } };

    fn default() -> Self {
        Ad {
            account: 0,
            campaign: 0,
            line: 0,
            bid: BID_MIN,
            quality: QUALITY_MIN,
        }
    }
}

/// Whether `a` ranks above `b` where their scores are equal: by the higher quality, then by the
/// smaller triple of account, campaign and line.
pub fn wins_tie(a: &Ad, b: &Ad) -> bool
    ensures { result ≡ is_tie_won a.now b.now }
{
    if a.quality != b.quality {
        return a.quality > b.quality;
    }
    (a.account, a.campaign, a.line) < (b.account, b.campaign, b.line)
}

/// Whether `a` ranks above `b`: by score (bid times quality), then by quality, then by the smaller
/// triple of account, campaign and line.
pub fn better(a: &Ad, b: &Ad) -> bool
    ensures { result ≡ is_better a.now b.now }
{
    if a.score() != b.score() {
        return a.score() > b.score();
    }
    wins_tie(a, b)
}
