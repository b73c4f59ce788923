//! The rows that a desk keeps.

use crate::link::LinkText;
use match_types::Pattern;
use query_words::{NoMemory, Text, Twin};

/// An account of an advertiser.
#[derive(Debug, Drop)]
pub struct Account {
    /// Its number, from 1.
    pub number: u64,
    /// What its advertiser proves to be the owner with.
    pub key: Text,
    /// Whether its lines are kept from competing.
    pub suspended: bool,
}

/// A campaign of an account.
#[derive(Clone, Copy, Debug, PartialEq, Eq)]
pub struct Campaign {
    /// The account's number.
    pub account: u64,
    /// Its number within the account, from 1.
    pub number: u64,
    /// Whether its lines compete.
    pub on: bool,
}

/// A setting of the daily budget of a campaign, for its day and the days after.
#[derive(Clone, Copy, Debug, PartialEq, Eq)]
pub struct BudgetSet {
    /// The account's number.
    pub account: u64,
    /// The campaign's number within the account.
    pub campaign: u64,
    /// The moment at which it was set, in seconds.
    pub at: u64,
    /// The budget of a day, in cents.
    pub amount: u64,
}

/// A line of a campaign: a pattern with a headline, a link and a bid.
#[derive(Debug, Drop)]
pub struct Line {
    /// The account's number.
    pub account: u64,
    /// Its number within the account, from 1.
    pub number: u64,
    /// The campaign's number within the account.
    pub campaign: u64,
    /// The queries that it competes for.
    pub pattern: Pattern,
    /// What a page shows.
    pub headline: Text,
    /// Where a click goes.
    pub link: LinkText,
    /// What it bids, in cents per click.
    pub bid: u64,
    /// Its quality, 1 to 100.
    pub quality: u64,
    /// Whether it competes.
    pub on: bool,
}

/// A negative of a campaign: a pattern of queries that its lines keep out of.
#[derive(Debug, Drop)]
pub struct Negative {
    /// The account's number.
    pub account: u64,
    /// Its number within the account, from 1.
    pub number: u64,
    /// The campaign's number within the account.
    pub campaign: u64,
    /// The queries that it keeps out of.
    pub pattern: Pattern,
    /// Whether it stands; it does not where it was dropped.
    pub live: bool,
}

/// A line shown at a place of a page.
#[derive(Clone, Copy, Debug, PartialEq, Eq)]
pub struct Placement {
    /// Its number, from 1.
    pub number: u64,
    /// The account's number.
    pub account: u64,
    /// The campaign's number within the account.
    pub campaign: u64,
    /// The line's number within the account.
    pub line: u64,
    /// The place on the page, from 1.
    pub place: u64,
    /// The line's bid at that moment, in cents per click.
    pub bid: u64,
    /// What a click costs, in cents.
    pub price: u64,
    /// The moment at which it was shown, in seconds.
    pub shown: u64,
    /// The moment from which a click is late, in seconds.
    pub deadline: u64,
    /// What became of it.
    pub fate: Fate,
}

/// What became of a placement.
#[derive(Clone, Copy, Debug, PartialEq, Eq)]
pub enum Fate {
    /// It was not clicked. Its price is held until the deadline.
    Open,
    /// It was clicked in time, at this moment, and its price is spent.
    Settled(u64),
    /// It was settled at the first moment, and credited by the host at the second.
    Credited(u64, u64),
}

/// An import of lines, by which it is known when it comes again.
#[derive(Clone, Copy, Debug, PartialEq, Eq)]
pub struct Batch {
    /// The account's number.
    pub account: u64,
    /// Its number within the account, which the advertiser chose.
    pub number: u64,
    /// The number of the first line that it made.
    pub first: u64,
    /// How many lines it made.
    pub count: u64,
}

impl Twin for Account {
    fn twin(&self) -> Result<Self, NoMemory> {
        Ok(Account {
            number: self.number,
            key: self.key.twin()?,
            suspended: self.suspended,
        })
    }
}

impl Twin for Campaign {
    fn twin(&self) -> Result<Self, NoMemory> {
        Ok(*self)
    }
}

impl Twin for BudgetSet {
    fn twin(&self) -> Result<Self, NoMemory> {
        Ok(*self)
    }
}

impl Twin for Line {
    fn twin(&self) -> Result<Self, NoMemory> {
        Ok(Line {
            account: self.account,
            number: self.number,
            campaign: self.campaign,
            pattern: self.pattern.twin()?,
            headline: self.headline.twin()?,
            link: self.link.twin()?,
            bid: self.bid,
            quality: self.quality,
            on: self.on,
        })
    }
}

impl Twin for Negative {
    fn twin(&self) -> Result<Self, NoMemory> {
        Ok(Negative {
            account: self.account,
            number: self.number,
            campaign: self.campaign,
            pattern: self.pattern.twin()?,
            live: self.live,
        })
    }
}

impl Twin for Placement {
    fn twin(&self) -> Result<Self, NoMemory> {
        Ok(*self)
    }
}

impl Twin for Fate {
    fn twin(&self) -> Result<Self, NoMemory> {
        Ok(*self)
    }
}

impl Twin for Batch {
    fn twin(&self) -> Result<Self, NoMemory> {
        Ok(*self)
    }
}
