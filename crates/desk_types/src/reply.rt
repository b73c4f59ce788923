//! What a desk answers.

use crate::link::LinkText;
use crate::refusal::Refusal;
use query_words::{List, NoMemory, Text, Twin};

/// The answer to a call.
#[derive(Debug, Drop)]
pub enum Reply {
    /// A thing was made, of this number.
    Made(u64),
    /// It was done.
    Done,
    /// A click was credited, by this call or an earlier one, for this price in cents.
    Credited(u64),
    /// The host's numbers of a day.
    HostDay(HostDay),
    /// The lines of a batch were made, by this call or an earlier one.
    Imported {
        /// The number of the first of them.
        first: u64,
        /// How many they are.
        count: u64,
    },
    /// An account's numbers of a day.
    Day(DayReport),
    /// Placements of an account that were shown on a day, by number.
    ShownRows(List<ShownRow>),
    /// The page, from its first place on.
    Page(List<Spot>),
    /// The click goes to this link.
    Went(LinkText),
    /// It was refused, and changed nothing but the moment.
    Refused(Refusal),
}

/// A place of a page and the line that it shows.
#[derive(Debug, Drop)]
pub struct Spot {
    /// The place, from 1.
    pub place: u64,
    /// The number of the placement, by which it is clicked.
    pub placement: u64,
    /// The account's number.
    pub account: u64,
    /// The campaign's number within the account.
    pub campaign: u64,
    /// The line's number within the account.
    pub line: u64,
    /// The line's headline.
    pub headline: Text,
    /// The line's link.
    pub link: LinkText,
    /// What a click costs, in cents.
    pub price: u64,
}

/// The numbers of a campaign on a day. The placements are those that were shown on the day.
#[derive(Clone, Copy, Debug, PartialEq, Eq)]
pub struct CampaignDay {
    /// The campaign's number within the account.
    pub campaign: u64,
    /// The budget of the day, in cents.
    pub budget: u64,
    /// How many placements were shown.
    pub shown: u64,
    /// How many of them a click settled.
    pub clicks: u64,
    /// Their prices, in cents.
    pub spent: u64,
    /// The prices that are kept for clicks that may still come, in cents.
    pub escrowed: u64,
    /// What is left of the budget, in cents.
    pub free: u64,
    /// The prices that the host credited, in cents.
    pub credited: u64,
}

/// The numbers of an account on a day.
#[derive(Debug, Drop)]
pub struct DayReport {
    /// The day.
    pub day: u64,
    /// A row for each campaign, by number.
    pub rows: List<CampaignDay>,
}

/// The numbers of all campaigns on a day, added up.
#[derive(Clone, Copy, Debug, PartialEq, Eq)]
pub struct HostDay {
    /// The day.
    pub day: u64,
    /// How many accounts there are.
    pub accounts: u64,
    /// How many placements were shown on the day.
    pub shown: u64,
    /// How many of them a click settled.
    pub clicks: u64,
    /// Their prices, in cents.
    pub spent: u64,
    /// The prices that are kept for clicks that may still come, in cents.
    pub escrowed: u64,
    /// The prices that the host credited, in cents.
    pub credited: u64,
}

/// A placement as its account is told of it.
#[derive(Clone, Copy, Debug, PartialEq, Eq)]
pub struct ShownRow {
    /// The placement's number.
    pub placement: u64,
    /// The campaign's number within the account.
    pub campaign: u64,
    /// The line's number within the account.
    pub line: u64,
    /// The place on the page, from 1.
    pub place: u64,
    /// What a click costs, in cents.
    pub price: u64,
    /// The moment at which it was shown, in seconds.
    pub shown: u64,
    /// What became of it.
    pub fate: ShownFate,
}

/// What became of a placement, at the moment of a statement.
#[derive(Clone, Copy, Debug, PartialEq, Eq)]
pub enum ShownFate {
    /// It was not clicked, and its price is held.
    Open,
    /// It was not clicked before its deadline.
    Expired,
    /// It was clicked at this moment, and its price is spent.
    Settled(u64),
    /// It was settled at the first moment, and credited at the second.
    Credited(u64, u64),
}

impl Twin for Reply {
    fn twin(&self) -> Result<Self, NoMemory> {
        Ok(match self {
            Reply::Made(number) => Reply::Made(*number),
            Reply::Done => Reply::Done,
            Reply::Credited(price) => Reply::Credited(*price),
            Reply::HostDay(numbers) => Reply::HostDay(*numbers),
            Reply::Imported { first, count } => Reply::Imported {
                first: *first,
                count: *count,
            },
            Reply::Day(report) => Reply::Day(report.twin()?),
            Reply::ShownRows(rows) => Reply::ShownRows(rows.twin()?),
            Reply::Page(spots) => Reply::Page(spots.twin()?),
            Reply::Went(link) => Reply::Went(link.twin()?),
            Reply::Refused(refusal) => Reply::Refused(*refusal),
        })
    }
}

impl Twin for Spot {
    fn twin(&self) -> Result<Self, NoMemory> {
        Ok(Spot {
            place: self.place,
            placement: self.placement,
            account: self.account,
            campaign: self.campaign,
            line: self.line,
            headline: self.headline.twin()?,
            link: self.link.twin()?,
            price: self.price,
        })
    }
}

impl Twin for CampaignDay {
    fn twin(&self) -> Result<Self, NoMemory> {
        Ok(*self)
    }
}

impl Twin for DayReport {
    fn twin(&self) -> Result<Self, NoMemory> {
        Ok(DayReport {
            day: self.day,
            rows: self.rows.twin()?,
        })
    }
}

impl Twin for HostDay {
    fn twin(&self) -> Result<Self, NoMemory> {
        Ok(*self)
    }
}

impl Twin for ShownRow {
    fn twin(&self) -> Result<Self, NoMemory> {
        Ok(*self)
    }
}

impl Twin for ShownFate {
    fn twin(&self) -> Result<Self, NoMemory> {
        Ok(*self)
    }
}
