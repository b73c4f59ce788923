//! What a desk is asked.

ghost use Rattle.std.specs.Prelude.{◌≡◌, ◌+◌, ◌-◌, ◌^◌, min, length, sum_by};
ghost use Rattle.desk_types.specs.Weight.{row_weight, weight};

use crate::limits::ROW_WEIGHT;
use query_words::{List, NoMemory, Text, Twin};

/// A call of the host, of an advertiser, who names an account and its key, or of the public.
#[derive(Debug, Drop)]
pub enum Call {
    /// The host makes an account with this key.
    AddAccount {
        /// Its key.
        key: Text,
    },
    /// The host sets the quality of a line.
    SetQuality {
        /// The account's number.
        account: u64,
        /// The line's number.
        line: u64,
        /// The quality, 1 to 100.
        quality: u64,
    },
    /// The host suspends an account, or releases it.
    Suspend {
        /// The account's number.
        account: u64,
        /// Whether it is suspended from now on.
        suspended: bool,
    },
    /// The host credits a click to its advertiser.
    Credit {
        /// The placement's number.
        placement: u64,
    },
    /// The host asks for the numbers of a day.
    HostReport {
        /// The day, 0 to 2,932,896.
        day: u64,
    },
    /// An advertiser makes a campaign.
    AddCampaign {
        /// The account's number.
        account: u64,
        /// The account's key.
        key: Text,
        /// The daily budget, in cents.
        budget: u64,
    },
    /// An advertiser sets the daily budget of a campaign, from today on.
    SetBudget {
        /// The account's number.
        account: u64,
        /// The account's key.
        key: Text,
        /// The campaign's number.
        campaign: u64,
        /// The daily budget, in cents.
        amount: u64,
    },
    /// An advertiser makes a line.
    AddLine {
        /// The account's number.
        account: u64,
        /// The account's key.
        key: Text,
        /// The campaign's number.
        campaign: u64,
        /// The bid, in cents per click.
        bid: u64,
        /// The text of the pattern.
        pattern: Text,
        /// The headline.
        headline: Text,
        /// The text of the link.
        link: Text,
    },
    /// An advertiser sets the bid of a line.
    SetBid {
        /// The account's number.
        account: u64,
        /// The account's key.
        key: Text,
        /// The line's number.
        line: u64,
        /// The bid, in cents per click.
        bid: u64,
    },
    /// An advertiser switches a campaign or a line off, or on again.
    Pause {
        /// The account's number.
        account: u64,
        /// The account's key.
        key: Text,
        /// What is switched.
        part: Part,
        /// Whether it is on from now on.
        on: bool,
    },
    /// An advertiser makes a negative.
    AddNegative {
        /// The account's number.
        account: u64,
        /// The account's key.
        key: Text,
        /// The campaign's number.
        campaign: u64,
        /// The text of the pattern.
        pattern: Text,
    },
    /// An advertiser drops a negative.
    DropNegative {
        /// The account's number.
        account: u64,
        /// The account's key.
        key: Text,
        /// The negative's number.
        negative: u64,
    },
    /// An advertiser makes many lines at once, or none of them. A batch that was imported before is known by its number,
    /// and is not imported again.
    Import {
        /// The account's number.
        account: u64,
        /// The account's key.
        key: Text,
        /// The batch's number, which the advertiser chooses.
        batch: u64,
        /// The lines that are asked for, in order.
        rows: List<ImportRow>,
    },
    /// An advertiser asks for the numbers of a day, campaign by campaign.
    Report {
        /// The account's number.
        account: u64,
        /// The account's key.
        key: Text,
        /// The day, 0 to 2,932,896.
        day: u64,
    },
    /// An advertiser asks for the statement of a day: the placements that were shown.
    Shown {
        /// The account's number.
        account: u64,
        /// The account's key.
        key: Text,
        /// The day, 0 to 2,932,896.
        day: u64,
        /// The least number of a placement that is asked for.
        from: u64,
    },
    /// The public searches.
    Search {
        /// The text of the query.
        text: Text,
        /// The places of the page, where given, else those of the settings.
        places: Option<u64>,
    },
    /// The public clicks a placement.
    Click {
        /// The placement's number.
        placement: u64,
    },
}

/// A part of an account that can be switched off and on.
#[derive(Clone, Copy, Debug, PartialEq, Eq)]
pub enum Part {
    /// The campaign of this number.
    OfCampaign(u64),
    /// The line of this number.
    OfLine(u64),
}

/// A row of an import: a line that an advertiser asks for.
#[derive(Debug, Drop)]
pub struct ImportRow {
    /// The campaign's number.
    pub campaign: u64,
    /// The bid, in cents per click.
    pub bid: u64,
    /// The text of the pattern.
    pub pattern: Text,
    /// The headline.
    pub headline: Text,
    /// The text of the link.
    pub link: Text,
}

impl Call {
    /// What the call adds to the journal's bytes: the bytes of its texts, the key among them, and 128 for each row of an
    /// import. A greater sum than `u64::MAX` counts as that.
    pub fn weight(&self) -> u64
        ensures { result ≡ weight self.now }
    {
        match self {
            Call::AddAccount { key } => bytes(key),
            Call::SetQuality { .. }
            | Call::Suspend { .. }
            | Call::Credit { .. }
            | Call::HostReport { .. } => 0,
            Call::AddCampaign { key, .. } | Call::SetBudget { key, .. } => bytes(key),
            Call::AddLine {
                key,
                pattern,
                headline,
                link,
                ..
            } => more(more(more(bytes(key), pattern), headline), link),
            Call::SetBid { key, .. } => bytes(key),
            Call::Pause { key, .. } => bytes(key),
            Call::AddNegative { key, pattern, .. } => more(bytes(key), pattern),
            Call::DropNegative { key, .. } => bytes(key),
            Call::Import { key, rows, .. } => with_rows(bytes(key), rows.as_slice()),
            Call::Report { key, .. } | Call::Shown { key, .. } => bytes(key),
            Call::Search { text, .. } => bytes(text),
            Call::Click { .. } => 0,
        }
    }
}

/// The bytes of a text.
fn bytes(text: &Text) -> u64
    ensures { result ≡ min (length text.now) (2 ^ 64 - 1) }
{
    text.as_str().len() as u64
}

/// A sum and the bytes of a further text.
fn more(sum: u64, text: &Text) -> u64
    ensures { result ≡ min (sum + length text.now) (2 ^ 64 - 1) }
{
    sum.saturating_add(bytes(text))
}

/// A sum and what the rows of an import add to it.
fn with_rows(sum: u64, rows: &[ImportRow]) -> u64
    ensures { result ≡ min (sum + sum_by row_weight rows.now) (2 ^ 64 - 1) }
{
    let mut whole = sum;
    for row in rows {
        whole = with_row(whole, row);
    }
    whole
}

/// A sum and what a row of an import adds to it.
fn with_row(sum: u64, row: &ImportRow) -> u64
    ensures { result ≡ min (sum + row_weight row.now) (2 ^ 64 - 1) }
{
    more(more(more(sum, &row.pattern), &row.headline), &row.link).saturating_add(ROW_WEIGHT)
}

impl Twin for Part {
    fn twin(&self) -> Result<Self, NoMemory> {
        Ok(*self)
    }
}

impl Twin for ImportRow {
    fn twin(&self) -> Result<Self, NoMemory> {
        Ok(ImportRow {
            campaign: self.campaign,
            bid: self.bid,
            pattern: self.pattern.twin()?,
            headline: self.headline.twin()?,
            link: self.link.twin()?,
        })
    }
}

impl Twin for Call {
    fn twin(&self) -> Result<Self, NoMemory> {
        Ok(match self {
            Call::AddAccount { key } => Call::AddAccount { key: key.twin()? },
            Call::SetQuality {
                account,
                line,
                quality,
            } => Call::SetQuality {
                account: *account,
                line: *line,
                quality: *quality,
            },
            Call::Suspend { account, suspended } => Call::Suspend {
                account: *account,
                suspended: *suspended,
            },
            Call::Credit { placement } => Call::Credit {
                placement: *placement,
            },
            Call::HostReport { day } => Call::HostReport { day: *day },
            Call::AddCampaign {
                account,
                key,
                budget,
            } => Call::AddCampaign {
                account: *account,
                key: key.twin()?,
                budget: *budget,
            },
            Call::SetBudget {
                account,
                key,
                campaign,
                amount,
            } => Call::SetBudget {
                account: *account,
                key: key.twin()?,
                campaign: *campaign,
                amount: *amount,
            },
            Call::AddLine {
                account,
                key,
                campaign,
                bid,
                pattern,
                headline,
                link,
            } => Call::AddLine {
                account: *account,
                key: key.twin()?,
                campaign: *campaign,
                bid: *bid,
                pattern: pattern.twin()?,
                headline: headline.twin()?,
                link: link.twin()?,
            },
            Call::SetBid {
                account,
                key,
                line,
                bid,
            } => Call::SetBid {
                account: *account,
                key: key.twin()?,
                line: *line,
                bid: *bid,
            },
            Call::Pause {
                account,
                key,
                part,
                on,
            } => Call::Pause {
                account: *account,
                key: key.twin()?,
                part: *part,
                on: *on,
            },
            Call::AddNegative {
                account,
                key,
                campaign,
                pattern,
            } => Call::AddNegative {
                account: *account,
                key: key.twin()?,
                campaign: *campaign,
                pattern: pattern.twin()?,
            },
            Call::DropNegative {
                account,
                key,
                negative,
            } => Call::DropNegative {
                account: *account,
                key: key.twin()?,
                negative: *negative,
            },
            Call::Import {
                account,
                key,
                batch,
                rows,
            } => Call::Import {
                account: *account,
                key: key.twin()?,
                batch: *batch,
                rows: rows.twin()?,
            },
            Call::Report { account, key, day } => Call::Report {
                account: *account,
                key: key.twin()?,
                day: *day,
            },
            Call::Shown {
                account,
                key,
                day,
                from,
            } => Call::Shown {
                account: *account,
                key: key.twin()?,
                day: *day,
                from: *from,
            },
            Call::Search { text, places } => Call::Search {
                text: text.twin()?,
                places: *places,
            },
            Call::Click { placement } => Call::Click {
                placement: *placement,
            },
        })
    }
}
