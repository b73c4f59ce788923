//! A call in the parts of a line.

ghost use Rattle.std.specs.Prelude.{◌≡◌, IfOk};
ghost use Rattle.script_api.specs.CallParts.{advertiser_call_of, call_of, host_call_of, line_call_of};

use desk_types::{Call, Part};
use query_words::{NoMemory, Text};
use std::alloc::Global;

/// A call as a line spells it: its texts are parts of the line.
#[derive(Clone, Copy)]
pub enum CallParts<'a> {
    Host(HostParts<'a>),
    Advertiser {
        account: u64,
        key: &'a str,
        parts: AdvertiserParts<'a>,
    },
    Search {
        text: &'a str,
        places: Option<u64>,
    },
    Click {
        placement: u64,
    },
}

/// A call of the host.
#[derive(Clone, Copy)]
pub enum HostParts<'a> {
    AddAccount {
        key: &'a str,
    },
    SetQuality {
        account: u64,
        line: u64,
        quality: u64,
    },
    Suspend {
        account: u64,
        suspended: bool,
    },
    Credit {
        placement: u64,
    },
    HostReport {
        day: u64,
    },
}

/// What an advertiser asks for, who names an account and its key beside it.
#[derive(Clone, Copy)]
pub enum AdvertiserParts<'a> {
    AddCampaign { budget: u64 },
    SetBudget { campaign: u64, amount: u64 },
    AddLine(LineParts<'a>),
    SetBid { line: u64, bid: u64 },
    Pause { part: Part, on: bool },
    AddNegative { campaign: u64, pattern: &'a str },
    DropNegative { negative: u64 },
    Report { day: u64 },
    Shown { day: u64, from: u64 },
}

/// A line that an advertiser asks for.
#[derive(Clone, Copy)]
pub struct LineParts<'a> {
    pub campaign: u64,
    pub bid: u64,
    pub pattern: &'a str,
    pub headline: &'a str,
    pub link: &'a str,
}

impl CallParts<'_> {
    /// The call, with texts of its own. `NoMemory` is want of memory for them.
    pub fn call(&self, alloc: Global) -> Result<Call, NoMemory>
        ensures { IfOk result (λ call. call ≡ call_of self.now) }
    {
        match *self {
            CallParts::Host(parts) => parts.call(alloc),
            CallParts::Advertiser {
                account,
                key,
                parts,
            } => parts.call(alloc, account, Text::new(alloc, key)?),
            CallParts::Search { text, places } => Ok(Call::Search {
                text: Text::new(alloc, text)?,
                places,
            }),
            CallParts::Click { placement } => Ok(Call::Click { placement }),
        }
    }
}

impl HostParts<'_> {
    /// The call of the host.
    fn call(&self, alloc: Global) -> Result<Call, NoMemory>
        ensures { IfOk result (λ call. call ≡ host_call_of self.now) }
    {
        Ok(match *self {
            HostParts::AddAccount { key } => Call::AddAccount {
                key: Text::new(alloc, key)?,
            },
            HostParts::SetQuality {
                account,
                line,
                quality,
            } => Call::SetQuality {
                account,
                line,
                quality,
            },
            HostParts::Suspend { account, suspended } => Call::Suspend { account, suspended },
            HostParts::Credit { placement } => Call::Credit { placement },
            HostParts::HostReport { day } => Call::HostReport { day },
        })
    }
}

impl AdvertiserParts<'_> {
    /// The call of the advertiser of an account, by its key.
    fn call(&self, alloc: Global, account: u64, key: Text) -> Result<Call, NoMemory>
        ensures { IfOk result (λ call. call ≡ advertiser_call_of account key self.now) }
    {
        Ok(match *self {
            AdvertiserParts::AddCampaign { budget } => Call::AddCampaign {
                account,
                key,
                budget,
            },
            AdvertiserParts::SetBudget { campaign, amount } => Call::SetBudget {
                account,
                key,
                campaign,
                amount,
            },
            AdvertiserParts::AddLine(parts) => return parts.call(alloc, account, key),
            AdvertiserParts::SetBid { line, bid } => Call::SetBid {
                account,
                key,
                line,
                bid,
            },
            AdvertiserParts::Pause { part, on } => Call::Pause {
                account,
                key,
                part,
                on,
            },
            AdvertiserParts::AddNegative { campaign, pattern } => Call::AddNegative {
                account,
                key,
                campaign,
                pattern: Text::new(alloc, pattern)?,
            },
            AdvertiserParts::DropNegative { negative } => Call::DropNegative {
                account,
                key,
                negative,
            },
            AdvertiserParts::Report { day } => Call::Report { account, key, day },
            AdvertiserParts::Shown { day, from } => Call::Shown {
                account,
                key,
                day,
                from,
            },
        })
    }
}

impl LineParts<'_> {
    /// The call that makes the line for an account, by its key.
    fn call(&self, alloc: Global, account: u64, key: Text) -> Result<Call, NoMemory>
        ensures { IfOk result (λ call. call ≡ line_call_of account key self.now) }
    {
        Ok(Call::AddLine {
            account,
            key,
            campaign: self.campaign,
            bid: self.bid,
            pattern: Text::new(alloc, self.pattern)?,
            headline: Text::new(alloc, self.headline)?,
            link: Text::new(alloc, self.link)?,
        })
    }
}
