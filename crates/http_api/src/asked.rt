//! What a message asks for, by what its target names.

ghost use Rattle.std.specs.Prelude.{◌≡◌, IfOk, List, Result};
ghost use Rattle.http_api.specs.Asked.{IsVerdictFor, account_asked, by_body as by_the_body, by_file, by_query as by_the_query, host_asked, json_of, line_asked, search_asked, shown_asked};
ghost use Rattle.csv_import.specs.ImportFile.{Tells};
ghost use Rattle.csv_import.specs.declared.fault.CsvFault.{CsvFault as Fault};
ghost use Rattle.desk_types.specs.declared.call.ImportRow.{ImportRow};
ghost use Rattle.http_api.specs.BodyTold.{told_of};
ghost use Rattle.http_api.specs.declared.resource.AccountResource.TheVariants as asked;
ghost use Rattle.http_api.specs.declared.resource.HostResource.TheVariants as host;

use crate::body::Body;
use crate::judgement::Judgement;
use crate::query::{from_asked, places_asked, text_asked};
use crate::resource::{AccountResource, HostResource, Resource};
use crate::verdict::Verdict;
use csv_import::{CsvFault, read_rows};
use desk_io::NoMemory;
use desk_types::Call;
use query_words::Text;
use std::alloc::{AllocError, Global};

/// The verdict for a resource, by the key of the message: a call, or what holds of the query or of the body. A body that
/// is not asked for is not read.
pub fn verdict_for(
    alloc: Global,
    resource: Resource,
    key: &str,
    query: &[u8],
    body: &[u8],
) -> Result<Verdict, NoMemory>
    ensures { IfOk result (λ verdict. IsVerdictFor resource key.now query.now body.now verdict) }
{
    match resource {
        Resource::Host(resource) => Ok(by_body(host_call(alloc, resource, body)?)),
        Resource::Account { account, resource } => {
            let key = Text::new(alloc, key)?;
            Ok(by_body(account_call(alloc, account, key, resource, body)?))
        }
        Resource::Import { account, batch } => {
            let key = Text::new(alloc, key)?;
            import_verdict(alloc, account, key, batch, body)
        }
        Resource::Shown { account, day } => {
            let key = Text::new(alloc, key)?;
            Ok(by_query(shown_call(alloc, account, key, day, query)?))
        }
        Resource::Search => Ok(by_query(search_call(alloc, query)?)),
        Resource::Click { placement } => Ok(Verdict::Asks(Call::Click { placement })),
    }
}

/// The verdict by the call of a body, where it is one.
fn by_body(call: Option<Call>) -> Verdict
    ensures { result ≡ by_the_body call }
{
    match call {
        Some(call) => Verdict::Asks(call),
        None => Verdict::Fails(Judgement::BadBody),
    }
}

/// The verdict by the call of a query, where it is one.
fn by_query(call: Option<Call>) -> Verdict
    ensures { result ≡ by_the_query call }
{
    match call {
        Some(call) => Verdict::Asks(call),
        None => Verdict::Fails(Judgement::BadQuery),
    }
}

/// The verdict on the file of an import.
fn import_verdict(
    alloc: Global,
    account: u64,
    key: Text,
    batch: u64,
    file: &[u8],
) -> Result<Verdict, NoMemory>
    ensures { IfOk result (λ verdict. (told : Result (List ImportRow) Fault)
        × Tells file.now told × (verdict ≡ by_file account key batch told)) }
{
    match read_rows(alloc, file) {
        Ok(rows) => Ok(Verdict::Asks(Call::Import {
            account,
            key,
            batch,
            rows,
        })),
        Err(CsvFault::Row(row)) => Ok(Verdict::Fails(Judgement::BadCsv(Some(row)))),
        Err(CsvFault::Heading | CsvFault::TooMany) => Ok(Verdict::Fails(Judgement::BadCsv(None))),
        Err(CsvFault::NoMemory) => Err(AllocError),
    }
}

/// A call of the host.
#[tactic(auto, unfolding(crate::specs::Asked::host_asked))]
fn host_call(alloc: Global, resource: HostResource, body: &[u8]) -> Result<Option<Call>, NoMemory>
    ensures { IfOk result (λ call. call ≡ host_asked resource (json_of body.now)) }
{
    match resource {
        HostResource::AddAccount => new_account(alloc, &Body::read(alloc, body)?),
        HostResource::SetQuality => Ok(quality(&Body::read(alloc, body)?)),
        HostResource::Suspend => Ok(suspension(&Body::read(alloc, body)?)),
        HostResource::Credit(placement) => Ok(Some(Call::Credit { placement })),
        HostResource::Report(day) => Ok(Some(Call::HostReport { day })),
    }
}

/// The call that makes an account.
#[tactic(auto, unfolding(crate::specs::Asked::host_asked))]
fn new_account(alloc: Global, body: &Body) -> Result<Option<Call>, NoMemory>
    ensures { IfOk result (λ call. call ≡ host_asked host.AddAccount (told_of body.now)) }
{
    let Some(key) = body.text("key") else {
        return Ok(None);
    };
    Ok(Some(Call::AddAccount {
        key: Text::new(alloc, key)?,
    }))
}

/// The call that sets the quality of a line.
#[tactic(auto, unfolding(crate::specs::Asked::host_asked))]
fn quality(body: &Body) -> Option<Call>
    ensures { result ≡ host_asked host.SetQuality (told_of body.now) }
{
    Some(Call::SetQuality {
        account: body.number("account")?,
        line: body.number("line")?,
        quality: body.number("quality")?,
    })
}

/// The call that suspends an account or releases it.
#[tactic(auto, unfolding(crate::specs::Asked::host_asked))]
fn suspension(body: &Body) -> Option<Call>
    ensures { result ≡ host_asked host.Suspend (told_of body.now) }
{
    Some(Call::Suspend {
        account: body.number("account")?,
        suspended: body.flag("suspended")?,
    })
}

/// A call of the advertiser of an account.
#[tactic(auto, unfolding(crate::specs::Asked::account_asked))]
fn account_call(
    alloc: Global,
    account: u64,
    key: Text,
    resource: AccountResource,
    body: &[u8],
) -> Result<Option<Call>, NoMemory>
    ensures { IfOk result (λ call. call ≡ account_asked account key resource (json_of body.now)) }
{
    match resource {
        AccountResource::AddCampaign => Ok(new_campaign(account, key, &Body::read(alloc, body)?)),
        AccountResource::SetBudget => Ok(budget(account, key, &Body::read(alloc, body)?)),
        AccountResource::AddLine => new_line(alloc, account, key, &Body::read(alloc, body)?),
        AccountResource::SetBid => Ok(bid(account, key, &Body::read(alloc, body)?)),
        AccountResource::Pause => Ok(pause(account, key, &Body::read(alloc, body)?)),
        AccountResource::AddNegative => {
            new_negative(alloc, account, key, &Body::read(alloc, body)?)
        }
        AccountResource::DropNegative(negative) => Ok(Some(Call::DropNegative {
            account,
            key,
            negative,
        })),
        AccountResource::Report(day) => Ok(Some(Call::Report { account, key, day })),
    }
}

/// The call that makes a campaign.
#[tactic(auto, unfolding(crate::specs::Asked::account_asked))]
fn new_campaign(account: u64, key: Text, body: &Body) -> Option<Call>
    ensures { result ≡ account_asked account key asked.AddCampaign (told_of body.now) }
{
    let budget = body.number("budget")?;
    Some(Call::AddCampaign {
        account,
        key,
        budget,
    })
}

/// The call that sets a budget.
#[tactic(auto, unfolding(crate::specs::Asked::account_asked))]
fn budget(account: u64, key: Text, body: &Body) -> Option<Call>
    ensures { result ≡ account_asked account key asked.SetBudget (told_of body.now) }
{
    let campaign = body.number("campaign")?;
    let amount = body.number("amount")?;
    Some(Call::SetBudget {
        account,
        key,
        campaign,
        amount,
    })
}

/// The call that makes a line.
fn new_line(alloc: Global, account: u64, key: Text, body: &Body) -> Result<Option<Call>, NoMemory>
    ensures { IfOk result (λ call. call ≡ line_asked account key (told_of body.now)) }
{
    let (Some(campaign), Some(bid)) = (body.number("campaign"), body.number("bid")) else {
        return Ok(None);
    };
    let (Some(pattern), Some(headline), Some(link)) = (
        body.text("pattern"),
        body.text("headline"),
        body.text("link"),
    ) else {
        return Ok(None);
    };
    Ok(Some(Call::AddLine {
        account,
        key,
        campaign,
        bid,
        pattern: Text::new(alloc, pattern)?,
        headline: Text::new(alloc, headline)?,
        link: Text::new(alloc, link)?,
    }))
}

/// The call that sets a bid.
#[tactic(auto, unfolding(crate::specs::Asked::account_asked))]
fn bid(account: u64, key: Text, body: &Body) -> Option<Call>
    ensures { result ≡ account_asked account key asked.SetBid (told_of body.now) }
{
    let line = body.number("line")?;
    let bid = body.number("bid")?;
    Some(Call::SetBid {
        account,
        key,
        line,
        bid,
    })
}

/// The call that switches a campaign or a line.
#[tactic(auto, unfolding(crate::specs::Asked::account_asked))]
fn pause(account: u64, key: Text, body: &Body) -> Option<Call>
    ensures { result ≡ account_asked account key asked.Pause (told_of body.now) }
{
    let part = body.part()?;
    let on = body.flag("on")?;
    Some(Call::Pause {
        account,
        key,
        part,
        on,
    })
}

/// The call that makes a negative.
#[tactic(auto, unfolding(crate::specs::Asked::account_asked))]
fn new_negative(
    alloc: Global,
    account: u64,
    key: Text,
    body: &Body,
) -> Result<Option<Call>, NoMemory>
    ensures { IfOk result (λ call. call ≡ account_asked account key asked.AddNegative (told_of body.now)) }
{
    let (Some(campaign), Some(pattern)) = (body.number("campaign"), body.text("pattern")) else {
        return Ok(None);
    };
    Ok(Some(Call::AddNegative {
        account,
        key,
        campaign,
        pattern: Text::new(alloc, pattern)?,
    }))
}

/// The call of a search.
fn search_call(alloc: Global, query: &[u8]) -> Result<Option<Call>, NoMemory>
    ensures { IfOk result (λ call. call ≡ search_asked query.now) }
{
    let Some(places) = places_asked(alloc, query)? else {
        return Ok(None);
    };
    let text = text_asked(alloc, query)?;
    Ok(Some(Call::Search { text, places }))
}

/// The call for a statement.
fn shown_call(
    alloc: Global,
    account: u64,
    key: Text,
    day: u64,
    query: &[u8],
) -> Result<Option<Call>, NoMemory>
    ensures { IfOk result (λ call. call ≡ shown_asked account key day query.now) }
{
    let Some(from) = from_asked(alloc, query)? else {
        return Ok(None);
    };
    Ok(Some(Call::Shown {
        account,
        key,
        day,
        from,
    }))
}
