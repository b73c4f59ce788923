//! The calls that lines spell which change a row that is there: qualities, suspensions, credits, budgets, bids and pauses.

ghost use Rattle.std.specs.Prelude.{◌≡◌};
ghost use Rattle.script_api.specs.LineFields.{fields};
ghost use Rattle.script_api.specs.EditForm.{quality_call, suspend_call, credit_call, budget_call, bid_call, pause_call, switch_spelled, part_spelled};
ghost use Rattle.script_api.specs.CallParts.{Spells};

use crate::fields::{five_fields, four_fields, one_field, three_fields, two_fields};
use crate::parts::{AdvertiserParts, CallParts, HostParts};
use desk_io::number::number;
use desk_types::Part;

/// `A L NUMBER`
#[tactic(auto, using(crate::proofs::EditLemmas::quality_else))]
pub fn quality_parts(text: &str) -> Option<CallParts<'_>>
    ensures { Spells (quality_call (fields text.now)) result }
{
    let (account, line, quality) = three_fields(text)?;
    Some(CallParts::Host(HostParts::SetQuality {
        account: number(account)?,
        line: number(line)?,
        quality: number(quality)?,
    }))
}

/// `A on` or `A off`
#[tactic(auto, using(crate::proofs::EditLemmas::suspend_else))]
pub fn suspend_parts(text: &str) -> Option<CallParts<'_>>
    ensures { Spells (suspend_call (fields text.now)) result }
{
    let (account, switch) = two_fields(text)?;
    Some(CallParts::Host(HostParts::Suspend {
        account: number(account)?,
        suspended: switch_of(switch)?,
    }))
}

/// `N`
#[tactic(auto, using(crate::proofs::EditLemmas::credit_else))]
pub fn credit_parts(text: &str) -> Option<CallParts<'_>>
    ensures { Spells (credit_call (fields text.now)) result }
{
    let placement = number(one_field(text)?)?;
    Some(CallParts::Host(HostParts::Credit { placement }))
}

/// `A KEY C NUMBER`
#[tactic(auto, using(crate::proofs::EditLemmas::budget_else))]
pub fn budget_parts(text: &str) -> Option<CallParts<'_>>
    ensures { Spells (budget_call (fields text.now)) result }
{
    let (account, key, campaign, amount) = four_fields(text)?;
    Some(CallParts::Advertiser {
        account: number(account)?,
        key,
        parts: AdvertiserParts::SetBudget {
            campaign: number(campaign)?,
            amount: number(amount)?,
        },
    })
}

/// `A KEY L NUMBER`
#[tactic(auto, using(crate::proofs::EditLemmas::bid_else))]
pub fn bid_parts(text: &str) -> Option<CallParts<'_>>
    ensures { Spells (bid_call (fields text.now)) result }
{
    let (account, key, line, bid) = four_fields(text)?;
    Some(CallParts::Advertiser {
        account: number(account)?,
        key,
        parts: AdvertiserParts::SetBid {
            line: number(line)?,
            bid: number(bid)?,
        },
    })
}

/// `A KEY campaign C on`, or `line L`, or `off`
#[tactic(auto, using(crate::proofs::EditLemmas::pause_else))]
pub fn pause_parts(text: &str) -> Option<CallParts<'_>>
    ensures { Spells (pause_call (fields text.now)) result }
{
    let (account, key, kind, numeral, switch) = five_fields(text)?;
    Some(CallParts::Advertiser {
        account: number(account)?,
        key,
        parts: AdvertiserParts::Pause {
            part: part_of(kind, numeral)?,
            on: switch_of(switch)?,
        },
    })
}

/// Whether a switch is on, or `None` where the field is no switch.
fn switch_of(field: &str) -> Option<bool>
    ensures { result ≡ switch_spelled field.now }
{
    match field {
        "on" => Some(true),
        "off" => Some(false),
        _ => None,
    }
}

/// A campaign or a line by its word and its number, or `None` where the fields name neither.
fn part_of(kind: &str, numeral: &str) -> Option<Part>
    ensures { result ≡ part_spelled kind.now numeral.now }
{
    let number = number(numeral)?;
    match kind {
        "campaign" => Some(Part::OfCampaign(number)),
        "line" => Some(Part::OfLine(number)),
        _ => None,
    }
}
