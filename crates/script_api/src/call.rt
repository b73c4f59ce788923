//! The calls that lines spell.

ghost use Rattle.std.specs.Prelude.{◌≡◌};
ghost use Rattle.script_api.specs.LineFields.{fields, unspaced, behind_first, behind_third, behind_fifth};
ghost use Rattle.script_api.specs.CallForm.{account_call, campaign_call, line_call, negative_call, drop_call, search_call, click_call, call_spelled, places_spelled};
ghost use Rattle.script_api.specs.CallParts.{Spells};

use crate::asks::{host_parts, report_parts, shown_parts};
use crate::bar::texts_round_bar;
use crate::command::CallWord;
use crate::edits::{
    bid_parts, budget_parts, credit_parts, pause_parts, quality_parts, suspend_parts,
};
use crate::fields::{
    first_field, first_five, first_three, one_field, three_fields, without_spaces,
};
use crate::parts::{AdvertiserParts, CallParts, HostParts, LineParts};
use desk_io::number::number;

/// The call of a command by the text behind it, or `None` where the text is in another form.
#[tactic(auto, unfolding(crate::specs::CallForm::call_spelled))]
pub fn read_call(word: CallWord, text: &str) -> Option<CallParts<'_>>
    ensures { Spells (call_spelled word text.now) result }
{
    match word {
        CallWord::Account => account_parts(text),
        CallWord::Quality => quality_parts(text),
        CallWord::Suspend => suspend_parts(text),
        CallWord::Credit => credit_parts(text),
        CallWord::Host => host_parts(text),
        CallWord::Campaign => campaign_parts(text),
        CallWord::Budget => budget_parts(text),
        CallWord::Line => line_parts(text),
        CallWord::Bid => bid_parts(text),
        CallWord::Pause => pause_parts(text),
        CallWord::Negative => negative_parts(text),
        CallWord::Drop => drop_parts(text),
        CallWord::Report => report_parts(text),
        CallWord::Shown => shown_parts(text),
        CallWord::Search => search_parts(text),
        CallWord::Click => click_parts(text),
    }
}

/// `KEY`
#[tactic(auto, using(crate::proofs::FormLemmas::account_else))]
fn account_parts(text: &str) -> Option<CallParts<'_>>
    ensures { Spells (account_call (fields text.now)) result }
{
    let key = one_field(text)?;
    Some(CallParts::Host(HostParts::AddAccount { key }))
}

/// `A KEY NUMBER`
#[tactic(auto, using(crate::proofs::FormLemmas::campaign_else))]
fn campaign_parts(text: &str) -> Option<CallParts<'_>>
    ensures { Spells (campaign_call (fields text.now)) result }
{
    let (account, key, budget) = three_fields(text)?;
    Some(CallParts::Advertiser {
        account: number(account)?,
        key,
        parts: AdvertiserParts::AddCampaign {
            budget: number(budget)?,
        },
    })
}

/// `A KEY C BID LINK PATTERN | HEADLINE`
#[tactic(auto, using(crate::proofs::FormLemmas::line_else))]
fn line_parts(text: &str) -> Option<CallParts<'_>>
    ensures { Spells (line_call (fields text.now) (unspaced (behind_fifth text.now))) result }
{
    let (account, key, campaign, bid, link, rest) = first_five(text)?;
    let account = number(account)?;
    let campaign = number(campaign)?;
    let bid = number(bid)?;
    let (pattern, headline) = texts_round_bar(without_spaces(rest))?;
    let parts = AdvertiserParts::AddLine(LineParts {
        campaign,
        bid,
        pattern,
        headline,
        link,
    });
    Some(CallParts::Advertiser {
        account,
        key,
        parts,
    })
}

/// `A KEY C PATTERN`
#[tactic(auto, using(crate::proofs::FormLemmas::negative_else))]
fn negative_parts(text: &str) -> Option<CallParts<'_>>
    ensures { Spells (negative_call (fields text.now) (unspaced (behind_third text.now))) result }
{
    let (account, key, campaign, rest) = first_three(text)?;
    let account = number(account)?;
    let campaign = number(campaign)?;
    let pattern = without_spaces(rest);
    if pattern.is_empty() {
        return None;
    }
    Some(CallParts::Advertiser {
        account,
        key,
        parts: AdvertiserParts::AddNegative { campaign, pattern },
    })
}

/// `A KEY N`
#[tactic(auto, using(crate::proofs::FormLemmas::drop_else))]
fn drop_parts(text: &str) -> Option<CallParts<'_>>
    ensures { Spells (drop_call (fields text.now)) result }
{
    let (account, key, negative) = three_fields(text)?;
    Some(CallParts::Advertiser {
        account: number(account)?,
        key,
        parts: AdvertiserParts::DropNegative {
            negative: number(negative)?,
        },
    })
}

/// `N TEXT` or `- TEXT`
fn search_parts(text: &str) -> Option<CallParts<'_>>
    ensures { Spells (search_call (fields text.now) (unspaced (behind_first text.now))) result }
{
    let (places, rest) = first_field(text)?;
    Some(CallParts::Search {
        places: places_of(places)?,
        text: without_spaces(rest),
    })
}

/// The places of a search: a number, or none given by `-`.
fn places_of(field: &str) -> Option<Option<u64>>
    ensures { result ≡ places_spelled field.now }
{
    if field == "-" {
        return Some(None);
    }
    Some(Some(number(field)?))
}

/// `N`
#[tactic(auto, using(crate::proofs::FormLemmas::click_else))]
fn click_parts(text: &str) -> Option<CallParts<'_>>
    ensures { Spells (click_call (fields text.now)) result }
{
    let placement = number(one_field(text)?)?;
    Some(CallParts::Click { placement })
}
