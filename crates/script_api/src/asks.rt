//! The calls that lines spell which ask for the numbers of a day.

ghost use Rattle.std.specs.Prelude.{◌≡◌};
ghost use Rattle.script_api.specs.LineFields.{fields};
ghost use Rattle.script_api.specs.AskForm.{host_call, report_call, shown_call};
ghost use Rattle.script_api.specs.CallParts.{Spells};

use crate::fields::{four_fields, one_field, three_fields};
use crate::parts::{AdvertiserParts, CallParts, HostParts};
use desk_io::number::number;

/// `D`
#[tactic(auto, using(crate::proofs::AskLemmas::host_else))]
pub fn host_parts(text: &str) -> Option<CallParts<'_>>
    ensures { Spells (host_call (fields text.now)) result }
{
    let day = number(one_field(text)?)?;
    Some(CallParts::Host(HostParts::HostReport { day }))
}

/// `A KEY D`
#[tactic(auto, using(crate::proofs::AskLemmas::report_else))]
pub fn report_parts(text: &str) -> Option<CallParts<'_>>
    ensures { Spells (report_call (fields text.now)) result }
{
    let (account, key, day) = three_fields(text)?;
    Some(CallParts::Advertiser {
        account: number(account)?,
        key,
        parts: AdvertiserParts::Report { day: number(day)? },
    })
}

/// `A KEY D N`
#[tactic(auto, using(crate::proofs::AskLemmas::shown_else))]
pub fn shown_parts(text: &str) -> Option<CallParts<'_>>
    ensures { Spells (shown_call (fields text.now)) result }
{
    let (account, key, day, from) = four_fields(text)?;
    Some(CallParts::Advertiser {
        account: number(account)?,
        key,
        parts: AdvertiserParts::Shown {
            day: number(day)?,
            from: number(from)?,
        },
    })
}
