//! The calls of an account.

ghost use Rattle.std.specs.Prelude.{◌≡◌, ◌+◌, IfOk};
ghost use Rattle.drill_calls.specs.Draws.{behind_draws, nth_draw};
ghost use Rattle.drill_calls.specs.DrillTexts.{drill_headline, drill_key, drill_link};
ghost use Rattle.drill_calls.specs.DrillCalls.{drill_line, line_draws, line_pattern as pattern_of, pattern_draws};

use crate::draws::Draws;
use crate::texts::{headline, key, link, pattern};
use desk_types::Call;
use query_words::{NoMemory, Text};
use std::alloc::Global;

/// The call that makes an account.
pub fn account_call(alloc: Global, account: u64) -> Result<Call, NoMemory>
    ensures { IfOk result (λ call. call ≡ Call.AddAccount (drill_key account)) }
{
    Ok(Call::AddAccount {
        key: key(alloc, account)?,
    })
}

/// The call that makes its campaign.
pub fn campaign_call(alloc: Global, draws: &mut Draws, account: u64) -> Result<Call, NoMemory>
    ensures drawn { draws.new ≡ behind_draws draws.old 1 }
    ensures call { IfOk result
        (λ call. call ≡ Call.AddCampaign account (drill_key account) (500 + nth_draw draws.old 1 2000)) }
{
    let budget = 500 + draws.draw(2_000);
    Ok(Call::AddCampaign {
        account,
        key: key(alloc, account)?,
        budget,
    })
}

/// The call that makes a line.
pub fn line_call(
    alloc: Global,
    draws: &mut Draws,
    account: u64,
    line: u64,
) -> Result<Call, NoMemory>
    ensures drawn { draws.new ≡ behind_draws draws.old (line_draws line) }
    ensures call { IfOk result (λ call. call ≡ drill_line account line draws.old) }
{
    let bid = 5 + draws.draw(96);
    let pattern = line_pattern(alloc, draws, line)?;
    line_with(alloc, account, line, bid, pattern)
}

/// The call that makes a line with this bid and pattern.
fn line_with(
    alloc: Global,
    account: u64,
    line: u64,
    bid: u64,
    pattern: Text,
) -> Result<Call, NoMemory>
    ensures { IfOk result (λ call. call ≡ Call.AddLine account (drill_key account) 1 bid pattern
        (drill_headline account line) (drill_link account line)) }
{
    Ok(Call::AddLine {
        account,
        key: key(alloc, account)?,
        campaign: 1,
        bid,
        pattern,
        headline: headline(alloc, account, line)?,
        link: link(alloc, account, line)?,
    })
}

/// The pattern of a line.
fn line_pattern(alloc: Global, draws: &mut Draws, line: u64) -> Result<Text, NoMemory>
    ensures drawn { draws.new ≡ behind_draws draws.old (pattern_draws line) }
    ensures text { IfOk result (λ text. text ≡ pattern_of line draws.old) }
{
    if line == 1 {
        return Text::new(alloc, "shoes");
    }
    let kind = draws.draw(3);
    let first = draws.draw(8);
    let second = draws.draw(8);
    pattern(alloc, kind, first, second)
}

/// The call that sets the quality of its line 1.
pub fn quality_call(draws: &mut Draws, account: u64) -> Call
    ensures drawn { draws.new ≡ behind_draws draws.old 1 }
    ensures call { result ≡ Call.SetQuality account 1 (1 + nth_draw draws.old 1 100) }
{
    Call::SetQuality {
        account,
        line: 1,
        quality: 1 + draws.draw(100),
    }
}
