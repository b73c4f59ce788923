//! The forms of an auction's lines.

ghost use Rattle.std.specs.Prelude.{◌≡◌};
ghost use Rattle.auction_page.specs.Form.{ad_in, has_outer_space as has_space_outside, heading_in, name_in};

use crate::heading::Heading;
use crate::limits::{FREE_MAX, NUMBER_MAX};
use crate::parts::three_parts;
use auction_types::Ad;
use auction_types::limits::{BID_MAX, BID_MIN, FLOOR_MAX, PLACES_MAX, QUALITY_MAX, QUALITY_MIN};
use desk_io::number::number_in;
use script_api::fields::{five_fields, four_fields};

/// The triple that names a line, each number 1 to 1,000,000.
#[derive(Clone, Copy, Debug, PartialEq, Eq, Hash)]
pub struct LineName {
    pub account: u64,
    pub campaign: u64,
    pub line: u64,
}

/// What a line of an auction spells of an ad.
#[derive(Clone, Copy, Debug, PartialEq, Eq)]
pub struct AdLine {
    pub ad: Ad,
    /// The free budget of its campaign, in cents: 0 to 1,000,000,000,000.
    pub free: u64,
}

impl AdLine {
    /// The name of the ad's line.
    pub fn name(&self) -> LineName
        ensures { let ad = self.now.ad in
            result ≡ record { account = ad.account; campaign = ad.campaign; line = ad.line } }
    {
        LineName {
            account: self.ad.account(),
            campaign: self.ad.campaign(),
            line: self.ad.line(),
        }
    }
}

/// Whether a space stands at an end of the line.
#[tactic(auto, unfolding(crate::specs::Form::has_outer_space))]
fn has_outer_space(line: &[u8]) -> bool
    ensures { result ≡ has_space_outside line.now }
{
    if line.is_empty() {
        return false;
    }
    if line[0] == b' ' {
        return true;
    }
    line[line.len() - 1] == b' '
}

/// The heading that a line spells: `auction RESERVE FLOOR PLACES`, or `None` where it is in another form.
#[tactic(auto, unfolding(crate::specs::Form::heading_in), using(crate::proofs::FormLemmas::no_heading, crate::proofs::TextLemmas::heading_of_no_text))]
pub fn read_heading(line: &[u8]) -> Option<Heading>
    ensures { result ≡ heading_in line.now }
{
    if has_outer_space(line) {
        return None;
    }
    let Ok(text) = str::from_utf8(line) else {
        return None;
    };
    let (word, reserve, floor, places) = four_fields(text)?;
    if word != "auction" {
        return None;
    }
    let reserve = number_in(reserve.as_bytes(), BID_MIN, BID_MAX)?;
    let floor = number_in(floor.as_bytes(), 0, FLOOR_MAX)?;
    let places = number_in(places.as_bytes(), 1, PLACES_MAX)?;
    Some(Heading::new(reserve, floor, places))
}

/// The name that a text spells: `ACCOUNT.CAMPAIGN.LINE`, or `None` where it is in another form.
#[tactic(auto, unfolding(crate::specs::Form::name_in), using(crate::proofs::FormLemmas::no_name))]
fn read_name(text: &str) -> Option<LineName>
    ensures { result ≡ name_in text.now }
{
    let (account, campaign, line) = three_parts(text)?;
    Some(LineName {
        account: number_in(account.as_bytes(), 1, NUMBER_MAX)?,
        campaign: number_in(campaign.as_bytes(), 1, NUMBER_MAX)?,
        line: number_in(line.as_bytes(), 1, NUMBER_MAX)?,
    })
}

/// The ad that a line spells: `ad ACCOUNT.CAMPAIGN.LINE BID QUALITY FREE`, or `None` where it is in another form.
#[tactic(auto, unfolding(crate::specs::Form::ad_in), using(crate::proofs::FormLemmas::no_ad, crate::proofs::TextLemmas::ad_of_no_text))]
pub fn read_ad(line: &[u8]) -> Option<AdLine>
    ensures { result ≡ ad_in line.now }
{
    if has_outer_space(line) {
        return None;
    }
    let Ok(text) = str::from_utf8(line) else {
        return None;
    };
    let (word, name, bid, quality, free) = five_fields(text)?;
    if word != "ad" {
        return None;
    }
    let name = read_name(name)?;
    let bid = number_in(bid.as_bytes(), BID_MIN, BID_MAX)?;
    let quality = number_in(quality.as_bytes(), QUALITY_MIN, QUALITY_MAX)?;
    let free = number_in(free.as_bytes(), 0, FREE_MAX)?;
    let ad = Ad::new(name.account, name.campaign, name.line, bid, quality)?;
    Some(AdLine { ad, free })
}
