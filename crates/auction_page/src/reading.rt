//! What a reader of an auction keeps from line to line.

ghost use Rattle.std.specs.Prelude.{◌≡◌, ◌≢◌, ◌-◌, ◌^◌, ◌<◌, ◌∷◌, ◌++◌, [], None, Some, All, OnOk, OnErr, IfOk, IfErr};
ghost use Rattle.auction_page.specs.Ending.{auction_value, Gives, IsFault};
ghost use Rattle.auction_page.specs.Form.{ad_in, heading_in};
ghost use Rattle.auction_page.specs.MeetsHeading.{MeetsHeading};
ghost use Rattle.auction_page.specs.Reading.{auction_from, is_eligible_under, kept_ads, name_fault, nothing_yet, take_ad as ad_taken, take_heading as heading_taken, take_text};

use crate::auction::Auction;
use crate::fault::ReadEnd;
use crate::form::{AdLine, LineName, read_ad, read_heading};
use crate::heading::Heading;
use crate::limits::ADS_MAX;
use auction_types::Ad;
use desk_io::LineFault;
use indexmap::IndexSet;
use std::alloc::{AllocError, Global};
use std::marker::Model;

/// The heading, the names of all ads and the ads that are eligible, as the lines so far spell them.
#[derive(Drop)]
pub struct AuctionReading {
    heading: Option<Heading>,
    names: IndexSet<LineName>,
    eligible: Vec<Ad>,
}

impl Model for AuctionReading {
    ghost use Rattle.auction_page.specs.Reading.{SoFar};
    ghost use Rattle.auction_page.specs.MeetsHeading.{AllMeet};

    ghost Value = { SoFar };

    ghost view = { λ r. record { heading = r.heading; names = r.names.keys; eligible = r.eligible.items } };

    // each ad that is kept meets the heading's reserve and floor
    ghost invariant = { λ r. AllMeet r.heading r.eligible.items };
}

impl AuctionReading {
    /// Nothing is spelled yet. The memory for the ads of the largest auction is taken here.
    pub fn new(alloc: Global) -> Result<AuctionReading, AllocError>
        ensures { IfOk result (λ reading. reading ≡ nothing_yet) }
    {
        Ok(AuctionReading {
            heading: None,
            names: IndexSet::with_capacity(alloc, ADS_MAX as usize)?,
            eligible: Vec::with_capacity(alloc, ADS_MAX as usize)?,
        })
    }

    /// Takes the text of the next line, whose number it is told.
    ///
    /// It fails where the line has a fault, or for want of memory; the reading is then over.
    #[tactic(auto, unfolding(crate::specs::Reading::take_text))]
    pub fn take(&mut self, number: u64, text: &[u8]) -> Result<(), ReadEnd>
        ensures { Gives (λ _. self.new) (take_text self.old (record { number = number; text = text.now })) result }
    {
        match self.heading {
            None => self.take_heading(number, text),
            Some(heading) => self.take_ad(&heading, number, text),
        }
    }

    /// The auction that the lines spelled, where the end stands behind so many of them.
    pub fn end(self, count: u64) -> Result<Auction, ReadEnd>
        requires { count < 2 ^ 64 - 1 }
        ensures gives { Gives auction_value (auction_from self.heading count self.eligible) result }
        ensures meets { IfOk result (λ auction. All (MeetsHeading auction.heading) auction.ads.items) }
        ensures no_read_fault { IfErr result (λ end. end ≢ ReadEnd.ReadFault) }
    {
        match self.heading {
            None => Err(ReadEnd::Fault(LineFault::BadLine(count + 1))),
            Some(heading) => Ok(Auction {
                heading,
                ads: self.eligible,
            }),
        }
    }

    /// Takes the line of the heading.
    #[tactic(auto, unfolding(crate::specs::Reading::take_heading))]
    fn take_heading(&mut self, number: u64, text: &[u8]) -> Result<(), ReadEnd>
        requires { self.old.heading ≡ None }
        ensures { Gives (λ _. self.new) (heading_taken self.old number (heading_in text.now)) result }
    {
        match read_heading(text) {
            None => Err(ReadEnd::Fault(LineFault::BadLine(number))),
            Some(heading) => {
                self.heading = Some(heading);
                Ok(())
            }
        }
    }

    /// Takes the line of an ad.
    #[tactic(auto, unfolding(crate::specs::Reading::take_ad))]
    fn take_ad(&mut self, heading: &Heading, number: u64, text: &[u8]) -> Result<(), ReadEnd>
        requires { self.old.heading ≡ Some heading.now }
        ensures { Gives (λ _. self.new) (ad_taken heading.now self.old number (ad_in text.now)) result }
    {
        match read_ad(text) {
            None => Err(ReadEnd::Fault(LineFault::BadLine(number))),
            Some(line) => {
                note_name(&mut self.names, line.name(), number)?;
                keep(&mut self.eligible, heading, &line)
            }
        }
    }
}

/// Puts the name of an ad behind the earlier ones.
///
/// It fails where the name stands there already, where it is one too many, or for want of memory; the
/// names are then not used again.
#[tactic(auto, unfolding(crate::specs::Reading::name_fault))]
fn note_name(names: &mut IndexSet<LineName>, name: LineName, number: u64) -> Result<(), ReadEnd>
    ensures none { OnOk result (name_fault names.old.keys number name ≡ None) }
    ensures noted { OnOk result (names.new.keys ≡ names.old.keys ++ name ∷ []) }
    ensures fault { IfErr result (IsFault (name_fault names.old.keys number name)) }
{
    let is_full = names.len() as u64 >= ADS_MAX;
    match names.insert_full(name) {
        Ok((_, false)) => Err(ReadEnd::Fault(LineFault::BadLine(number))),
        Ok((_, true)) if is_full => Err(ReadEnd::Fault(LineFault::TooManyLines)),
        Ok((_, true)) => Ok(()),
        Err(_) => Err(ReadEnd::NoMemory),
    }
}

/// Puts an ad behind the earlier ones where it is eligible; else it is left out.
fn keep(eligible: &mut Vec<Ad>, heading: &Heading, line: &AdLine) -> Result<(), ReadEnd>
    ensures kept { OnOk result
        (eligible.new.items ≡ eligible.old.items ++ kept_ads (is_eligible_under heading.now line.now) line.now) }
    ensures same { OnErr result (eligible.new.items ≡ eligible.old.items) }
    ensures ended { IfErr result (λ end. end ≡ ReadEnd.NoMemory) }
{
    if admits(heading, line) && eligible.push(line.ad).is_err() {
        return Err(ReadEnd::NoMemory);
    }
    Ok(())
}

/// Whether an ad's bid meets the reserve, the floor and its campaign's free budget.
#[tactic(auto, unfolding(crate::specs::Reading::is_eligible_under))]
fn admits(heading: &Heading, line: &AdLine) -> bool
    ensures { result ≡ is_eligible_under heading.now line.now }
{
    let ad = &line.ad;
    heading.reserve() <= ad.bid() && heading.floor() <= ad.score() && ad.bid() <= line.free
}
