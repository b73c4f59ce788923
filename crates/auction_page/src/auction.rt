//! The reading of an auction.

ghost use Rattle.std.specs.Prelude.{◌≡◌, ℕ, ◌<◌, ◌≤◌, true, false, [], List, Option, All, Ok, IfSome, IfOk, IfErr, OnOk};
ghost use Rattle.desk_io.specs.declared.limits.TheConstants.{INPUT_LINES_MAX};
ghost use Rattle.auction_page.specs.Ending.{auction_value, EndsBy, Goes, IsAllRead, IsReading, ReadEndCause};
ghost use Rattle.auction_page.specs.MeetsHeading.{MeetsHeading};
ghost use Rattle.auction_page.specs.Reading.{auction_in, nothing_yet};

use crate::fault::ReadEnd;
use crate::heading::Heading;
use crate::reading::AuctionReading;
use auction_types::Ad;
use desk_io::{NextLine, NumberedLines, Source};
use std::alloc::Global;

/// An auction: its heading and its eligible ads, in the order of their lines.
#[derive(Drop)]
pub struct Auction {
    pub heading: Heading,
    pub ads: Vec<Ad>,
}

/// Reads an auction to the end of the input or to the first line with a fault.
pub fn read_auction<S: Source>(alloc: Global, input: &mut S) -> Result<Auction, ReadEnd>
    ensures spelled { IfOk result (λ auction.
        IfSome (S.source input.old).left (λ bytes. auction_in bytes ≡ Ok (auction_value auction))) }
    ensures ended { IfErr result (EndsBy (S.source input.old).left (S.source input.new).left) }
    ensures meets { IfOk result (λ auction. All (MeetsHeading auction.heading) auction.ads.items) }
    ensures all_read { OnOk result (IfSome (S.source input.new).left (λ bytes. bytes ≡ [])) }
    ensures cause { IfErr result (ReadEndCause (S.source input.old).faults (S.source input.new).faults) }
    ensures faults { (S.source input.old).faults ≤ (S.source input.new).faults }
    ensures sink_side { S.sink_side input.new ≡ S.sink_side input.old }
{
    let Ok(mut lines) = NumberedLines::new(alloc) else {
        return Err(ReadEnd::NoMemory);
    };
    let Ok(mut reading) = AuctionReading::new(alloc) else {
        return Err(ReadEnd::NoMemory);
    };
    read_lines(&mut lines, &mut reading, input)?;
    reading.end(lines.number())
}

/// Takes the lines of the input up to its end.
fn read_lines<S: Source>(
    lines: &mut NumberedLines,
    reading: &mut AuctionReading,
    input: &mut S,
) -> Result<(), ReadEnd>
    requires lines { lines.old ≡ record { count = 0; held = []; text = []; is_ended = true } }
    requires nothing { reading.old ≡ nothing_yet }
    ensures all { OnOk result (IsAllRead (S.source input.old).left lines.new.count reading.new) }
    ensures ended { IfErr result (EndsBy (S.source input.old).left (S.source input.new).left) }
    ensures within { lines.new.count ≤ INPUT_LINES_MAX }
    ensures all_read { OnOk result (IfSome (S.source input.new).left (λ bytes. bytes ≡ [])) }
    ensures cause { IfErr result (ReadEndCause (S.source input.old).faults (S.source input.new).faults) }
    ensures faults { (S.source input.old).faults ≤ (S.source input.new).faults }
    ensures sink_side { S.sink_side input.new ≡ S.sink_side input.old }
{
    loop {
        if !take_line(lines, reading, input)? {
            return Ok(());
        }
    }
}

/// Takes the next line, and answers whether another may follow.
fn take_line<S: Source>(
    lines: &mut NumberedLines,
    reading: &mut AuctionReading,
    input: &mut S,
) -> Result<bool, ReadEnd>
    ensures goes { (whole : Option (List ℕ)) → IsReading whole lines.old (S.source input.old).left reading.old
        → Goes whole lines.new (S.source input.new).left reading.new result }
    ensures counts { result ≡ Ok true → lines.old.count < lines.new.count }
    ensures within { lines.new.count ≤ INPUT_LINES_MAX }
    ensures all_read { result ≡ Ok false → IfSome (S.source input.new).left (λ bytes. bytes ≡ []) }
    ensures cause { IfErr result (ReadEndCause (S.source input.old).faults (S.source input.new).faults) }
    ensures faults { (S.source input.old).faults ≤ (S.source input.new).faults }
    ensures sink_side { S.sink_side input.new ≡ S.sink_side input.old }
{
    match lines.next(input) {
        NextLine::Text => {
            reading.take(lines.number(), lines.text())?;
            Ok(!lines.is_last())
        }
        NextLine::Skipped => Ok(!lines.is_last()),
        NextLine::End => Ok(false),
        NextLine::Fault(fault) => Err(ReadEnd::Fault(fault)),
        NextLine::ReadFault => Err(ReadEnd::ReadFault),
    }
}
