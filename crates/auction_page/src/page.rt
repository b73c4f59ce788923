//! The page of an auction, written line by line.

ghost use Rattle.std.specs.Prelude.{◌≡◌, ◌≤◌, [], All};
ghost use Rattle.auction_types.specs.Page.{AreOfDifferentAccounts, entrants};
ghost use Rattle.desk_io.specs.Putting.{Puts, Sends};
ghost use Rattle.rank_core.specs.Ranked.{IsRankedAmong, ranked};
ghost use Rattle.auction_page.specs.Ending.{auction_value};
ghost use Rattle.auction_page.specs.MeetsHeading.{MeetsHeading};
ghost use Rattle.auction_page.specs.PageText.{auction_page_text, entrant_line, page_printout};
ghost use Rattle.printouts.specs.Saying.{IsWritten};

use crate::auction::Auction;
use auction_types::Ad;
use desk_io::{OutBuf, Piece, Sink, WriteFault};
use gsp_price::price;
use printouts::{ENDED, NO_MEMORY, WRITE_FAULT};
use rank_core::{Ranked, page_of};
use std::alloc::Global;

/// Writes a line for each entrant on the page, `PLACE ACCOUNT.CAMPAIGN.LINE PRICE`, and the line `end`,
/// and answers the status; 4 where a write failed, and 5 for want of memory, before anything is written.
pub fn say_page<T: Sink>(alloc: Global, output: &mut T, auction: &Auction) -> u8
    requires { All (MeetsHeading auction.now.heading) auction.now.ads.items }
    ensures written { IsWritten (T.sink output.old) (T.sink output.new)
        (page_printout (auction_value auction.now)) result }
    ensures faults { (T.sink output.old).faults ≤ (T.sink output.new).faults }
    ensures source_side { T.source_side output.new ≡ T.source_side output.old }
{
    let page = page_of(auction.ads.as_slice(), auction.heading.places());
    let Ok(mut out) = OutBuf::new(alloc) else {
        return NO_MEMORY;
    };
    match send_page(&mut out, output, auction, page.as_slice()) {
        Ok(()) => ENDED,
        Err(_) => WRITE_FAULT,
    }
}

/// Writes the lines of a page through a buffer in which nothing waits.
fn send_page<T: Sink>(
    out: &mut OutBuf,
    output: &mut T,
    auction: &Auction,
    page: &[Ranked],
) -> Result<(), WriteFault>
    requires empty { out.old ≡ [] }
    requires meets { All (MeetsHeading auction.now.heading) auction.now.ads.items }
    requires page { page.now ≡ ranked (entrants auction.now.ads.items) auction.now.heading.places }
    requires each { All (IsRankedAmong auction.now.ads.items) page.now }
    requires different_accounts { AreOfDifferentAccounts (entrants auction.now.ads.items) }
    ensures sends { Sends (T.sink output.old) (T.sink output.new)
        (auction_page_text (auction_value auction.now)) result }
    ensures source_side { T.source_side output.new ≡ T.source_side output.old }
{
    let reserve = auction.heading.reserve();
    let floor = auction.heading.floor();
    for (index, ranked) in page.iter().enumerate() {
        let price = price(&ranked.ad, ranked.next.as_ref(), reserve, floor);
        put_entrant(out, output, index as u64 + 1, &ranked.ad, price)?;
    }
    out.put_str(output, "end\n")?;
    out.flush(output)
}

/// Puts the line of an entrant: its place, its name and its price in cents.
fn put_entrant<T: Sink>(
    out: &mut OutBuf,
    output: &mut T,
    place: u64,
    ad: &Ad,
    price: u64,
) -> Result<(), WriteFault>
    ensures puts { Puts (T.sink output.old) (T.sink output.new) out.old out.new
        (entrant_line place ad.now price) result }
    ensures source_side { T.source_side output.new ≡ T.source_side output.old }
{
    let pieces = [
        Piece::Number(place),
        Piece::Text(" "),
        Piece::Number(ad.account()),
        Piece::Text("."),
        Piece::Number(ad.campaign()),
        Piece::Text("."),
        Piece::Number(ad.line()),
        Piece::Text(" "),
        Piece::Number(price),
        Piece::Text("\n"),
    ];
    out.put_all(output, &pieces)
}
