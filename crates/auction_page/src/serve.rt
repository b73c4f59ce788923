//! The call that reads an auction and writes its page.

ghost use Rattle.std.specs.Prelude.{◌≡◌, ◌≤◌, [], IfSome};
ghost use Rattle.printouts.specs.CallState.{call_at};
ghost use Rattle.auction_page.specs.AuctionCall.{IsAuctionServed};

use crate::auction::read_auction;
use crate::fault::ReadEnd;
use crate::page::say_page;
use desk_io::{Piece, Sink, Source};
use printouts::{ENDED, NO_MEMORY, READ_FAULT, say, say_fault};
use std::alloc::Global;

/// Reads an auction from the input and writes its page, or a line that says why there is none, and answers the status of
/// the process.
///
/// | Status | Comes | Line written last |
/// |---|---|---|
/// | 0 | the input is an auction | `end` |
/// | 3 | a read failed behind no line that ends it: the input's count of faults rose | `read fault` |
/// | 4 | a write failed: the output's count of faults rose | - |
/// | 5 | want of memory | - |
/// | 8 | a line in no form, or the end before the heading | `bad line K` |
/// | 9 | a line of more than 4,096 bytes, more than 1,000,000 lines, or more than 10,000 ads | `long line K` or `too many lines` |
pub fn serve_auction<S: Source, T: Sink>(alloc: Global, input: &mut S, output: &mut T) -> u8
    ensures served { IsAuctionServed (call_at (S.source input.old) (T.sink output.old))
        (call_at (S.source input.new) (T.sink output.new)) result }
    ensures all_read { result ≡ ENDED → IfSome (S.source input.new).left (λ bytes. bytes ≡ []) }
    ensures read_faults { (S.source input.old).faults ≤ (S.source input.new).faults }
    ensures write_faults { (T.sink output.old).faults ≤ (T.sink output.new).faults }
    ensures sink_side { S.sink_side input.new ≡ S.sink_side input.old }
    ensures source_side { T.source_side output.new ≡ T.source_side output.old }
{
    match read_auction(alloc, input) {
        Ok(auction) => say_page(alloc, output, &auction),
        Err(ReadEnd::Fault(fault)) => say_fault(alloc, output, fault),
        Err(ReadEnd::ReadFault) => say(alloc, output, &[Piece::Text("read fault\n")], READ_FAULT),
        Err(ReadEnd::NoMemory) => NO_MEMORY,
    }
}
