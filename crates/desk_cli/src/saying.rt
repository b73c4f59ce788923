//! What calls of several commands say.

ghost use Rattle.std.specs.Prelude.{◌≡◌, ◌≢◌, ◌≤◌};
ghost use Rattle.desk_io.specs.Pieces.{text_of};
ghost use Rattle.printouts.specs.Saying.{IsWritten};
ghost use Rattle.desk_cli.specs.Saying.{refused_printout, summary_text};

use desk_io::{Piece, Sink};
use desk_types::Summary;
use printouts::{ENDED, WORDS_REFUSED, say};
use std::alloc::Global;

/// Says that the words are refused.
pub fn say_refused<T: Sink>(alloc: Global, output: &mut T) -> u8
    ensures written { IsWritten (T.sink output.old) (T.sink output.new) refused_printout result }
    ensures unended { result ≢ ENDED }
    ensures faults { (T.sink output.old).faults ≤ (T.sink output.new).faults }
    ensures source_side { T.source_side output.new ≡ T.source_side output.old }
{
    say(
        alloc,
        output,
        &[Piece::Text("words refused\n")],
        WORDS_REFUSED,
    )
}

/// The line of a summary.
pub fn summary_pieces(summary: Summary) -> [Piece<'static>; 13]
    ensures { text_of result ≡ summary_text summary }
{
    [
        Piece::Text("entries "),
        Piece::Number(summary.entries),
        Piece::Text(" faulted "),
        Piece::Number(summary.faulted),
        Piece::Text(" searches "),
        Piece::Number(summary.searches),
        Piece::Text(" placements "),
        Piece::Number(summary.placements),
        Piece::Text(" settled "),
        Piece::Number(summary.settled),
        Piece::Text(" cents "),
        Piece::Number(summary.cents),
        Piece::Text("\n"),
    ]
}
