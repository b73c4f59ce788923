//! What a call of the program says, and its status.

ghost use Rattle.std.specs.Prelude.{◌≡◌, ◌≤◌, [], ◌++◌, codes, decimal};
ghost use Rattle.desk_io.specs.Pieces.{text_of};
ghost use Rattle.desk_io.specs.Putting.{Sends};
ghost use Rattle.printouts.specs.Printout.{fault_printout};
ghost use Rattle.printouts.specs.Saying.{IsWritten};

use crate::status::{BAD_LINE, NO_MEMORY, PAST_LIMIT, WRITE_FAULT};
use desk_io::{LineFault, OutBuf, Piece, Sink, WriteFault};
use std::alloc::Global;

/// Writes a text by its pieces and answers the status; 4 where a write failed, and 5 for want of memory.
pub fn say<T: Sink>(alloc: Global, output: &mut T, pieces: &[Piece], status: u8) -> u8
    ensures written { IsWritten (T.sink output.old) (T.sink output.new)
        (record { text = text_of pieces.now; status = status }) result }
    ensures faults { (T.sink output.old).faults ≤ (T.sink output.new).faults }
    ensures source_side { T.source_side output.new ≡ T.source_side output.old }
{
    let Ok(mut out) = OutBuf::new(alloc) else {
        return NO_MEMORY;
    };
    match send(&mut out, output, pieces) {
        Ok(()) => status,
        Err(_) => WRITE_FAULT,
    }
}

/// Writes pieces through a buffer in which nothing waits.
fn send<T: Sink>(out: &mut OutBuf, output: &mut T, pieces: &[Piece]) -> Result<(), WriteFault>
    requires { out.old ≡ [] }
    ensures sends { Sends (T.sink output.old) (T.sink output.new) (text_of pieces.now) result }
    ensures source_side { T.source_side output.new ≡ T.source_side output.old }
{
    out.put_all(output, pieces)?;
    out.flush(output)
}

/// Says what is wrong with a line: status 8 where it is in no form, and 9 where a limit is passed.
#[tactic(auto, unfolding(crate::specs::Printout::line_fault_text, crate::specs::Printout::fault_status))]
pub fn say_fault<T: Sink>(alloc: Global, output: &mut T, fault: LineFault) -> u8
    ensures written { IsWritten (T.sink output.old) (T.sink output.new) (fault_printout fault) result }
    ensures faults { (T.sink output.old).faults ≤ (T.sink output.new).faults }
    ensures source_side { T.source_side output.new ≡ T.source_side output.old }
{
    match fault {
        LineFault::BadLine(number) => say_line(alloc, output, "bad line ", number, BAD_LINE),
        LineFault::LongLine(number) => say_line(alloc, output, "long line ", number, PAST_LIMIT),
        LineFault::TooManyLines => {
            say(
                alloc,
                output,
                &[Piece::Text("too many lines\n")],
                PAST_LIMIT,
            )
        }
    }
}

/// Says something of the numbered line.
fn say_line<T: Sink>(alloc: Global, output: &mut T, words: &str, number: u64, status: u8) -> u8
    ensures written { IsWritten (T.sink output.old) (T.sink output.new)
        (record { text = words.now ++ (decimal number ++ codes "\n"); status = status }) result }
    ensures faults { (T.sink output.old).faults ≤ (T.sink output.new).faults }
    ensures source_side { T.source_side output.new ≡ T.source_side output.old }
{
    let pieces = [Piece::Text(words), Piece::Number(number), Piece::Text("\n")];
    say(alloc, output, &pieces, status)
}
