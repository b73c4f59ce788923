//! What stands in a column.

ghost use Rattle.std.specs.Prelude.{◌≡◌, ◌≤◌};
ghost use Rattle.desk_io.specs.Putting.{Puts};
ghost use Rattle.ad_reports.specs.DayTable.{aligned};
ghost use Rattle.ad_reports.specs.TableLine.{cell_text, places as places_of};

use desk_io::{OutBuf, Sink, WriteFault};
use itoa::Buffer;

/// As many spaces as the widest column has places.
const SPACES: [u8; 15] = [b' '; 15];

/// How wide a column is.
#[derive(Clone, Copy)]
pub(crate) enum Width {
    Campaign,
    Count,
    Cents,
}

/// What stands in a column.
#[derive(Clone, Copy)]
pub(crate) enum Cell<'a> {
    Text(&'a str),
    Number(u128),
}

impl Width {
    /// How many places the column has.
    fn places(self) -> usize
        ensures places { result ≡ places_of self }
        ensures within { result ≤ 15 }
    {
        match self {
            Width::Campaign => 4,
            Width::Count => 9,
            Width::Cents => 15,
        }
    }
}

/// Puts what stands in a column, at its right.
pub(crate) fn put_cell<T: Sink>(
    out: &mut OutBuf,
    sink: &mut T,
    width: Width,
    cell: Cell,
) -> Result<(), WriteFault>
    ensures puts { Puts (T.sink sink.old) (T.sink sink.new) out.old out.new
        (aligned (places_of width) (cell_text cell.entry)) result }
    ensures source_side { T.source_side sink.new ≡ T.source_side sink.old }
{
    match cell {
        Cell::Text(text) => put_aligned(out, sink, width, text),
        Cell::Number(number) => {
            let mut digits = Buffer::new();
            put_aligned(out, sink, width, digits.format(number))
        }
    }
}

/// Puts a text at the right of its column.
fn put_aligned<T: Sink>(
    out: &mut OutBuf,
    sink: &mut T,
    width: Width,
    text: &str,
) -> Result<(), WriteFault>
    ensures puts { Puts (T.sink sink.old) (T.sink sink.new) out.old out.new
        (aligned (places_of width) text.now) result }
    ensures source_side { T.source_side sink.new ≡ T.source_side sink.old }
{
    let spaces = width.places().saturating_sub(text.len());
    out.put(sink, &SPACES[..spaces])?;
    out.put_str(sink, text)
}
