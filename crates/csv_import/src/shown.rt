//! The statement of a day.

ghost use Rattle.std.specs.Prelude.{◌≡◌, ◌++◌, codes, flat_map};
ghost use Rattle.desk_io.specs.Putting.{Puts};
ghost use Rattle.csv_import.specs.ShownCsv.{fate_text, shown_csv, shown_line};

use desk_io::{OutBuf, Piece, Sink, WriteFault};
use desk_types::{ShownFate, ShownRow};

/// Puts the statement of a day as a file of CSV: a line with the names of the columns, and one for each placement, with the
/// moment at which a click settled it, in seconds, where one did. Lines end with a line feed. It takes no memory.
pub fn write_shown<T: Sink>(
    out: &mut OutBuf,
    sink: &mut T,
    rows: &[ShownRow],
) -> Result<(), WriteFault>
    ensures puts { Puts (T.sink sink.old) (T.sink sink.new) out.old out.new (shown_csv rows.now) result }
    ensures source_side { T.source_side sink.new ≡ T.source_side sink.old }
{
    out.put_str(
        sink,
        "placement,campaign,line,place,price,shown,fate,moment\n",
    )?;
    put_lines(out, sink, rows)
}

/// Puts the lines of placements.
fn put_lines<T: Sink>(out: &mut OutBuf, sink: &mut T, rows: &[ShownRow]) -> Result<(), WriteFault>
    ensures puts { Puts (T.sink sink.old) (T.sink sink.new) out.old out.new (flat_map shown_line rows.now) result }
    ensures source_side { T.source_side sink.new ≡ T.source_side sink.old }
{
    for row in rows {
        put_line(out, sink, row)?;
    }
    Ok(())
}

/// Puts the line of a placement.
fn put_line<T: Sink>(out: &mut OutBuf, sink: &mut T, row: &ShownRow) -> Result<(), WriteFault>
    ensures puts { Puts (T.sink sink.old) (T.sink sink.new) out.old out.new (shown_line row.now) result }
    ensures source_side { T.source_side sink.new ≡ T.source_side sink.old }
{
    let pieces = [
        Piece::Number(row.placement),
        Piece::Text(","),
        Piece::Number(row.campaign),
        Piece::Text(","),
        Piece::Number(row.line),
        Piece::Text(","),
        Piece::Number(row.place),
        Piece::Text(","),
        Piece::Number(row.price),
        Piece::Text(","),
        Piece::Number(row.shown),
        Piece::Text(","),
    ];
    out.put_all(sink, &pieces)?;
    put_fate(out, sink, row.fate)
}

/// Puts the end of a line: what became of the placement.
fn put_fate<T: Sink>(out: &mut OutBuf, sink: &mut T, fate: ShownFate) -> Result<(), WriteFault>
    ensures puts { Puts (T.sink sink.old) (T.sink sink.new) out.old out.new (fate_text fate ++ codes "\n") result }
    ensures source_side { T.source_side sink.new ≡ T.source_side sink.old }
{
    match fate {
        ShownFate::Open => out.put_str(sink, "open,\n"),
        ShownFate::Expired => out.put_str(sink, "expired,\n"),
        ShownFate::Settled(at) => out.put_all(
            sink,
            &[
                Piece::Text("settled,"),
                Piece::Number(at),
                Piece::Text("\n"),
            ],
        ),
        ShownFate::Credited(settled, _) => out.put_all(
            sink,
            &[
                Piece::Text("credited,"),
                Piece::Number(settled),
                Piece::Text("\n"),
            ],
        ),
    }
}
