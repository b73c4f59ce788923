//! The table of a day.

ghost use Rattle.std.specs.Prelude.{◌≡◌, flat_map};
ghost use Rattle.desk_io.specs.Putting.{Puts};
ghost use Rattle.ad_reports.specs.DayTable.{day_table};
ghost use Rattle.ad_reports.specs.TableLine.{row_line};

use crate::line::{line_of, put_line, titles, total_line};
use desk_io::{OutBuf, Sink, WriteFault};
use desk_types::{CampaignDay, DayReport};

/// Puts the table of a day: eight columns, right-aligned in 4, 15, 9, 9, 15, 15, 15 and 15 places with a space between:
/// the campaign's number, its budget, how many placements were shown and how many clicked, and what is spent, escrowed,
/// free and credited, in cents. A line with the titles stands first, one with the sums last, which are exact. It takes
/// no memory.
pub fn write_day<T: Sink>(
    out: &mut OutBuf,
    sink: &mut T,
    report: &DayReport,
) -> Result<(), WriteFault>
    ensures puts { Puts (T.sink sink.old) (T.sink sink.new) out.old out.new (day_table report.now) result }
    ensures source_side { T.source_side sink.new ≡ T.source_side sink.old }
{
    let rows = report.rows.as_slice();
    put_line(out, sink, &titles())?;
    put_rows(out, sink, rows)?;
    put_line(out, sink, &total_line(rows))
}

/// Puts a line for each campaign.
fn put_rows<T: Sink>(out: &mut OutBuf, sink: &mut T, rows: &[CampaignDay]) -> Result<(), WriteFault>
    ensures puts { Puts (T.sink sink.old) (T.sink sink.new) out.old out.new (flat_map row_line rows.now) result }
    ensures source_side { T.source_side sink.new ≡ T.source_side sink.old }
{
    for row in rows {
        put_row(out, sink, row)?;
    }
    Ok(())
}

/// Puts the line of a campaign.
fn put_row<T: Sink>(out: &mut OutBuf, sink: &mut T, row: &CampaignDay) -> Result<(), WriteFault>
    ensures puts { Puts (T.sink sink.old) (T.sink sink.new) out.old out.new (row_line row.now) result }
    ensures source_side { T.source_side sink.new ≡ T.source_side sink.old }
{
    put_line(out, sink, &line_of(row))
}
