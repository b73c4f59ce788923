//! A line of the table.

ghost use Rattle.std.specs.Prelude.{◌≡◌, flat_map};
ghost use Rattle.desk_io.specs.Putting.{Puts};
ghost use Rattle.ad_reports.specs.DayTable.{row_texts, table_line, titles as the_titles, total_texts};
ghost use Rattle.ad_reports.specs.TableLine.{column_text, line_texts};

use crate::cell::{Cell, Width, put_cell};
use crate::totals::totals_of;
use desk_io::{OutBuf, Sink, WriteFault};
use desk_types::CampaignDay;

/// What stands in the columns of a line.
#[derive(Clone, Copy)]
pub(crate) struct Line<'a> {
    campaign: Cell<'a>,
    budget: Cell<'a>,
    shown: Cell<'a>,
    clicks: Cell<'a>,
    spent: Cell<'a>,
    escrowed: Cell<'a>,
    free: Cell<'a>,
    credited: Cell<'a>,
}

/// The titles.
pub(crate) fn titles() -> Line<'static>
    ensures { line_texts result ≡ the_titles }
{
    Line {
        campaign: Cell::Text("camp"),
        budget: Cell::Text("budget"),
        shown: Cell::Text("shown"),
        clicks: Cell::Text("clicks"),
        spent: Cell::Text("spent"),
        escrowed: Cell::Text("escrowed"),
        free: Cell::Text("free"),
        credited: Cell::Text("credited"),
    }
}

/// The line of a campaign.
pub(crate) fn line_of(row: &CampaignDay) -> Line<'static>
    ensures { line_texts result ≡ row_texts row.now }
{
    Line {
        campaign: Cell::Number(u128::from(row.campaign)),
        budget: Cell::Number(u128::from(row.budget)),
        shown: Cell::Number(u128::from(row.shown)),
        clicks: Cell::Number(u128::from(row.clicks)),
        spent: Cell::Number(u128::from(row.spent)),
        escrowed: Cell::Number(u128::from(row.escrowed)),
        free: Cell::Number(u128::from(row.free)),
        credited: Cell::Number(u128::from(row.credited)),
    }
}

/// The sums of all campaigns.
pub(crate) fn total_line(rows: &[CampaignDay]) -> Line<'static>
    ensures { line_texts result ≡ total_texts rows.now }
{
    let totals = totals_of(rows);
    Line {
        campaign: Cell::Text("all"),
        budget: Cell::Number(totals.budget),
        shown: Cell::Number(totals.shown),
        clicks: Cell::Number(totals.clicks),
        spent: Cell::Number(totals.spent),
        escrowed: Cell::Number(totals.escrowed),
        free: Cell::Number(totals.free),
        credited: Cell::Number(totals.credited),
    }
}

/// Puts a line.
pub(crate) fn put_line<T: Sink>(
    out: &mut OutBuf,
    sink: &mut T,
    line: &Line,
) -> Result<(), WriteFault>
    ensures puts { Puts (T.sink sink.old) (T.sink sink.new) out.old out.new (table_line (line_texts line.now)) result }
    ensures source_side { T.source_side sink.new ≡ T.source_side sink.old }
{
    let columns = [
        (Width::Cents, line.budget),
        (Width::Count, line.shown),
        (Width::Count, line.clicks),
        (Width::Cents, line.spent),
        (Width::Cents, line.escrowed),
        (Width::Cents, line.free),
        (Width::Cents, line.credited),
    ];
    put_cell(out, sink, Width::Campaign, line.campaign)?;
    put_columns(out, sink, &columns)?;
    out.put_str(sink, "\n")
}

/// Puts columns, each behind a space.
fn put_columns<T: Sink>(
    out: &mut OutBuf,
    sink: &mut T,
    columns: &[(Width, Cell)],
) -> Result<(), WriteFault>
    ensures puts { Puts (T.sink sink.old) (T.sink sink.new) out.old out.new (flat_map column_text columns.now) result }
    ensures source_side { T.source_side sink.new ≡ T.source_side sink.old }
{
    for column in columns {
        put_column(out, sink, column)?;
    }
    Ok(())
}

/// Puts a column behind a space.
fn put_column<T: Sink>(
    out: &mut OutBuf,
    sink: &mut T,
    column: &(Width, Cell),
) -> Result<(), WriteFault>
    ensures puts { Puts (T.sink sink.old) (T.sink sink.new) out.old out.new (column_text column.now) result }
    ensures source_side { T.source_side sink.new ≡ T.source_side sink.old }
{
    let (width, cell) = *column;
    out.put_str(sink, " ")?;
    put_cell(out, sink, width, cell)
}
