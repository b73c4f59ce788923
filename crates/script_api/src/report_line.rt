//! The lines of reports and statements.

ghost use Rattle.std.specs.Prelude.{◌≡◌, flat_map};
ghost use Rattle.desk_io.specs.Putting.{Puts};
ghost use Rattle.script_api.specs.ReportLine.{campaign_text, day_text, fate_name as name_of_fate, host_text, shown_row_text, shown_text};

use desk_io::{OutBuf, Piece, Sink, WriteFault};
use desk_types::{CampaignDay, DayReport, HostDay, ShownFate, ShownRow};

/// Puts the host's numbers of a day.
pub fn put_host<T: Sink>(out: &mut OutBuf, output: &mut T, day: &HostDay) -> Result<(), WriteFault>
    ensures puts { Puts (T.sink output.old) (T.sink output.new) out.old out.new (host_text day.now) result }
    ensures source_side { T.source_side output.new ≡ T.source_side output.old }
{
    let pieces = [
        Piece::Text("host "),
        Piece::Number(day.day),
        Piece::Text(" accounts "),
        Piece::Number(day.accounts),
        Piece::Text(" shown "),
        Piece::Number(day.shown),
        Piece::Text(" clicks "),
        Piece::Number(day.clicks),
        Piece::Text(" spent "),
        Piece::Number(day.spent),
        Piece::Text(" escrowed "),
        Piece::Number(day.escrowed),
        Piece::Text(" credited "),
        Piece::Number(day.credited),
    ];
    out.put_all(output, &pieces)
}

/// Puts an account's numbers of a day.
pub fn put_day<T: Sink>(
    out: &mut OutBuf,
    output: &mut T,
    report: &DayReport,
) -> Result<(), WriteFault>
    ensures puts { Puts (T.sink output.old) (T.sink output.new) out.old out.new (day_text report.now) result }
    ensures source_side { T.source_side output.new ≡ T.source_side output.old }
{
    out.put_all(output, &[Piece::Text("day "), Piece::Number(report.day)])?;
    put_campaigns(out, output, report.rows.as_slice())
}

/// Puts the campaigns of a report.
fn put_campaigns<T: Sink>(
    out: &mut OutBuf,
    output: &mut T,
    rows: &[CampaignDay],
) -> Result<(), WriteFault>
    ensures puts { Puts (T.sink output.old) (T.sink output.new) out.old out.new (flat_map campaign_text rows.now) result }
    ensures source_side { T.source_side output.new ≡ T.source_side output.old }
{
    for row in rows {
        put_campaign(out, output, row)?;
    }
    Ok(())
}

/// Puts a campaign of a report.
fn put_campaign<T: Sink>(
    out: &mut OutBuf,
    output: &mut T,
    row: &CampaignDay,
) -> Result<(), WriteFault>
    ensures puts { Puts (T.sink output.old) (T.sink output.new) out.old out.new (campaign_text row.now) result }
    ensures source_side { T.source_side output.new ≡ T.source_side output.old }
{
    let pieces = [
        Piece::Text(" | "),
        Piece::Number(row.campaign),
        Piece::Text(" budget "),
        Piece::Number(row.budget),
        Piece::Text(" shown "),
        Piece::Number(row.shown),
        Piece::Text(" clicks "),
        Piece::Number(row.clicks),
        Piece::Text(" spent "),
        Piece::Number(row.spent),
        Piece::Text(" escrowed "),
        Piece::Number(row.escrowed),
        Piece::Text(" free "),
        Piece::Number(row.free),
        Piece::Text(" credited "),
        Piece::Number(row.credited),
    ];
    out.put_all(output, &pieces)
}

/// Puts a statement.
pub fn put_shown<T: Sink>(
    out: &mut OutBuf,
    output: &mut T,
    rows: &[ShownRow],
) -> Result<(), WriteFault>
    ensures puts { Puts (T.sink output.old) (T.sink output.new) out.old out.new (shown_text rows.now) result }
    ensures source_side { T.source_side output.new ≡ T.source_side output.old }
{
    out.put_all(
        output,
        &[Piece::Text("shown "), Piece::Number(rows.len() as u64)],
    )?;
    put_shown_rows(out, output, rows)
}

/// Puts the placements of a statement.
fn put_shown_rows<T: Sink>(
    out: &mut OutBuf,
    output: &mut T,
    rows: &[ShownRow],
) -> Result<(), WriteFault>
    ensures puts { Puts (T.sink output.old) (T.sink output.new) out.old out.new (flat_map shown_row_text rows.now) result }
    ensures source_side { T.source_side output.new ≡ T.source_side output.old }
{
    for row in rows {
        put_shown_row(out, output, row)?;
    }
    Ok(())
}

/// Puts a placement of a statement.
fn put_shown_row<T: Sink>(
    out: &mut OutBuf,
    output: &mut T,
    row: &ShownRow,
) -> Result<(), WriteFault>
    ensures puts { Puts (T.sink output.old) (T.sink output.new) out.old out.new (shown_row_text row.now) result }
    ensures source_side { T.source_side output.new ≡ T.source_side output.old }
{
    let pieces = [
        Piece::Text(" | "),
        Piece::Number(row.placement),
        Piece::Text(" "),
        Piece::Number(row.campaign),
        Piece::Text(" "),
        Piece::Number(row.line),
        Piece::Text(" "),
        Piece::Number(row.place),
        Piece::Text(" "),
        Piece::Number(row.price),
        Piece::Text(" "),
        Piece::Text(fate_name(row.fate)),
    ];
    out.put_all(output, &pieces)
}

/// The name of what became of a placement.
fn fate_name(fate: ShownFate) -> &'static str
    ensures { result.now ≡ name_of_fate fate }
{
    match fate {
        ShownFate::Open => "open",
        ShownFate::Expired => "expired",
        ShownFate::Settled(_) => "settled",
        ShownFate::Credited(..) => "credited",
    }
}
