//! The lines of answers.

ghost use Rattle.std.specs.Prelude.{◌≡◌, ◌++◌, codes, flat_map};
ghost use Rattle.desk_io.specs.Putting.{Puts};
ghost use Rattle.script_api.specs.ReplyLine.{answer_line, answer_text, cause_name as name_of_cause, detail_text, fault_text as text_of_fault, imported_text, page_text, refusal_text, reply_text, row_text, spot_text};

use crate::report_line::{put_day, put_host, put_shown};
use desk_io::{OutBuf, Piece, Sink, WriteFault};
use desk_types::{Detail, Fault, Refusal, Reply, Spot};
use match_types::PatternCause;

/// Puts the line of an answer of the desk, with its line feed. It takes no memory.
pub fn put_answer_line<T: Sink>(
    out: &mut OutBuf,
    output: &mut T,
    answer: &Result<Reply, Fault>,
) -> Result<(), WriteFault>
    ensures puts { Puts (T.sink output.old) (T.sink output.new) out.old out.new (answer_line answer.now) result }
    ensures source_side { T.source_side output.new ≡ T.source_side output.old }
{
    put_answer_text(out, output, answer)?;
    out.put_str(output, "\n")
}

/// Puts the text of an answer.
fn put_answer_text<T: Sink>(
    out: &mut OutBuf,
    output: &mut T,
    answer: &Result<Reply, Fault>,
) -> Result<(), WriteFault>
    ensures puts { Puts (T.sink output.old) (T.sink output.new) out.old out.new (answer_text answer.now) result }
    ensures source_side { T.source_side output.new ≡ T.source_side output.old }
{
    match answer {
        Ok(reply) => put_reply(out, output, reply),
        Err(fault) => out.put_str(output, fault_text(fault)),
    }
}

/// The text of a fault.
fn fault_text(fault: &Fault) -> &'static str
    ensures { result.now ≡ text_of_fault fault.now }
{
    match fault {
        Fault::Keeper { .. } => "fault keeper",
        Fault::JournalFull { .. } => "fault journal",
        Fault::NoMemory => "fault memory",
    }
}

/// Puts the text of a reply.
fn put_reply<T: Sink>(out: &mut OutBuf, output: &mut T, reply: &Reply) -> Result<(), WriteFault>
    ensures puts { Puts (T.sink output.old) (T.sink output.new) out.old out.new (reply_text reply.now) result }
    ensures source_side { T.source_side output.new ≡ T.source_side output.old }
{
    match reply {
        Reply::Made(number) => out.put_all(output, &[Piece::Text("made "), Piece::Number(*number)]),
        Reply::Done => out.put_str(output, "done"),
        Reply::Credited(price) => out.put_all(
            output,
            &[Piece::Text("credited "), Piece::Number(*price)],
        ),
        Reply::HostDay(day) => put_host(out, output, day),
        Reply::Imported { first, count } => put_imported(out, output, *first, *count),
        Reply::Day(report) => put_day(out, output, report),
        Reply::ShownRows(rows) => put_shown(out, output, rows.as_slice()),
        Reply::Page(spots) => put_page(out, output, spots.as_slice()),
        Reply::Went(link) => out.put_all(
            output,
            &[Piece::Text("went "), Piece::Text(link.as_str())],
        ),
        Reply::Refused(refusal) => put_refusal(out, output, refusal),
    }
}

/// Puts the text of an import by its first line and how many it made.
fn put_imported<T: Sink>(
    out: &mut OutBuf,
    output: &mut T,
    first: u64,
    count: u64,
) -> Result<(), WriteFault>
    ensures puts { Puts (T.sink output.old) (T.sink output.new) out.old out.new (imported_text first count) result }
    ensures source_side { T.source_side output.new ≡ T.source_side output.old }
{
    let pieces = [
        Piece::Text("imported "),
        Piece::Number(first),
        Piece::Text(" "),
        Piece::Number(count),
    ];
    out.put_all(output, &pieces)
}

/// Puts the text of a page.
fn put_page<T: Sink>(out: &mut OutBuf, output: &mut T, spots: &[Spot]) -> Result<(), WriteFault>
    ensures puts { Puts (T.sink output.old) (T.sink output.new) out.old out.new (page_text spots.now) result }
    ensures source_side { T.source_side output.new ≡ T.source_side output.old }
{
    out.put_all(
        output,
        &[Piece::Text("page "), Piece::Number(spots.len() as u64)],
    )?;
    put_spots(out, output, spots)
}

/// Puts the places of a page.
fn put_spots<T: Sink>(out: &mut OutBuf, output: &mut T, spots: &[Spot]) -> Result<(), WriteFault>
    ensures puts { Puts (T.sink output.old) (T.sink output.new) out.old out.new (flat_map spot_text spots.now) result }
    ensures source_side { T.source_side output.new ≡ T.source_side output.old }
{
    for spot in spots {
        put_spot(out, output, spot)?;
    }
    Ok(())
}

/// Puts a place of a page.
fn put_spot<T: Sink>(out: &mut OutBuf, output: &mut T, spot: &Spot) -> Result<(), WriteFault>
    ensures puts { Puts (T.sink output.old) (T.sink output.new) out.old out.new (spot_text spot.now) result }
    ensures source_side { T.source_side output.new ≡ T.source_side output.old }
{
    let pieces = [
        Piece::Text(" | "),
        Piece::Number(spot.place),
        Piece::Text(" "),
        Piece::Number(spot.account),
        Piece::Text("."),
        Piece::Number(spot.campaign),
        Piece::Text("."),
        Piece::Number(spot.line),
        Piece::Text(" "),
        Piece::Number(spot.price),
        Piece::Text(" #"),
        Piece::Number(spot.placement),
    ];
    out.put_all(output, &pieces)
}

/// Puts the text of a refusal.
fn put_refusal<T: Sink>(
    out: &mut OutBuf,
    output: &mut T,
    refusal: &Refusal,
) -> Result<(), WriteFault>
    ensures puts { Puts (T.sink output.old) (T.sink output.new) out.old out.new (refusal_text refusal.now) result }
    ensures source_side { T.source_side output.new ≡ T.source_side output.old }
{
    out.put_all(
        output,
        &[Piece::Text("refused "), Piece::Text(refusal.name())],
    )?;
    put_detail(out, output, refusal.detail())
}

/// Puts a space and a detail, where there is one.
fn put_detail<T: Sink>(out: &mut OutBuf, output: &mut T, detail: Detail) -> Result<(), WriteFault>
    ensures puts { Puts (T.sink output.old) (T.sink output.new) out.old out.new (detail_text detail) result }
    ensures source_side { T.source_side output.new ≡ T.source_side output.old }
{
    let piece = match detail {
        Detail::Nothing => return Ok(()),
        Detail::Field(field) => Piece::Text(field.name()),
        Detail::Cause(cause) => Piece::Text(cause_name(cause)),
        Detail::Number(number) => Piece::Number(number),
        Detail::Row(row, cause) => return put_row(out, output, row, cause),
    };
    out.put_all(output, &[Piece::Text(" "), piece])
}

/// Puts a row of an import and the number of its refusal, each behind a space.
fn put_row<T: Sink>(
    out: &mut OutBuf,
    output: &mut T,
    row: u64,
    cause: u64,
) -> Result<(), WriteFault>
    ensures puts { Puts (T.sink output.old) (T.sink output.new) out.old out.new (row_text row cause) result }
    ensures source_side { T.source_side output.new ≡ T.source_side output.old }
{
    let pieces = [
        Piece::Text(" "),
        Piece::Number(row),
        Piece::Text(" "),
        Piece::Number(cause),
    ];
    out.put_all(output, &pieces)
}

/// The name of the cause for which a text is no pattern.
fn cause_name(cause: PatternCause) -> &'static str
    ensures { result.now ≡ name_of_cause cause }
{
    match cause {
        PatternCause::TooLong => "TooLong",
        PatternCause::Minus => "Minus",
        PatternCause::Unclosed => "Unclosed",
        PatternCause::NoWords => "NoWords",
        PatternCause::TooMany => "TooMany",
    }
}
