//! The bodies of answers.

ghost use Rattle.std.specs.Prelude.{◌≡◌, ◌∷◌, [], flat_map, map};
ghost use Rattle.desk_io.specs.Putting.{Puts};
ghost use Rattle.http_api.specs.AnswerText.{failure_body, fault_name as name_of_fault, host_day_body, import_body, page_body, parts_of, parts_of_reply, spot_body};
ghost use Rattle.http_api.specs.Json.{behind_comma, member_of, object, value_text, with_commas};

use crate::answer::Answer;
use crate::json::{JsonValue, Member, put_object};
use ad_reports::write_day;
use csv_import::write_shown;
use desk_io::{OutBuf, Sink, WriteFault};
use desk_types::{Detail, Fault, HostDay, Reply, Spot};

/// Puts the body of an answer. It takes no memory.
pub fn put_body<T: Sink>(out: &mut OutBuf, sink: &mut T, answer: &Answer) -> Result<(), WriteFault>
    ensures puts { Puts (T.sink sink.old) (T.sink sink.new) out.old out.new (parts_of answer.now).body result }
    ensures source_side { T.source_side sink.new ≡ T.source_side sink.old }
{
    match answer {
        Answer::Judged(judgement) => {
            put_failure(out, sink, 0, judgement.detail(), judgement.name())
        }
        Answer::Served(Ok(reply)) => put_reply(out, sink, reply),
        Answer::Served(Err(fault)) => put_failure(out, sink, 0, Detail::Nothing, fault_name(fault)),
    }
}

/// The name of a fault.
fn fault_name(fault: &Fault) -> &'static str
    ensures { result.now ≡ name_of_fault fault.now }
{
    match fault {
        Fault::Keeper { .. } => "Keeper",
        Fault::JournalFull { .. } => "JournalFull",
        Fault::NoMemory => "NoMemory",
    }
}

/// Puts the body of what is no success.
fn put_failure<T: Sink>(
    out: &mut OutBuf,
    sink: &mut T,
    code: u64,
    detail: Detail,
    name: &str,
) -> Result<(), WriteFault>
    ensures puts { Puts (T.sink sink.old) (T.sink sink.new) out.old out.new (failure_body code detail name.now) result }
    ensures source_side { T.source_side sink.new ≡ T.source_side sink.old }
{
    let members = [
        member("code", JsonValue::Number(code)),
        member("detail", JsonValue::Told(detail)),
        member("name", JsonValue::Plain(name)),
    ];
    put_object(out, sink, &members)
}

/// Puts the body of a reply.
fn put_reply<T: Sink>(out: &mut OutBuf, sink: &mut T, reply: &Reply) -> Result<(), WriteFault>
    ensures puts { Puts (T.sink sink.old) (T.sink sink.new) out.old out.new (parts_of_reply reply.now).body result }
    ensures source_side { T.source_side sink.new ≡ T.source_side sink.old }
{
    match reply {
        Reply::Made(number) => put_one(out, sink, "made", JsonValue::Number(*number)),
        Reply::Done => put_one(out, sink, "done", JsonValue::True),
        Reply::Credited(price) => put_one(out, sink, "credited", JsonValue::Number(*price)),
        Reply::HostDay(day) => put_host_day(out, sink, day),
        Reply::Imported { first, count } => put_import(out, sink, *first, *count),
        Reply::Day(report) => write_day(out, sink, report),
        Reply::ShownRows(rows) => write_shown(out, sink, rows.as_slice()),
        Reply::Page(spots) => put_page(out, sink, spots.as_slice()),
        Reply::Went(_) => Ok(()),
        Reply::Refused(refusal) => {
            put_failure(
                out,
                sink,
                refusal.number(),
                refusal.detail(),
                refusal.name(),
            )
        }
    }
}

/// Puts an object of one member.
fn put_one<T: Sink>(
    out: &mut OutBuf,
    sink: &mut T,
    name: &str,
    value: JsonValue,
) -> Result<(), WriteFault>
    ensures puts { Puts (T.sink sink.old) (T.sink sink.new) out.old out.new
        (object ((name.now, value_text value.entry) ∷ [])) result }
    ensures source_side { T.source_side sink.new ≡ T.source_side sink.old }
{
    put_object(out, sink, &[member(name, value)])
}

/// Puts the first line of an import and how many it made.
fn put_import<T: Sink>(
    out: &mut OutBuf,
    sink: &mut T,
    first: u64,
    count: u64,
) -> Result<(), WriteFault>
    ensures puts { Puts (T.sink sink.old) (T.sink sink.new) out.old out.new (import_body first count) result }
    ensures source_side { T.source_side sink.new ≡ T.source_side sink.old }
{
    let members = [
        member("count", JsonValue::Number(count)),
        member("first", JsonValue::Number(first)),
    ];
    put_object(out, sink, &members)
}

/// Puts the numbers of a day.
fn put_host_day<T: Sink>(out: &mut OutBuf, sink: &mut T, day: &HostDay) -> Result<(), WriteFault>
    ensures puts { Puts (T.sink sink.old) (T.sink sink.new) out.old out.new (host_day_body day.now) result }
    ensures source_side { T.source_side sink.new ≡ T.source_side sink.old }
{
    let members = [
        member("accounts", JsonValue::Number(day.accounts)),
        member("clicks", JsonValue::Number(day.clicks)),
        member("credited", JsonValue::Number(day.credited)),
        member("day", JsonValue::Number(day.day)),
        member("escrowed", JsonValue::Number(day.escrowed)),
        member("shown", JsonValue::Number(day.shown)),
        member("spent", JsonValue::Number(day.spent)),
    ];
    put_object(out, sink, &members)
}

/// Puts a page.
fn put_page<T: Sink>(out: &mut OutBuf, sink: &mut T, spots: &[Spot]) -> Result<(), WriteFault>
    ensures puts { Puts (T.sink sink.old) (T.sink sink.new) out.old out.new (page_body spots.now) result }
    ensures source_side { T.source_side sink.new ≡ T.source_side sink.old }
{
    out.put_str(sink, "{\"page\":[")?;
    put_spots(out, sink, spots)?;
    out.put_str(sink, "]}")
}

/// Puts the spots of a page with commas between them.
fn put_spots<T: Sink>(out: &mut OutBuf, sink: &mut T, spots: &[Spot]) -> Result<(), WriteFault>
    ensures puts { Puts (T.sink sink.old) (T.sink sink.new) out.old out.new
        (with_commas (map spot_body spots.now)) result }
    ensures source_side { T.source_side sink.new ≡ T.source_side sink.old }
{
    let Some((first, more)) = spots.split_first() else {
        return Ok(());
    };
    put_spot(out, sink, first)?;
    put_more_spots(out, sink, more)
}

/// Puts the spots of a page, each behind a comma.
fn put_more_spots<T: Sink>(out: &mut OutBuf, sink: &mut T, spots: &[Spot]) -> Result<(), WriteFault>
    ensures puts { Puts (T.sink sink.old) (T.sink sink.new) out.old out.new
        (flat_map (λ spot. behind_comma (spot_body spot)) spots.now) result }
    ensures source_side { T.source_side sink.new ≡ T.source_side sink.old }
{
    for spot in spots {
        put_next_spot(out, sink, spot)?;
    }
    Ok(())
}

/// Puts a comma and a spot of a page.
fn put_next_spot<T: Sink>(out: &mut OutBuf, sink: &mut T, spot: &Spot) -> Result<(), WriteFault>
    ensures puts { Puts (T.sink sink.old) (T.sink sink.new) out.old out.new
        (behind_comma (spot_body spot.now)) result }
    ensures source_side { T.source_side sink.new ≡ T.source_side sink.old }
{
    out.put_str(sink, ",")?;
    put_spot(out, sink, spot)
}

/// Puts a spot of a page.
fn put_spot<T: Sink>(out: &mut OutBuf, sink: &mut T, spot: &Spot) -> Result<(), WriteFault>
    ensures puts { Puts (T.sink sink.old) (T.sink sink.new) out.old out.new (spot_body spot.now) result }
    ensures source_side { T.source_side sink.new ≡ T.source_side sink.old }
{
    let members = [
        member("account", JsonValue::Number(spot.account)),
        member("campaign", JsonValue::Number(spot.campaign)),
        member("click", JsonValue::Number(spot.placement)),
        member("headline", JsonValue::Quoted(spot.headline.as_str())),
        member("line", JsonValue::Number(spot.line)),
        member("link", JsonValue::Quoted(spot.link.as_str())),
        member("place", JsonValue::Number(spot.place)),
        member("price", JsonValue::Number(spot.price)),
    ];
    put_object(out, sink, &members)
}

/// A member of a name with a value.
fn member<'a>(name: &'a str, value: JsonValue<'a>) -> Member<'a>
    ensures { member_of result ≡ (name.now, value_text value.entry) }
{
    Member { name, value }
}
