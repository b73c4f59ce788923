//! JSON objects as they are written.

ghost use Rattle.std.specs.Prelude.{◌≡◌, flat_map, map};
ghost use Rattle.desk_io.specs.Putting.{Puts};
ghost use Rattle.http_api.specs.Json.{behind_comma, escaped, member_of, name_of_cause, named, object, quoted, told_detail, value_text, with_commas};

use desk_io::{OutBuf, Piece, Sink, WriteFault};
use desk_types::Detail;
use match_types::PatternCause;
use memchr::memchr2;

/// A value of a member.
#[derive(Clone, Copy, Debug)]
pub enum JsonValue<'a> {
    /// A number.
    Number(u64),
    /// A text.
    Quoted(&'a str),
    /// A text with nothing in it to be escaped.
    Plain(&'a str),
    /// The truth value `true`.
    True,
    /// The detail of a refusal, as a text.
    Told(Detail),
}

/// A member of an object.
#[derive(Clone, Copy, Debug)]
pub struct Member<'a> {
    pub name: &'a str,
    pub value: JsonValue<'a>,
}

/// Puts an object with these members.
pub fn put_object<T: Sink>(
    out: &mut OutBuf,
    sink: &mut T,
    members: &[Member],
) -> Result<(), WriteFault>
    ensures puts { Puts (T.sink sink.old) (T.sink sink.new) out.old out.new (object (map member_of members.now)) result }
    ensures source_side { T.source_side sink.new ≡ T.source_side sink.old }
{
    out.put_str(sink, "{")?;
    put_members(out, sink, members)?;
    out.put_str(sink, "}")
}

/// Puts the members with commas between them.
fn put_members<T: Sink>(
    out: &mut OutBuf,
    sink: &mut T,
    members: &[Member],
) -> Result<(), WriteFault>
    ensures puts { Puts (T.sink sink.old) (T.sink sink.new) out.old out.new
        (with_commas (map named (map member_of members.now))) result }
    ensures source_side { T.source_side sink.new ≡ T.source_side sink.old }
{
    let Some((first, more)) = members.split_first() else {
        return Ok(());
    };
    put_member(out, sink, first)?;
    put_more_members(out, sink, more)
}

/// Puts the members, each behind a comma.
fn put_more_members<T: Sink>(
    out: &mut OutBuf,
    sink: &mut T,
    members: &[Member],
) -> Result<(), WriteFault>
    ensures puts { Puts (T.sink sink.old) (T.sink sink.new) out.old out.new
        (flat_map (λ member. behind_comma (named (member_of member))) members.now) result }
    ensures source_side { T.source_side sink.new ≡ T.source_side sink.old }
{
    for member in members {
        put_next_member(out, sink, member)?;
    }
    Ok(())
}

/// Puts a comma and a member.
fn put_next_member<T: Sink>(
    out: &mut OutBuf,
    sink: &mut T,
    member: &Member,
) -> Result<(), WriteFault>
    ensures puts { Puts (T.sink sink.old) (T.sink sink.new) out.old out.new
        (behind_comma (named (member_of member.now))) result }
    ensures source_side { T.source_side sink.new ≡ T.source_side sink.old }
{
    out.put_str(sink, ",")?;
    put_member(out, sink, member)
}

/// Puts a member.
fn put_member<T: Sink>(out: &mut OutBuf, sink: &mut T, member: &Member) -> Result<(), WriteFault>
    ensures puts { Puts (T.sink sink.old) (T.sink sink.new) out.old out.new (named (member_of member.now)) result }
    ensures source_side { T.source_side sink.new ≡ T.source_side sink.old }
{
    out.put_all(
        sink,
        &[
            Piece::Text("\""),
            Piece::Text(member.name),
            Piece::Text("\":"),
        ],
    )?;
    put_value(out, sink, &member.value)
}

/// Puts a value.
fn put_value<T: Sink>(out: &mut OutBuf, sink: &mut T, value: &JsonValue) -> Result<(), WriteFault>
    ensures puts { Puts (T.sink sink.old) (T.sink sink.new) out.old out.new (value_text value.now) result }
    ensures source_side { T.source_side sink.new ≡ T.source_side sink.old }
{
    match value {
        JsonValue::Number(number) => out.put_number(sink, *number),
        JsonValue::Quoted(text) => put_quoted(out, sink, text),
        JsonValue::Plain(text) => put_plain(out, sink, text),
        JsonValue::True => out.put_str(sink, "true"),
        JsonValue::Told(detail) => put_detail(out, sink, *detail),
    }
}

/// Puts a text between quotation marks.
fn put_quoted<T: Sink>(out: &mut OutBuf, sink: &mut T, text: &str) -> Result<(), WriteFault>
    ensures puts { Puts (T.sink sink.old) (T.sink sink.new) out.old out.new (quoted (escaped text.now)) result }
    ensures source_side { T.source_side sink.new ≡ T.source_side sink.old }
{
    out.put_str(sink, "\"")?;
    put_escaped(out, sink, text.as_bytes())?;
    out.put_str(sink, "\"")
}

/// Puts a text between quotation marks as it is.
fn put_plain<T: Sink>(out: &mut OutBuf, sink: &mut T, text: &str) -> Result<(), WriteFault>
    ensures puts { Puts (T.sink sink.old) (T.sink sink.new) out.old out.new (quoted text.now) result }
    ensures source_side { T.source_side sink.new ≡ T.source_side sink.old }
{
    let quote = Piece::Text("\"");
    out.put_all(sink, &[quote, Piece::Text(text), quote])
}

/// Puts a text with a backslash before each quotation mark and each backslash.
fn put_escaped<T: Sink>(out: &mut OutBuf, sink: &mut T, text: &[u8]) -> Result<(), WriteFault>
    ensures puts { Puts (T.sink sink.old) (T.sink sink.new) out.old out.new (escaped text.now) result }
    ensures source_side { T.source_side sink.new ≡ T.source_side sink.old }
{
    let mut rest = text;
    while let Some(place) = memchr2(b'"', b'\\', rest) {
        let (plain, marked) = rest.split_at(place);
        let (mark, behind) = marked.split_at(1);
        let pieces = [Piece::Bytes(plain), Piece::Text("\\"), Piece::Bytes(mark)];
        out.put_all(sink, &pieces)?;
        rest = behind;
    }
    out.put(sink, rest)
}

/// Puts the detail of a refusal between quotation marks.
fn put_detail<T: Sink>(out: &mut OutBuf, sink: &mut T, detail: Detail) -> Result<(), WriteFault>
    ensures puts { Puts (T.sink sink.old) (T.sink sink.new) out.old out.new (quoted (told_detail detail)) result }
    ensures source_side { T.source_side sink.new ≡ T.source_side sink.old }
{
    let quote = Piece::Text("\"");
    match detail {
        Detail::Nothing => out.put_all(sink, &[quote, quote]),
        Detail::Field(field) => out.put_all(sink, &[quote, Piece::Text(field.name()), quote]),
        Detail::Cause(cause) => out.put_all(sink, &[quote, Piece::Text(cause_name(cause)), quote]),
        Detail::Number(number) => out.put_all(sink, &[quote, Piece::Number(number), quote]),
        Detail::Row(row, cause) => out.put_all(
            sink,
            &[
                quote,
                Piece::Number(row),
                Piece::Text(" "),
                Piece::Number(cause),
                quote,
            ],
        ),
    }
}

/// The name of the cause for which a text is no pattern.
fn cause_name(cause: PatternCause) -> &'static str
    ensures { result.now ≡ name_of_cause cause }
{
    match cause {
        PatternCause::TooLong => "TooLong",
        PatternCause::Minus => "Minus",
        PatternCause::Unclosed => "Unclosed",
        PatternCause::NoWords => "NoWords",
        PatternCause::TooMany => "TooMany",
    }
}
