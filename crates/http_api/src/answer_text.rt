//! The texts of answers: in two passes, one that counts the bytes of the body and one that puts them.

ghost use Rattle.std.specs.Prelude.{◌≡◌, [], ◌++◌, codes, length, option_map, IfOk};
ghost use Rattle.desk_io.specs.Counting.{capped};
ghost use Rattle.desk_io.specs.Putting.{Flushes, Puts};
ghost use Rattle.http_api.specs.AnswerText.{answer_text, closing_line, field_line, head_text, parts_of, status_line};

use crate::answer::{Answer, AnswerForm};
use crate::answer_body::put_body;
use desk_io::{CountSink, NoMemory, OutBuf, Piece, Sink, WriteFault};
use http::StatusCode;
use std::alloc::Global;
use std::marker::Model;

/// Puts answers. It takes all its memory at the start.
#[derive(Drop)]
pub struct Answers {
    /// Where a body waits that is counted; nothing waits in it between answers.
    counted: OutBuf,
    out: OutBuf,
}

impl Model for Answers {
    ghost use Rattle.std.specs.Prelude.{◌≡◌, List, ℕ, []};

    ghost Value = { List ℕ };

    ghost view = { λ a. a.out };

    ghost invariant = { λ a. a.counted ≡ [] };
}

impl Answers {
    /// Before the first answer. Contracts see the bytes that wait.
    pub fn new(alloc: Global) -> Result<Answers, NoMemory>
        ensures { IfOk result (λ answers. answers ≡ []) }
    {
        Ok(Answers {
            counted: OutBuf::new(alloc)?,
            out: OutBuf::new(alloc)?,
        })
    }

    /// Writes an answer whole. It takes no memory.
    ///
    /// After a fault a beginning of its text is written, and never the whole.
    pub fn write<T: Sink>(
        &mut self,
        sink: &mut T,
        answer: &Answer,
        form: AnswerForm,
    ) -> Result<(), WriteFault>
        requires { self.old ≡ [] }
        ensures written { Flushes (T.sink sink.old) (T.sink sink.new) (answer_text answer.now form) self.new result }
        ensures source_side { T.source_side sink.new ≡ T.source_side sink.old }
    {
        let body_length = self.count_body(answer);
        put_answer(&mut self.out, sink, answer, body_length, form)?;
        self.out.flush(sink)
    }

    /// How many bytes the body of an answer has.
    fn count_body(&mut self, answer: &Answer) -> u64
        ensures count { result ≡ capped (length (parts_of answer.now).body) }
        ensures same { self.new ≡ self.old }
    {
        let mut count = CountSink::new();
        match send_body(&mut self.counted, &mut count, answer) {
            Ok(()) => count.count(),
            Err(_) => unreachable!(),
        }
    }
}

/// Sends the body of an answer through a buffer in which nothing waits.
fn send_body<T: Sink>(out: &mut OutBuf, sink: &mut T, answer: &Answer) -> Result<(), WriteFault>
    requires { out.old ≡ [] }
    ensures flushes { Flushes (T.sink sink.old) (T.sink sink.new) (parts_of answer.now).body out.new result }
    ensures source_side { T.source_side sink.new ≡ T.source_side sink.old }
{
    put_body(out, sink, answer)?;
    out.flush(sink)
}

/// Puts the text of an answer whose body has so many bytes.
fn put_answer<T: Sink>(
    out: &mut OutBuf,
    sink: &mut T,
    answer: &Answer,
    body_length: u64,
    form: AnswerForm,
) -> Result<(), WriteFault>
    requires { body_length ≡ capped (length (parts_of answer.now).body) }
    ensures puts { Puts (T.sink sink.old) (T.sink sink.new) out.old out.new (answer_text answer.now form) result }
    ensures source_side { T.source_side sink.new ≡ T.source_side sink.old }
{
    put_head(out, sink, answer, body_length, form.closes)?;
    if form.bodiless {
        return Ok(());
    }
    put_body(out, sink, answer)
}

/// Puts the head of an answer whose body has so many bytes.
fn put_head<T: Sink>(
    out: &mut OutBuf,
    sink: &mut T,
    answer: &Answer,
    body_length: u64,
    closes: bool,
) -> Result<(), WriteFault>
    requires { body_length ≡ capped (length (parts_of answer.now).body) }
    ensures puts { Puts (T.sink sink.old) (T.sink sink.new) out.old out.new
        (head_text (parts_of answer.now) closes) result }
    ensures source_side { T.source_side sink.new ≡ T.source_side sink.old }
{
    put_status(out, sink, answer.status())?;
    put_field(out, sink, "Content-Type", answer.content())?;
    let told = [
        Piece::Text("Content-Length: "),
        Piece::Number(body_length),
        Piece::Text("\r\n"),
    ];
    out.put_all(sink, &told)?;
    put_field(out, sink, "Location", answer.location())?;
    put_field(out, sink, "Allow", answer.allow())?;
    put_head_end(out, sink, closes)
}

/// Puts the end of a head, behind the field that says that the session closes, where it does.
fn put_head_end<T: Sink>(out: &mut OutBuf, sink: &mut T, closes: bool) -> Result<(), WriteFault>
    ensures puts { Puts (T.sink sink.old) (T.sink sink.new) out.old out.new
        (closing_line closes ++ codes "\r\n") result }
    ensures source_side { T.source_side sink.new ≡ T.source_side sink.old }
{
    if closes {
        out.put_str(sink, "Connection: close\r\n\r\n")
    } else {
        out.put_str(sink, "\r\n")
    }
}

/// Puts the line of a status.
fn put_status<T: Sink>(out: &mut OutBuf, sink: &mut T, status: StatusCode) -> Result<(), WriteFault>
    ensures puts { Puts (T.sink sink.old) (T.sink sink.new) out.old out.new (status_line status) result }
    ensures source_side { T.source_side sink.new ≡ T.source_side sink.old }
{
    let line = [
        Piece::Text("HTTP/1.1 "),
        Piece::Number(u64::from(status.as_u16())),
        Piece::Text(" "),
        Piece::Text(status.canonical_reason().unwrap_or("")),
        Piece::Text("\r\n"),
    ];
    out.put_all(sink, &line)
}

/// Puts a field, where it applies.
fn put_field<'a, T: Sink>(
    out: &mut OutBuf,
    sink: &mut T,
    name: &'a str,
    value: Option<&'a str>,
) -> Result<(), WriteFault>
    ensures puts { Puts (T.sink sink.old) (T.sink sink.new) out.old out.new
        (field_line name.now (option_map (λ text. text.now) value.entry)) result }
    ensures source_side { T.source_side sink.new ≡ T.source_side sink.old }
{
    let Some(value) = value else {
        return Ok(());
    };
    let line = [
        Piece::Text(name),
        Piece::Text(": "),
        Piece::Text(value),
        Piece::Text("\r\n"),
    ];
    out.put_all(sink, &line)
}
