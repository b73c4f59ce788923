//! Messages of bytes, however the link cuts them.

ghost use Rattle.std.specs.Prelude.{◌≡◌, ◌+◌, ◌≤◌, Some, [], length, take, vec_len, IfErr, IfNone, IfOk, IfSome};
ghost use Rattle.http_api.specs.Coming.{Comes, NextCause};
ghost use Rattle.http_api.specs.Held.{CutsMessage, EndsAs, Grows, IsParsed, IsUpTo, ReadsHead, ReadsParts};
ghost use Rattle.http_api.specs.Message.{Faulty, IsHead, IsUnreadable, is_bodiless};

use crate::head::Head;
use crate::head_end::{head_length, is_blank};
use crate::length::body_length;
use crate::limits::{BODY_BYTES_MAX, FIELDS_MAX, HEAD_BYTES_MAX};
use crate::next_message::NextMessage;
use desk_io::{Got, NoMemory, Source, Window};
use httparse::Status;
use httparse::spans::{EMPTY_HEADER_SPAN, HeaderSpan, RequestSpans, Span, parse_request};
use std::alloc::Global;
use std::marker::Model;

/// Places for more fields than the longest head has: a field has three bytes at least.
const FIELD_PLACES: usize = 2_731;

/// Cuts the bytes of a source into messages. It takes all its memory at the start.
#[derive(Drop)]
pub struct MessageReader {
    window: Window,
    parts: RequestSpans,
    fields: Vec<HeaderSpan>,
}

impl Model for MessageReader {
    ghost use Rattle.std.specs.Prelude.{◌≡◌, ◌+◌, drop, vec_len};
    ghost use Rattle.httparse.specs.Spans.{IsRequestWithin};
    ghost use Rattle.http_api.specs.HeadAt.{head_at};
    ghost use Rattle.http_api.specs.ReaderValue.{ReaderValue};
    ghost use Rattle.http_api.specs.declared.limits.TheConstants.{BODY_BYTES_MAX, HEAD_BYTES_MAX};
    ghost use Rattle.http_api.specs.declared.reader.TheConstants.{FIELD_PLACES};

    ghost Value = { ReaderValue };

    ghost view = { λ r. record {
      held = r.window.held;
      last = r.window.cut;
      head = head_at r.window.cut r.parts r.fields.items;
      body = drop r.parts.len r.window.cut;
    } };

    ghost invariant = { λ r. (r.window.size ≡ HEAD_BYTES_MAX + BODY_BYTES_MAX) × (vec_len r.fields ≡ FIELD_PLACES)
        × IsRequestWithin r.window.cut r.fields.items r.parts };
}

/// No part of a head.
const NO_PARTS: RequestSpans = RequestSpans {
    method: Span { start: 0, end: 0 },
    path: Span { start: 0, end: 0 },
    version: 0,
    headers: 0,
    len: 0,
};

impl MessageReader {
    /// A reader before the first message.
    pub fn new(alloc: Global) -> Result<MessageReader, NoMemory>
        ensures { IfOk result (λ reader. reader.held ≡ []) }
    {
        Ok(MessageReader {
            window: Window::new(alloc, HEAD_BYTES_MAX + BODY_BYTES_MAX)?,
            parts: NO_PARTS,
            fields: vec![in alloc; EMPTY_HEADER_SPAN; FIELD_PLACES]?,
        })
    }

    /// Reads the next message.
    pub fn next<S: Source>(&mut self, source: &mut S) -> NextMessage
        ensures comes { Comes self.old.held (S.source source.old).left (S.source source.new).left result self.new }
        ensures faults { (S.source source.old).faults ≤ (S.source source.new).faults }
        ensures cause { NextCause (S.source source.old).faults (S.source source.new).faults result }
        ensures sink_side { S.sink_side source.new ≡ S.sink_side source.old }
    {
        self.parts = NO_PARTS;
        match cut_message(&mut self.window, &mut self.fields, source) {
            Ok(parts) => {
                self.parts = parts;
                NextMessage::Whole
            }
            Err(ending) => ending,
        }
    }

    /// The head of the last message.
    pub fn head(&self) -> Head<'_>
        ensures { result ≡ self.now.head }
    {
        Head::new(self.window.last_cut(), self.parts, self.fields.as_slice())
    }

    /// The body of the last message.
    pub fn body(&self) -> &[u8]
        ensures { result.now ≡ self.now.body }
    {
        &self.window.last_cut()[self.parts.len..]
    }
}

/// Cuts the next message and answers where the parts of its head stand, or what came in place of a whole one.
fn cut_message<S: Source>(
    window: &mut Window,
    fields: &mut Vec<HeaderSpan>,
    source: &mut S,
) -> Result<RequestSpans, NextMessage>
    requires size { window.old.size ≡ HEAD_BYTES_MAX + BODY_BYTES_MAX }
    requires places { vec_len fields.old ≡ FIELD_PLACES }
    ensures cuts { CutsMessage (S.source source.old).left (S.source source.new).left window.old.held window.new
        fields.new.items result }
    ensures size { window.new.size ≡ window.old.size }
    ensures places { vec_len fields.new ≡ vec_len fields.old }
    ensures faults { (S.source source.old).faults ≤ (S.source source.new).faults }
    ensures cause { IfErr result (NextCause (S.source source.old).faults (S.source source.new).faults) }
    ensures sink_side { S.sink_side source.new ≡ S.sink_side source.old }
{
    let size = read_head(window, source)?;
    match read_parts(&window.held()[..size], fields) {
        Ok((parts, body)) => {
            read_up_to(window, size + body, source)?;
            window.cut(size + body, size + body);
            Ok(parts)
        }
        Err(fault) => {
            window.cut(size, size);
            Err(fault)
        }
    }
}

/// Reads until a head is held, and answers how long it is; or cuts as many bytes as a head may have, with no end.
fn read_head<S: Source>(window: &mut Window, source: &mut S) -> Result<usize, NextMessage>
    requires { window.old.size ≡ HEAD_BYTES_MAX + BODY_BYTES_MAX }
    ensures reads { ReadsHead (S.source source.old).left (S.source source.new).left window.old.held window.new result }
    ensures size { window.new.size ≡ window.old.size }
    ensures faults { (S.source source.old).faults ≤ (S.source source.new).faults }
    ensures cause { IfErr result (NextCause (S.source source.old).faults (S.source source.new).faults) }
    ensures sink_side { S.sink_side source.new ≡ S.sink_side source.old }
{
    loop {
        let front = front(window);
        if let Some(size) = head_length(front) {
            return Ok(size);
        }
        if front.len() == HEAD_BYTES_MAX {
            window.cut(HEAD_BYTES_MAX, HEAD_BYTES_MAX);
            return Err(NextMessage::Faulty { bodiless: false });
        }
        match window.fill(source) {
            Got::Bytes(_) => {}
            Got::End => return Err(end_of(window.held())),
            Got::Failed => return Err(NextMessage::ReadFault),
        }
    }
}

/// The bytes held in which a head must end.
fn front(window: &Window) -> &[u8]
    ensures { result.now ≡ take HEAD_BYTES_MAX window.now.held }
{
    let held = window.held();
    &held[..held.len().min(HEAD_BYTES_MAX)]
}

/// How the end of the source ends a session, where these bytes are held and no message is among them.
fn end_of(held: &[u8]) -> NextMessage
    ensures { EndsAs held.now result }
{
    if is_blank(held) {
        NextMessage::Ended
    } else {
        NextMessage::CutShort
    }
}

/// Where the parts of a head stand and how long its body is, or how it ends the session.
fn read_parts(
    bytes: &[u8],
    fields: &mut Vec<HeaderSpan>,
) -> Result<(RequestSpans, usize), NextMessage>
    requires head { IsHead bytes.now }
    requires places { vec_len fields.old ≡ FIELD_PLACES }
    ensures reads { ReadsParts bytes.now fields.new.items result }
    ensures places { vec_len fields.new ≡ vec_len fields.old }
{
    let Some(parts) = parse(bytes, fields) else {
        return Err(NextMessage::Faulty { bodiless: false });
    };
    let head = Head::new(bytes, parts, fields.as_slice());
    match body_length(&head) {
        Some(body) => Ok((parts, body)),
        None => Err(NextMessage::Faulty {
            bodiless: asks_for_no_body(&head),
        }),
    }
}

/// Where the parts of a head stand, or `None` where it is none that can be read.
fn parse(bytes: &[u8], fields: &mut Vec<HeaderSpan>) -> Option<RequestSpans>
    requires fits { length bytes.now ≤ HEAD_BYTES_MAX }
    requires places { vec_len fields.old ≡ FIELD_PLACES }
    ensures some { IfSome result (IsParsed bytes.now fields.new.items) }
    ensures none { IfNone result (IsUnreadable bytes.now) }
    ensures places { vec_len fields.new ≡ vec_len fields.old }
{
    let Ok(Status::Complete(parts)) = parse_request(bytes, fields) else {
        return None;
    };
    if parts.len == bytes.len() {
        Some(parts)
    } else {
        None
    }
}

/// Whether the answer to a head that ends the session has no body.
fn asks_for_no_body(head: &Head) -> bool
    ensures { result ≡ is_bodiless (Faulty (Some head.now)) }
{
    head.field_count() <= FIELDS_MAX && head.method() == b"HEAD".as_slice()
}

/// Reads until so many bytes are held.
fn read_up_to<S: Source>(
    window: &mut Window,
    size: usize,
    source: &mut S,
) -> Result<(), NextMessage>
    requires { size ≤ window.old.size }
    ensures grows { Grows (S.source source.old).left (S.source source.new).left window.old.held window.new.held }
    ensures up_to { IsUpTo size (S.source source.new).left window.new.held result }
    ensures size { window.new.size ≡ window.old.size }
    ensures faults { (S.source source.old).faults ≤ (S.source source.new).faults }
    ensures cause { IfErr result (NextCause (S.source source.old).faults (S.source source.new).faults) }
    ensures sink_side { S.sink_side source.new ≡ S.sink_side source.old }
{
    while window.held().len() < size {
        match window.fill(source) {
            Got::Bytes(_) => {}
            Got::End => return Err(NextMessage::CutShort),
            Got::Failed => return Err(NextMessage::ReadFault),
        }
    }
    Ok(())
}
