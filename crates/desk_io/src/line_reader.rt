//! Lines of bytes, however the source cuts them.

ghost use Rattle.std.specs.Prelude.{◌≡◌, ◌+◌, ◌<◌, ◌≤◌, true, false, [], length, take, drop, IfOk};
ghost use Rattle.std.specs.List.{position_or_len};
ghost use Rattle.desk_io.specs.Lines.{is_line_feed, has_line_feed, without_return};
ghost use Rattle.desk_io.specs.NextLine.{ahead, EndsLine, GivesLine, LineCause, LineFits, TakesRest};
ghost use Rattle.desk_io.specs.Reading.{ReadCause};
ghost use Rattle.desk_io.specs.WindowValue.{Fills};

use crate::window::Window;
use crate::{Got, NoMemory, Source};
use memchr::memchr;
use std::alloc::{AllocError, Global};
use std::marker::Model;

// How many bytes are read ahead, beside the longest line.
const BLOCK: usize = 16_384;

/// What the reader answers when it is asked for the next line.
#[derive(Clone, Copy, Debug, PartialEq, Eq)]
pub enum LineGot {
    /// A line came; `LineReader::line` gives its bytes.
    Line,
    /// No byte is left.
    End,
    /// More bytes than the reader's limit stand before the line feed or the end.
    TooLong,
    /// A read failed.
    ReadFault,
}

/// Cuts the bytes of a source into lines of at most `max` bytes.
///
/// A line ends at a line feed or at the end; a carriage return just before the line feed is dropped, and counts in the line's length.
#[derive(Drop)]
pub struct LineReader {
    max: u64,
    searched: usize,
    is_ended: bool,
    window: Window,
}

impl Model for LineReader {
    ghost use Rattle.std.specs.Prelude.{◌≡◌, ◌+◌, ◌≤◌};
    ghost use Rattle.std.specs.List.{position_or_len};
    ghost use Rattle.desk_io.specs.Lines.{is_line_feed};
    ghost use Rattle.desk_io.specs.Reader.{ReaderValue};
    ghost use Rattle.desk_io.specs.declared.line_reader.TheConstants.{BLOCK};

    ghost Value = { ReaderValue };

    ghost view = { λ r. record { max = r.max; held = r.window.held; line = r.window.cut; is_ended = r.is_ended } };

    // no line feed stands among the bytes that were searched
    ghost invariant = { λ r. (r.window.size ≡ r.max + BLOCK)
        × (r.searched ≤ position_or_len is_line_feed r.window.held) };
}

impl LineReader {
    /// A reader of lines of at most `max` bytes, before the first one. It takes all its memory here.
    pub fn new(alloc: Global, max: u64) -> Result<LineReader, NoMemory>
        ensures { IfOk result (λ reader. reader ≡ record { max = max; held = []; line = []; is_ended = true }) }
    {
        let size = match (max as usize).checked_add(BLOCK) {
            Some(size) => size,
            None => return Err(AllocError),
        };
        Ok(LineReader {
            max,
            searched: 0,
            is_ended: true,
            window: Window::new(alloc, size)?,
        })
    }

    /// Reads the next line.
    ///
    /// `End` comes exactly where no byte is left, and `TooLong` exactly where more than `max` bytes stand before the line feed or the end. Only a line is taken from what is ahead, so that the call may be made again after a fault, which comes only where no whole line is held.
    pub fn next<S: Source>(&mut self, source: &mut S) -> LineGot
        ensures max { self.new.max ≡ self.old.max }
        ensures lines { GivesLine self.old.max (ahead self.old (S.source source.old).left)
            (ahead self.new (S.source source.new).left) result self.new.line }
        ensures fits { LineFits self.old.max result self.new.line }
        ensures ended { EndsLine (ahead self.old (S.source source.old).left) result self.new }
        ensures faults { (S.source source.old).faults ≤ (S.source source.new).faults }
        ensures cause { LineCause (S.source source.old).faults (S.source source.new).faults result }
        ensures sink_side { S.sink_side source.new ≡ S.sink_side source.old }
    {
        self.forget_line();
        loop {
            let size = self.size_of_first();
            if size as u64 > self.max() {
                return LineGot::TooLong;
            }
            if size < self.held_len() {
                self.take_line(size);
                return LineGot::Line;
            }
            match self.fill(source) {
                Got::Bytes(_) => {}
                Got::End => return self.take_rest(),
                Got::Failed => return LineGot::ReadFault,
            }
        }
    }

    /// The bytes of the last line, without its line end.
    pub fn line(&self) -> &[u8]
        ensures { result.now ≡ self.now.line }
    {
        self.window.last_cut()
    }

    /// Whether a line feed ended the last line. The line that the end of the source ended is the last of all.
    pub fn is_ended(&self) -> bool
        ensures { result ≡ self.now.is_ended }
    {
        self.is_ended
    }

    /// Whether a whole line is held, so that the next one comes without a read.
    pub fn has_line(&self) -> bool
        ensures { result ≡ has_line_feed self.now.held }
    {
        memchr(b'\n', self.window.held()).is_some()
    }

    fn max(&self) -> u64
        ensures { result ≡ self.now.max }
    {
        self.max
    }

    fn held_len(&self) -> usize
        ensures { result ≡ length self.now.held }
    {
        self.window.held().len()
    }

    fn forget_line(&mut self)
        ensures { self.new ≡ record self.old { line = [] } }
    {
        self.window.forget_cut();
    }

    // How many of the bytes held stand before the first line feed, or before their end. Only what was not searched yet is searched.
    fn size_of_first(&mut self) -> usize
        ensures size { result ≡ position_or_len is_line_feed self.old.held }
        ensures same { self.new ≡ self.old }
    {
        let fresh = self.window.held().split_at(self.searched).1;
        self.searched += len_before_line_feed(fresh);
        self.searched
    }

    // Takes the bytes before a line feed as the line, without a carriage return at their end.
    fn take_line(&mut self, size: usize)
        requires { size < length self.old.held }
        ensures max { self.new.max ≡ self.old.max }
        ensures line { self.new.line ≡ without_return (take size self.old.held) }
        ensures held { self.new.held ≡ drop (size + 1) self.old.held }
        ensures ended { self.new.is_ended ≡ true }
    {
        let text = len_without_return(self.window.held().split_at(size).0);
        self.window.cut(text, size + 1);
        self.searched = 0;
        self.is_ended = true;
    }

    // Takes all the bytes held as the last line, if there are any.
    fn take_rest(&mut self) -> LineGot
        ensures max { self.new.max ≡ self.old.max }
        ensures line { self.new.line ≡ self.old.held }
        ensures held { self.new.held ≡ [] }
        ensures ended { self.new.is_ended ≡ false }
        ensures answer { TakesRest self.old.held result }
    {
        let size = self.window.held().len();
        self.window.cut(size, size);
        self.searched = 0;
        self.is_ended = false;
        if size == 0 {
            LineGot::End
        } else {
            LineGot::Line
        }
    }

    // Reads once, behind the bytes held.
    fn fill<S: Source>(&mut self, source: &mut S) -> Got
        requires { length self.old.held ≤ self.old.max }
        ensures max { self.new.max ≡ self.old.max }
        ensures line { self.new.line ≡ [] }
        ensures bytes { Fills (S.source source.old).left (S.source source.new).left self.old.held self.new.held result }
        ensures faults { (S.source source.old).faults ≤ (S.source source.new).faults }
        ensures cause { ReadCause (S.source source.old).faults (S.source source.new).faults result }
        ensures sink_side { S.sink_side source.new ≡ S.sink_side source.old }
    {
        self.window.fill(source)
    }
}

// How many bytes there are before the first line feed, or in all.
fn len_before_line_feed(bytes: &[u8]) -> usize
    ensures { result ≡ position_or_len is_line_feed bytes.now }
{
    match memchr(b'\n', bytes) {
        Some(place) => place,
        None => bytes.len(),
    }
}

// How many bytes there are before a carriage return at the end.
fn len_without_return(bytes: &[u8]) -> usize
    ensures text { take result bytes.now ≡ without_return bytes.now }
    ensures within { result ≤ length bytes.now }
{
    match bytes.last() {
        Some(last) if *last == b'\r' => bytes.len() - 1,
        _ => bytes.len(),
    }
}
