//! The reader and the writer of the real world, of which nothing is told: the trusted edge.

ghost use Rattle.std.specs.Prelude.{◌≡◌, ◌≤◌, length, IfSome};
ghost use Rattle.desk_io.specs.StdEnds.{read_failures, write_failures};

use crate::{Got, Put, Sink, Source};
use std::io::{Read, Write};

/// A source over any reader of std. It tells nothing of what is left, and counts the reads that failed.
#[derive(Drop)]
pub struct StdSource<R: Read> {
    reader: R,
    failures: u64,
}

impl<R: Read> StdSource<R> {
    /// A source over a reader, with no failure so far.
    pub fn new(reader: R) -> StdSource<R>
        ensures { read_failures result ≡ 0 }
    {
        StdSource {
            reader,
            failures: 0,
        }
    }
}

impl<R: Read> Source for StdSource<R> {
    ghost use Rattle.std.specs.Prelude.{None, []};
    ghost use Rattle.desk_io.specs.SinkView.{no_sink};
    ghost use Rattle.desk_io.specs.StdEnds.{read_failures};

    ghost source = { λ s. record { left = None; faults = read_failures s; lenders = [] } };

    ghost sink_side = { λ _. no_sink };

    /// Reads once. A read of no byte is the end.
    fn read(&mut self, room: &mut [u8]) -> Got {
        match self.reader.read(room) {
            Ok(0) => Got::End,
            Ok(count) => Got::Bytes(count as u64),
            Err(_) => {
                self.failures = self.failures.saturating_add(1);
                Got::Failed
            }
        }
    }
}

/// A sink over any writer of std. It tells nothing of what was written, and counts the writes that failed.
#[derive(Drop)]
pub struct StdSink<W: Write> {
    writer: W,
    failures: u64,
}

impl<W: Write> StdSink<W> {
    /// A sink over a writer, with no failure so far.
    pub fn new(writer: W) -> StdSink<W>
        ensures { write_failures result ≡ 0 }
    {
        StdSink {
            writer,
            failures: 0,
        }
    }
}

impl<W: Write> Sink for StdSink<W> {
    ghost use Rattle.std.specs.Prelude.{None, []};
    ghost use Rattle.desk_io.specs.SourceView.{no_source};
    ghost use Rattle.desk_io.specs.StdEnds.{write_failures};

    ghost sink = { λ s. record { written = None; taken = None; faults = write_failures s; lenders = [] } };

    ghost source_side = { λ _. no_source };

    ghost taken_fits = { λ _. tt };

    /// Writes once and flushes. A write that takes no byte is a failure.
    fn write(&mut self, bytes: &[u8]) -> Put {
        match write_through(&mut self.writer, bytes) {
            Some(count) => Put::Took(count as u64),
            None => {
                self.failures = self.failures.saturating_add(1);
                Put::Failed
            }
        }
    }
}

// How many bytes the writer took and passed on, at least one.
fn write_through<W: Write>(writer: &mut W, bytes: &[u8]) -> Option<usize>
    ensures { IfSome result (λ count. (1 ≤ count) × (count ≤ length bytes.now)) }
{
    let count = writer.write(bytes).ok()?;
    writer.flush().ok()?;
    if count == 0 { None } else { Some(count) }
}
