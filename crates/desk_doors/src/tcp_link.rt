//! A link over a stream of TCP, of which nothing is told.

ghost use Rattle.std.specs.Prelude.{◌≡◌, ◌≤◌, length, IfSome};
ghost use Rattle.desk_doors.specs.TcpEnds.{stream_read_failures, stream_write_failures};

use crate::{READ_SECONDS_MAX, WRITE_SECONDS_MAX};
use desk_io::{Got, Link, Put, Sink, Source};
use std::io::{Read, Write};
use std::net::TcpStream;
use std::time::Duration;

/// A link over a stream of TCP. It tells nothing of what comes and goes, and counts the reads and the writes that failed.
#[derive(Drop)]
pub struct TcpLink {
    stream: TcpStream,
    reads_failed: u64,
    writes_failed: u64,
}

impl TcpLink {
    /// A link over a stream, with no failure so far. What is written leaves at once, and a read or a write that waits too
    /// long fails, where the system grants it.
    pub fn new(stream: TcpStream) -> TcpLink
        ensures reads { stream_read_failures result ≡ 0 }
        ensures writes { stream_write_failures result ≡ 0 }
    {
        let _nodelay = stream.set_nodelay(true);
        let _read = stream.set_read_timeout(Some(Duration::from_secs(READ_SECONDS_MAX)));
        let _write = stream.set_write_timeout(Some(Duration::from_secs(WRITE_SECONDS_MAX)));
        TcpLink {
            stream,
            reads_failed: 0,
            writes_failed: 0,
        }
    }

    // Tells the peer that nothing more comes.
    pub(crate) fn end_writing(&self) {
        let _end = self.stream.shutdown(std::net::Shutdown::Write);
    }
}

impl Source for TcpLink {
    ghost use Rattle.std.specs.Prelude.{None, []};
    ghost use Rattle.desk_doors.specs.TcpEnds.{stream_read_failures, stream_write_failures};

    ghost source = { λ l. record { left = None; faults = stream_read_failures l; lenders = [] } };

    ghost sink_side = { λ l. record { written = None; taken = None; faults = stream_write_failures l; lenders = [] } };

    /// Reads once. A read of no byte is the end.
    fn read(&mut self, room: &mut [u8]) -> Got {
        match self.stream.read(room) {
            Ok(0) => Got::End,
            Ok(count) => Got::Bytes(count as u64),
            Err(_) => {
                self.reads_failed = self.reads_failed.saturating_add(1);
                Got::Failed
            }
        }
    }
}

impl Sink for TcpLink {
    ghost use Rattle.std.specs.Prelude.{None, []};
    ghost use Rattle.desk_doors.specs.TcpEnds.{stream_read_failures, stream_write_failures};

    ghost sink = { λ l. record { written = None; taken = None; faults = stream_write_failures l; lenders = [] } };

    ghost source_side = { λ l. record { left = None; faults = stream_read_failures l; lenders = [] } };

    ghost taken_fits = { λ _. tt };

    /// Writes once. A write that takes no byte is a failure.
    fn write(&mut self, bytes: &[u8]) -> Put {
        match self.stream.write(bytes) {
            Ok(count) if count > 0 => Put::Took(count as u64),
            _ => {
                self.writes_failed = self.writes_failed.saturating_add(1);
                Put::Failed
            }
        }
    }
}

impl Link for TcpLink {
    ghost use Rattle.std.specs.Prelude.{refl};

    ghost sink_side_is = { λ _. refl };

    ghost source_side_is = { λ _. refl };

    ghost lenders_are = { λ _. refl };
}
