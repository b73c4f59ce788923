//! Links, clocks, and the ends of the real world.

use desk_io::{
    Clock, Got, LineGot, LineReader, Link, MemClock, MemLink, MemSink, MemSource, OutBuf, Pair,
    Put, Sink, Source, StdSink, StdSource, WallClock,
};
use std::alloc::{AllocError, Global};
use std::io::{Error, ErrorKind, Read, Write};
use std::test::Fail;

/// Reads, writes a byte, and reads again.
fn go_both_ways<L: Link>(link: &mut L) -> (Got, Put, Got) {
    let mut room = [0; 2];
    let first = link.read(&mut room);
    let put = link.write(b"x");
    (first, put, link.read(&mut room))
}

/// A source of three bytes and a sink for two.
fn two_ends(alloc: Global) -> Result<(MemSource, MemSink), AllocError> {
    let source = MemSource::new(b"abc".to_vec(alloc)?, 2, Vec::new(alloc));
    Ok((source, MemSink::new(alloc, 2, 2, Vec::new(alloc))?))
}

#[test]
fn a_link_reads_and_writes(rt: HostRuntime) -> Result<(), Fail> {
    let alloc = rt.alloc();
    let went = (Got::Bytes(2), Put::Took(1), Got::Bytes(1));
    let (source, sink) = two_ends(alloc)?;
    let mut link = MemLink::new(source, sink);
    assert!(rt; go_both_ways(&mut link) == went);
    assert_eq!(rt; link.bytes(), b"x".as_slice());
    let (mut source, mut sink) = two_ends(alloc)?;
    assert!(rt; go_both_ways(&mut Pair::new(&mut source, &mut sink)) == went);
    assert_eq!(rt; sink.bytes(), b"x".as_slice());
    assert_eq!(rt; source.read(&mut [0; 2]), Got::End);
    Ok(())
}

#[test]
fn a_clock_answers_its_moments_and_then_the_last_one(rt: HostRuntime) -> Result<(), Fail> {
    let alloc = rt.alloc();
    let mut clock = MemClock::new(vec![in alloc; 7, 5]?);
    for moment in [7, 5, 5, 5] {
        assert_eq!(rt; clock.now(), moment);
    }
    assert_eq!(rt; MemClock::new(Vec::new(alloc)).now(), 0);
    assert!(rt;
        WallClock::new(rt).now() > 1_700_000_000,
        "seconds since 1970"
    );
    Ok(())
}

/// A reader and a writer of std that fails at first, for a cause after which one might try again, and then gives and takes a byte.
#[derive(Drop)]
struct Failing {
    calls: u64,
}

impl Failing {
    fn count(&mut self) -> Result<usize, Error> {
        self.calls = self.calls.saturating_add(1);
        if self.calls == 1 {
            return Err(Error::from(ErrorKind::Interrupted));
        }
        Ok(1)
    }
}

impl Read for Failing {
    fn read(&mut self, room: &mut [u8]) -> Result<usize, Error> {
        let count = self.count()?;
        Ok(count.min(room.len()))
    }
}

impl Write for Failing {
    fn write(&mut self, bytes: &[u8]) -> Result<usize, Error> {
        let count = self.count()?;
        Ok(count.min(bytes.len()))
    }

    fn flush(&mut self) -> Result<(), Error> {
        Ok(())
    }
}

#[test]
fn what_failed_is_not_tried_again(rt: HostRuntime) -> Result<(), Fail> {
    let alloc = rt.alloc();
    let mut reader = Failing { calls: 0 };
    let mut lines = LineReader::new(alloc, 10)?;
    assert_eq!(rt;
        lines.next(&mut StdSource::new(&mut reader)),
        LineGot::ReadFault
    );
    assert_eq!(rt; reader.calls, 1);
    let mut writer = Failing { calls: 0 };
    let mut sink = StdSink::new(&mut writer);
    let mut out = OutBuf::new(alloc)?;
    assert!(rt; out.put_str(&mut sink, "ab").is_ok() && out.flush(&mut sink).is_err());
    assert_eq!(rt; writer.calls, 1);
    Ok(())
}

#[test]
fn std_readers_and_writers_are_ends_too(rt: HostRuntime) -> Result<(), Fail> {
    let text: &[u8] = b"abc";
    let mut source = StdSource::new(text);
    let mut room = [0; 2];
    assert_eq!(rt; source.read(&mut room), Got::Bytes(2));
    assert_eq!(rt; room.as_slice(), b"ab".as_slice());
    assert_eq!(rt; source.read(&mut room), Got::Bytes(1));
    assert_eq!(rt; room[0], b'c');
    assert_eq!(rt; source.read(&mut room), Got::End);
    let mut full = [0; 2];
    let mut sink = StdSink::new(full.as_mut_slice());
    assert_eq!(rt; sink.write(b"abc"), Put::Took(2));
    assert_eq!(rt; sink.write(b"c"), Put::Failed);
    assert_eq!(rt; full.as_slice(), b"ab".as_slice());
    Ok(())
}
