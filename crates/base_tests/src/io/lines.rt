//! How bytes are cut into lines.

use desk_io::{LineGot, LineReader, MemSource};
use std::alloc::{AllocError, Global};
use std::process::Abort;
use std::test::Fail;

const CUTS: [u64; 5] = [1, 2, 3, 7, 4_096];

/// What a reader answers up to the end: each line in brackets, `?` for a fault, `!` for a line that is too long, `.` for the end.
fn transcript(alloc: Global, source: &mut MemSource, max: u64) -> Result<Vec<u8>, AllocError> {
    let mut reader = LineReader::new(alloc, max)?;
    let mut shown = Vec::new(alloc);
    for _ in 0..10_000 {
        match reader.next(source) {
            LineGot::Line => {
                shown.extend_from_slice(b"[")?;
                shown.extend_from_slice(reader.line())?;
                shown.extend_from_slice(b"]")?;
            }
            LineGot::ReadFault => shown.extend_from_slice(b"?")?,
            LineGot::TooLong => {
                shown.extend_from_slice(b"!")?;
                return Ok(shown);
            }
            LineGot::End => {
                shown.extend_from_slice(b".")?;
                return Ok(shown);
            }
        }
    }
    Ok(shown)
}

/// What is cut, its bytes, and what a reader of lines of at most four bytes answers.
const CUT_LINES: [(&str, &[u8], &[u8]); 18] = [
    ("no bytes", b"", b"."),
    ("one line feed", b"\n", b"[]."),
    ("empty lines", b"\n\n\n", b"[][][]."),
    ("a line", b"abc\n", b"[abc]."),
    ("no line feed at the end", b"ab\ncd", b"[ab][cd]."),
    (
        "a return before the line feed",
        b"abc\r\nd\r\n",
        b"[abc][d].",
    ),
    ("a return alone before it", b"\r\n", b"[]."),
    ("two returns before it", b"a\r\r\n", b"[a\r]."),
    ("a return inside", b"a\rb\n", b"[a\rb]."),
    ("a return at the end", b"abc\r", b"[abc\r]."),
    ("a return after the line feed", b"a\n\rb\n", b"[a][\rb]."),
    (
        "bytes that are no text",
        b"\xff\x00\xfe\n\xc3",
        b"[\xff\x00\xfe][\xc3].",
    ),
    ("the longest line", b"abcd\nefgh\n", b"[abcd][efgh]."),
    ("the longest line at the end", b"abcd", b"[abcd]."),
    ("the longest line with a return", b"abc\r\nd", b"[abc][d]."),
    ("one byte more", b"a\nabcde\nb\n", b"[a]!"),
    ("one byte more at the end", b"a\nabcde", b"[a]!"),
    ("one byte more with a return", b"a\nabcd\r\n", b"[a]!"),
];

#[test]
fn bytes_are_cut_into_the_same_lines_by_any_pieces(rt: HostRuntime) -> Result<(), Fail> {
    let alloc = rt.alloc();
    for (what, bytes, want) in CUT_LINES {
        for cut in CUTS {
            let mut source = MemSource::new(bytes.to_vec(alloc)?, cut, Vec::new(alloc));
            let shown = transcript(alloc, &mut source, 4)?;
            assert_eq!(rt; shown.as_slice(), want, "{what}, in pieces of {cut}");
        }
    }
    Ok(())
}

/// So many bytes of one value, and then an end.
fn run_of(alloc: Global, byte: u8, count: usize, end: &[u8]) -> Result<Vec<u8>, AllocError> {
    let mut bytes = vec![in alloc; byte; count]?;
    bytes.extend_from_slice(end)?;
    Ok(bytes)
}

/// What is read, how many bytes before which end, and whether that is a line.
const LONG_LINES: [(&str, usize, &[u8], bool); 8] = [
    ("4,096 bytes", 4_096, b"\n", true),
    ("4,097 bytes", 4_097, b"\n", false),
    ("4,096 bytes at the end", 4_096, b"", true),
    ("4,097 bytes at the end", 4_097, b"", false),
    ("4,095 bytes and a return", 4_095, b"\r\n", true),
    ("4,096 bytes and a return", 4_096, b"\r\n", false),
    ("more than is read ahead", 50_000, b"\n", false),
    ("an empty one", 0, b"\n", true),
];

/// Tries a line of so many bytes, in pieces of any size.
fn try_line(
    rt: &impl Abort,
    alloc: Global,
    (what, count, end, fits): (&str, usize, &[u8], bool),
) -> Result<(), AllocError> {
    let want = if fits {
        LineGot::Line
    } else {
        LineGot::TooLong
    };
    for cut in CUTS {
        let bytes = run_of(alloc, b'x', count, end)?;
        let mut source = MemSource::new(bytes, cut, Vec::new(alloc));
        let mut reader = LineReader::new(alloc, 4_096)?;
        assert_eq!(rt;
            reader.next(&mut source),
            want,
            "{what}, in pieces of {cut}"
        );
        let size = if fits { count } else { 0 };
        assert_eq!(rt; reader.line().len(), size, "{what}, in pieces of {cut}");
    }
    Ok(())
}

#[test]
fn long_lines_are_judged_by_their_bytes(rt: HostRuntime) -> Result<(), Fail> {
    let alloc = rt.alloc();
    for line in LONG_LINES {
        try_line(&rt, alloc, line)?;
    }
    assert!(rt; LineReader::new(alloc, u64::MAX).is_err());
    Ok(())
}

/// So many lines of 0 to 40 bytes, and what a reader answers to them.
fn many_lines(alloc: Global, count: u64) -> Result<(Vec<u8>, Vec<u8>), AllocError> {
    let mut bytes = Vec::new(alloc);
    let mut shown = Vec::new(alloc);
    for number in 0..count {
        let line = run_of(alloc, b'a', (number % 41) as usize, b"")?;
        bytes.extend_from_slice(&line)?;
        bytes.extend_from_slice(b"\n")?;
        shown.extend_from_slice(b"[")?;
        shown.extend_from_slice(&line)?;
        shown.extend_from_slice(b"]")?;
    }
    shown.extend_from_slice(b".")?;
    Ok((bytes, shown))
}

#[test]
fn more_bytes_than_are_read_ahead_give_all_their_lines(rt: HostRuntime) -> Result<(), Fail> {
    let alloc = rt.alloc();
    for cut in [5, 4_096, 100_000] {
        let (bytes, want) = many_lines(alloc, 3_000)?;
        let mut source = MemSource::new(bytes, cut, Vec::new(alloc));
        let shown = transcript(alloc, &mut source, 40)?;
        assert_eq!(rt; shown.as_slice(), want.as_slice(), "in pieces of {cut}");
    }
    Ok(())
}

/// What was shown but for the faults, and how many these were.
fn without_faults(alloc: Global, shown: &[u8]) -> Result<(Vec<u8>, u64), AllocError> {
    let mut rest = Vec::new(alloc);
    let mut faults = 0u64;
    for byte in shown {
        if *byte == b'?' {
            faults = faults.saturating_add(1);
        } else {
            rest.push(*byte)?;
        }
    }
    Ok((rest, faults))
}

/// The size of the pieces, and how many reads are made up to the second answer of the end.
const READS: [(u64, u64); 5] = [(1, 12), (2, 7), (3, 6), (7, 4), (4_096, 3)];

/// The read of this number fails, once, and then all lines come.
fn try_failing_read(
    rt: &impl Abort,
    alloc: Global,
    read: u64,
    (cut, reads): (u64, u64),
) -> Result<(), AllocError> {
    assert!(rt; cut > 0);
    let fails = vec![in alloc; read]?;
    let mut source = MemSource::new(b"ab\r\n\ncde\nf".to_vec(alloc)?, cut, fails);
    let shown = transcript(alloc, &mut source, 4)?;
    let (lines, faults) = without_faults(alloc, &shown)?;
    let want = b"[ab][][cde][f].".as_slice();
    assert_eq!(rt; lines.as_slice(), want, "read {read}, in pieces of {cut}");
    assert_eq!(rt;
        faults,
        u64::from(read <= reads),
        "read {read}, in pieces of {cut}"
    );
    Ok(())
}

#[test]
fn a_failed_read_is_told_and_loses_nothing(rt: HostRuntime) -> Result<(), Fail> {
    for pieces in READS {
        for read in 1..=14 {
            try_failing_read(&rt, rt.alloc(), read, pieces)?;
        }
    }
    Ok(())
}
