//! What is put, and what is then written.

use desk_io::{CountSink, MemSink, OutBuf, Piece, Sink, WriteFault};
use std::alloc::{AllocError, Global};
use std::process::Abort;
use std::test::Fail;

/// Puts the bytes so many times, and flushes.
fn put_often<T: Sink>(
    out: &mut OutBuf,
    sink: &mut T,
    bytes: &[u8],
    times: u64,
) -> Result<(), WriteFault> {
    for _ in 0..times {
        out.put(sink, bytes)?;
    }
    out.flush(sink)
}

/// The write of this number fails: a beginning of all is written, and all of it exactly where no write failed.
fn try_failing_write(
    rt: &impl Abort,
    alloc: Global,
    write: u64,
    cut: u64,
) -> Result<(), AllocError> {
    assert!(rt; cut > 0);
    let whole = vec![in alloc; b'x'; 50_000]?;
    let piece = whole.as_slice().split_at(10_000).0;
    let mut sink = MemSink::new(alloc, 50_000, cut, vec![in alloc; write]?)?;
    let done = put_often(&mut OutBuf::new(alloc)?, &mut sink, piece, 5).is_ok();
    let all = sink.bytes().len() == 50_000;
    assert_eq!(rt; all, done, "write {write}, in pieces of {cut}");
    assert!(rt;
        whole.as_slice().starts_with(sink.bytes()),
        "write {write}, in pieces of {cut}"
    );
    Ok(())
}

#[test]
fn what_is_put_is_written_or_a_beginning_of_it(rt: HostRuntime) -> Result<(), Fail> {
    for cut in [1_000, 4_096, 100_000] {
        for write in 1..=60 {
            try_failing_write(&rt, rt.alloc(), write, cut)?;
        }
    }
    Ok(())
}

/// What is put, how often so many bytes, for how many there is room, and how many are written.
const ROOMS: [(&str, u64, usize, u64, usize); 4] = [
    ("pieces that fit", 5, 10_000, 50_000, 50_000),
    ("no room for the last byte", 5, 10_000, 49_999, 49_999),
    (
        "a piece longer than what may wait",
        1,
        40_000,
        40_000,
        40_000,
    ),
    ("no room at all", 1, 1, 0, 0),
];

#[test]
fn a_sink_takes_what_it_has_room_for(rt: HostRuntime) -> Result<(), Fail> {
    let alloc = rt.alloc();
    for (what, times, size, room, want) in ROOMS {
        let bytes = vec![in alloc; b'x'; size]?;
        let mut sink = MemSink::new(alloc, room, 4_096, Vec::new(alloc))?;
        let _done = put_often(&mut OutBuf::new(alloc)?, &mut sink, &bytes, times);
        assert_eq!(rt; sink.bytes().len(), want, "{what}");
    }
    Ok(())
}

/// Puts pieces of each kind, none among them, and flushes.
fn put_pieces<T: Sink>(out: &mut OutBuf, sink: &mut T) -> Result<(), WriteFault> {
    out.put_all(
        sink,
        &[Piece::Text("a"), Piece::Number(0), Piece::Bytes(b"\xff")],
    )?;
    out.put_all(sink, &[])?;
    out.put_str(sink, " ")?;
    out.put_number(sink, 9_007_199_254_740_993)?;
    out.put_all(sink, &[Piece::Text(" "), Piece::Number(u64::MAX)])?;
    out.flush(sink)
}

#[test]
fn pieces_are_written_one_behind_another_and_counted(rt: HostRuntime) -> Result<(), Fail> {
    let alloc = rt.alloc();
    let want = b"a0\xff 9007199254740993 18446744073709551615".as_slice();
    let mut sink = MemSink::new(alloc, 100, 7, Vec::new(alloc))?;
    let mut out = OutBuf::new(alloc)?;
    assert!(rt; put_pieces(&mut out, &mut sink).is_ok());
    assert_eq!(rt; sink.bytes(), want);
    let mut counted = CountSink::new();
    assert!(rt; put_pieces(&mut out, &mut counted).is_ok());
    assert_eq!(rt; counted.count(), want.len() as u64);
    Ok(())
}
