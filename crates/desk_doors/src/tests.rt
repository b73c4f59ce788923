use crate::{Came, Door, MemDoor, TcpDoor};
use desk_io::{MemLink, MemSink, MemSource, Sink, Source};
use std::alloc::Global;
use std::io::{self, Read, Write};
use std::net::{Net, Shutdown, TcpListener, TcpStream};
use std::process::Abort;

/// What a row shows, the accept that fails, and what five accepts answer: the byte that was written to the link that came,
/// `-` for a failure and `.` for a door that is closed.
static ACCEPTS: [(&str, u64, [u8; 5]); 4] = [
    ("none fails", 9, *b"123.."),
    ("the first fails", 1, *b"-123."),
    ("the second fails", 2, *b"1-23."),
    ("the third fails", 3, *b"12-3."),
];

// A link to which this byte was written.
fn link_of(alloc: Global, byte: u8) -> Result<MemLink, desk_io::NoMemory> {
    let source = MemSource::new(Vec::new(alloc), 1, Vec::new(alloc));
    let mut link = MemLink::new(source, MemSink::new(alloc, 1, 1, Vec::new(alloc))?);
    let _put = link.write(&[byte]);
    Ok(link)
}

fn door_of(alloc: Global, failing: u64) -> Result<MemDoor, desk_io::NoMemory> {
    let links = vec![in alloc;
        link_of(alloc, b'1')?,
        link_of(alloc, b'2')?,
        link_of(alloc, b'3')?,
    ]?;
    Ok(MemDoor::new(links, vec![in alloc; failing]?))
}

// Accepts once and gives back.
fn answer(door: &mut MemDoor) -> u8 {
    match door.accept() {
        Came::Linked(link) => {
            let byte = link.bytes().first().copied().unwrap_or(b'?');
            door.give_back(link);
            byte
        }
        Came::Closed => b'.',
        Came::Failed => b'-',
    }
}

// The byte that was written to the k-th link given back.
fn byte_given(door: &MemDoor, k: u64) -> Option<u8> {
    door.given(k)?.bytes().first().copied()
}

#[test]
fn accepts_fail_where_they_are_told_to(rt: HostRuntime) -> Result<(), desk_io::NoMemory> {
    for (case, failing, answers) in &ACCEPTS {
        let mut door = door_of(rt.alloc(), *failing)?;
        for expected in answers {
            let came = answer(&mut door);
            assert!(rt; came == *expected, "{case}");
        }
    }
    Ok(())
}

#[test]
fn links_are_given_back_in_order(rt: HostRuntime) -> Result<(), desk_io::NoMemory> {
    let mut door = door_of(rt.alloc(), 2)?;
    for _ in 0..4 {
        let _came = answer(&mut door);
    }
    assert!(rt; byte_given(&door, 0).is_none());
    assert!(rt; byte_given(&door, 1) == Some(b'1'));
    assert!(rt; byte_given(&door, 3) == Some(b'3'));
    assert!(rt; byte_given(&door, 4).is_none());
    Ok(())
}

// What a client gets to a byte that it sends, where the door's link answers with it and is given back.
fn echoed<R: Net<Listener = TcpListener, Stream = TcpStream>>(rt: &R) -> io::Result<Option<u8>> {
    let listener = TcpListener::bind(rt, "127.0.0.1:0")?;
    let mut client = TcpStream::connect(rt, listener.local_addr()?)?;
    client.write_all(b"x")?;
    let mut door = TcpDoor::new(&listener);
    match door.accept() {
        Came::Linked(mut link) => {
            let mut room = [0; 1];
            let _got = link.read(&mut room);
            let _put = link.write(&room);
            door.give_back(link);
        }
        Came::Closed | Came::Failed => {}
    }
    let mut room = [0; 2];
    let first = client.read(&mut room)?;
    let byte = room[0];
    let then = client.read(&mut room)?;
    client.shutdown(Shutdown::Both)?;
    Ok(if first == 1 && then == 0 {
        Some(byte)
    } else {
        None
    })
}

#[test]
fn a_byte_goes_each_way_and_then_the_end(rt: HostRuntime) -> io::Result<()> {
    assert!(rt; echoed(&rt)? == Some(b'x'));
    Ok(())
}
