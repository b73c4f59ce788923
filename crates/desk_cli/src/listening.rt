//! The doors of a server over the network, and its clocks: the trusted edge.

ghost use Rattle.std.specs.Prelude.{map, string_bytes, IfSome};
ghost use Rattle.command_line.specs.Reading.{told_by_words};
ghost use Rattle.desk_cli.specs.ServeCall.{AreForWorkers};

use crate::served::status_of;
use crate::serving::serve_top;
use command_line::{Command, WordsFault, desk_words};
use desk_doors::TcpDoor;
use desk_io::{Sink, WallClock};
use desk_keeper::KeeperMem;
use desk_types::Tables;
use printouts::{DOOR_FAULT, NO_MEMORY};
use std::alloc::{AllocError, Global};
use std::net::{Ipv4Addr, Net, SocketAddr, TcpListener, TcpStream};
use std::sync::Wait;
use std::thread::Threads;
use std::time::Clock as HostClock;

/// Serves at the port that is told, on 127.0.0.1, where the words tell `serve`, and answers the status: that of `serve_top`
/// over a keeper without rows, 10 where it cannot listen there, and 5 for want of memory. Other words tell no status.
pub fn listen<
    R: Threads + Wait + Sync + HostClock + Net<Listener = TcpListener, Stream = TcpStream>,
    T: Sink,
>(rt: &R, alloc: Global, words: &[String], output: &mut T) -> Option<u8> {
    let told = match desk_words(alloc, words) {
        Ok(told) if told.command == Command::Serve => told,
        Ok(_) | Err(WordsFault::Refused) => return None,
        Err(WordsFault::NoMemory) => return Some(NO_MEMORY),
    };
    let at = SocketAddr::from((Ipv4Addr::LOCALHOST, told.port as u16));
    match TcpListener::bind(rt, at) {
        Ok(listener) => {
            let status = serve_at(rt, alloc, &listener, words, told.workers as usize, output);
            Some(status.unwrap_or(NO_MEMORY))
        }
        Err(_) => Some(DOOR_FAULT),
    }
}

/// Serves at a listener, by a door and a clock for each of so many workers, and answers the status.
fn serve_at<R: Threads + Wait + Sync + HostClock, T: Sink>(
    rt: &R,
    alloc: Global,
    listener: &TcpListener,
    words: &[String],
    workers: usize,
    output: &mut T,
) -> Result<u8, AllocError>
    requires { IfSome (told_by_words (map string_bytes words.now)) (AreForWorkers workers workers) }
{
    let mut doors = Vec::new(alloc);
    doors.resize_with(workers, || TcpDoor::new(listener))?;
    let mut clocks = Vec::new(alloc);
    clocks.resize_with(workers, || WallClock::new(rt))?;
    let keeper = KeeperMem::new(alloc, Tables::new(alloc), Vec::new(alloc));
    let served = serve_top(rt, alloc, words, &mut doors, output, keeper, clocks);
    Ok(status_of(served))
}
