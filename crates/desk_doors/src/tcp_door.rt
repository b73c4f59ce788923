//! A door over a listener of TCP, of which nothing is told.

ghost use Rattle.std.specs.Prelude.{◌≡◌};
ghost use Rattle.desk_doors.specs.TcpEnds.{accept_failures, links_out};

use crate::{ACCEPT_TRIES_MAX, Came, Door, TcpLink};
use std::io::ErrorKind;
use std::net::{TcpListener, TcpStream};

/// A door over a listener of TCP, which several doors may share. It tells no links, counts the accepts that failed, and is
/// never closed.
#[derive(Drop)]
pub struct TcpDoor<'a> {
    listener: &'a TcpListener,
    failed: u64,
    out: u64,
}

impl<'a> TcpDoor<'a> {
    /// A door over a listener, with no failure so far and no link out.
    pub fn new(listener: &'a TcpListener) -> TcpDoor<'a>
        ensures failed { accept_failures result ≡ 0 }
        ensures out { links_out result ≡ 0 }
    {
        TcpDoor {
            listener,
            failed: 0,
            out: 0,
        }
    }
}

impl<'a> Door for TcpDoor<'a> {
    ghost use Rattle.std.specs.Prelude.{None, false};
    ghost use Rattle.desk_doors.specs.TcpEnds.{accept_failures, links_out};

    type L = TcpLink;

    ghost door = { λ d. record {
      waiting = None;
      given = None;
      faults = accept_failures d;
      out = links_out d;
      shut = false;
    } };

    /// Waits for the next client. One that hung up before it was accepted is passed over.
    fn accept(&mut self) -> Came<TcpLink> {
        match next_stream(self.listener) {
            Some(stream) => {
                self.out = self.out.saturating_add(1);
                Came::Linked(TcpLink::new(stream))
            }
            None => {
                self.failed = self.failed.saturating_add(1);
                Came::Failed
            }
        }
    }

    /// Tells the client that nothing more comes, and closes the link.
    fn give_back(&mut self, link: TcpLink) {
        self.out -= 1;
        link.end_writing();
    }

    ghost shut_is_empty = { λ _ _. tt };
}

// The next stream, where an accept succeeds.
fn next_stream(listener: &TcpListener) -> Option<TcpStream> {
    for _try in 0..ACCEPT_TRIES_MAX {
        match listener.accept() {
            Ok((stream, _peer)) => return Some(stream),
            Err(error) => match error.kind() {
                ErrorKind::Interrupted | ErrorKind::ConnectionAborted => {}
                _ => return None,
            },
        }
    }
    None
}
