//! Links that answer only where two of them are read at the same time, and doors of one such link.

use desk_doors::{Came, Door};
use desk_io::{Got, Link, MemLink, Put, Sink, Source};
use std::sync::atomic::{AtomicBool, Ordering};

/// Whether a link is up, and whether the other one is.
#[derive(Clone, Copy)]
pub struct Sides<'f> {
    pub mine: &'f AtomicBool,
    pub other: &'f AtomicBool,
}

/// A link in memory whose second read raises a flag, and fails where it does not find the flag of the other link up in
/// so many looks. It tells nothing of what comes and goes.
#[derive(Drop)]
pub struct MeetingLink<'f> {
    link: MemLink,
    sides: Sides<'f>,
    looks: u64,
    reads: u64,
    reads_failed: u64,
    writes_failed: u64,
}

impl<'f> MeetingLink<'f> {
    /// A link that was not read.
    pub fn new(link: MemLink, sides: Sides<'f>, looks: u64) -> MeetingLink<'f> {
        MeetingLink {
            link,
            sides,
            looks,
            reads: 0,
            reads_failed: 0,
            writes_failed: 0,
        }
    }
}

// Whether a flag is seen up in so many looks.
fn is_seen(flag: &AtomicBool, looks: u64) -> bool {
    for _ in 0..looks {
        if flag.load(Ordering::SeqCst) {
            return true;
        }
    }
    false
}

// Raises the flag of this side, and says whether the other one is seen up.
fn is_met(sides: Sides<'_>, looks: u64) -> bool {
    sides.mine.store(true, Ordering::SeqCst);
    is_seen(sides.other, looks)
}

impl Source for MeetingLink<'_> {
    ghost use Rattle.std.specs.Prelude.{None, []};

    ghost source = { λ l. record { left = None; faults = l.reads_failed; lenders = [] } };

    ghost sink_side = { λ l. record { written = None; taken = None; faults = l.writes_failed; lenders = [] } };

    fn read(&mut self, room: &mut [u8]) -> Got {
        self.reads = self.reads.saturating_add(1);
        if self.reads == 2 && !is_met(self.sides, self.looks) {
            self.reads_failed = self.reads_failed.saturating_add(1);
            return Got::Failed;
        }
        let got = self.link.read(room);
        if got == Got::Failed {
            self.reads_failed = self.reads_failed.saturating_add(1);
        }
        got
    }
}

impl Sink for MeetingLink<'_> {
    ghost use Rattle.std.specs.Prelude.{None, []};

    ghost sink = { λ l. record { written = None; taken = None; faults = l.writes_failed; lenders = [] } };

    ghost source_side = { λ l. record { left = None; faults = l.reads_failed; lenders = [] } };

    ghost taken_fits = { λ _. tt };

    fn write(&mut self, bytes: &[u8]) -> Put {
        let put = self.link.write(bytes);
        if put == Put::Failed {
            self.writes_failed = self.writes_failed.saturating_add(1);
        }
        put
    }
}

impl Link for MeetingLink<'_> {
    ghost use Rattle.std.specs.Prelude.{refl};

    ghost sink_side_is = { λ _. refl };

    ghost source_side_is = { λ _. refl };

    ghost lenders_are = { λ _. refl };
}

/// A door at which one such link waits. It tells neither list.
#[derive(Drop)]
pub struct MeetingDoor<'f> {
    waiting: Option<MeetingLink<'f>>,
    given: Option<MeetingLink<'f>>,
    out: u64,
    shut: bool,
}

impl<'f> MeetingDoor<'f> {
    /// A door of this link.
    pub fn new(link: MeetingLink<'f>) -> MeetingDoor<'f> {
        MeetingDoor {
            waiting: Some(link),
            given: None,
            out: 0,
            shut: false,
        }
    }

    /// What was written to the link, where it was given back.
    pub fn bytes(&self) -> Option<&[u8]> {
        Some(self.given.as_ref()?.link.bytes())
    }
}

impl<'f> Door for MeetingDoor<'f> {
    ghost use Rattle.std.specs.Prelude.{None};

    type L = MeetingLink<'f>;

    ghost door = { λ d. record { waiting = None; given = None; faults = 0; out = d.out; shut = d.shut } };

    fn accept(&mut self) -> Came<MeetingLink<'f>> {
        match self.waiting.take() {
            Some(link) => {
                self.out = self.out.saturating_add(1);
                Came::Linked(link)
            }
            None => {
                self.shut = true;
                Came::Closed
            }
        }
    }

    fn give_back(&mut self, link: MeetingLink<'f>) {
        self.out -= 1;
        self.given = Some(link);
    }

    ghost shut_is_empty = { λ d is. tt };
}
