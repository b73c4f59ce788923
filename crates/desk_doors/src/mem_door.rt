//! A door in memory, for tests: it hands out its links, and fails where it is told to.

ghost use Rattle.std.specs.Prelude.{◌≡◌, ◌≤◌, ◌+◌, ◌-◌, ◌++◌, ◌∷◌, ◌==◌, if◌then◌else◌, [], false, None, length, take, drop};
ghost use Rattle.std.specs.Prelude.{slice_get, vec_capacity};
ghost use Rattle.std.specs.Option.{option_copied};
ghost use Rattle.desk_doors.specs.Accepting.{Comes, IsGivenBack};
ghost use Rattle.desk_doors.specs.DoorInMemory.{accept_answer, after_accept, view_of_door};

use crate::{Came, Door};
use desk_io::MemLink;
use std::marker::Model;

/// A door over links in memory, which tells them.
///
/// It hands the links out from the first to the last, and then is closed. The accepts whose numbers, from 1, stand in
/// `fails` fail. Links given back go into the room of those handed out.
#[derive(Drop)]
pub struct MemDoor {
    // those that wait, and behind them those given back
    links: Vec<MemLink>,
    waiting: usize,
    out: usize,
    accepts: u64,
    fails: Vec<u64>,
    faults: u64,
    closed: bool,
}

impl Model for MemDoor {
    ghost use Rattle.std.specs.Prelude.{◌≡◌, ◌≤◌, ◌+◌, true, take, drop, vec_len, vec_capacity};
    ghost use Rattle.desk_doors.specs.DoorInMemory.{DoorValue};

    ghost Value = { DoorValue };

    ghost view = { λ d. record {
      waiting = take d.waiting d.links.items;
      given = drop d.waiting d.links.items;
      accepts = d.accepts;
      fails = d.fails.items;
      faults = d.faults;
      out = d.out;
      closed = d.closed;
    } };

    ghost invariant = { λ d. (d.waiting ≤ vec_len d.links) × (vec_len d.links + d.out ≤ vec_capacity d.links)
        × (d.closed ≡ true → d.waiting ≡ 0) };
}

impl MemDoor {
    /// A door of these links, from the first to the last; the accepts numbered in `fails`, from 1, fail.
    pub fn new(links: Vec<MemLink>, fails: Vec<u64>) -> MemDoor
        ensures { result ≡ record {
          waiting = links.items;
          given = [];
          accepts = 0;
          fails = fails.items;
          faults = 0;
          out = 0;
          closed = false;
        } }
    {
        MemDoor {
            waiting: links.len(),
            links,
            out: 0,
            accepts: 0,
            fails,
            faults: 0,
            closed: false,
        }
    }

    /// The k-th link given back, from 1; `None` exactly where there is none.
    pub fn given(&self, k: u64) -> Option<&MemLink>
        ensures { option_copied result ≡ (if k == 0 then None else slice_get self.now.given (k - 1)) }
    {
        let before = k.checked_sub(1)?;
        let given = self.links.as_slice().split_at(self.waiting).1;
        given.get(before as usize)
    }
}

impl Door for MemDoor {
    ghost use Rattle.desk_doors.specs.DoorInMemory.{shut_waits_empty, view_of_door};

    type L = MemLink;

    ghost door = { λ d. view_of_door d };

    /// Hands out the first link that waits, or fails where this accept's number says so.
    fn accept(&mut self) -> Came<MemLink>
        ensures comes { Comes (view_of_door self.old) result (view_of_door self.new) }
        ensures answer { result ≡ accept_answer self.old }
        ensures after { self.new ≡ after_accept self.old result }
    {
        self.accepts = self.accepts.saturating_add(1);
        if self.fails.contains(&self.accepts) {
            self.faults = self.faults.saturating_add(1);
            return Came::Failed;
        }
        if self.waiting == 0 {
            self.closed = true;
            return Came::Closed;
        }
        let link = take_first(&mut self.links, self.waiting);
        self.waiting -= 1;
        self.out += 1;
        Came::Linked(link)
    }

    /// Puts the link behind those given back before.
    fn give_back(&mut self, link: MemLink)
        requires out { 1 ≤ self.old.out }
        ensures back { IsGivenBack (view_of_door self.old) link (view_of_door self.new) }
        ensures after { self.new ≡ record self.old {
          given = self.old.given ++ link ∷ [];
          out = self.old.out - 1;
        } }
    {
        self.out -= 1;
        match self.links.push(link) {
            Ok(()) => {}
            Err(_) => unreachable!(),
        }
    }

    ghost shut_is_empty = { λ d h. shut_waits_empty d.waiting d.closed h };
}

// Takes out the first of the links that wait, at the front; so many wait.
fn take_first(links: &mut Vec<MemLink>, waiting: usize) -> MemLink
    requires some { 1 ≤ waiting }
    requires within { waiting ≤ length links.old.items }
    ensures waited { take waiting links.old.items ≡ result ∷ take (waiting - 1) links.new.items }
    ensures given { drop (waiting - 1) links.new.items ≡ drop waiting links.old.items }
    ensures len { length links.new.items + 1 ≡ length links.old.items }
    ensures capacity { vec_capacity links.new ≡ vec_capacity links.old }
{
    links.remove(0)
}
