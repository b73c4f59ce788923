//! A desk in a lock.

ghost use Rattle.std.specs.Prelude.{IsTrue};
ghost use Rattle.desk_types.specs.Serving.{IsSureResult};
ghost use Rattle.desk_core.specs.DeskValue.{Answers, IsSameDesk, first_state, state};
ghost use Rattle.own_rows.specs.LeftAlone.{IsAsWithoutOthers};
ghost use Rattle.own_rows.specs.OwnReply.{IsByOwnRows};

use desk_core::{Desk, DeskName};
use desk_keeper::Keeper;
use desk_types::{Call, Entry, Fault, Reply};
use std::marker::Model;
use turn_lock::Grows;

/// A desk as its hall's lock holds it. Contracts see it as that desk. Its list is the desk's journal, in which each
/// entry is by its caller, and its name is the desk's.
#[derive(Drop)]
pub struct Held<K: Keeper> {
    pub(crate) desk: Desk<K>,
}

impl<K: Keeper> Model for Held<K> {
    ghost use Rattle.desk_core.specs.DeskValue.{DeskValue};

    ghost Value = { DeskValue };

    ghost view = { λ h. h.desk };
}

impl<K: Keeper> Grows for Held<K> {
    ghost use Rattle.desk_core.specs.DeskValue.{name_of};

    type Item = Entry;

    type Name = DeskName;

    ghost items = { λ d. d.log };

    ghost by = { λ e. e.caller };

    ghost name = { λ d. name_of d };

    fn count(&self) -> u64 {
        self.desk.log().len() as u64
    }
}

impl<K: Keeper> Held<K> {
    /// The desk's call.
    pub(crate) fn call(&mut self, caller: u64, moment: u64, call: Call) -> Result<Reply, Fault>
        ensures stays { IsSameDesk self.old self.new }
        ensures answers { Answers caller self.old moment call result self.new }
        ensures sure { IsTrue self.old.keeper.sure → IsSureResult result }
        ensures own_rows { IsByOwnRows (state self.old) moment call result }
        ensures others_aside { IsAsWithoutOthers (first_state self.old) self.old.log moment call result }
    {
        self.desk.call(caller, moment, call)
    }
}
