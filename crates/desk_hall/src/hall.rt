//! The hall and its calls.

ghost use Rattle.std.specs.Prelude.{◌≡◌, ◌≤◌, [], All, Any, IfErr, IfOk};
ghost use Rattle.turn_lock.specs.Lists.{IsPrefix};
ghost use Rattle.turn_lock.specs.Passes.{AreAll, AreNew};
ghost use Rattle.desk_types.specs.Run.{run};
ghost use Rattle.desk_types.specs.Serving.{Serves};
ghost use Rattle.desk_core.specs.DeskValue.{IsRunOfLedger, name_of};
ghost use Rattle.own_rows.specs.LeftAlone.{IsAsWithoutOthers};
ghost use Rattle.own_rows.specs.OwnReply.{IsByOwnRows};
ghost use Rattle.desk_hall.specs.Callers.{HasSeenLegal, entries_before, entries_by, service_of_pass};

use crate::held::Held;
use desk_core::Desk;
use desk_keeper::Keeper;
use desk_types::{Call, Fault, Reply};
use std::alloc::Global;
use std::marker::Model;
use std::sync::Wait;
use turn_lock::{Pass, TurnLock};

/// One desk for 1 to 8 callers. Contracts see which lock it has, with the name of the desk that it was made with, and
/// the number of callers. Threads share it by reference. Where it is dropped, so is the desk.
#[derive(Drop)]
pub struct Hall<K: Keeper> {
    pub(crate) lock: TurnLock<Held<K>>,
}

impl<K: Keeper> Model for Hall<K> {
    ghost use Rattle.turn_lock.specs.LockValues.{LockValue};
    ghost use Rattle.desk_core.specs.declared.name.DeskName.{DeskName};

    ghost Value = { LockValue DeskName };

    ghost view = { λ h. h.lock };
}

impl<K: Keeper> Hall<K> {
    /// A hall round a desk whose journal is empty, and a pass for each of 1 to 8 callers, numbered from 1, which has
    /// seen nothing. For want of memory, and for nothing else, the desk comes back.
    pub fn new(
        alloc: Global,
        desk: Desk<K>,
        callers: u64,
    ) -> Result<(Hall<K>, Vec<Pass<Held<K>>>), Desk<K>>
        requires callers { (1 ≤ callers) × (callers ≤ 8) }
        requires empty { desk.log ≡ [] }
        ensures name { IfOk result (λ made. made.0.id.name ≡ name_of desk) }
        ensures callers { IfOk result (λ made. made.0.callers ≡ callers) }
        ensures passes { IfOk result (λ made. AreNew made.0 made.1.items) }
        ensures legal { IfOk result (λ made. All HasSeenLegal made.1.items) }
        ensures err { IfErr result (λ left. left ≡ desk) }
    {
        match TurnLock::new(alloc, Held { desk }, callers) {
            Ok((lock, passes)) => Ok((Hall { lock }, passes)),
            Err(held) => Err(held.desk),
        }
    }

    /// Ends the hall, with all its passes, and gives the desk, which has the hall's name and is the ledger's run of its
    /// journal. What each pass has seen begins the journal, which has no entries of its caller but those, and none of a
    /// caller without a pass.
    pub fn close(self, passes: Vec<Pass<Held<K>>>) -> Desk<K>
        requires passes { AreAll self passes.items }
        ensures name { name_of result ≡ self.id.name }
        ensures of_ledger { IsRunOfLedger result }
        ensures seen { All (λ p. IsPrefix p.seen result.log) passes.items }
        ensures own { All (λ p. entries_by p.number result.log ≡ entries_by p.number p.seen) passes.items }
        ensures others { All (λ e. Any (λ p. p.number ≡ e.caller) passes.items) result.log }
    {
        let desk = self.lock.close(passes).desk;
        let _log = desk.log();
        desk
    }

    /// Makes a call in a turn of the pass's caller. The pass has then seen the journal up to it.
    pub(crate) fn call<R: Wait>(
        &self,
        rt: &R,
        pass: Pass<Held<K>>,
        moment: u64,
        call: Call,
    ) -> (Result<Reply, Fault>, Pass<Held<K>>)
        requires lock { pass.lock ≡ self.now.id }
        ensures lock { result.1.lock ≡ pass.lock }
        ensures legal { HasSeenLegal result.1 }
        ensures serves { Serves (service_of_pass pass) moment call result.0 (service_of_pass result.1) }
        ensures own_rows { let found = entries_before result.0 result.1.seen in
            IsByOwnRows (run (service_of_pass pass).opening found) moment call result.0 }
        ensures others_aside { let found = entries_before result.0 result.1.seen in
            IsAsWithoutOthers (service_of_pass pass).opening found moment call result.0 }
    {
        let mut turn = self.lock.enter(rt, pass);
        let caller = turn.number();
        let result = turn.value_mut().call(caller, moment, call);
        (result, self.lock.leave(turn))
    }
}
