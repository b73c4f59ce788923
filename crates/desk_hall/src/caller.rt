//! A caller of a hall.

ghost use Rattle.std.specs.Prelude.{◌≡◌};
ghost use Rattle.desk_types.specs.Run.{run};
ghost use Rattle.desk_types.specs.Serving.{Serves};
ghost use Rattle.own_rows.specs.LeftAlone.{IsAsWithoutOthers};
ghost use Rattle.own_rows.specs.OwnReply.{IsByOwnRows};
ghost use Rattle.desk_hall.specs.Callers.{HasSeenLegal, caller_of, entries_before, service_of_pass};

use crate::hall::Hall;
use crate::held::Held;
use crate::name::HallName;
use desk_keeper::Keeper;
use desk_types::{Call, Fault, Reply, Service};
use std::marker::Model;
use std::sync::Wait;
use turn_lock::Pass;

/// A caller of a hall, whose calls are made in turns of its own. Contracts see which lock the hall has, and the caller as
/// a service: its number and the entries that it has seen are those of its pass.
#[derive(Drop)]
pub struct Caller<'a, K: Keeper, R: Wait> {
    rt: &'a R,
    hall: &'a Hall<K>,
    // The pass, which is there between calls.
    pass: Option<Pass<Held<K>>>,
}

impl<'a, K: Keeper, R: Wait> Model for Caller<'a, K, R> {
    ghost use Rattle.desk_hall.specs.Callers.{CallerValue, IsReady, caller_at};

    ghost Value = { CallerValue };

    ghost view = { λ c. caller_at c.hall.now.id c.pass };

    ghost invariant = { λ c. IsReady c.hall.now.id c.pass };
}

impl<'a, K: Keeper, R: Wait> Caller<'a, K, R> {
    /// A caller with this pass of this hall, which has seen a journal.
    pub fn new(rt: &'a R, hall: &'a Hall<K>, pass: Pass<Held<K>>) -> Caller<'a, K, R>
        requires lock { pass.lock ≡ hall.now.id }
        requires legal { HasSeenLegal pass }
        ensures { result ≡ caller_of pass }
    {
        Caller {
            rt,
            hall,
            pass: Some(pass),
        }
    }

    /// The caller's pass, which has seen what the caller has.
    pub fn finish(self) -> Pass<Held<K>>
        ensures lock { result.lock ≡ self.entry.home }
        ensures service { service_of_pass result ≡ self.entry.service }
        ensures legal { HasSeenLegal result }
    {
        match self.pass {
            Some(pass) => pass,
            None => unreachable!(),
        }
    }
}

impl<'a, K: Keeper, R: Wait> Service for Caller<'a, K, R> {
    type Home = HallName;

    ghost home = { λ c. c.home };

    ghost service = { λ c. c.service };

    fn history_is_legal(&self) {
        let _pass = &self.pass;
    }

    /// Takes the caller's turn, makes the call on the hall's desk at a moment in seconds, and ends the turn, in which
    /// nothing else is done. It waits for the turn, for ever where a turn before it never ends.
    ///
    /// The answer and the faults are those of any service. An advertiser's call is answered by the rows of its account,
    /// the settings and the moment alone, as they stand just before the call's entry. So the calls that came last make
    /// no difference to it but by the moment, where they leave its account alone.
    fn call(&mut self, moment: u64, call: Call) -> Result<Reply, Fault>
        ensures home { self.new.home ≡ self.old.home }
        ensures serves { Serves self.old.service moment call result self.new.service }
        ensures own_rows { let found = entries_before result self.new.service.seen in
            IsByOwnRows (run self.old.service.opening found) moment call result }
        ensures others_aside { let found = entries_before result self.new.service.seen in
            IsAsWithoutOthers self.old.service.opening found moment call result }
    {
        let Some(pass) = self.pass.take() else {
            unreachable!()
        };
        let (result, pass) = self.hall.call(self.rt, pass, moment, call);
        self.pass = Some(pass);
        result
    }
}
