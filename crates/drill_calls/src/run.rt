//! The drill over a service.

ghost use Rattle.std.specs.Prelude.{◌≡◌, ℕ, ◌+◌, ◌*◌, ◌<◌, ◌≤◌, [], ◌∷◌, Ok, IfOk, OnOk, OnErr};
ghost use Rattle.desk_types.specs.declared.call.Call.{Call as call_type};
ghost use Rattle.desk_types.specs.Journal.{IsLegal};
ghost use Rattle.desk_types.specs.Serving.{with_seen};
ghost use Rattle.drill_calls.specs.Draws.{behind_draws};
ghost use Rattle.drill_calls.specs.DrillCalls.{drill_line, line_draws, line_calls, account_calls};
ghost use Rattle.drill_calls.specs.DrillCalls.{accounts_part, draws_before_line, drill_search};
ghost use Rattle.drill_calls.specs.DrillRun.{IsDrilled, IsDrilledInPart};
ghost use Rattle.drill_calls.specs.Making.{Course, DrillsOn, IsDrilledSoFar, CallsThrough, standing};
ghost use Rattle.drill_calls.specs.declared.limits.TheConstants.{CALLS_MAX, START_MAX, SIZE_MAX};

use crate::account::{account_call, campaign_call, line_call, quality_call};
use crate::answer::{greatest_placement, lacks_memory};
use crate::draws::Draws;
use crate::limits::{ACCOUNT_SEARCHES, STEP_SECONDS};
use crate::search::search_call;
use desk_types::{Call, Service};
use query_words::NoMemory;
use std::alloc::{AllocError, Global};

/// CallsThrough the calls of the drill on a service, one after another: `size` accounts with a campaign and eight lines each,
/// then 25 searches for each of them, and a click behind each fifth search. The k-th call is made at the moment 60 k,
/// in seconds.
///
/// A fault of the keeper and a full journal are results like others. Want of memory, here or as the service's answer to
/// a call, ends the drill behind the calls made so far.
pub fn drill<V: Service>(
    alloc: Global,
    service: &mut V,
    start: u64,
    size: u64,
) -> Result<(), NoMemory>
    requires start { start ≤ START_MAX }
    requires size { size ≤ SIZE_MAX }
    ensures home { V.home service.new ≡ V.home service.old }
    ensures service { V.service service.new ≡ with_seen (V.service service.old) (V.service service.new).seen }
    ensures drilled { OnOk result (IsDrilled start size (V.service service.old) (V.service service.new)) }
    ensures in_part { OnErr result (IsDrilledInPart start size (V.service service.old) (V.service service.new)) }
{
    service.history_is_legal();
    let mut progress = Progress::new(alloc, start);
    progress.accounts(service, size)?;
    progress.searches(service, size)
}

/// What is kept from call to call of a drill.
#[derive(Drop)]
struct Progress {
    alloc: Global,
    draws: Draws,
    made: u64,
    greatest: u64,
}

impl Progress {
    /// Before the first call.
    fn new(alloc: Global, start: u64) -> Progress
        requires { start ≤ START_MAX }
        ensures draws { result.draws ≡ start }
        ensures made { result.made ≡ 0 }
        ensures greatest { result.greatest ≡ 0 }
    {
        Progress {
            alloc,
            draws: Draws::new(start),
            made: 0,
            greatest: 0,
        }
    }

    /// CallsThrough the calls of all accounts.
    fn accounts<V: Service>(&mut self, service: &mut V, size: u64) -> Result<(), NoMemory>
        requires size { size ≤ SIZE_MAX }
        requires made { self.old.made ≡ 0 }
        requires legal { IsLegal (V.service service.old).opening.settings (V.service service.old).seen }
        ensures home { V.home service.new ≡ V.home service.old }
        ensures draws { OnOk result (self.new.draws ≡ behind_draws self.old.draws (31 * size)) }
        ensures made { OnOk result (self.new.made ≡ 11 * size) }
        ensures makes { CallsThrough (standing (V.service service.old) self.old.made self.old.greatest)
            (standing (V.service service.new) self.new.made self.new.greatest)
            (accounts_part self.old.draws size) result }
    {
        for before in 0..size {
            self.account(service, before + 1)?;
        }
        Ok(())
    }

    /// CallsThrough the calls of an account.
    fn account<V: Service>(&mut self, service: &mut V, account: u64) -> Result<(), NoMemory>
        requires room { self.old.made + 11 ≤ CALLS_MAX }
        ensures home { V.home service.new ≡ V.home service.old }
        ensures draws { OnOk result (self.new.draws ≡ behind_draws self.old.draws 31) }
        ensures made { OnOk result (self.new.made ≡ self.old.made + 11) }
        ensures makes { CallsThrough (standing (V.service service.old) self.old.made self.old.greatest)
            (standing (V.service service.new) self.new.made self.new.greatest)
            (account_calls account self.old.draws) result }
    {
        let call = account_call(self.alloc, account);
        self.make(service, call)?;
        let call = campaign_call(self.alloc, &mut self.draws, account);
        self.make(service, call)?;
        self.lines(service, account)?;
        let call = quality_call(&mut self.draws, account);
        self.make(service, Ok(call))
    }

    /// CallsThrough the calls of the lines of an account.
    fn lines<V: Service>(&mut self, service: &mut V, account: u64) -> Result<(), NoMemory>
        requires room { self.old.made + 8 ≤ CALLS_MAX }
        ensures home { V.home service.new ≡ V.home service.old }
        ensures draws { OnOk result (self.new.draws ≡ behind_draws self.old.draws 29) }
        ensures made { OnOk result (self.new.made ≡ self.old.made + 8) }
        ensures makes { (x : ℕ) → self.old.draws ≡ behind_draws x 1 →
            CallsThrough (standing (V.service service.old) self.old.made self.old.greatest)
            (standing (V.service service.new) self.new.made self.new.greatest)
            (line_calls account 8 x) result }
    {
        service.history_is_legal();
        for before in 0..8 {
            let call = line_call(self.alloc, &mut self.draws, account, before + 1);
            self.make(service, call)?;
        }
        Ok(())
    }

    /// CallsThrough all searches and clicks.
    fn searches<V: Service>(&mut self, service: &mut V, size: u64) -> Result<(), NoMemory>
        requires size { size ≤ SIZE_MAX }
        requires made { self.old.made ≡ 11 * size }
        ensures home { V.home service.new ≡ V.home service.old }
        ensures goes { (course : Course) → size ≡ course.size →
            self.old.draws ≡ behind_draws course.start (31 * course.size) →
            IsDrilledSoFar course 0 (standing (V.service service.old) self.old.made self.old.greatest) →
            DrillsOn course (25 * size) (standing (V.service service.new) self.new.made self.new.greatest) result }
    {
        for before in 0..ACCOUNT_SEARCHES * size {
            self.search(service, before + 1)?;
        }
        Ok(())
    }

    /// CallsThrough a search, and behind each that 5 divides a click.
    fn search<V: Service>(&mut self, service: &mut V, search: u64) -> Result<(), NoMemory>
        requires room { self.old.made + 2 ≤ CALLS_MAX }
        ensures home { V.home service.new ≡ V.home service.old }
        ensures goes { (course : Course) (before : ℕ) → search ≡ before + 1 → search ≤ 25 * course.size →
            self.old.draws ≡ behind_draws course.start (31 * course.size + 2 * before) →
            IsDrilledSoFar course before (standing (V.service service.old) self.old.made self.old.greatest) →
            DrillsOn course search (standing (V.service service.new) self.new.made self.new.greatest) result }
        ensures draws { OnOk result (self.new.draws ≡ behind_draws self.old.draws 2) }
        ensures made { self.new.made ≤ self.old.made + 2 }
    {
        let call = search_call(self.alloc, &mut self.draws);
        self.make(service, call)?;
        if search % 5 != 0 {
            return Ok(());
        }
        let placement = self.greatest;
        self.make(service, Ok(Call::Click { placement }))
    }

    /// CallsThrough a call, where there was memory for it.
    fn make<V: Service>(
        &mut self,
        service: &mut V,
        call: Result<Call, NoMemory>,
    ) -> Result<(), NoMemory>
        requires { self.old.made < CALLS_MAX }
        ensures home { V.home service.new ≡ V.home service.old }
        ensures draws { self.new.draws ≡ self.old.draws }
        ensures made { OnOk result (self.new.made ≡ self.old.made + 1) }
        ensures at_most { self.new.made ≤ self.old.made + 1 }
        ensures makes { (asked : call_type) → IfOk call (λ made. made ≡ asked) →
            CallsThrough (standing (V.service service.old) self.old.made self.old.greatest)
            (standing (V.service service.new) self.new.made self.new.greatest)
            (asked ∷ []) result }
    {
        service.history_is_legal();
        let Ok(call) = call else {
            return Err(AllocError);
        };
        self.made += 1;
        let answer = service.call(STEP_SECONDS * self.made, call);
        self.greatest = self.greatest.max(greatest_placement(&answer));
        if lacks_memory(&answer) {
            return Err(AllocError);
        }
        Ok(())
    }
}
