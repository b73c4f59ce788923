//! The desk.

ghost use Rattle.std.specs.Prelude.{◌≡◌, ◌≢◌, ◌<◌, ◌≤◌, ◌+◌, ◌-◌, ◌^◌, ℕ, true, [], length, is_some, Some, IfOk, IsTrue, OnErr, OnOk, Result};
ghost use Rattle.desk_types.specs.declared.call.Call.{Call};
ghost use Rattle.desk_types.specs.declared.entry.Fault.{Fault};
ghost use Rattle.desk_types.specs.Journal.{bytes_of, is_full};
ghost use Rattle.desk_types.specs.Judged.{judged};
ghost use Rattle.desk_types.specs.Serving.{IsSureResult};
ghost use Rattle.desk_types.specs.Sound.{IsSound};
ghost use Rattle.desk_types.specs.Step.{answered};
ghost use Rattle.desk_types.specs.Tables.{line_of};
ghost use Rattle.desk_keeper.specs.declared.keeper.KeeperFault.{KeeperFault};
ghost use Rattle.desk_core.specs.Asking.{IsAsked, changes_at, changes_of};
ghost use Rattle.desk_core.specs.DeskValue.{Answers, IsRunOfLedger, IsSameDesk, first_state, state};
ghost use Rattle.desk_core.specs.JournalValue.{IsWithMoreRoom};
ghost use Rattle.desk_core.specs.Planned.{CanBePutIn, listed, needs_no_room, with_changes};
ghost use Rattle.desk_core.specs.Leaving.{Leaves, outcome_of};
ghost use Rattle.desk_core.specs.Told.{IsThere, replied, result_told};
ghost use Rattle.own_rows.specs.LeftAlone.{IsAsWithoutOthers};
ghost use Rattle.own_rows.specs.OwnReply.{IsByOwnRows};

use crate::asking::ask;
use crate::journal::Journal;
use crate::ledger::Ledger;
use crate::plan::Plan;
use crate::stop::Stop;
use crate::told::Told;
use desk_keeper::{Keeper, KeeperFault};
use desk_types::{Call, Entry, Fault, Line, Outcome, Reply, Tables};
use std::alloc::AllocError;
use std::marker::Model;

/// A desk: it answers calls as the ledger does, one after another, keeps a journal of them, and has its keeper put what
/// they change.
///
/// Contracts see it as its settings, the tables that were loaded, the entries of its journal, how many further entries
/// there is room for without memory, the count that its keeper was handed in with, and the keeper. Its rows are those of
/// the ledger's run.
#[derive(Drop)]
pub struct Desk<K: Keeper> {
    pub(crate) ledger: Ledger,
    pub(crate) journal: Journal,
    pub(crate) opening: Tables,
    pub(crate) base: u64,
    pub(crate) keeper: K,
}

impl<K: Keeper> Model for Desk<K> {
    ghost use Rattle.desk_core.specs.DeskValue.{DeskValue, IsReached, desk_of};

    ghost Value = { DeskValue };

    ghost view = { λ d. desk_of d.journal d.opening d.base (K.keeper d.keeper) };

    ghost invariant = { λ d. IsReached d.ledger.state (desk_of d.journal d.opening d.base (K.keeper d.keeper)) };
}

impl<K: Keeper> Desk<K> {
    /// Answers a call of a caller, made at a moment in seconds.
    ///
    /// `Ok` is the ledger's answer after the calls of the journal, and the call is then the journal's
    /// last entry. `Fault::JournalFull` comes exactly where the journal has no room for the call, and
    /// is judged before all else. `Fault::Keeper` comes only where the keeper failed, which the journal's last entry then
    /// tells. `Fault::NoMemory` is want of memory, which never comes for a click or a credit where there is room for an
    /// entry and the keeper sets a fate without memory. A fault changes no row. A keeper is asked where rows change, and
    /// there alone. The room falls by one at most, and only with an entry.
    /// An advertiser's call is answered by the rows of its account, the settings and the moment alone. So the calls
    /// that came last make no difference to it but by the moment, where they leave its account alone.
    pub fn call(&mut self, caller: u64, moment: u64, call: Call) -> Result<Reply, Fault>
        ensures stays { IsSameDesk self.old self.new }
        ensures answers { Answers caller self.old moment call result self.new }
        ensures own_rows { IsByOwnRows (state self.old) moment call result }
        ensures others_aside { IsAsWithoutOthers (first_state self.old) self.old.log moment call result }
        ensures full_first { is_full self.old.settings self.old.log call ≡ true
            → result ≡ Err (Fault.JournalFull (length self.old.log) (bytes_of self.old.log)) }
        ensures sure { IsTrue self.old.keeper.sure → IsSureResult result }
        ensures keeper_fault { (before after : ℕ) → result ≡ Err (Fault.Keeper before after)
            → (before ≡ self.old.keeper.faults) × (after ≡ self.new.keeper.faults) }
        ensures unasked { changes_at (state self.old) moment call ≡ [] → self.new.keeper ≡ self.old.keeper }
        ensures click { (placement : ℕ) → call ≡ Call.Click placement → 1 ≤ self.old.spare
            → IsTrue self.old.keeper.fates_free → result ≢ Err Fault.NoMemory }
        ensures credit { (placement : ℕ) → call ≡ Call.Credit placement → 1 ≤ self.old.spare
            → IsTrue self.old.keeper.fates_free → result ≢ Err Fault.NoMemory }
        ensures spare { length self.old.log + self.old.spare ≤ length self.new.log + self.new.spare }
    {
        match self.tell(caller, moment, call) {
            Ok(told) => Ok(self.reply(told)),
            Err(fault) => Err(fault),
        }
    }

    /// Answers a call as `call` does, and tells of what its reply is made, for `reply` to make it where it is wanted.
    pub(crate) fn tell(&mut self, caller: u64, moment: u64, call: Call) -> Result<Told, Fault>
        ensures stays { IsSameDesk self.old self.new }
        ensures answers { Answers caller self.old moment call (result_told (state self.new).tables result) self.new }
        ensures there { IfOk result (IsThere (state self.new).tables) }
        ensures full_first { is_full self.old.settings self.old.log call ≡ true
            → result ≡ Err (Fault.JournalFull (length self.old.log) (bytes_of self.old.log)) }
        ensures sure { IsTrue self.old.keeper.sure → IsSureResult (result_told (state self.new).tables result) }
        ensures keeper_fault { (before after : ℕ) → result ≡ Err (Fault.Keeper before after)
            → (before ≡ self.old.keeper.faults) × (after ≡ self.new.keeper.faults) }
        ensures unasked { changes_at (state self.old) moment call ≡ [] → self.new.keeper ≡ self.old.keeper }
        ensures click { (placement : ℕ) → call ≡ Call.Click placement → 1 ≤ self.old.spare
            → IsTrue self.old.keeper.fates_free → result ≢ Err Fault.NoMemory }
        ensures credit { (placement : ℕ) → call ≡ Call.Credit placement → 1 ≤ self.old.spare
            → IsTrue self.old.keeper.fates_free → result ≢ Err Fault.NoMemory }
        ensures spare { length self.old.log + self.old.spare ≤ length self.new.log + self.new.spare }
    {
        if let Some(fault) = self.journal.fault_of(&call) {
            return Err(fault);
        }
        let told = attempt(
            &mut self.ledger,
            &mut self.journal,
            &mut self.keeper,
            moment,
            &call,
        );
        self.journal.note(caller, moment, call, outcome_of(&told));
        told
    }

    /// The line of an account and a number that is there.
    pub(crate) fn line_there(&self, account: u64, line: u64) -> &Line
        requires { IsTrue (is_some (line_of (state self.now).tables account line)) }
        ensures { line_of (state self.now).tables account line ≡ Some result.now }
    {
        self.ledger.line_there(account, line)
    }

    /// Makes room for so many further entries of the journal. Nothing else changes, and nothing at all
    /// where memory is wanted.
    pub fn reserve(&mut self, additional: u64) -> Result<(), AllocError>
        ensures room { OnOk result (additional ≤ self.new.spare) }
        ensures spare { self.old.spare ≤ self.new.spare }
        ensures rest { self.new ≡ record self.old { spare = self.new.spare } }
    {
        self.journal.reserve(additional)
    }

    /// The entries of its journal, in order. The desk is the ledger's run of them.
    pub fn log(&self) -> &[Entry]
        ensures log { result.now ≡ self.now.log }
        ensures of_ledger { IsRunOfLedger self.now }
    {
        self.journal.entries()
    }

    /// The tables as they were loaded.
    pub fn opening(&self) -> &Tables
        ensures { result.now ≡ self.now.opening }
    {
        &self.opening
    }

    /// The count of faults that the keeper was handed in with.
    pub fn base(&self) -> u64
        ensures { result ≡ self.now.base }
    {
        self.base
    }
}

/// How a call that was told so stands in the journal, if it does.
fn outcome_of(told: &Result<Told, Fault>) -> Option<Outcome>
    ensures { result ≡ outcome_of told.now }
{
    match told {
        Ok(_) => Some(Outcome::Answered),
        Err(Fault::Keeper { before, after }) => Some(Outcome::Faulted {
            before: *before,
            after: *after,
        }),
        Err(_) => None,
    }
}

/// Answers a call at a moment, and makes room for its entry. Where there is a fault, the rows are as they were, their
/// moment too.
fn attempt<K: Keeper>(
    ledger: &mut Ledger,
    journal: &mut Journal,
    keeper: &mut K,
    moment: u64,
    call: &Call,
) -> Result<Told, Fault>
    requires sound { IsSound ledger.old.state }
    requires edition { ledger.old.state.edition < 2 ^ 64 - 1 }
    ensures leaves { Leaves ledger.old.state moment call.now (K.keeper keeper.old)
        result ledger.new.state (K.keeper keeper.new) }
    ensures room { result ≢ Err Fault.NoMemory → 1 ≤ journal.new.spare }
    ensures journal { IsWithMoreRoom journal.old journal.new }
    ensures click { (placement : ℕ) → call.now ≡ Call.Click placement → 1 ≤ journal.old.spare
        → IsTrue (K.keeper keeper.old).fates_free → result ≢ Err Fault.NoMemory }
    ensures credit { (placement : ℕ) → call.now ≡ Call.Credit placement → 1 ≤ journal.old.spare
        → IsTrue (K.keeper keeper.old).fates_free → result ≢ Err Fault.NoMemory }
{
    let earlier = ledger.go_to(moment);
    let before = keeper.faults();
    match answer(ledger, journal, keeper, call) {
        Ok(told) => Ok(told),
        Err(KeeperFault::NoMemory) => {
            ledger.go_back(earlier);
            Err(Fault::NoMemory)
        }
        Err(KeeperFault::Failed) => {
            ledger.go_back(earlier);
            Err(Fault::Keeper {
                before,
                after: keeper.faults(),
            })
        }
    }
}

/// Answers a call at the moment that the rows have, and makes room for its entry: the keeper puts what changes, and then the
/// rows change. Where there is a fault, the rows and the entries are as they were.
fn answer<K: Keeper>(
    ledger: &mut Ledger,
    journal: &mut Journal,
    keeper: &mut K,
    call: &Call,
) -> Result<Told, KeeperFault>
    requires sound { IsSound ledger.old.state }
    requires edition { ledger.old.state.edition < 2 ^ 64 - 1 }
    ensures state { let S = ledger.old.state in
        OnOk result (ledger.new.state ≡ (answered S call.now (judged S call.now)).state) }
    ensures reply { let S = ledger.old.state in
        IfOk result (λ told. replied ledger.new.state.tables told ≡ (answered S call.now (judged S call.now)).reply) }
    ensures there { IfOk result (IsThere ledger.new.state.tables) }
    ensures same { OnErr result (ledger.new.state ≡ ledger.old.state) }
    ensures asked { IsAsked (K.keeper keeper.old) (changes_of ledger.old.state call.now) result (K.keeper keeper.new) }
    ensures room { result ≢ Err KeeperFault.NoMemory → 1 ≤ journal.new.spare }
    ensures journal { IsWithMoreRoom journal.old journal.new }
    ensures click { (placement : ℕ) → call.now ≡ Call.Click placement → 1 ≤ journal.old.spare
        → IsTrue (K.keeper keeper.old).fates_free → result ≢ Err KeeperFault.NoMemory }
    ensures credit { (placement : ℕ) → call.now ≡ Call.Credit placement → 1 ≤ journal.old.spare
        → IsTrue (K.keeper keeper.old).fates_free → result ≢ Err KeeperFault.NoMemory }
{
    let planned = ledger.plan(call);
    let Ok(()) = journal.reserve(1) else {
        return Err(KeeperFault::NoMemory);
    };
    match planned {
        Ok(plan) => carry_out(ledger, keeper, plan),
        Err(Stop::Refused(refusal)) => Ok(Told::Refused(refusal)),
        Err(Stop::NoMemory) => Err(KeeperFault::NoMemory),
    }
}

/// Carries out the plan of an accepted call: the keeper puts what changes, where there is room for it, and then the rows
/// change, without memory. Where there is a fault, the rows are as they were.
fn carry_out<K: Keeper>(
    ledger: &mut Ledger,
    keeper: &mut K,
    plan: Plan,
) -> Result<Told, KeeperFault>
    requires can_be_put { CanBePutIn ledger.old.state.tables plan.changes }
    requires edition { ledger.old.state.edition < 2 ^ 64 - 1 }
    ensures state { OnOk result (ledger.new.state ≡ with_changes ledger.old.state plan.changes) }
    ensures told { IfOk result (λ told. told ≡ plan.told) }
    ensures same { OnErr result (ledger.new.state ≡ ledger.old.state) }
    ensures asked { IsAsked (K.keeper keeper.old) (listed plan.changes) result (K.keeper keeper.new) }
    ensures no_memory { IsTrue (needs_no_room plan.changes) → IsTrue (K.keeper keeper.old).fates_free
        → result ≢ Err KeeperFault.NoMemory }
{
    let Ok(()) = ledger.make_room(&plan.changes) else {
        return Err(KeeperFault::NoMemory);
    };
    ask(ledger.alloc(), keeper, &plan.changes)?;
    ledger.accept(plan.changes);
    Ok(plan.told)
}
