//! The rows of a desk, its settings, its moment and its edition.

ghost use Rattle.std.specs.Prelude.{◌≡◌, ℕ, IfErr, IfOk};
ghost use Rattle.desk_types.specs.declared.call.Call.{Call};
ghost use Rattle.desk_types.specs.Opening.{opened};
ghost use Rattle.desk_types.specs.Rules.{AreSound};
ghost use Rattle.desk_types.specs.Step.{at_moment};
ghost use Rattle.desk_types.specs.Sound.{IsSound};
ghost use Rattle.desk_core.specs.Planned.{IsPlanned, IsStop, TakesNoMemory};

use crate::plan::Plan;
use crate::stop::Stop;
use accounts::Book;
use desk_types::limits::MOMENT_MAX;
use desk_types::{Call, Settings, Tables};
use placements::Placements;
use query_words::Twin;
use std::alloc::{AllocError, Global};
use std::marker::Model;

/// The rows of a desk, its settings, its moment and its edition. Contracts see it as the ledger's
/// state, and the room for further rows without memory.
#[derive(Drop)]
pub struct Ledger {
    pub(crate) settings: Settings,
    pub(crate) moment: u64,
    pub(crate) edition: u64,
    pub(crate) book: Book,
    pub(crate) placements: Placements,
}

impl Model for Ledger {
    ghost use Rattle.desk_core.specs.LedgerValue.{LedgerValue};

    ghost Value = { LedgerValue };

    ghost view = { λ l. record {
      state = record {
        settings = l.settings;
        moment = l.moment;
        edition = l.edition;
        tables = record l.book.tables { placements = l.placements.rows };
      };
      spare = record { book = l.book.room; placements = l.placements.spare };
    } };
}

impl Ledger {
    /// A ledger of the rows of sound tables, at their last moment.
    pub fn load(alloc: Global, tables: &Tables, settings: Settings) -> Result<Ledger, AllocError>
        requires sound { AreSound tables.now }
        ensures { IfOk result (λ ledger. ledger.state ≡ opened settings tables.now) }
    {
        let book = Book::load(alloc, tables)?;
        let placements = Placements::load(alloc, tables.placements.twin()?, tables.latest())?;
        Ok(Ledger {
            settings,
            moment: tables.latest(),
            edition: 0,
            book,
            placements,
        })
    }

    pub(crate) fn alloc(&self) -> Global {
        self.placements.alloc()
    }

    /// Goes to the moment of a call, in seconds, and gives the one before.
    pub fn go_to(&mut self, moment: u64) -> u64
        ensures state { self.new.state ≡ at_moment self.old.state moment }
        ensures spare { self.new.spare ≡ self.old.spare }
        ensures before { result ≡ self.old.state.moment }
    {
        let before = self.moment;
        self.moment = before.max(moment.min(MOMENT_MAX));
        before
    }

    /// Goes back to the moment before a call.
    pub fn go_back(&mut self, before: u64)
        ensures state { self.new.state ≡ record self.old.state { moment = before } }
        ensures spare { self.new.spare ≡ self.old.spare }
    {
        self.moment = before;
    }

    /// Judges a call at the moment that the rows have: what it changes and replies, or why it stops. It changes
    /// nothing, and takes no memory for a click or a credit.
    pub fn plan(&self, call: &Call) -> Result<Plan, Stop>
        requires sound { IsSound self.now.state }
        ensures planned { IfOk result (IsPlanned self.now.state call.now) }
        ensures stopped { IfErr result (IsStop self.now.state call.now) }
        ensures click { (placement : ℕ) → call.now ≡ Call.Click placement → TakesNoMemory result }
        ensures credit { (placement : ℕ) → call.now ≡ Call.Credit placement → TakesNoMemory result }
    {
        match call {
            Call::Credit { placement } => self.plan_credit(*placement),
            Call::HostReport { day } => self.plan_host_report(*day),
            Call::Report { account, key, day } => self.plan_report(*account, key, *day),
            Call::Shown {
                account,
                key,
                day,
                from,
            } => self.plan_statement(*account, key, *day, *from),
            Call::Search { text, places } => self.plan_search(text, *places),
            Call::Click { placement } => self.plan_click(*placement),
            _ => self.plan_edit(call),
        }
    }
}
