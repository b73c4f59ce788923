//! The journal of a desk.

ghost use Rattle.std.specs.Prelude.{◌≡◌, ◌≤◌, ◌+◌, ◌-◌, true, false, [], length, filter, map, ◌==◌, All, IfSome, OnOk, IsOk, MatchOption};
ghost use Rattle.std.specs.List.{range_with_len};
ghost use Rattle.desk_types.specs.declared.entry.Fault.{Fault};
ghost use Rattle.desk_types.specs.Journal.{HasRise, IsBefore, bytes_of, entries_of, is_full};
ghost use Rattle.desk_types.specs.Serving.{with_entry};
ghost use Rattle.desk_types.specs.SettingsValue.{AreInRange};
ghost use Rattle.desk_core.specs.JournalValue.{with_ended};

use desk_types::limits::{JOURNAL_BYTES_MAX, JOURNAL_MAX};
use desk_types::{Call, Entry, Fault, Outcome, Settings};
use std::alloc::{AllocError, Global};
use std::marker::Model;

/// The entries of a desk's calls, which are a legal journal under its settings, and how many
/// more there is room for without memory.
#[derive(Drop)]
pub struct Journal {
    settings: Settings,
    entries: Vec<Entry>,
    bytes: u64,
}

impl Model for Journal {
    ghost use Rattle.std.specs.Prelude.{◌-◌};
    ghost use Rattle.std.specs.Vec.{vec_capacity, vec_len};
    ghost use Rattle.desk_core.specs.JournalValue.{JournalValue, IsLegalJournal};

    ghost Value = { JournalValue };

    ghost view = { λ j. record {
      settings = j.settings;
      entries = j.entries.items;
      spare = vec_capacity j.entries - vec_len j.entries;
    } };

    ghost invariant = { λ j. IsLegalJournal j.settings j.entries.items j.bytes };
}

impl Journal {
    /// A journal without entries. It takes no memory.
    pub fn new(alloc: Global, settings: Settings) -> Journal
        ensures settings { result.settings ≡ settings }
        ensures in_range { AreInRange result.settings }
        ensures entries { result.entries ≡ [] }
    {
        settings_are_in_range(&settings);
        Journal {
            settings,
            entries: Vec::new(alloc),
            bytes: 0,
        }
    }

    /// The entries, in order.
    pub fn entries(&self) -> &[Entry]
        ensures { result.now ≡ self.now.entries }
    {
        &self.entries
    }

    /// The fault of a call for which there is no room, or `None` where there is room.
    pub fn fault_of(&self, call: &Call) -> Option<Fault>
        ensures few { length self.now.entries ≤ JOURNAL_MAX }
        ensures full { MatchOption result (is_full self.now.settings self.now.entries call.now ≡ false)
            (λ fault. (is_full self.now.settings self.now.entries call.now ≡ true)
            × (fault ≡ Fault.JournalFull (length self.now.entries) (bytes_of self.now.entries))) }
    {
        if !self.is_full(call) {
            return None;
        }
        Some(Fault::JournalFull {
            entries: self.entries.len() as u64,
            bytes: self.bytes,
        })
    }

    /// Whether there is no room for a call.
    fn is_full(&self, call: &Call) -> bool
        ensures few { length self.now.entries ≤ JOURNAL_MAX }
        ensures full { result ≡ is_full self.now.settings self.now.entries call.now }
    {
        self.entries.len() as u64 >= self.settings.journal()
            || call.weight() > self.settings.journal_bytes() - self.bytes
    }

    /// Makes room for so many further entries.
    pub fn reserve(&mut self, additional: u64) -> Result<(), AllocError>
        ensures room { OnOk result (additional ≤ self.new.spare) }
        ensures spare { self.old.spare ≤ self.new.spare }
        ensures settings { self.new.settings ≡ self.old.settings }
        ensures entries { self.new.entries ≡ self.old.entries }
        ensures succeeds { additional ≤ self.old.spare → IsOk result }
    {
        self.entries.reserve(additional as usize)
    }

    /// Puts the entry of a call that ended so, the caller's next one, where there is one. It takes no memory.
    pub fn note(&mut self, caller: u64, moment: u64, call: Call, ended: Option<Outcome>)
        requires room { IfSome ended (λ _. 1 ≤ self.old.spare) }
        requires fits { is_full self.old.settings self.old.entries call ≡ false }
        requires rise { IfSome ended HasRise }
        requires in_order { IfSome ended (λ outcome. All (λ e. IsBefore e.outcome outcome) self.old.entries) }
        ensures spare { length self.old.entries + self.old.spare ≤ length self.new.entries + self.new.spare }
        ensures settings { self.new.settings ≡ self.old.settings }
        ensures entries { self.new.entries ≡ with_ended caller self.old.entries moment call ended }
    {
        if let Some(outcome) = ended {
            self.put(caller, moment, call, outcome);
        }
    }

    /// Puts the entry of a call that ended so, the caller's next one. It takes no memory.
    fn put(&mut self, caller: u64, moment: u64, call: Call, outcome: Outcome)
        requires room { 1 ≤ self.old.spare }
        requires fits { is_full self.old.settings self.old.entries call ≡ false }
        requires rise { HasRise outcome }
        requires in_order { All (λ e. IsBefore e.outcome outcome) self.old.entries }
        ensures spare { self.old.spare ≤ self.new.spare + 1 }
        ensures settings { self.new.settings ≡ self.old.settings }
        ensures entries { self.new.entries ≡ with_entry caller self.old.entries moment call outcome }
    {
        prove!(self.settings.journal_bytes() <= JOURNAL_BYTES_MAX);
        let number = last_number(self.entries.as_slice(), caller) + 1;
        self.bytes += call.weight();
        let entry = Entry {
            caller,
            number,
            moment,
            call,
            outcome,
        };
        let Ok(()) = self.entries.push(entry) else {
            unreachable!()
        };
    }
}

/// A law: each of a desk's settings is in its range.
fn settings_are_in_range(settings: &Settings)
    ensures { AreInRange settings.now }
{
    let _ = settings.reserve();
    let _ = settings.floor();
    let _ = settings.places();
    let _ = settings.journal();
    let _ = settings.journal_bytes();
    let _ = settings.placements();
}

/// The number of the caller's last entry, or 0 where it has none.
fn last_number(entries: &[Entry], caller: u64) -> u64
    requires { map (λ e. e.number) (filter (λ e. e.caller == caller) entries.now)
        ≡ range_with_len 1 (entries_of caller entries.now) }
    ensures { result ≡ entries_of caller entries.now }
{
    let mut rest = entries;
    while let Some((last, before)) = rest.split_last() {
        if last.caller == caller {
            return last.number;
        }
        rest = before;
    }
    0
}
