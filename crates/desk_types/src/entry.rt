//! The journal: an entry for each call that was answered or met a keeper's fault.

use crate::call::Call;
use query_words::{NoMemory, Twin};

/// A call that was answered or met a keeper's fault.
#[derive(Debug, Drop)]
pub struct Entry {
    /// Who called.
    pub caller: u64,
    /// The caller's number for the call: 1, 2, 3 and on.
    pub number: u64,
    /// The moment handed in with the call, in seconds.
    pub moment: u64,
    /// The call.
    pub call: Call,
    /// How it ended.
    pub outcome: Outcome,
}

/// How a call of the journal ended.
#[derive(Clone, Copy, Debug, PartialEq, Eq)]
pub enum Outcome {
    /// It was answered.
    Answered,
    /// The keeper failed, and nothing changed.
    Faulted {
        /// The keeper's count of faults when the call began.
        before: u64,
        /// The keeper's count of faults when it ended.
        after: u64,
    },
}

/// Why a call has no answer.
#[derive(Clone, Copy, Debug, PartialEq, Eq)]
pub enum Fault {
    /// The keeper failed, and nothing changed but the journal.
    Keeper {
        /// The keeper's count of faults when the call began.
        before: u64,
        /// The keeper's count of faults when it ended.
        after: u64,
    },
    /// The journal has no room for the call. Nothing changed.
    JournalFull {
        /// The entries of the journal.
        entries: u64,
        /// The bytes of its texts.
        bytes: u64,
    },
    /// Memory was wanted. Nothing changed.
    NoMemory,
}

impl Twin for Entry {
    fn twin(&self) -> Result<Self, NoMemory> {
        Ok(Entry {
            caller: self.caller,
            number: self.number,
            moment: self.moment,
            call: self.call.twin()?,
            outcome: self.outcome,
        })
    }
}

impl Twin for Outcome {
    fn twin(&self) -> Result<Self, NoMemory> {
        Ok(*self)
    }
}

impl Twin for Fault {
    fn twin(&self) -> Result<Self, NoMemory> {
        Ok(*self)
    }
}
