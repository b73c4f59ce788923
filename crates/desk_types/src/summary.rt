//! The summary of a journal.

/// What a journal's summary counts.
#[derive(Clone, Copy, Debug, PartialEq, Eq)]
pub struct Summary {
    /// The entries.
    pub entries: u64,
    /// The entries that tell of a keeper's fault.
    pub faulted: u64,
    /// The searches that were answered.
    pub searches: u64,
    /// The placements behind the journal, with those that were loaded.
    pub placements: u64,
    /// Those of them that a click settled, credited ones among them.
    pub settled: u64,
    /// What these cost, in cents.
    pub cents: u64,
}
