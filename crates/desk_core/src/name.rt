//! The name of a desk.

use desk_types::{Settings, Tables};

/// The name of a desk, which no call changes: what it was opened with, and whether its keeper never fails. Clauses alone
/// read it.
pub struct DeskName {
    /// Its settings.
    pub settings: Settings,
    /// The tables as they were loaded.
    pub opening: Tables,
    /// The count of faults that the keeper was handed in with.
    pub base: u64,
    /// Whether the keeper never fails.
    pub sure: bool,
}
