//! Keeping the rows of a desk.
//! `Keeper` is what holds them: `load` gives them, and `apply` puts a list of changes, all or none. `KeeperMem` holds them in
//! memory, and `check` says whether tables are sound, or which rule is broken first.
//! It stands on `desk_types` for rows, changes and rules.
//! Which changes are put, and when, is left to the crates above.
#![tactic(auto)]

mod keeper;
mod mem;
mod rows;
mod slots;
mod soundness;

pub use desk_types::BadTables;
pub use keeper::{Keeper, KeeperFault};
pub use mem::KeeperMem;
pub use soundness::{CheckFault, check};
