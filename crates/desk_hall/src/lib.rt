//! One desk for several callers: each makes its calls in turns of its own, and all of them stand in one journal.
//! A caller is answered as by the ledger after all calls before its own, others' among them, and what each caller has
//! seen begins the journal that is left.
//! It stands on `desk_core` for the desk, and on `turn_lock` for the turns.
//! Which threads make the calls is left to the crates above, and that anybody gets on: it promises no progress, no
//! fairness and no time.
#![tactic(auto)]

mod caller;
mod hall;
mod held;
mod name;
mod sharing;

pub use caller::Caller;
pub use hall::Hall;
pub use held::Held;
pub use name::HallName;
