//! One desk, served by several workers at once: each has a door, a clock and a caller of its own, and all their calls
//! stand in the desk's one journal.
//! It stands on `desk_hall` for the callers and on `serve_threads` for the workers.
//! How the desk is opened, and what is said of the service, is left to the program.
#![tactic(auto)]

mod dismissing;
mod engaging;
mod served;
mod serving;

pub use served::{ServedDesk, Totals};
pub use serving::{WORKERS_MAX, serve_desk};
