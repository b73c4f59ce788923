//! Tests of the types.

mod calls;
mod forms;
