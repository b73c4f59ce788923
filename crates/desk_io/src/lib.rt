//! The outside world as the desk sees it: bytes that come, lines of bytes, bytes that go, and the time.
//! A fault is answered only where a count of faults rose, and what is written is a beginning of what was to be.
//! It stands on nothing of the project.
//! What the bytes mean is left to the crates above.
#![tactic(auto)]

mod clock;
mod count_sink;
mod limits;
mod line_laws;
mod line_reader;
mod link;
mod mem_clock;
mod mem_link;
mod mem_sink;
mod mem_source;
pub mod number;
mod numbered_lines;
mod out_buf;
mod pair;
mod piece;
mod sink;
mod source;
mod std_ends;
mod wall_clock;
mod window;

pub use clock::Clock;
pub use count_sink::CountSink;
pub use limits::{INPUT_LINES_MAX, LINE_BYTES_MAX, line_limits_are_these};
pub use line_laws::lines_go_on_behind_the_first;
pub use line_reader::{LineGot, LineReader};
pub use link::Link;
pub use mem_clock::MemClock;
pub use mem_link::MemLink;
pub use mem_sink::MemSink;
pub use mem_source::MemSource;
pub use numbered_lines::{LineFault, NextLine, NumberedLines};
pub use out_buf::{OutBuf, WAITING_BYTES_MAX, WriteFault, limits_are_these};
pub use pair::Pair;
pub use piece::Piece;
pub use sink::{Put, Sink};
pub use source::{Got, Source};
pub use std_ends::{StdSink, StdSource};
pub use wall_clock::WallClock;
pub use window::Window;

/// Want of memory.
pub type NoMemory = std::alloc::AllocError;
