//! Why an input is no auction.

use desk_io::LineFault;

/// Why the reading of an auction ended without one.
#[derive(Clone, Copy, Debug, PartialEq, Eq)]
pub enum ReadEnd {
    /// The first fault in the lines. A line is bad where it is in no form, where it names the line of
    /// an earlier ad, and where it is missing as the heading.
    Fault(LineFault),
    /// A read failed.
    ReadFault,
    /// Want of memory.
    NoMemory,
}
