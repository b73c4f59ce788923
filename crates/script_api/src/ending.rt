//! How a script ends.

/// How a script ended. Lines are counted from 1, those that are passed over included.
#[derive(Clone, Copy, Debug, PartialEq, Eq)]
pub enum ScriptEnd {
    /// The input came to its end behind the last line.
    Ended,
    /// The numbered line is in no form.
    BadLine(u64),
    /// More than 4,096 bytes stand in the numbered line.
    LongLine(u64),
    /// A line follows the 1,000,000th.
    TooManyLines,
    /// A read failed: the input's count of faults rose.
    ReadFault,
    /// A write failed: the output's count of faults rose.
    WriteFault,
    /// Want of memory.
    NoMemory,
}
