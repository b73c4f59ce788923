//! How a session ends.

/// How a session ended.
#[derive(Clone, Copy, Debug, PartialEq, Eq)]
pub enum SessionEnd {
    /// The end came between messages: nothing is left of the link, and empty lines alone stand behind the last message.
    Ended,
    /// A message that was answered asked to close.
    Closed,
    /// The end came inside a message.
    CutShort,
    /// A message that was answered is none that can be served.
    Malformed,
    /// The 10,000th message was answered, and did not end the session by itself.
    SessionFull,
    /// A read failed: the link's count of failed reads rose.
    ReadFault,
    /// A write failed: the link's count of failed writes rose.
    WriteFault,
    /// Want of memory at the start; nothing was read or written.
    NoMemory,
}

/// What became of a session.
#[derive(Clone, Copy, Debug, PartialEq, Eq)]
pub struct Session {
    /// How it ended.
    pub end: SessionEnd,
    /// How many answers were written wholly.
    pub messages: u64,
}
