//! What comes next of a link.

/// What a reader of messages answers when it is asked for the next one.
#[derive(Clone, Copy, Debug, PartialEq, Eq)]
pub enum NextMessage {
    /// A head with its body.
    Whole,
    /// A message that ends the session by a judgement.
    Faulty {
        /// Whether its answer has no body.
        bodiless: bool,
    },
    /// The end came between messages: behind empty lines alone.
    Ended,
    /// The end came inside a message.
    CutShort,
    /// A read failed.
    ReadFault,
}
