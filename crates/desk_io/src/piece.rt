//! What is written, in pieces.

/// A piece of a text.
#[derive(Clone, Copy, Debug)]
pub enum Piece<'a> {
    Text(&'a str),
    Bytes(&'a [u8]),
    /// A number in decimal digits.
    Number(u64),
}
