//! Bytes on their way out.

ghost use Rattle.std.specs.Prelude.{◌≡◌, ◌+◌, ◌≤◌, [], ◌++◌, length, decimal, IfOk};
ghost use Rattle.desk_io.specs.Pieces.{piece_text, text_of};
ghost use Rattle.desk_io.specs.Putting.{Flushes, Puts, Sends};

use crate::{NoMemory, Piece, Put, Sink};
use itoa::Buffer;
use std::alloc::Global;
use std::marker::Model;
use thiserror::Error;

/// The most bytes that wait in a buffer.
pub const WAITING_BYTES_MAX: usize = 16_384;

/// A write to the sink failed.
#[derive(Clone, Copy, Debug, PartialEq, Eq, Error)]
#[error("a write failed")]
pub struct WriteFault;

/// A buffer of 16,384 bytes before a sink, seen as the bytes that wait in it. It holds no sink.
///
/// After a fault it is not used again.
#[derive(Drop)]
pub struct OutBuf {
    waiting: Vec<u8>,
}

impl Model for OutBuf {
    ghost use Rattle.std.specs.Prelude.{List, ℕ, ◌≤◌, vec_len, vec_capacity};
    ghost use Rattle.desk_io.specs.declared.out_buf.TheConstants.{WAITING_BYTES_MAX};

    ghost Value = { List ℕ };

    ghost view = { λ b. b.waiting.items };

    ghost invariant = { λ b. (vec_len b.waiting ≤ WAITING_BYTES_MAX) × (WAITING_BYTES_MAX ≤ vec_capacity b.waiting) };
}

impl OutBuf {
    /// An empty buffer. It takes all its memory here.
    pub fn new(alloc: Global) -> Result<OutBuf, NoMemory>
        ensures { IfOk result (λ out. out ≡ []) }
    {
        Ok(OutBuf {
            waiting: Vec::with_capacity(alloc, WAITING_BYTES_MAX)?,
        })
    }

    /// Puts the bytes behind those that wait, and writes to the sink what has no room. It takes no memory.
    ///
    /// After a fault a beginning of what waited and of the bytes is written, and never the whole.
    pub fn put<T: Sink>(&mut self, sink: &mut T, bytes: &[u8]) -> Result<(), WriteFault>
        ensures puts { Puts (T.sink sink.old) (T.sink sink.new) self.old self.new bytes.now result }
        ensures source_side { T.source_side sink.new ≡ T.source_side sink.old }
    {
        if bytes.len() <= WAITING_BYTES_MAX - self.waiting.len() {
            self.hold(bytes);
            return Ok(());
        }
        self.flush(sink)?;
        if bytes.len() <= WAITING_BYTES_MAX {
            self.hold(bytes);
            return Ok(());
        }
        write_all(sink, bytes)
    }

    /// Puts a text, as `put` does its bytes.
    pub fn put_str<T: Sink>(&mut self, sink: &mut T, text: &str) -> Result<(), WriteFault>
        ensures puts { Puts (T.sink sink.old) (T.sink sink.new) self.old self.new text.now result }
        ensures source_side { T.source_side sink.new ≡ T.source_side sink.old }
    {
        self.put(sink, text.as_bytes())
    }

    /// Puts a number in decimal digits, as `put` does bytes.
    pub fn put_number<T: Sink>(&mut self, sink: &mut T, number: u64) -> Result<(), WriteFault>
        ensures puts { Puts (T.sink sink.old) (T.sink sink.new) self.old self.new (decimal number) result }
        ensures source_side { T.source_side sink.new ≡ T.source_side sink.old }
    {
        let mut digits = Buffer::new();
        self.put_str(sink, digits.format(number))
    }

    /// Puts some pieces one behind another, as `put` does bytes.
    pub fn put_all<T: Sink>(&mut self, sink: &mut T, pieces: &[Piece]) -> Result<(), WriteFault>
        ensures puts { Puts (T.sink sink.old) (T.sink sink.new) self.old self.new (text_of pieces.now) result }
        ensures source_side { T.source_side sink.new ≡ T.source_side sink.old }
    {
        for piece in pieces {
            self.put_piece(sink, piece)?;
        }
        Ok(())
    }

    /// Writes all that waits to the sink.
    ///
    /// After a fault a beginning of what waited is written, and never the whole.
    pub fn flush<T: Sink>(&mut self, sink: &mut T) -> Result<(), WriteFault>
        ensures flushes { Flushes (T.sink sink.old) (T.sink sink.new) self.old self.new result }
        ensures source_side { T.source_side sink.new ≡ T.source_side sink.old }
    {
        write_all(sink, &self.waiting)?;
        self.waiting.clear();
        Ok(())
    }

    fn put_piece<T: Sink>(&mut self, sink: &mut T, piece: &Piece) -> Result<(), WriteFault>
        ensures puts { Puts (T.sink sink.old) (T.sink sink.new) self.old self.new (piece_text piece.now) result }
        ensures source_side { T.source_side sink.new ≡ T.source_side sink.old }
    {
        match *piece {
            Piece::Text(text) => self.put_str(sink, text),
            Piece::Bytes(bytes) => self.put(sink, bytes),
            Piece::Number(number) => self.put_number(sink, number),
        }
    }

    // Puts bytes for which there is room behind those that wait.
    fn hold(&mut self, bytes: &[u8])
        requires { length self.old + length bytes.now ≤ WAITING_BYTES_MAX }
        ensures { self.new ≡ self.old ++ bytes.now }
    {
        match self.waiting.extend_from_slice(bytes) {
            Ok(()) => {}
            Err(_) => unreachable!(),
        }
    }
}

/// A law, with nothing to run: at most 16,384 bytes wait in a buffer.
pub fn limits_are_these(out: &OutBuf)
    ensures number { WAITING_BYTES_MAX ≡ 16384 }
    ensures waiting { length out.now ≤ WAITING_BYTES_MAX }
{
    let _ = &out.waiting;
}

// Writes all of the bytes to the sink.
fn write_all<T: Sink>(sink: &mut T, bytes: &[u8]) -> Result<(), WriteFault>
    ensures sends { Sends (T.sink sink.old) (T.sink sink.new) bytes.now result }
    ensures source_side { T.source_side sink.new ≡ T.source_side sink.old }
{
    let mut rest = bytes;
    while !rest.is_empty() {
        match sink.write(rest) {
            Put::Took(count) => rest = rest.split_at(count as usize).1,
            Put::Failed => return Err(WriteFault),
        }
    }
    Ok(())
}
