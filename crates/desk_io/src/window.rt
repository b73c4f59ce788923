//! A window on the bytes of a source: the bytes read ahead, and those cut from their front last.

ghost use Rattle.std.specs.Prelude.{◌≡◌, ◌<◌, ◌≤◌, [], length, take, drop, IfOk};
ghost use Rattle.desk_io.specs.Reading.{ReadCause};
ghost use Rattle.desk_io.specs.WindowValue.{Fills, bytes_got};

use crate::{Got, NoMemory, Source};
use std::alloc::Global;
use std::marker::Model;

/// A buffer of a fixed size before a source: the bytes that are read ahead, and those that were cut from their front last.
#[derive(Drop)]
pub struct Window {
    bytes: Vec<u8>,
    cut_start: usize,
    cut_end: usize,
    start: usize,
    end: usize,
}

impl Model for Window {
    ghost use Rattle.std.specs.Prelude.{◌-◌, ◌≤◌, take, drop, vec_len};
    ghost use Rattle.desk_io.specs.WindowValue.{WindowValue};

    ghost Value = { WindowValue };

    ghost view = { λ w. record {
      cut = drop w.cut_start (take w.cut_end w.bytes.items);
      held = drop w.start (take w.end w.bytes.items);
      behind = vec_len w.bytes - w.end;
      size = vec_len w.bytes;
    } };

    ghost invariant = { λ w. (w.cut_start ≤ w.cut_end) × (w.cut_end ≤ vec_len w.bytes)
        × (w.start ≤ w.end) × (w.end ≤ vec_len w.bytes) };
}

impl Window {
    /// An empty window for `size` bytes. It takes all its memory here.
    pub fn new(alloc: Global, size: usize) -> Result<Window, NoMemory>
        ensures { IfOk result (λ window. window ≡ record { cut = []; held = []; behind = size; size = size }) }
    {
        Ok(Window {
            bytes: vec![in alloc; 0; size]?,
            cut_start: 0,
            cut_end: 0,
            start: 0,
            end: 0,
        })
    }

    /// The bytes that were cut last; none once bytes were read behind them.
    pub fn last_cut(&self) -> &[u8]
        ensures { result.now ≡ self.now.cut }
    {
        let before_end = self.bytes.as_slice().split_at(self.cut_end).0;
        before_end.split_at(self.cut_start).1
    }

    /// The bytes that are read ahead.
    pub fn held(&self) -> &[u8]
        ensures { result.now ≡ self.now.held }
    {
        let before_end = self.bytes.as_slice().split_at(self.end).0;
        before_end.split_at(self.start).1
    }

    /// Cuts the first `text` bytes held, and passes over the first `through` of them.
    pub fn cut(&mut self, text: usize, through: usize)
        requires text { text ≤ length self.old.held }
        requires through { through ≤ length self.old.held }
        ensures cut { self.new.cut ≡ take text self.old.held }
        ensures held { self.new.held ≡ drop through self.old.held }
        ensures size { self.new.size ≡ self.old.size }
    {
        self.cut_start = self.start;
        self.cut_end = self.start + text;
        self.start += through;
    }

    /// Leaves no bytes cut.
    pub fn forget_cut(&mut self)
        ensures { self.new ≡ record self.old { cut = [] } }
    {
        self.cut_start = 0;
        self.cut_end = 0;
    }

    // Leaves room behind the bytes held; they are moved to the front only where there is none. The bytes cut are lost.
    fn make_room(&mut self)
        requires { length self.old.held < self.old.size }
        ensures held { self.new.held ≡ self.old.held }
        ensures size { self.new.size ≡ self.old.size }
        ensures behind { 0 < self.new.behind }
    {
        if self.start < self.end && self.end < self.bytes.len() {
            return;
        }
        self.bytes.copy_within(self.start..self.end, 0);
        self.end -= self.start;
        self.start = 0;
    }

    // Reads once from the source, behind the bytes held, and leaves no bytes cut.
    fn take_in<S: Source>(&mut self, source: &mut S) -> Got
        requires { 0 < self.old.behind }
        ensures cut { self.new.cut ≡ [] }
        ensures size { self.new.size ≡ self.old.size }
        ensures bytes { Fills (S.source source.old).left (S.source source.new).left self.old.held self.new.held result }
        ensures faults { (S.source source.old).faults ≤ (S.source source.new).faults }
        ensures cause { ReadCause (S.source source.old).faults (S.source source.new).faults result }
        ensures sink_side { S.sink_side source.new ≡ S.sink_side source.old }
    {
        self.cut_start = 0;
        self.cut_end = 0;
        let got = source.read(&mut self.bytes[self.end..]);
        self.end += count_of(got);
        got
    }

    /// Reads once from the source, behind the bytes held, for which there is room, and leaves no bytes cut.
    pub fn fill<S: Source>(&mut self, source: &mut S) -> Got
        requires { length self.old.held < self.old.size }
        ensures cut { self.new.cut ≡ [] }
        ensures size { self.new.size ≡ self.old.size }
        ensures bytes { Fills (S.source source.old).left (S.source source.new).left self.old.held self.new.held result }
        ensures faults { (S.source source.old).faults ≤ (S.source source.new).faults }
        ensures cause { ReadCause (S.source source.old).faults (S.source source.new).faults result }
        ensures sink_side { S.sink_side source.new ≡ S.sink_side source.old }
    {
        self.make_room();
        self.take_in(source)
    }
}

// How many bytes a read gave.
fn count_of(got: Got) -> usize
    ensures { result ≡ bytes_got got }
{
    match got {
        Got::Bytes(count) => count as usize,
        Got::End | Got::Failed => 0,
    }
}
