// Copies that may want memory.
ghost use Rattle.std.specs.Prelude.{◌≡◌, IfOk};

use std::alloc::AllocError as NoMemory;

/// A value of which an equal one can be made.
pub trait Twin: Drop + Sized {
    /// An equal value, or want of memory.
    fn twin(&self) -> Result<Self, NoMemory>
        ensures { IfOk result (λ copy. copy ≡ self.now) };
}
