//! The limit of a file.

ghost use Rattle.std.specs.Prelude.{◌≡◌};

/// The most rows behind the heading of a file.
pub const FILE_ROWS_MAX: u64 = 1_000;

/// A law, with nothing to run: the limit of a file is this number.
pub fn file_limits_are_these()
    ensures rows { FILE_ROWS_MAX ≡ 1000 }
{}
