//! Whether rows stand in the order of their keys.

ghost use Rattle.std.specs.Prelude.{◌≡◌};
ghost use Rattle.desk_types.specs.Rules.{is_in_order};

use desk_types::keyed::Keyed;

/// Whether the key of a row is greater than that of the last row before it, if there is one.
pub(crate) fn is_in_order<R: Keyed>(before: &[R], row: &R) -> bool
    ensures { result ≡ is_in_order R.key before.now row.now }
{
    match before.split_last() {
        None => true,
        Some((last, _)) => last.is_before(row),
    }
}
