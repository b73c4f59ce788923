//! All placements.

ghost use Rattle.std.specs.Prelude.{◌≡◌};

use crate::placements::Placements;
use desk_types::Placement;

impl Placements {
    /// The placements, by number.
    pub fn as_slice(&self) -> &[Placement]
        ensures { result.now ≡ self.now.rows }
    {
        &self.rows
    }
}
