//! The placements of an answer.

ghost use Rattle.std.specs.Prelude.{◌≡◌, ◌↔◌, Err, IsTrue, map};
ghost use Rattle.desk_types.specs.Opening.{greatest};
ghost use Rattle.drill_calls.specs.DrillCalls.{placements_answered};

use desk_types::{Fault, Reply, Spot};

/// The greatest placement of an answer, 0 where there is none.
pub fn greatest_placement(answer: &Result<Reply, Fault>) -> u64
    ensures { result ≡ greatest (placements_answered answer.now) }
{
    match answer {
        Ok(Reply::Page(spots)) => greatest_of(spots.as_slice()),
        _ => 0,
    }
}

/// Whether memory was wanted.
pub fn lacks_memory(answer: &Result<Reply, Fault>) -> bool
    ensures { IsTrue result ↔ (answer.now ≡ Err Fault.NoMemory) }
{
    matches!(answer, Err(Fault::NoMemory))
}

/// The greatest placement of a page.
fn greatest_of(spots: &[Spot]) -> u64
    ensures { result ≡ greatest (map (λ spot. spot.placement) spots.now) }
{
    let mut greatest: u64 = 0;
    for spot in spots {
        greatest = greatest.max(spot.placement);
    }
    greatest
}
