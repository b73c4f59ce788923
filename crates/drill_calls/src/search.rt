//! The search of a drill.

ghost use Rattle.std.specs.Prelude.{◌≡◌, IfOk};
ghost use Rattle.drill_calls.specs.Draws.{behind_draws};
ghost use Rattle.drill_calls.specs.DrillCalls.{drill_search};

use crate::draws::Draws;
use crate::texts::query;
use desk_types::Call;
use query_words::NoMemory;
use std::alloc::Global;

/// A search for two words that are drawn, and shoes.
pub fn search_call(alloc: Global, draws: &mut Draws) -> Result<Call, NoMemory>
    ensures drawn { draws.new ≡ behind_draws draws.old 2 }
    ensures call { IfOk result (λ call. call ≡ drill_search draws.old) }
{
    let first = draws.draw(8);
    let second = draws.draw(8);
    Ok(Call::Search {
        text: query(alloc, first, second)?,
        places: None,
    })
}
