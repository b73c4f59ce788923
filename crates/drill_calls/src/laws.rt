//! Laws of the drill.

ghost use Rattle.std.specs.Prelude.{◌≡◌, ℕ, ◌*◌, List, length, Result};
ghost use Rattle.desk_types.specs.declared.entry.Fault.{Fault};
ghost use Rattle.desk_types.specs.declared.reply.Reply.{Reply};
ghost use Rattle.drill_calls.specs.DrillCalls.{drill_calls};

/// A drill has 41 calls for each account: 11 that make it, 25 searches and 5 clicks.
pub fn a_drill_has_forty_one_calls_for_each_account()
    ensures { (start size : ℕ) (results : List (Result Reply Fault)) →
        length (drill_calls start size results) ≡ 41 * size }
{}
