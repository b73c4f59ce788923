//! Clicks.

ghost use Rattle.std.specs.Prelude.{◌≡◌, Some, IfErr, IfOk, IsTrue};
ghost use Rattle.std.specs.Option.{option_copied};
ghost use Rattle.desk_types.specs.declared.call.Call.{Call};
ghost use Rattle.desk_types.specs.Changes.{settlement};
ghost use Rattle.desk_types.specs.Sound.{IsSound};
ghost use Rattle.desk_types.specs.Tables.{placement_of};
ghost use Rattle.desk_core.specs.Planned.{IsPlanned, IsStop, TakesNoMemory, listed, needs_no_room};

use crate::ledger::Ledger;
use crate::plan::{Changes, Plan};
use crate::stop::Stop;
use crate::told::Told;
use desk_types::{Fate, Placement, Refusal};
use placements::is_escrowed;

impl Ledger {
    /// Plans a click on the placement of this number: it settles where the price is escrowed, and goes to the line's
    /// link in either case. It takes no memory.
    #[tactic(auto, unfolding(desk_types::specs::Judged::refusals, desk_types::specs::Changes::changes, desk_types::specs::Changes::reply))]
    pub(crate) fn plan_click(&self, placement: u64) -> Result<Plan, Stop>
        requires sound { IsSound self.now.state }
        ensures planned { IfOk result (IsPlanned self.now.state (Call.Click placement)) }
        ensures stopped { IfErr result (IsStop self.now.state (Call.Click placement)) }
        ensures no_memory { TakesNoMemory result }
    {
        let Some(found) = self.placement_of(placement) else {
            return Err(Stop::Refused(Refusal::NoPlacement));
        };
        Ok(Plan {
            changes: settlement(self.moment, found),
            told: Told::Link {
                account: found.account,
                line: found.line,
            },
        })
    }

    /// The placement of this number, if there is one. It is found without a search.
    pub(crate) fn placement_of(&self, placement: u64) -> Option<&Placement>
        ensures { option_copied result ≡ placement_of self.now.state.tables placement }
    {
        self.placements.get(placement)
    }
}

/// What a click on a placement changes at a moment.
fn settlement(moment: u64, found: &Placement) -> Changes
    ensures settles { listed result ≡ settlement moment (Some found.now) }
    ensures no_room { IsTrue (needs_no_room result) }
{
    if !is_escrowed(found, moment) {
        return Changes::Nothing;
    }
    Changes::Fate {
        number: found.number,
        fate: Fate::Settled(moment),
    }
}
