//! Credits.

ghost use Rattle.std.specs.Prelude.{IfErr, IfOk};
ghost use Rattle.desk_types.specs.declared.call.Call.{Call};
ghost use Rattle.desk_core.specs.Planned.{IsPlanned, IsStop, TakesNoMemory};

use crate::ledger::Ledger;
use crate::plan::{Changes, Plan};
use crate::stop::Stop;
use crate::told::Told;
use desk_types::{Fate, Refusal};

impl Ledger {
    /// Plans the credit of the placement of this number: a settled one is credited, and one that is credited stays. It takes
    /// no memory.
    pub(crate) fn plan_credit(&self, placement: u64) -> Result<Plan, Stop>
        ensures planned { IfOk result (IsPlanned self.now.state (Call.Credit placement)) }
        ensures stopped { IfErr result (IsStop self.now.state (Call.Credit placement)) }
        ensures no_memory { TakesNoMemory result }
    {
        let Some(found) = self.placement_of(placement) else {
            return Err(Stop::Refused(Refusal::NoPlacement));
        };
        let changes = match found.fate {
            Fate::Open => return Err(Stop::Refused(Refusal::NotSettled)),
            Fate::Settled(at) => Changes::Fate {
                number: found.number,
                fate: Fate::Credited(at, self.moment),
            },
            Fate::Credited(_, _) => Changes::Nothing,
        };
        Ok(Plan {
            changes,
            told: Told::Credited(found.price),
        })
    }
}
