//! What an edit changes and replies, or why it is not made.

ghost use Rattle.std.specs.Prelude.{◌≡◌, [], ◌∷◌, true, false, IfErr, IfOk, OnOk};

use desk_types::{Change, Refusal, Reply};
use match_types::PatternError;
use query_words::List;
use std::alloc::{AllocError, Global};

/// What an accepted edit changes, in order, and what it replies.
#[derive(Debug, Drop)]
pub struct Plan {
    /// The changes.
    pub changes: List<Change>,
    /// The reply.
    pub reply: Reply,
}

/// Why an edit is not made.
#[derive(Clone, Copy, Debug, PartialEq, Eq)]
pub enum EditFault {
    /// It is refused.
    Refused(Refusal),
    /// Memory was wanted.
    NoMemory,
}

/// A row of a table of refusals: it stops an edit where the test holds.
pub(crate) fn when(test: bool, refusal: Refusal) -> Result<(), EditFault>
    ensures passed { OnOk result (test ≡ false) }
    ensures stopped { IfErr result (λ fault. (test ≡ true) × (fault ≡ EditFault.Refused refusal)) }
{
    if test {
        return Err(EditFault::Refused(refusal));
    }
    Ok(())
}

impl From<PatternError> for EditFault {
    ghost use Rattle.std.specs.Prelude.{◌≡◌};
    ghost use Rattle.accounts.specs.PatternFault.{fault_by};

    ghost from_gives = { λ error fault. fault ≡ fault_by error };

    fn from(error: PatternError) -> Self {
        match error.cause() {
            Some(cause) => EditFault::Refused(Refusal::BadPattern(cause)),
            None => EditFault::NoMemory,
        }
    }
}

impl From<AllocError> for EditFault {
    ghost use Rattle.std.specs.Prelude.{◌≡◌};
    ghost use Rattle.accounts.specs.declared.plan.EditFault.TheVariants.{NoMemory};

    ghost from_gives = { λ _ fault. fault ≡ NoMemory };

    fn from(_: AllocError) -> Self {
        EditFault::NoMemory
    }
}

impl Plan {
    /// One change. `NoMemory` is want of memory for its list.
    pub(crate) fn one(alloc: Global, change: Change, reply: Reply) -> Result<Plan, AllocError>
        ensures { IfOk result (λ plan. (plan.changes ≡ change ∷ []) × (plan.reply ≡ reply)) }
    {
        Ok(Plan {
            changes: List::from_vec(vec![in alloc; change]?),
            reply,
        })
    }
}
