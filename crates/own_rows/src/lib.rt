//! The rows of one account: its advertiser is answered by them alone, and what is not the account's leaves them.
//! Three laws say so of the ledger: an advertiser's call is answered by the account's rows, the settings and the moment;
//! calls that leave an account alone leave what it has; and so its advertiser is answered as without them.
//! It stands on `desk_types` for the ledger, and has no code but these laws.
#![tactic(auto)]

ghost use Rattle.std.specs.Prelude.{◌≡◌, ℕ, ◌++◌, List, Option};
ghost use Rattle.desk_types.specs.declared.call.Call.{Call};
ghost use Rattle.desk_types.specs.declared.entry.Entry.{Entry};
ghost use Rattle.desk_types.specs.Run.{answer, run};
ghost use Rattle.desk_types.specs.Sound.{IsSound};
ghost use Rattle.desk_types.specs.State.{State};
ghost use Rattle.desk_types.specs.Step.{at_moment, step};
ghost use Rattle.own_rows.specs.LeftAlone.{AllLeaveAlone, IsOwnButForMoment, LeavesAlone};
ghost use Rattle.own_rows.specs.OwnReply.{advertiser_of, own, own_reply};

/// In a sound state an advertiser's call is answered by the rows of its account, the settings and the moment alone.
pub fn advertisers_are_answered_by_own_rows()
    ensures { (S : State) (account moment : ℕ) (call : Call) → IsSound S →
        advertiser_of call ≡ Option.Some account →
        (step S moment call).reply ≡ own_reply (own S account) moment call }
{}

/// From a sound state, what an account has stays but for the moment, whatever call or list of entries comes that leaves
/// it alone.
pub fn others_leave_own_rows()
    ensures call { (S : State) (account moment : ℕ) (call : Call) → IsSound S → LeavesAlone S account moment call →
        IsOwnButForMoment (own S account) (own (step S moment call).state account) }
    ensures entries { (S : State) (account : ℕ) (entries : List Entry) → IsSound S →
        AllLeaveAlone S account entries → IsOwnButForMoment (own S account) (own (run S entries) account) }
{}

/// From a sound state, an advertiser's call that follows entries is answered as it would be at the same moment without
/// the last of them, where those leave its account alone.
pub fn advertisers_are_answered_as_without_others()
    ensures { (S : State) (before between : List Entry) (account moment : ℕ) (call : Call) →
        IsSound S → advertiser_of call ≡ Option.Some account →
        AllLeaveAlone (run S before) account between →
        let now = (at_moment (run S (before ++ between)) moment).moment in
        answer S (before ++ between) moment call ≡ answer S before now call }
{}
