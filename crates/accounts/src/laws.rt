//! Laws of edits. Each is what its function ensures.

ghost use Rattle.std.specs.Prelude.{◌≡◌, IsTrue, List};
ghost use Rattle.desk_types.specs.declared.call.Call.{Call};
ghost use Rattle.desk_types.specs.declared.rows.Placement.{Placement};
ghost use Rattle.desk_types.specs.Changes.{changes, reply};
ghost use Rattle.desk_types.specs.Judged.{refusals};
ghost use Rattle.desk_types.specs.State.{State};
ghost use Rattle.accounts.specs.Planned.{beside, is_edit, reads_no_placement};

/// An edit reads no placement and no setting: beside any placements its changes and its reply are the same. So are its
/// refusals, but for the setting of a budget, which is refused below what is used.
pub fn edits_read_no_placement()
    ensures refusals { (placements : List Placement) (S : State) (call : Call) → IsTrue (reads_no_placement call)
        → refusals S call ≡ refusals (beside placements S) call }
    ensures changes { (placements : List Placement) (S : State) (call : Call) → IsTrue (is_edit call)
        → changes S call ≡ changes (beside placements S) call }
    ensures reply { (placements : List Placement) (S : State) (call : Call) → IsTrue (is_edit call)
        → reply S call ≡ reply (beside placements S) call }
{}
