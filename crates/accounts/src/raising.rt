//! A law of edits and the edition. It is what its function ensures.

ghost use Rattle.std.specs.Prelude.{◌≡◌, IsTrue, None};
ghost use Rattle.std.specs.List.{list_any};
ghost use Rattle.desk_types.specs.declared.call.Call.{Call};
ghost use Rattle.desk_types.specs.Changes.{changes, raises_edition};
ghost use Rattle.desk_types.specs.Judged.{judged};
ghost use Rattle.desk_types.specs.State.{State};
ghost use Rattle.accounts.specs.Planned.{is_edit, is_of_catalogue};

/// An edit that is not refused raises the edition exactly where it changes the catalogue: an account, a campaign, a line or
/// a negative.
pub fn edits_raise_the_edition_with_a_change()
    ensures { (S : State) (call : Call) → IsTrue (is_edit call) → judged S call ≡ None
        → raises_edition S call ≡ list_any is_of_catalogue (changes S call) }
{}
