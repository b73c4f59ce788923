//! Laws of the ledger, in the words of the subject. Each is what its function ensures.

ghost use Rattle.std.specs.Prelude.{◌≡◌, ◌≢◌, Bool, ℕ, ◌≤◌, false, List, [], ◌∷◌, ◌++◌, All, Option, Result};
ghost use Rattle.std.specs.Option.{option_or};
ghost use Rattle.desk_types.specs.declared.call.Call.{Call};
ghost use Rattle.desk_types.specs.declared.call.ImportRow.{ImportRow};
ghost use Rattle.desk_types.specs.declared.call.Part.{Part};
ghost use Rattle.desk_types.specs.declared.entry.Entry.{Entry};
ghost use Rattle.desk_types.specs.declared.entry.Fault.{Fault};
ghost use Rattle.desk_types.specs.declared.entry.Outcome.{Outcome};
ghost use Rattle.desk_types.specs.declared.refusal.Refusal.{Refusal};
ghost use Rattle.desk_types.specs.declared.reply.Reply.{Reply};
ghost use Rattle.desk_types.specs.declared.reply.Spot.{Spot};
ghost use Rattle.desk_types.specs.declared.rows.Account.{Account};
ghost use Rattle.desk_types.specs.declared.rows.Campaign.{Campaign};
ghost use Rattle.desk_types.specs.declared.rows.Line.{Line};
ghost use Rattle.desk_types.specs.declared.rows.Placement.{Placement};
ghost use Rattle.desk_types.specs.declared.tables.Tables.{Tables};
ghost use Rattle.desk_types.specs.Changes.{link_clicked, placements_for};
ghost use Rattle.desk_types.specs.Day.{day_of};
ghost use Rattle.desk_types.specs.Judged.{first};
ghost use Rattle.desk_types.specs.MoneyMoves.{CampaignAndDay, IsAffordable, IsEscrowed, IsFreed, IsSettled, expiring, may_move_money, money, on_day, prices, settling, with_budget};
ghost use Rattle.desk_types.specs.Own.{account_named, rows_of};
ghost use Rattle.desk_types.specs.Opening.{opened};
ghost use Rattle.desk_types.specs.Rules.{AreSound};
ghost use Rattle.desk_types.specs.SettingsValue.{AreInRange, SettingsValue};
ghost use Rattle.desk_types.specs.State.{State, empty, catalogue};
ghost use Rattle.desk_types.specs.Step.{step, at_moment};
ghost use Rattle.desk_types.specs.Tables.{account_of, campaign_of, line_of, placement_of};
ghost use Rattle.desk_types.specs.Run.{run};
ghost use Rattle.desk_types.specs.Serving.{Serves, ServiceView, AreServed, with_entry, with_seen};
ghost use Rattle.desk_types.specs.Sound.{IsSound, StandInOrder, StaysWithinBudgets};
ghost use Rattle.desk_types.specs.Journal.{IsBefore, IsLegal, IsRise, is_full};
ghost use Rattle.desk_types.specs.LedgerLaws.{IsPageAnswered, ChangesNoRow, RepliesAlone};

/// A state without rows is sound, and tables that break no rule make a sound state. A sound state stays sound, whatever
/// entries come, where its settings are in range, and as time passes.
pub fn sound_states_stay_sound()
    ensures empty { (settings : SettingsValue) → IsSound (empty settings) }
    ensures opened { (settings : SettingsValue) (T : Tables) → AreSound T → IsSound (opened settings T) }
    ensures run { (S : State) (entries : List Entry) → AreInRange S.settings → IsSound S → IsSound (run S entries) }
    ensures later { (S : State) (moment : ℕ) → IsSound S → IsSound (at_moment S moment) }
{}

/// Rows that stand in the order of their keys do so after any entries.
pub fn rows_stay_in_order()
    ensures { (S : State) (entries : List Entry) → StandInOrder S.tables → StandInOrder (run S entries).tables }
{}

/// From a sound state, whatever entries come, and at any later moment: for every campaign and day, what is spent and
/// what is escrowed together are at most the day's budget.
pub fn budgets_hold()
    ensures { (S : State) (entries : List Entry) (moment : ℕ) →
        IsSound S → StaysWithinBudgets (at_moment (run S entries) moment) }
{}

/// From a sound state, whatever entries come, a search that is answered with a page gives the first places to the best
/// eligible ad of each account, in order, and puts a placement for each at the least price that keeps its place, which
/// is at most its bid (Edelman, Ostrovsky and Schwarz 2007).
pub fn pages_are_by_the_generalised_second_price()
    ensures { (S : State) (entries : List Entry) (moment : ℕ) (text : List ℕ) (places : Option ℕ) (spots : List Spot) →
        IsSound S → let reached = step (run S entries) moment (Call.Search text places) in
        reached.reply ≡ Reply.Page spots →
        IsPageAnswered (at_moment (run S entries) moment) text places spots reached.state }
{}

/// The money of a campaign on a day moves with these events alone. As time passes, the prices of the placements whose
/// deadline comes are freed. A search escrows the prices of the placements that it shows, each at most its bid, which is at
/// most what was free. A click settles the price of its placement, where that was escrowed. The budget of a new campaign,
/// or one that is set, counts for today and the days after. Nothing else moves money, credits among it.
pub fn money_moves_as_recorded()
    ensures expired { (S : State) (moment : ℕ) (on : CampaignAndDay) → let S1 = at_moment S moment in
        IsFreed (prices on (expiring S S1.moment)) (money S on) (money S1 on) }
    ensures shown { (S : State) (moment : ℕ) (text : List ℕ) (places : Option ℕ) (spots : List Spot)
        (on : CampaignAndDay) → IsSound S → let S1 = at_moment S moment in
        let reached = step S moment (Call.Search text places) in reached.reply ≡ Reply.Page spots →
        IsEscrowed (prices on (placements_for S1 text places)) (money S1 on) (money reached.state on) }
    ensures affordable { (S : State) (moment : ℕ) (text : List ℕ) (places : Option ℕ) → IsSound S →
        let S1 = at_moment S moment in All (IsAffordable S1) (placements_for S1 text places) }
    ensures settled { (S : State) (moment placement : ℕ) (on : CampaignAndDay) → IsSound S →
        let S1 = at_moment S moment in
        IsSettled (prices on (settling S1.moment (placement_of S1.tables placement))) (money S1 on)
        (money (step S moment (Call.Click placement)).state on) }
    ensures set { (S : State) (moment account : ℕ) (key : List ℕ) (campaign amount : ℕ) (on : CampaignAndDay) →
        IsSound S → let S1 = at_moment S moment in
        let reached = step S moment (Call.SetBudget account key campaign amount) in reached.reply ≡ Reply.Done →
        money reached.state on ≡ with_budget (on_day account campaign (day_of S1.moment)) amount on (money S1 on) }
    ensures made { (S : State) (moment account : ℕ) (key : List ℕ) (campaign amount : ℕ) (on : CampaignAndDay) →
        IsSound S → let S1 = at_moment S moment in
        let reached = step S moment (Call.AddCampaign account key amount) in reached.reply ≡ Reply.Made campaign →
        money reached.state on ≡ with_budget (on_day account campaign (day_of S1.moment)) amount on (money S1 on) }
    ensures no_other { (S : State) (moment : ℕ) (call : Call) (on : CampaignAndDay) → may_move_money call ≡ false →
        money (step S moment call).state on ≡ money (at_moment S moment) on }
    ensures refused { (S : State) (moment : ℕ) (call : Call) (refusal : Refusal) (on : CampaignAndDay) →
        (step S moment call).reply ≡ Reply.Refused refusal →
        money (step S moment call).state on ≡ money (at_moment S moment) on }
{}

/// A click behind an answered click on the same placement changes no row and goes to the same link: right
/// behind it, and from a sound state whatever entries come between. So does a click at the deadline or later.
pub fn clicks_settle_once()
    ensures repeated { (S : State) (first second placement : ℕ) (link : List ℕ) →
        let S1 = (step S first (Call.Click placement)).state in
        (step S first (Call.Click placement)).reply ≡ Reply.Went link → ChangesNoRow S1 second placement link }
    ensures later { (S : State) (between : List Entry) (first second placement : ℕ) (link : List ℕ) → IsSound S →
        let S1 = (step S first (Call.Click placement)).state in
        (step S first (Call.Click placement)).reply ≡ Reply.Went link →
        ChangesNoRow (run S1 between) second placement link }
    ensures too_late { (S : State) (moment placement : ℕ) (p : Placement) →
        placement_of S.tables placement ≡ Option.Some p →
        p.deadline ≤ (at_moment S moment).moment → ChangesNoRow S moment placement (link_clicked S.tables placement) }
{}

/// A call that names an account changes no row of another account.
pub fn edits_leave_other_accounts()
    ensures { (S : State) (moment : ℕ) (call : Call) (account other : ℕ) →
        account_named call ≡ Option.Some account → account ≢ other →
        rows_of (step S moment call).state.tables other ≡ rows_of S.tables other }
{}

/// A batch that is imported again, with whatever rows, changes no row and is answered as the first time: right behind it,
/// and from a sound state whatever entries come between.
pub fn batches_import_once()
    ensures repeated { (S : State) (first second account : ℕ) (key : List ℕ) (batch from count : ℕ)
        (rows others : List ImportRow) → let reached = step S first (Call.Import account key batch rows) in
        reached.reply ≡ Reply.Imported from count →
        RepliesAlone reached.state second (Call.Import account key batch others) (Reply.Imported from count) }
    ensures later { (S : State) (between : List Entry) (first second account : ℕ) (key : List ℕ) (batch from count : ℕ)
        (rows others : List ImportRow) → IsSound S → let reached = step S first (Call.Import account key batch rows) in
        reached.reply ≡ Reply.Imported from count →
        let S1 = run reached.state between in
        RepliesAlone S1 second (Call.Import account key batch others) (Reply.Imported from count) }
{}

/// A placement that is credited again changes no row and is answered as the first time: right behind it, and from a sound
/// state whatever entries come between.
pub fn clicks_are_credited_once()
    ensures repeated { (S : State) (first second placement price : ℕ) →
        let reached = step S first (Call.Credit placement) in reached.reply ≡ Reply.Credited price →
        RepliesAlone reached.state second (Call.Credit placement) (Reply.Credited price) }
    ensures later { (S : State) (between : List Entry) (first second placement price : ℕ) → IsSound S →
        let reached = step S first (Call.Credit placement) in reached.reply ≡ Reply.Credited price →
        RepliesAlone (run reached.state between) second (Call.Credit placement) (Reply.Credited price) }
{}

/// An account that is suspended or released, and a campaign or a line that is switched off or on, and then set as it was,
/// leaves all rows as they were.
pub fn switches_can_be_taken_back()
    ensures accounts { (S : State) (first second account : ℕ) (suspended : Bool) (a : Account) →
        account_of S.tables account ≡ Option.Some a →
        let S1 = (step S first (Call.Suspend account suspended)).state in
        (step S1 second (Call.Suspend account a.suspended)).state.tables ≡ S.tables }
    ensures campaigns { (S : State) (first second account campaign : ℕ) (key : List ℕ) (on : Bool) (c : Campaign) →
        campaign_of S.tables account campaign ≡ Option.Some c →
        let S1 = (step S first (Call.Pause account key (Part.OfCampaign campaign) on)).state in
        (step S1 second (Call.Pause account key (Part.OfCampaign campaign) c.on)).state.tables ≡ S.tables }
    ensures lines { (S : State) (first second account line : ℕ) (key : List ℕ) (on : Bool) (l : Line) →
        line_of S.tables account line ≡ Option.Some l →
        let S1 = (step S first (Call.Pause account key (Part.OfLine line) on)).state in
        (step S1 second (Call.Pause account key (Part.OfLine line) l.on)).state.tables ≡ S.tables }
{}

/// A refused call changes the moment alone.
pub fn refused_call_changes_the_moment_alone()
    ensures { (S : State) (moment : ℕ) (call : Call) (refusal : Refusal) →
        (step S moment call).reply ≡ Reply.Refused refusal → (step S moment call).state ≡ at_moment S moment }
{}

/// The first refusal of two tables that are joined is that of the one, or else that of the other.
pub fn joined_tables_give_the_first_refusal()
    ensures { (rows more : List (Option Refusal)) → first (rows ++ more) ≡ option_or (first rows) (first more) }
{}

/// Of two states of one run with equal editions the catalogues are equal.
pub fn equal_editions_have_equal_catalogues()
    ensures { (S : State) (entries more : List Entry) →
        (run S (entries ++ more)).edition ≡ (run S entries).edition →
        catalogue (run S (entries ++ more)) ≡ catalogue (run S entries) }
{}

/// Calls that are served one after the other are served as one list: no call, one call, and two lists. Whatever the
/// calls, the caller, the opening and whether the keeper is sure stay.
pub fn calls_served_in_turn_are_served_as_one_list()
    ensures none { (service : ServiceView) → IsLegal service.opening.settings service.seen →
        AreServed service [] [] service }
    ensures one { (service left : ServiceView) (moment : ℕ) (call : Call) (result : Result Reply Fault) →
        Serves service moment call result left → AreServed service ((moment, call) ∷ []) (result ∷ []) left }
    ensures joined { (service between left : ServiceView) (calls more : List (ℕ × Call))
        (results others : List (Result Reply Fault)) →
        AreServed service calls results between → AreServed between more others left →
        AreServed service (calls ++ more) (results ++ others) left }
    ensures stays { (service left : ServiceView) (calls : List (ℕ × Call)) (results : List (Result Reply Fault)) →
        AreServed service calls results left → left ≡ with_seen service left.seen }
{}

/// The empty list is a legal journal, and so are each prefix of a legal one, and a legal one that has room for a call
/// with the entry of its answer, or of a fault whose count begins where the last one ended, or above.
pub fn journals_stay_legal()
    ensures empty { (settings : SettingsValue) → IsLegal settings [] }
    ensures prefix { (settings : SettingsValue) (entries more : List Entry) →
        IsLegal settings (entries ++ more) → IsLegal settings entries }
    ensures answered { (settings : SettingsValue) (seen : List Entry) (caller moment : ℕ) (call : Call) →
        IsLegal settings seen → is_full settings seen call ≡ false →
        IsLegal settings (with_entry caller seen moment call Outcome.Answered) }
    ensures faulted { (settings : SettingsValue) (seen : List Entry) (caller moment : ℕ) (call : Call)
        (before after : ℕ) → IsLegal settings seen → is_full settings seen call ≡ false → IsRise before after →
        All (λ e. IsBefore e.outcome (Outcome.Faulted before after)) seen →
        IsLegal settings (with_entry caller seen moment call (Outcome.Faulted before after)) }
{}
