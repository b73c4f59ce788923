//! Laws of the definitions, in the words of the subject. Each is what its function ensures.

ghost use Rattle.std.specs.Prelude.{◌≡◌, ◌≢◌, ℕ, ◌≤◌, ◌⊎◌, IsTrue, false, List, Contains, All, IfSome};
ghost use Rattle.auction_types.specs.AdValue.{AdValue, IsInRange, is_same_line, score};
ghost use Rattle.auction_types.specs.Laws.{AreBestOfAccounts, AreFirstPlaces, IsNextBelow, IsLeastPrice};
ghost use Rattle.auction_types.specs.Order.{better};
ghost use Rattle.auction_types.specs.Page.{AreOfDifferentAccounts, entrants, page, next_below};
ghost use Rattle.auction_types.specs.Price.{price};

/// Better is a strict total order: no ad is better than itself, what is better than a better ad is
/// better, and of two ads of different lines, or of two different ads with bid and quality in range,
/// one is better than the other.
pub fn better_is_a_strict_total_order()
    ensures irreflexive { (a : AdValue) → better a a ≡ false }
    ensures transitive { (a b c : AdValue) → IsTrue (better a b) → IsTrue (better b c) → IsTrue (better a c) }
    ensures total { (a b : AdValue) → is_same_line a b ≡ false → IsTrue (better a b) ⊎ IsTrue (better b a) }
    ensures total_in_range { (a b : AdValue) → IsInRange a → IsInRange b → a ≢ b →
        IsTrue (better a b) ⊎ IsTrue (better b a) }
{}

/// The entrants of ads with bid and quality in range are the best ad of each account: no two are of
/// one account, each is one of the ads, no ad of its account is better, and each account has one.
pub fn entrants_are_the_best_of_their_accounts()
    ensures { (ads : List AdValue) → All IsInRange ads → AreBestOfAccounts ads (entrants ads) }
{}

/// The page for `n` places has the entrants with places 1 to `n`, or all where they are fewer, in
/// order of place, and each of them is better than each entrant outside it.
pub fn page_has_the_first_places()
    ensures { (entered : List AdValue) (n : ℕ) → AreOfDifferentAccounts entered →
        AreFirstPlaces entered n (page entered n) }
{}

/// The next below an entrant is an entrant, is not as good, and has the next place.
pub fn next_below_has_the_next_place()
    ensures { (entered : List AdValue) (a : AdValue) → AreOfDifferentAccounts entered → Contains entered a →
        IfSome (next_below entered a) (IsNextBelow entered a) }
{}

/// The price of an ad that meets reserve and floor is at most its bid, is at least the reserve, has
/// a score of at least the floor and keeps the ad's place, and no smaller number does all that.
pub fn price_is_the_least_that_keeps_the_place()
    ensures { (reserve floor : ℕ) (entered : List AdValue) (a : AdValue) → reserve ≤ a.bid → floor ≤ score a →
        IsLeastPrice reserve floor entered a (price reserve floor entered a) }
{}
