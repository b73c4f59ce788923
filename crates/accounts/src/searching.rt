//! What the calls above ask of the book.

ghost use Rattle.std.specs.Prelude.{◌≡◌, ℕ, ◌==◌, ◌&&◌, not, bytes_eq, filter, find, option_map, unwrap_or};
ghost use Rattle.std.specs.List.{list_any};
ghost use Rattle.std.specs.Option.{option_copied};
ghost use Rattle.desk_types.specs.Judged.{key_fits};
ghost use Rattle.desk_types.specs.Tables.{account_of, line_of};
ghost use Rattle.accounts.specs.Shelved.{HasNoShelf, HasShelf};

use crate::book::Book;
use desk_types::{Account, BudgetSet, Campaign, Line, Negative};

impl Book {
    /// The account of a number, if there is one.
    #[tactic(auto, using(crate::proofs::Asking::account_there, crate::proofs::Asking::account_lacks))]
    pub fn account(&self, account: u64) -> Option<&Account>
        ensures { option_copied result ≡ account_of self.now.tables account }
    {
        match self.shelf(account) {
            Some(shelf) => Some(&shelf.account),
            None => None,
        }
    }

    /// Whether the key is that of an account.
    #[tactic(auto, using(crate::proofs::Rows::fits_shelf, crate::proofs::Asking::fits_none))]
    pub fn key_fits(&self, account: u64, key: &str) -> bool
        ensures { result ≡ key_fits self.now.tables account key.now }
    {
        match self.shelf(account) {
            Some(shelf) => shelf.account.key.as_str() == key,
            None => false,
        }
    }

    /// The line of an account and a number, if there is one.
    #[tactic(auto, using(crate::proofs::Asking::line_lacks))]
    pub fn line(&self, account: u64, line: u64) -> Option<&Line>
        ensures { option_copied result ≡ line_of self.now.tables account line }
    {
        match self.shelf(account) {
            Some(shelf) => shelf.line(line),
            None => None,
        }
    }

    /// The campaigns of an account, in order; none where it is not there.
    #[tactic(auto, using(crate::proofs::Asking::campaigns_there, crate::proofs::Asking::campaigns_lack))]
    pub fn campaigns(&self, account: u64) -> &[Campaign]
        ensures { result.now ≡ filter (λ c. c.account == account) self.now.tables.campaigns }
    {
        match self.shelf(account) {
            Some(shelf) => &shelf.campaigns,
            None => &[],
        }
    }

    /// The budget settings of an account, in order; none where it is not there.
    #[tactic(auto, using(crate::proofs::Asking::budgets_there, crate::proofs::Asking::budgets_lack))]
    pub fn budgets(&self, account: u64) -> &[BudgetSet]
        ensures { result.now ≡ filter (λ b. b.account == account) self.now.tables.budgets }
    {
        match self.shelf(account) {
            Some(shelf) => &shelf.budgets,
            None => &[],
        }
    }

    /// The lines of an account, in order; none where it is not there.
    #[tactic(auto, using(crate::proofs::Asking::lines_there, crate::proofs::Asking::lines_lack))]
    pub fn lines(&self, account: u64) -> &[Line]
        ensures { result.now ≡ filter (λ l. l.account == account) self.now.tables.lines }
    {
        match self.shelf(account) {
            Some(shelf) => shelf.lines.as_slice(),
            None => &[],
        }
    }

    /// The negatives of an account, in order, dropped ones among them; none where it is not there.
    #[tactic(auto, using(crate::proofs::Asking::negatives_there, crate::proofs::Asking::negatives_lack))]
    pub fn negatives(&self, account: u64) -> &[Negative]
        ensures { result.now ≡ filter (λ n. n.account == account) self.now.tables.negatives }
    {
        match self.shelf(account) {
            Some(shelf) => &shelf.negatives,
            None => &[],
        }
    }

    /// Whether an account is there and not suspended.
    pub fn is_active_account(&self, account: u64) -> bool
        ensures { result ≡ list_any (λ a. a.number == account && not a.suspended) self.now.tables.accounts }
    {
        match self.shelf(account) {
            Some(shelf) => !shelf.account.suspended,
            None => false,
        }
    }

    /// Whether the campaign of an account and a number is there and on.
    pub fn is_active_campaign(&self, account: u64, campaign: u64) -> bool
        ensures { result ≡ list_any (λ c. c.account == account && (c.number == campaign && c.on))
            self.now.tables.campaigns }
    {
        let Some(shelf) = self.shelf(account) else {
            return false;
        };
        match shelf.campaign(campaign) {
            Some(row) => row.on,
            None => false,
        }
    }
}
