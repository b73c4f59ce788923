//! What the tables that are known to be sound have.

ghost use Rattle.std.specs.Prelude.{◌≡◌, ◌==◌, ◌&&◌, [], None, find, is_some};
ghost use Rattle.desk_types.specs.Keys.{line_key};
ghost use Rattle.desk_types.specs.Rules.{account_rules, campaign_rules, first_bad, has_campaign};
ghost use Rattle.desk_types.specs.Sound.{AreInOrder};

use crate::soundness::own_rows::find_own;
use desk_types::{Account, Line, Tables};

/// Whether the account of a number is there.
#[tactic(auto, using(crate::proofs::KeptTables::account_there))]
pub(crate) fn has_account(accounts: &[Account], account: u64) -> bool
    requires { first_bad 1 account_rules [] accounts.now ≡ None }
    ensures { result ≡ is_some (find (λ a. a.number == account) accounts.now) }
{
    let count = accounts.len() as u64;
    (1..=count).contains(&account)
}

/// Whether the campaign of an account and a number is there. It is found by halving.
#[tactic(auto, using(crate::proofs::KeptTables::campaigns_in_order))]
pub(crate) fn has_campaign(tables: &Tables, account: u64, campaign: u64) -> bool
    requires accounts { first_bad 1 account_rules [] tables.now.accounts ≡ None }
    requires campaigns { first_bad 2 (campaign_rules tables.now) [] tables.now.campaigns ≡ None }
    ensures { result ≡ has_campaign tables.now account campaign }
{
    has_account(tables.accounts.as_slice(), account)
        && find_own(tables.campaigns.as_slice(), account, campaign).is_some()
}

/// Whether the line of an account and a number is there. It is found by halving.
pub(crate) fn has_line(lines: &[Line], account: u64, number: u64) -> bool
    requires { AreInOrder line_key lines.now }
    ensures { result ≡ is_some (find (λ l. l.account == account && l.number == number) lines.now) }
{
    find_own(lines, account, number).is_some()
}
