//! The judging of accounts and keys.

ghost use Rattle.std.specs.Prelude.{◌≡◌, ℕ, [], ◌∷◌, None, IfErr, IfOk};
ghost use Rattle.desk_types.specs.declared.call.Call.{Call};
ghost use Rattle.desk_types.specs.Judged.{first, key_fits, owner_rows};
ghost use Rattle.accounts.specs.Planned.{IsFirst, IsPlanned, IsStop, state_on};
ghost use Rattle.accounts.specs.Shelved.{HasShelf};

use crate::book::Book;
use crate::plan::{EditFault, Plan, when};
use crate::shelf::Shelf;
use desk_types::limits::ACCOUNTS_MAX;
use desk_types::{Account, Change, Field, Refusal, Reply, is_key};
use query_words::{Text, Twin};

impl Book {
    /// The rows of an advertiser's account, whose key fits.
    #[tactic(auto, using(crate::proofs::Rows::owner_passes, crate::proofs::Rows::owner_stops, crate::proofs::Rows::owner_unknown))]
    pub(crate) fn owner(&self, account: u64, key: &Text) -> Result<&Shelf, EditFault>
        ensures shelf { IfOk result (λ s. HasShelf self.now.tables account s.now) }
        ensures passed { IfOk result (λ s. first (owner_rows self.now.tables account key.now) ≡ None) }
        ensures stopped { IfErr result (IsFirst (owner_rows self.now.tables account key.now)) }
    {
        let Some(shelf) = self.shelf(account) else {
            return Err(EditFault::Refused(Refusal::NoAccount));
        };
        if shelf.account.key != *key {
            return Err(EditFault::Refused(Refusal::BadKey));
        }
        Ok(shelf)
    }
}
