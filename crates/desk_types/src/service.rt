//! A service: something that answers calls, for one caller, in a history that others may share.

ghost use Rattle.std.specs.Prelude.{◌≡◌, IsTrue};
ghost use Rattle.desk_types.specs.Journal.{IsLegal};
ghost use Rattle.desk_types.specs.Serving.{Serves, HasNoFault};

use crate::call::Call;
use crate::entry::Fault;
use crate::reply::Reply;

/// Answers calls of one caller. What it has seen is a legal list of entries: those of its caller, and
/// those of others that came between.
pub trait Service {
    ghost use Rattle.desk_types.specs.Serving.{ServiceView};

    /// What `home` is of: plain data that says what is served.
    type Home;

    /// What it serves.
    ghost home: { Self → Self.Home };

    /// Its caller, the state before all entries, the entries that it has seen, and whether its keeper never fails.
    ghost service: { Self → ServiceView };

    /// A law, with nothing to run: what it has seen is a legal list, and has no fault where it is sure.
    fn history_is_legal(&self)
        ensures legal { IsLegal (service self.now).opening.settings (service self.now).seen }
        ensures sure { IsTrue (service self.now).sure → HasNoFault (service self.now).seen };

    /// Makes a call at a moment, in seconds. Entries of others may come before it.
    ///
    /// `Ok` is the ledger's answer, and `Fault::Keeper` comes only where the keeper failed, of which
    /// the caller's next entry tells. `Fault::JournalFull` comes exactly where the entries seen have
    /// no room for the call, but that `Fault::NoMemory` may come in its place; these two put no entry.
    fn call(&mut self, moment: u64, call: Call) -> Result<Reply, Fault>
        ensures home { home self.new ≡ home self.old }
        ensures serves { Serves (service self.old) moment call result (service self.new) };
}
