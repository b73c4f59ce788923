//! A desk that serves one caller.

ghost use Rattle.std.specs.Prelude.{◌≡◌};
ghost use Rattle.desk_core.specs.SoloValue.{AreOwn};

use crate::desk::Desk;
use crate::name::DeskName;
use crate::told::Told;
use desk_keeper::Keeper;
use desk_types::{Call, Fault, Reply, Service};
use std::marker::Model;

/// A desk that serves one caller. Contracts see it as the desk and the caller's number; each entry of
/// the desk's journal is the caller's.
#[derive(Drop)]
pub struct Solo<K: Keeper> {
    desk: Desk<K>,
    caller: u64,
}

impl<K: Keeper> Model for Solo<K> {
    ghost use Rattle.desk_core.specs.SoloValue.{SoloValue, AreOwn};

    ghost Value = { SoloValue };

    ghost view = { λ s. record { desk = s.desk; caller = s.caller } };

    ghost invariant = { λ s. AreOwn s.caller s.desk.log };
}

impl<K: Keeper> Solo<K> {
    /// A service of this caller over a desk whose journal has no entries of others.
    pub fn new(desk: Desk<K>, caller: u64) -> Solo<K>
        requires own { AreOwn caller desk.log }
        ensures desk { result.desk ≡ desk }
        ensures caller { result.caller ≡ caller }
    {
        Solo { desk, caller }
    }

    /// The desk as it stands. Each entry of its journal is the caller's.
    pub fn end(self) -> Desk<K>
        ensures desk { result ≡ self.desk }
        ensures own { AreOwn self.caller result.log }
    {
        let Solo { desk, caller: _ } = self;
        desk
    }
}

impl<K: Keeper> Service for Solo<K> {
    ghost use Rattle.desk_core.specs.DeskValue.{name_of, service_of};

    type Home = DeskName;

    ghost home = { λ s. name_of s.desk };

    ghost service = { λ s. service_of s.caller s.desk };

    fn history_is_legal(&self) {
        let _log = self.desk.log();
    }

    fn call(&mut self, moment: u64, call: Call) -> Result<Reply, Fault> {
        match self.desk.tell(self.caller, moment, call) {
            // A link is copied into the reply here, since each further function would move its 512 bytes again.
            Ok(Told::Link { account, line }) => {
                Ok(Reply::Went(self.desk.line_there(account, line).link.copy()))
            }
            Ok(told) => Ok(self.desk.reply(told)),
            Err(fault) => Err(fault),
        }
    }
}
