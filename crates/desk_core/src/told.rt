//! What a call is told, of which its reply is made.

ghost use Rattle.std.specs.Prelude.{◌≡◌};
ghost use Rattle.desk_types.specs.declared.tables.Tables.{Tables};
ghost use Rattle.desk_core.specs.DeskValue.{state};
ghost use Rattle.desk_core.specs.Told.{HasNoLink, IsThere, replied};

use crate::desk::Desk;
use desk_keeper::Keeper;
use desk_types::{DayReport, HostDay, Refusal, Reply, ShownRow, Spot};
use query_words::List;

/// What a call is told. A link, which has room for 512 bytes in itself, is told by its line, so that it is copied into the
/// reply alone.
#[derive(Drop)]
pub enum Told {
    /// A thing was made, of this number.
    Made(u64),
    /// It was done.
    Done,
    /// Lines were imported.
    Imported {
        /// The number of the first line.
        first: u64,
        /// How many there are.
        count: u64,
    },
    /// A click is credited, for this price in cents.
    Credited(u64),
    /// The host's numbers of a day.
    HostDay(HostDay),
    /// An account's numbers of a day.
    Day(DayReport),
    /// Placements of an account.
    ShownRows(List<ShownRow>),
    /// The page.
    Page(List<Spot>),
    /// The click goes to the link of this line.
    Link {
        /// The account's number.
        account: u64,
        /// The line's number within the account.
        line: u64,
    },
    /// It was refused.
    Refused(Refusal),
}

impl Told {
    /// What is told of a reply that goes to no link.
    pub fn of(reply: Reply) -> Told
        requires { HasNoLink reply }
        ensures replied { (T : Tables) → replied T result ≡ reply }
        ensures there { (T : Tables) → IsThere T result }
    {
        match reply {
            Reply::Made(number) => Told::Made(number),
            Reply::Done => Told::Done,
            Reply::Imported { first, count } => Told::Imported { first, count },
            Reply::Credited(price) => Told::Credited(price),
            Reply::HostDay(numbers) => Told::HostDay(numbers),
            Reply::Day(report) => Told::Day(report),
            Reply::ShownRows(rows) => Told::ShownRows(rows),
            Reply::Page(spots) => Told::Page(spots),
            Reply::Refused(refusal) => Told::Refused(refusal),
            Reply::Went(_) => unreachable!(),
        }
    }
}

impl<K: Keeper> Desk<K> {
    /// The reply that is told, as the rows stand. It takes no memory.
    pub(crate) fn reply(&self, told: Told) -> Reply
        requires { IsThere (state self.now).tables told }
        ensures { result ≡ replied (state self.now).tables told }
    {
        match told {
            Told::Made(number) => Reply::Made(number),
            Told::Done => Reply::Done,
            Told::Imported { first, count } => Reply::Imported { first, count },
            Told::Credited(price) => Reply::Credited(price),
            Told::HostDay(numbers) => Reply::HostDay(numbers),
            Told::Day(report) => Reply::Day(report),
            Told::ShownRows(rows) => Reply::ShownRows(rows),
            Told::Page(spots) => Reply::Page(spots),
            Told::Link { account, line } => Reply::Went(self.line_there(account, line).link.copy()),
            Told::Refused(refusal) => Reply::Refused(refusal),
        }
    }
}
