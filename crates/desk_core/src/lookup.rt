//! The lines of a desk by their numbers.

ghost use Rattle.std.specs.Prelude.{◌≡◌, IsTrue, is_some};
ghost use Rattle.desk_types.specs.Tables.{line_of};

use crate::ledger::Ledger;
use desk_types::Line;

impl Ledger {
    /// The line of an account and a number that is there.
    pub(crate) fn line_there(&self, account: u64, line: u64) -> &Line
        requires { IsTrue (is_some (line_of self.now.state.tables account line)) }
        ensures { line_of self.now.state.tables account line ≡ Some result.now }
    {
        match self.book.line(account, line) {
            Some(line) => line,
            None => unreachable!(),
        }
    }
}
