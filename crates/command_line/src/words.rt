//! What the words of the program tell.

ghost use Rattle.std.specs.Prelude.{◌≡◌, map, string_bytes, IfOk, Some, None, Err};
ghost use Rattle.command_line.specs.Reading.{command_in, IsWellTold, told_by_words};

use crate::command::{Command, command_of};
use crate::options::parse;
use crate::told::{Told, WordsFault};
use crate::values::tell;
use std::alloc::Global;

/// What the words tell: the first is a command, and the rest is as follows.
///
/// | Command | Words |
/// |---|---|
/// | `auction` | none |
/// | `script` | settings |
/// | `run` | settings, and `--host-key KEY` |
/// | `drill` | `START SIZE`: a number below 2^31, and one of 0 to 1,000 |
/// | `serve` | settings, `--host-key KEY`, `--port N` (1 to 65,535), `--workers N` (1 to 8), and `--sessions N` (1 to 1,000,000; else 1,000) |
///
/// Settings, and sessions, may be left out; the rest may not. They are `--reserve N` (1 to 1,000,000 cents per click),
/// `--floor N` (at most 100,000,000), `--places N` (1 to 8), `--journal N` (1 to 4,000,000 entries), `--journal-bytes N`
/// (1 to 1,000,000,000) and `--placements N` (1 to 2,000,000). Options come in any order, each at most once, as
/// `--places 5` or `--places=5`; `--` ends them. Numbers are decimal, without sign and without leading zeros. A key is 8
/// to 64 visible ASCII bytes.
///
/// `WordsFault::Refused` comes exactly where the words tell nothing, but for want of memory: for all other words,
/// `--help` among them.
pub fn desk_words(alloc: Global, words: &[String]) -> Result<Told, WordsFault>
    ensures told { IfOk result (λ told. told_by_words (map string_bytes words.now) ≡ Some told) }
    ensures refused { result ≡ Err WordsFault.Refused → told_by_words (map string_bytes words.now) ≡ None }
    ensures well { IfOk result IsWellTold }
{
    let Some(command) = first_command(words) else {
        return Err(WordsFault::Refused);
    };
    let matches = parse(alloc, command, words)?;
    tell(alloc, command, &matches)
}

/// The command that the first word names.
fn first_command(words: &[String]) -> Option<Command>
    ensures { result ≡ command_in (map string_bytes words.now) }
{
    command_of(words.first()?.as_str())
}
