//! What the words tell.

use crate::command::Command;
use desk_types::Settings;
use query_words::{NoMemory as WantOfMemory, Text};
use thiserror::Error;

/// What the words tell. For a command that does not have it, a number is zero, a text is `None`, and
/// the settings are the usual ones.
#[derive(Debug, Drop)]
pub struct Told {
    /// The command, which is the first word.
    pub command: Command,
    /// The settings of the desk, of `script`, `run` and `serve`; those not given are the usual ones.
    pub settings: Settings,
    /// The file of the desk's rows. No command has one at present.
    pub db: Option<Text>,
    /// The host's key, of `run` and `serve`: 8 to 64 visible ASCII bytes.
    pub host_key: Option<Text>,
    /// The port to listen at, of `serve`: 1 to 65,535.
    pub port: u64,
    /// How many workers serve, of `serve`: 1 to 8.
    pub workers: u64,
    /// How many sessions each worker serves, of `serve`: 1 to 1,000,000, or 1,000 where none is given.
    pub sessions: u64,
    /// The number that the drill starts from, of `drill`: below 2^31.
    pub start: u64,
    /// The size of the drill, of `drill`: at most 1,000.
    pub size: u64,
}

/// Why words tell nothing.
#[derive(Clone, Copy, Debug, PartialEq, Eq, Error)]
pub enum WordsFault {
    /// The first word is no command, or the words behind it are not those of the command, or a value among them is out of
    /// its range.
    #[error("the words are refused")]
    Refused,
    /// Memory was wanted.
    #[error("no memory")]
    NoMemory,
}

impl From<WantOfMemory> for WordsFault {
    ghost use Rattle.std.specs.Prelude.{◌≡◌};
    ghost use Rattle.command_line.specs.declared.told.WordsFault.TheVariants.{NoMemory};

    ghost from_gives = { λ _ fault. fault ≡ NoMemory };

    fn from(_: WantOfMemory) -> Self {
        WordsFault::NoMemory
    }
}
