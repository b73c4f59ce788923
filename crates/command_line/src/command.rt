//! The commands of the program, by their names.

ghost use Rattle.std.specs.Prelude.{◌≡◌};
ghost use Rattle.command_line.specs.Options.{command_named};

/// A command of the program.
#[derive(Clone, Copy, Debug, PartialEq, Eq)]
pub enum Command {
    /// Reads one auction and writes its page.
    Auction,
    /// Reads a script and makes its calls.
    Script,
    /// Serves one session of HTTP over input and output.
    Run,
    /// Makes the calls of a drill.
    Drill,
    /// Serves sessions of HTTP at a port.
    Serve,
}

/// The command of a word, if it is the name of one.
#[tactic(auto, unfolding(crate::specs::Options::command_named))]
pub(crate) fn command_of(word: &str) -> Option<Command>
    ensures { result ≡ command_named word.now }
{
    match word {
        "auction" => Some(Command::Auction),
        "script" => Some(Command::Script),
        "run" => Some(Command::Run),
        "drill" => Some(Command::Drill),
        "serve" => Some(Command::Serve),
        _ => None,
    }
}
