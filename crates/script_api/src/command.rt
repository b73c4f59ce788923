//! The commands of a script, by their words.

ghost use Rattle.std.specs.Prelude.{◌≡◌};
ghost use Rattle.script_api.specs.Command.{call_named};

/// A command, by which a call is made.
#[derive(Clone, Copy, Debug, PartialEq, Eq)]
pub enum CallWord {
    Account,
    Quality,
    Suspend,
    Credit,
    Host,
    Campaign,
    Budget,
    Line,
    Bid,
    Pause,
    Negative,
    Drop,
    Report,
    Shown,
    Search,
    Click,
}

/// The command of a word. Those of which a day has most are looked for first.
#[tactic(auto, unfolding(crate::specs::Command::call_named))]
pub fn call_word(word: &str) -> Option<CallWord>
    ensures { result ≡ call_named word.now }
{
    match word {
        "click" => Some(CallWord::Click),
        "search" => Some(CallWord::Search),
        "account" => Some(CallWord::Account),
        "quality" => Some(CallWord::Quality),
        "suspend" => Some(CallWord::Suspend),
        "credit" => Some(CallWord::Credit),
        "host" => Some(CallWord::Host),
        "campaign" => Some(CallWord::Campaign),
        "budget" => Some(CallWord::Budget),
        "line" => Some(CallWord::Line),
        "bid" => Some(CallWord::Bid),
        "pause" => Some(CallWord::Pause),
        "negative" => Some(CallWord::Negative),
        "drop" => Some(CallWord::Drop),
        "report" => Some(CallWord::Report),
        "shown" => Some(CallWord::Shown),
        _ => None,
    }
}
