//! What a line of a script spells.

ghost use Rattle.std.specs.Prelude.{◌≡◌, IfOk, MatchOption, Some, None};
ghost use Rattle.script_api.specs.Script.{script_line, spelled_by_text, spelled_at};

use crate::call::read_call;
use crate::command::call_word;
use crate::fields::{first_field, without_end_spaces};
use desk_io::number::number;
use desk_types::Call;
use query_words::NoMemory;
use std::alloc::Global;

/// What a line of a script spells that is not passed over.
#[derive(Debug, Drop)]
pub enum ScriptLine {
    /// A call at a moment, in seconds.
    Timed {
        /// The moment.
        moment: u64,
        /// The call.
        call: Call,
    },
    /// The line is in no form.
    Bad,
}

/// What a line spells: `MOMENT COMMAND` and what the command asks for. The bytes are a line without
/// its end. `NoMemory` is want of memory for the texts of a call.
#[tactic(auto, unfolding(crate::specs::Script::script_line), using(crate::proofs::LineLemmas::tests_utf8))]
pub fn read_line(alloc: Global, line: &[u8]) -> Result<ScriptLine, NoMemory>
    ensures { IfOk result (λ spelled. spelled ≡ script_line line.now) }
{
    let Ok(text) = str::from_utf8(line) else {
        return Ok(ScriptLine::Bad);
    };
    if text.starts_with(' ') {
        return Ok(ScriptLine::Bad);
    }
    read_text(alloc, without_end_spaces(text))
}

/// What a text without spaces at its ends spells.
#[tactic(auto, unfolding(crate::specs::Script::spelled_by_text))]
fn read_text(alloc: Global, text: &str) -> Result<ScriptLine, NoMemory>
    ensures { IfOk result (λ spelled. spelled ≡ spelled_by_text text.now) }
{
    let Some((moment, command, rest)) = timed_command(text) else {
        return Ok(ScriptLine::Bad);
    };
    let Some(word) = call_word(command) else {
        return Ok(ScriptLine::Bad);
    };
    match read_call(word, rest) {
        Some(parts) => Ok(ScriptLine::Timed {
            moment,
            call: parts.call(alloc)?,
        }),
        None => Ok(ScriptLine::Bad),
    }
}

/// The moment of a text, its command and what stands behind them, or `None` where it has no such two fields.
#[tactic(auto, unfolding(crate::specs::Script::spelled_by_text))]
fn timed_command(text: &str) -> Option<(u64, &str, &str)>
    ensures { MatchOption result (spelled_by_text text.now ≡ ScriptLine.Bad)
        (λ cut. spelled_by_text text.now ≡ spelled_at (Some cut.0) cut.1.now cut.2.now) }
{
    let (moment, rest) = first_field(text)?;
    let (command, rest) = first_field(rest)?;
    Some((number(moment)?, command, rest))
}
