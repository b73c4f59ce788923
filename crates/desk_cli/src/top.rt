//! The call that the program makes.

ghost use Rattle.std.specs.Prelude.{◌≡◌, ◌≢◌, ◌≤◌, map, string_bytes};
ghost use Rattle.command_line.specs.Reading.{IsWellTold};
ghost use Rattle.command_line.specs.declared.command.Command.{Command};
ghost use Rattle.printouts.specs.CallState.{call_at};
ghost use Rattle.desk_cli.specs.TopCall.{CallEnds, CommandEnds, TellNoRun};
ghost use Rattle.desk_cli.specs.Work.{left_by};

use crate::drilling::serve_drill;
use crate::saying::say_refused;
use crate::scripting::serve_script;
use crate::served::{Served, without_desk};
use crate::sessions::serve_run;
use auction_page::serve_auction;
use command_line::{Command, Told, WordsFault, desk_words};
use desk_io::{Clock, Sink, Source};
use desk_keeper::Keeper;
use printouts::NO_MEMORY;
use std::alloc::Global;

/// Runs the command that the words tell, and answers the status of the process with the desk that
/// was served, where one was opened, or else with the keeper.
///
/// `auction` reads an auction from the input and writes its page, or a line that says why there is
/// none. `script` opens a desk on the rows that the keeper holds, reads a script, makes its calls, and writes the line of
/// each answer. `run --host-key KEY` opens such a desk and serves one session of HTTP, at the moments of the clock; what
/// is the host's is open to this key. `drill START SIZE` opens such a desk, makes the calls of a drill on it and writes
/// the summary of its journal. Other words are refused, and so is `serve`, which is another call's. Where no desk is
/// opened, nothing of the input is read but by `auction`, and the keeper holds what it held.
///
/// | Status | Comes | Line written last |
/// |---|---|---|
/// | 0 | the input is an auction, a script that no line ends, or messages up to the end or to one that closes; or a drill was made | - |
/// | 2 | the words tell none of these commands | `words refused` |
/// | 3 | a read failed behind no line that ends it: the input's count of faults rose | `read fault`, but behind a session |
/// | 4 | a write failed: the output's count of faults rose | - |
/// | 5 | want of memory, other than in a call of the desk under `script` and `run` | - |
/// | 6 | the tables that the keeper loaded break a rule | `bad tables RULE TABLE ROW` |
/// | 7 | the keeper failed while its tables were loaded: its count of faults rose | `keeper fault` |
/// | 8 | a line in no form, or the end before the heading of an auction | `bad line K` |
/// | 8 | a message that cannot be served, or that is cut short | - |
/// | 9 | a line of more than 4,096 bytes, or more than 1,000,000 lines or 10,000 ads | `long line K` or `too many lines` |
/// | 9 | the 10,000th message of a session | - |
pub fn desk_top<S: Source, T: Sink, K: Keeper, C: Clock>(
    alloc: Global,
    words: &[String],
    input: &mut S,
    output: &mut T,
    keeper: K,
    clock: &mut C,
) -> Served<K>
    ensures ended { CallEnds (map string_bytes words.now) (record {
      keeper = K.keeper keeper;
      before = call_at (S.source input.old) (T.sink output.old);
      after = call_at (S.source input.new) (T.sink output.new);
      moments = C.moments clock.old;
      moments_now = C.moments clock.new;
      left = left_by K.keeper result;
    }) }
    ensures read_faults { (S.source input.old).faults ≤ (S.source input.new).faults }
    ensures write_faults { (T.sink output.old).faults ≤ (T.sink output.new).faults }
    ensures sink_side { TellNoRun (map string_bytes words.now) → S.sink_side input.new ≡ S.sink_side input.old }
    ensures source_side { TellNoRun (map string_bytes words.now) → T.source_side output.new ≡ T.source_side output.old }
{
    match desk_words(alloc, words) {
        Ok(told) => work(alloc, &told, input, output, keeper, clock),
        Err(WordsFault::Refused) => {
            let status = say_refused(alloc, output);
            without_desk(status, keeper)
        }
        Err(WordsFault::NoMemory) => without_desk(NO_MEMORY, keeper),
    }
}

/// Runs the command that was told.
fn work<S: Source, T: Sink, K: Keeper, C: Clock>(
    alloc: Global,
    told: &Told,
    input: &mut S,
    output: &mut T,
    keeper: K,
    clock: &mut C,
) -> Served<K>
    requires well_told { IsWellTold told.now }
    ensures ended { CommandEnds told.now.command told.now (record {
      keeper = K.keeper keeper;
      before = call_at (S.source input.old) (T.sink output.old);
      after = call_at (S.source input.new) (T.sink output.new);
      moments = C.moments clock.old;
      moments_now = C.moments clock.new;
      left = left_by K.keeper result;
    }) }
    ensures read_faults { (S.source input.old).faults ≤ (S.source input.new).faults }
    ensures write_faults { (T.sink output.old).faults ≤ (T.sink output.new).faults }
    ensures sink_side { told.now.command ≢ Command.Run → S.sink_side input.new ≡ S.sink_side input.old }
    ensures source_side { told.now.command ≢ Command.Run → T.source_side output.new ≡ T.source_side output.old }
{
    match (told.command, &told.host_key) {
        (Command::Auction, _) => {
            let status = serve_auction(alloc, input, output);
            without_desk(status, keeper)
        }
        (Command::Script, _) => serve_script(alloc, told.settings, input, output, keeper),
        (Command::Run, Some(key)) => {
            serve_run(alloc, told.settings, key, input, output, keeper, clock)
        }
        (Command::Drill, _) => {
            serve_drill(alloc, told.settings, told.start, told.size, output, keeper)
        }
        (Command::Serve | Command::Run, _) => {
            let status = say_refused(alloc, output);
            without_desk(status, keeper)
        }
    }
}
