//! The running of a script.

ghost use Rattle.std.specs.Prelude.{◌≡◌, ◌≤◌, [], IfSome};
ghost use Rattle.desk_types.specs.Serving.{with_seen};
ghost use Rattle.script_api.specs.ScriptRun.{script_at, IsRun, EndCause, kind_of};

use crate::ending::ScriptEnd;
use crate::serving::LineServing;
use desk_io::{Sink, Source};
use desk_types::Service;
use std::alloc::Global;

/// Runs the script that the input holds on a service: it reads the lines in order, makes the call
/// of each at its moment, in seconds, and writes the line of its answer. The lines that wait are
/// written before more of the input is read.
///
/// A line is judged by its number, then by its length, then, where it is not passed over, by its
/// form; the first that fails ends the script before its call is made. The lines of all answers are
/// written; only after `WriteFault` a beginning of them and not all.
///
/// | End | Comes |
/// |---|---|
/// | `Ended` | no line ends the script, and nothing is left of the input |
/// | `BadLine`, `LongLine`, `TooManyLines` | the first line that fails ends the script so |
/// | `ReadFault` | a read failed, the input's count of faults rose, and no line read before ends the script |
/// | `WriteFault` | a write failed, and the output's count of faults rose |
/// | `NoMemory` | want of memory before the next call |
pub fn script<V: Service, S: Source, T: Sink>(
    alloc: Global,
    service: &mut V,
    input: &mut S,
    output: &mut T,
) -> ScriptEnd
    ensures home { V.home service.new ≡ V.home service.old }
    ensures service { V.service service.new ≡ with_seen (V.service service.old) (V.service service.new).seen }
    ensures run { IsRun (script_at (V.service service.old) (S.source input.old) (T.sink output.old))
        (script_at (V.service service.new) (S.source input.new) (T.sink output.new)) result }
    ensures all_read { result ≡ ScriptEnd.Ended → IfSome (S.source input.new).left (λ bytes. bytes ≡ []) }
    ensures cause { EndCause (kind_of result)
        (S.source input.old) (S.source input.new) (T.sink output.old) (T.sink output.new) }
    ensures read_faults { (S.source input.old).faults ≤ (S.source input.new).faults }
    ensures write_faults { (T.sink output.old).faults ≤ (T.sink output.new).faults }
    ensures sink_side { S.sink_side input.new ≡ S.sink_side input.old }
    ensures source_side { T.source_side output.new ≡ T.source_side output.old }
{
    service.history_is_legal();
    let Ok(mut serving) = LineServing::new(alloc) else {
        return ScriptEnd::NoMemory;
    };
    match serving.serve_lines(service, input, output) {
        Ok(end) => end,
        Err(_) => ScriptEnd::WriteFault,
    }
}
