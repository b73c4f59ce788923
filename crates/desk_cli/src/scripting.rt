//! The command `script`.

ghost use Rattle.std.specs.Prelude.{◌≡◌, ◌≤◌, [], IfSome};
ghost use Rattle.desk_core.specs.DeskValue.{IsRunOfLedger};
ghost use Rattle.desk_core.specs.SoloValue.{AreOwn};
ghost use Rattle.printouts.specs.CallState.{call_at};
ghost use Rattle.desk_cli.specs.ScriptCall.{IsLastSaid, IsScriptServed, ScriptEnds};
ghost use Rattle.desk_cli.specs.Throughout.{HoldsThroughout};
ghost use Rattle.desk_cli.specs.Work.{IsSameOpening, handed, left_by};

use crate::opening::open_desk;
use crate::served::{Served, with_desk, without_desk};
use desk_core::{Desk, Solo};
use desk_io::{LineFault, Piece, Sink, Source};
use desk_keeper::Keeper;
use desk_types::Settings;
use printouts::{ENDED, NO_MEMORY, READ_FAULT, WRITE_FAULT, say, say_fault};
use script_api::{ScriptEnd, script};
use std::alloc::Global;

/// Opens a desk on the keeper, runs the script of the input on it, for the caller 1, and says how it ended; or says why no
/// desk was opened.
pub fn serve_script<S: Source, T: Sink, K: Keeper>(
    alloc: Global,
    settings: Settings,
    input: &mut S,
    output: &mut T,
    keeper: K,
) -> Served<K>
    ensures ends { ScriptEnds (handed settings (K.keeper keeper)) (call_at (S.source input.old) (T.sink output.old))
        (call_at (S.source input.new) (T.sink output.new)) (left_by K.keeper result) }
    ensures all_read { result.status ≡ ENDED → IfSome (S.source input.new).left (λ bytes. bytes ≡ []) }
    ensures read_faults { (S.source input.old).faults ≤ (S.source input.new).faults }
    ensures write_faults { (T.sink output.old).faults ≤ (T.sink output.new).faults }
    ensures sink_side { S.sink_side input.new ≡ S.sink_side input.old }
    ensures source_side { T.source_side output.new ≡ T.source_side output.old }
{
    match open_desk(alloc, settings, output, keeper) {
        Ok(desk) => {
            let (status, desk) = run_script(alloc, input, output, desk);
            with_desk(status, desk)
        }
        Err(unopened) => without_desk(unopened.status, unopened.keeper),
    }
}

/// Runs the script of the input on a desk without entries, for the caller 1, and says how it ended.
fn run_script<S: Source, T: Sink, K: Keeper>(
    alloc: Global,
    input: &mut S,
    output: &mut T,
    desk: Desk<K>,
) -> (u8, Desk<K>)
    requires empty { desk.log ≡ [] }
    ensures opening { IsSameOpening desk result.1 }
    ensures of_ledger { IsRunOfLedger result.1 }
    ensures own { AreOwn 1 result.1.log }
    ensures served { IsScriptServed (call_at (S.source input.old) (T.sink output.old))
        (call_at (S.source input.new) (T.sink output.new)) result.1 result.0 }
    ensures throughout { HoldsThroughout result.1 }
    ensures all_read { result.0 ≡ ENDED → IfSome (S.source input.new).left (λ bytes. bytes ≡ []) }
    ensures read_faults { (S.source input.old).faults ≤ (S.source input.new).faults }
    ensures write_faults { (T.sink output.old).faults ≤ (T.sink output.new).faults }
    ensures sink_side { S.sink_side input.new ≡ S.sink_side input.old }
    ensures source_side { T.source_side output.new ≡ T.source_side output.old }
{
    let mut service = Solo::new(desk, 1);
    let end = script(alloc, &mut service, input, output);
    let status = say_end(alloc, output, end);
    let desk = service.end();
    let _log = desk.log();
    (status, desk)
}

/// Says how a script ended, where that has a line, and answers the status.
fn say_end<T: Sink>(alloc: Global, output: &mut T, end: ScriptEnd) -> u8
    ensures said { IsLastSaid (T.sink output.old) (T.sink output.new) end result }
    ensures ended { result ≡ ENDED → end ≡ ScriptEnd.Ended }
    ensures faults { (T.sink output.old).faults ≤ (T.sink output.new).faults }
    ensures source_side { T.source_side output.new ≡ T.source_side output.old }
{
    match end {
        ScriptEnd::Ended => ENDED,
        ScriptEnd::WriteFault => WRITE_FAULT,
        ScriptEnd::NoMemory => NO_MEMORY,
        ScriptEnd::BadLine(number) => say_fault(alloc, output, LineFault::BadLine(number)),
        ScriptEnd::LongLine(number) => say_fault(alloc, output, LineFault::LongLine(number)),
        ScriptEnd::TooManyLines => say_fault(alloc, output, LineFault::TooManyLines),
        ScriptEnd::ReadFault => say(alloc, output, &[Piece::Text("read fault\n")], READ_FAULT),
    }
}
