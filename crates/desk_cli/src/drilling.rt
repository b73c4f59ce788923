//! The command `drill`.

ghost use Rattle.std.specs.Prelude.{◌≡◌, ◌≤◌, ◌<◌, ◌^◌, []};
ghost use Rattle.desk_core.specs.DeskValue.{IsRunOfLedger};
ghost use Rattle.desk_core.specs.SoloValue.{AreOwn};
ghost use Rattle.desk_io.specs.SourceView.{SourceView};
ghost use Rattle.printouts.specs.CallState.{call_at};
ghost use Rattle.printouts.specs.Saying.{IsWritten};
ghost use Rattle.desk_cli.specs.DrillCall.{DrillEnds, IsDrillServed};
ghost use Rattle.desk_cli.specs.Saying.{summary_printout};
ghost use Rattle.desk_cli.specs.Throughout.{HoldsThroughout};
ghost use Rattle.desk_cli.specs.Work.{IsSameOpening, handed, left_by};

use crate::opening::open_desk;
use crate::saying::summary_pieces;
use crate::served::{Served, with_desk, without_desk};
use desk_core::{Desk, Solo};
use desk_io::Sink;
use desk_keeper::Keeper;
use desk_types::{Settings, Summary};
use drill_calls::drill;
use printouts::{ENDED, NO_MEMORY, say};
use std::alloc::Global;

/// Opens a desk on the keeper, makes a drill on it, for the caller 1, and writes the summary of its journal; or says why no
/// desk was opened.
pub fn serve_drill<T: Sink, K: Keeper>(
    alloc: Global,
    settings: Settings,
    start: u64,
    size: u64,
    output: &mut T,
    keeper: K,
) -> Served<K>
    requires start { start < 2 ^ 31 }
    requires size { size ≤ 1000 }
    ensures ends { (source : SourceView) → DrillEnds (record { start = start; size = size })
        (handed settings (K.keeper keeper)) (call_at source (T.sink output.old))
        (call_at source (T.sink output.new)) (left_by K.keeper result) }
    ensures write_faults { (T.sink output.old).faults ≤ (T.sink output.new).faults }
    ensures source_side { T.source_side output.new ≡ T.source_side output.old }
{
    match open_desk(alloc, settings, output, keeper) {
        Ok(desk) => {
            let (status, desk) = run_drill(alloc, start, size, output, desk);
            with_desk(status, desk)
        }
        Err(unopened) => without_desk(unopened.status, unopened.keeper),
    }
}

/// Makes a drill on a desk without entries, for the caller 1, and writes the summary.
fn run_drill<T: Sink, K: Keeper>(
    alloc: Global,
    start: u64,
    size: u64,
    output: &mut T,
    desk: Desk<K>,
) -> (u8, Desk<K>)
    requires empty { desk.log ≡ [] }
    requires start { start < 2 ^ 31 }
    requires size { size ≤ 1000 }
    ensures opening { IsSameOpening desk result.1 }
    ensures of_ledger { IsRunOfLedger result.1 }
    ensures own { AreOwn 1 result.1.log }
    ensures served { IsDrillServed (record { start = start; size = size }) (T.sink output.old) (T.sink output.new)
        result.1 result.0 }
    ensures throughout { HoldsThroughout result.1 }
    ensures write_faults { (T.sink output.old).faults ≤ (T.sink output.new).faults }
    ensures source_side { T.source_side output.new ≡ T.source_side output.old }
{
    let mut service = Solo::new(desk, 1);
    let drilled = drill(alloc, &mut service, start, size);
    let desk = service.end();
    let _log = desk.log();
    match drilled {
        Ok(()) => (say_summary(alloc, output, desk.summary()), desk),
        Err(_) => (NO_MEMORY, desk),
    }
}

/// Writes the line of a summary.
fn say_summary<T: Sink>(alloc: Global, output: &mut T, summary: Summary) -> u8
    ensures written { IsWritten (T.sink output.old) (T.sink output.new) (summary_printout summary) result }
    ensures faults { (T.sink output.old).faults ≤ (T.sink output.new).faults }
    ensures source_side { T.source_side output.new ≡ T.source_side output.old }
{
    say(alloc, output, &summary_pieces(summary), ENDED)
}
