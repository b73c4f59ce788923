//! The opening of the desk of a call.

ghost use Rattle.std.specs.Prelude.{◌≡◌, ◌≢◌, ◌≤◌, [], IfOk, IfErr, IsOk};
ghost use Rattle.desk_keeper.specs.KeeperView.{KeeperView};
ghost use Rattle.desk_core.specs.Opened.{HoldsAsBefore, IsOpened, IsUnopened};
ghost use Rattle.printouts.specs.Saying.{IsWritten};
ghost use Rattle.desk_cli.specs.Saying.{bad_tables_printout};
ghost use Rattle.desk_cli.specs.Work.{SaysUnopened};

use desk_core::{Desk, OpenFault};
use desk_io::{Piece, Sink};
use desk_keeper::{BadTables, Keeper};
use desk_types::Settings;
use printouts::{BAD_TABLES, ENDED, KEEPER_FAULT, NO_MEMORY, say};
use std::alloc::Global;

/// Why no desk was opened: the status, when that was said, and the keeper.
#[derive(Drop)]
pub struct Unopened<K: Keeper> {
    pub status: u8,
    pub keeper: K,
}

/// Opens a desk on the keeper, or says why none was opened.
pub fn open_desk<T: Sink, K: Keeper>(
    alloc: Global,
    settings: Settings,
    output: &mut T,
    keeper: K,
) -> Result<Desk<K>, Unopened<K>>
    ensures opened { IfOk result (IsOpened (K.keeper keeper) settings) }
    ensures silent { IsOk result → T.sink output.new ≡ T.sink output.old }
    ensures back { IfErr result (λ u. HoldsAsBefore (K.keeper keeper) (K.keeper u.keeper)) }
    ensures said { IfErr result (λ u.
        SaysUnopened (K.keeper keeper) (K.keeper u.keeper) (T.sink output.old) (T.sink output.new) u.status) }
    ensures unended { IfErr result (λ u. u.status ≢ ENDED) }
    ensures faults { (T.sink output.old).faults ≤ (T.sink output.new).faults }
    ensures source_side { T.source_side output.new ≡ T.source_side output.old }
{
    match Desk::open(alloc, keeper, settings) {
        Ok(desk) => Ok(desk),
        Err(fault) => Err(say_unopened(alloc, output, fault)),
    }
}

/// Says why no desk was opened.
fn say_unopened<T: Sink, K: Keeper>(
    alloc: Global,
    output: &mut T,
    fault: OpenFault<K>,
) -> Unopened<K>
    ensures said { (keeper : KeeperView) → IsUnopened K.keeper keeper fault →
        SaysUnopened keeper (K.keeper result.keeper) (T.sink output.old) (T.sink output.new) result.status }
    ensures back { (keeper : KeeperView) → IsUnopened K.keeper keeper fault
        → HoldsAsBefore keeper (K.keeper result.keeper) }
    ensures unended { result.status ≢ ENDED }
    ensures faults { (T.sink output.old).faults ≤ (T.sink output.new).faults }
    ensures source_side { T.source_side output.new ≡ T.source_side output.old }
{
    match fault {
        OpenFault::Keeper(keeper) => {
            let status = say(
                alloc,
                output,
                &[Piece::Text("keeper fault\n")],
                KEEPER_FAULT,
            );
            Unopened { status, keeper }
        }
        OpenFault::BadTables(keeper, bad) => {
            let status = say_bad_tables(alloc, output, bad);
            Unopened { status, keeper }
        }
        OpenFault::NoMemory(keeper) => Unopened {
            status: NO_MEMORY,
            keeper,
        },
    }
}

/// Says which rule the tables break first, and where.
fn say_bad_tables<T: Sink>(alloc: Global, output: &mut T, bad: BadTables) -> u8
    ensures written { IsWritten (T.sink output.old) (T.sink output.new) (bad_tables_printout bad) result }
    ensures faults { (T.sink output.old).faults ≤ (T.sink output.new).faults }
    ensures source_side { T.source_side output.new ≡ T.source_side output.old }
{
    let pieces = [
        Piece::Text("bad tables "),
        Piece::Number(bad.rule),
        Piece::Text(" "),
        Piece::Number(bad.table),
        Piece::Text(" "),
        Piece::Number(bad.row),
        Piece::Text("\n"),
    ];
    say(alloc, output, &pieces, BAD_TABLES)
}
