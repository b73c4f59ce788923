//! The command `serve`.

ghost use Rattle.std.specs.Prelude.{◌≡◌, ◌≢◌, ◌≤◌, [], map, string_bytes, vec_len, IfSome, Some};
ghost use Rattle.command_line.specs.Reading.{IsWellTold, told_by_words};
ghost use Rattle.desk_core.specs.DeskValue.{first_state};
ghost use Rattle.desk_io.specs.Putting.{Puts, Sends};
ghost use Rattle.desk_server.specs.Parts.{Posts};
ghost use Rattle.desk_types.specs.Summary.{summary};
ghost use Rattle.serve_threads.specs.Visits.{LinkSides};
ghost use Rattle.desk_cli.specs.Saying.{door_status, door_text, served_printout, summary_text, totals_text};
ghost use Rattle.desk_cli.specs.ServeCall.{AreForWorkers, IsPrinted, ServeCall, ServeEnds, ServedAs, ServerEnds};
ghost use Rattle.desk_cli.specs.Work.{left_by};

use crate::opening::open_desk;
use crate::saying::{say_refused, summary_pieces};
use crate::served::{Served, with_desk, without_desk};
use command_line::{Command, Told, WordsFault, desk_words};
use desk_doors::Door;
use desk_io::{Clock, OutBuf, Piece, Sink, WriteFault};
use desk_keeper::Keeper;
use desk_server::{ServedDesk, Totals, serve_desk};
use desk_types::Summary;
use printouts::{DOOR_FAULT, ENDED, NO_MEMORY, WRITE_FAULT};
use query_words::Text;
use std::alloc::Global;
use std::sync::Wait;
use std::thread::Threads;

/// Serves a desk where the words tell `serve`, and answers the status of the process with the desk that was served, or else
/// with the keeper.
///
/// It opens a desk on the rows that the keeper holds, and serves it by a worker at each door, with a clock of its own, all
/// at once; what is the host's is open to the key that is told. It waits for links, gives the doors back in their order,
/// and then writes what the workers did, the summary of the journal, and whether a door failed. Other words are refused,
/// and where no desk is served no door is asked, and the keeper holds what it held. All memory but that of sessions and
/// calls is taken before a door is asked.
///
/// | Status | Comes | Lines written |
/// |---|---|---|
/// | 0 | the workers ended at doors that are closed, or after the sessions told | `served S sessions M messages` and the summary's |
/// | 2 | the words do not tell `serve` | `words refused` |
/// | 4 | a write failed: the output's count of faults rose | a beginning of those |
/// | 5 | want of memory, before a door is asked | - |
/// | 6 | the tables that the keeper loaded break a rule | `bad tables RULE TABLE ROW` |
/// | 7 | the keeper failed while its tables were loaded: its count of faults rose | `keeper fault` |
/// | 10 | a worker ended since its door failed: the door's count of faults rose | those of 0, and `door fault` |
pub fn serve_top<
    R: Threads + Wait + Sync,
    D: Door + Send,
    T: Sink,
    K: Keeper + Send,
    C: Clock + Send + Drop,
>(
    rt: &R,
    alloc: Global,
    words: &[String],
    doors: &mut Vec<D>,
    output: &mut T,
    keeper: K,
    clocks: Vec<C>,
) -> Served<K>
where
    D::L: Send,
    requires workers { IfSome (told_by_words (map string_bytes words.now))
        (AreForWorkers (vec_len doors.old) (vec_len clocks)) }
    ensures ended { let sides : LinkSides D.L = record { source = D.L.source; sink = D.L.sink } in
        let posts : Posts D.L = record {
          doors = map D.door doors.old.items;
          doors_now = map D.door doors.new.items;
          moments = map C.moments clocks.items;
        } in
        ServeEnds (map string_bytes words.now) sides (record {
          keeper = K.keeper keeper;
          posts = posts;
          sink = T.sink output.old;
          sink_now = T.sink output.new;
          left = left_by K.keeper result;
        }) }
    ensures write_faults { (T.sink output.old).faults ≤ (T.sink output.new).faults }
    ensures source_side { T.source_side output.new ≡ T.source_side output.old }
{
    match desk_words(alloc, words) {
        Ok(told) => serve_told(rt, alloc, &told, doors, output, keeper, clocks),
        Err(WordsFault::Refused) => {
            let status = say_refused(alloc, output);
            without_desk(status, keeper)
        }
        Err(WordsFault::NoMemory) => without_desk(NO_MEMORY, keeper),
    }
}

/// Serves a desk where `serve` was told.
fn serve_told<
    R: Threads + Wait + Sync,
    D: Door + Send,
    T: Sink,
    K: Keeper + Send,
    C: Clock + Send + Drop,
>(
    rt: &R,
    alloc: Global,
    told: &Told,
    doors: &mut Vec<D>,
    output: &mut T,
    keeper: K,
    clocks: Vec<C>,
) -> Served<K>
where
    D::L: Send,
    requires well_told { IsWellTold told.now }
    requires workers { AreForWorkers (vec_len doors.old) (vec_len clocks) told.now }
    ensures ended { let sides : LinkSides D.L = record { source = D.L.source; sink = D.L.sink } in
        let posts : Posts D.L = record {
          doors = map D.door doors.old.items;
          doors_now = map D.door doors.new.items;
          moments = map C.moments clocks.items;
        } in
        ServedAs sides told.now.command told.now (record {
          keeper = K.keeper keeper;
          posts = posts;
          sink = T.sink output.old;
          sink_now = T.sink output.new;
          left = left_by K.keeper result;
        }) }
    ensures write_faults { (T.sink output.old).faults ≤ (T.sink output.new).faults }
    ensures source_side { T.source_side output.new ≡ T.source_side output.old }
{
    match (told.command, &told.host_key) {
        (Command::Serve, Some(key)) => {
            serve_doors(rt, alloc, told, key, doors, output, keeper, clocks)
        }
        _ => {
            let status = say_refused(alloc, output);
            without_desk(status, keeper)
        }
    }
}

/// Opens a desk on the keeper, serves it at the doors, and says what was done; or says why no desk was opened.
fn serve_doors<
    R: Threads + Wait + Sync,
    D: Door + Send,
    T: Sink,
    K: Keeper + Send,
    C: Clock + Send + Drop,
>(
    rt: &R,
    alloc: Global,
    told: &Told,
    host_key: &Text,
    doors: &mut Vec<D>,
    output: &mut T,
    keeper: K,
    clocks: Vec<C>,
) -> Served<K>
where
    D::L: Send,
    requires key { told.now.host_key ≡ Some host_key.now }
    requires workers { (1 ≤ told.now.workers) × (told.now.workers ≤ 8) }
    requires sessions { (1 ≤ told.now.sessions) × (told.now.sessions ≤ 1000000) }
    requires doors { vec_len doors.old ≡ told.now.workers }
    requires clocks { vec_len clocks ≡ told.now.workers }
    ensures ended { let sides : LinkSides D.L = record { source = D.L.source; sink = D.L.sink } in
        let posts : Posts D.L = record {
          doors = map D.door doors.old.items;
          doors_now = map D.door doors.new.items;
          moments = map C.moments clocks.items;
        } in
        ServerEnds sides told.now (record {
          keeper = K.keeper keeper;
          posts = posts;
          sink = T.sink output.old;
          sink_now = T.sink output.new;
          left = left_by K.keeper result;
        }) }
    ensures write_faults { (T.sink output.old).faults ≤ (T.sink output.new).faults }
    ensures source_side { T.source_side output.new ≡ T.source_side output.old }
{
    let Ok(mut out) = OutBuf::new(alloc) else {
        return without_desk(NO_MEMORY, keeper);
    };
    let desk = match open_desk(alloc, told.settings, output, keeper) {
        Ok(desk) => desk,
        Err(unopened) => return without_desk(unopened.status, unopened.keeper),
    };
    match serve_desk(rt, alloc, desk, doors, clocks, host_key, told.sessions) {
        Ok(served) => {
            let status = say_served(&mut out, output, &served);
            with_desk(status, served.desk)
        }
        Err(desk) => without_desk(NO_MEMORY, desk.end()),
    }
}

/// Says what was done on a desk, through a buffer in which nothing waits, and answers the status.
fn say_served<T: Sink, K: Keeper>(out: &mut OutBuf, output: &mut T, served: &ServedDesk<K>) -> u8
    requires empty { out.old ≡ [] }
    ensures printed { let desk = served.now.desk in
        IsPrinted (T.sink output.old) (T.sink output.new)
        (served_printout served.now.totals (summary (first_state desk) desk.log)) result }
    ensures faults { (T.sink output.old).faults ≤ (T.sink output.new).faults }
    ensures source_side { T.source_side output.new ≡ T.source_side output.old }
{
    match send_served(out, output, served.totals, served.desk.summary()) {
        Ok(()) => status_of(served.totals.door_failed),
        Err(_) => WRITE_FAULT,
    }
}

/// Writes what was done on a desk, through a buffer in which nothing waits.
fn send_served<T: Sink>(
    out: &mut OutBuf,
    output: &mut T,
    totals: Totals,
    summary: Summary,
) -> Result<(), WriteFault>
    requires { out.old ≡ [] }
    ensures sends { Sends (T.sink output.old) (T.sink output.new) (served_printout totals summary).text result }
    ensures source_side { T.source_side output.new ≡ T.source_side output.old }
{
    put_served(out, output, totals, summary)?;
    out.flush(output)
}

/// Puts what was done on a desk: the totals, the summary, and whether a door failed.
fn put_served<T: Sink>(
    out: &mut OutBuf,
    output: &mut T,
    totals: Totals,
    summary: Summary,
) -> Result<(), WriteFault>
    ensures puts { Puts (T.sink output.old) (T.sink output.new) out.old out.new
        (served_printout totals summary).text result }
    ensures source_side { T.source_side output.new ≡ T.source_side output.old }
{
    put_totals(out, output, totals)?;
    out.put_all(output, &summary_pieces(summary))?;
    out.put_str(output, door_line(totals.door_failed))
}

/// Puts how many sessions were held and how many messages answered.
fn put_totals<T: Sink>(out: &mut OutBuf, output: &mut T, totals: Totals) -> Result<(), WriteFault>
    ensures puts { Puts (T.sink output.old) (T.sink output.new) out.old out.new (totals_text totals) result }
    ensures source_side { T.source_side output.new ≡ T.source_side output.old }
{
    let pieces = [
        Piece::Text("served "),
        Piece::Number(totals.sessions),
        Piece::Text(" sessions "),
        Piece::Number(totals.messages),
        Piece::Text(" messages\n"),
    ];
    out.put_all(output, &pieces)
}

/// The line behind the summary, where a door failed.
fn door_line(failed: bool) -> &'static str
    ensures { result.now ≡ door_text failed }
{
    if failed { "door fault\n" } else { "" }
}

/// The status behind a service whose outcome is written.
fn status_of(door_failed: bool) -> u8
    ensures { result ≡ door_status door_failed }
{
    if door_failed { DOOR_FAULT } else { ENDED }
}
