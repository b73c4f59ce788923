//! The command `run`.

ghost use Rattle.std.specs.Prelude.{◌≡◌, ◌≤◌, []};
ghost use Rattle.desk_core.specs.DeskValue.{IsRunOfLedger};
ghost use Rattle.desk_core.specs.SoloValue.{AreOwn};
ghost use Rattle.desk_types.specs.Serving.{with_seen};
ghost use Rattle.http_api.specs.SessionRun.{IsSession, session_at};
ghost use Rattle.printouts.specs.CallState.{call_at};
ghost use Rattle.desk_cli.specs.RunCall.{IsSessionServed, RunEnds, run_at, session_status};
ghost use Rattle.desk_cli.specs.Throughout.{HoldsThroughout};
ghost use Rattle.desk_cli.specs.Work.{IsSameOpening, handed, left_by};

use crate::opening::open_desk;
use crate::served::{Served, with_desk, without_desk};
use desk_core::{Desk, Solo};
use desk_io::{Clock, Pair, Sink, Source};
use desk_keeper::Keeper;
use desk_types::{Service, Settings};
use http_api::{Session, SessionEnd, session};
use printouts::{BAD_LINE, ENDED, NO_MEMORY, PAST_LIMIT, READ_FAULT, WRITE_FAULT};
use query_words::Text;
use std::alloc::Global;

/// Opens a desk on the keeper and serves a session over the input and the output, for the caller 1; or says why no desk was
/// opened.
pub fn serve_run<S: Source, T: Sink, K: Keeper, C: Clock>(
    alloc: Global,
    settings: Settings,
    host_key: &Text,
    input: &mut S,
    output: &mut T,
    keeper: K,
    clock: &mut C,
) -> Served<K>
    ensures ends { RunEnds (handed settings (K.keeper keeper))
        (run_at host_key.now (call_at (S.source input.old) (T.sink output.old)) (C.moments clock.old))
        (run_at host_key.now (call_at (S.source input.new) (T.sink output.new)) (C.moments clock.new))
        (left_by K.keeper result) }
    ensures read_faults { (S.source input.old).faults ≤ (S.source input.new).faults }
    ensures write_faults { (T.sink output.old).faults ≤ (T.sink output.new).faults }
{
    match open_desk(alloc, settings, output, keeper) {
        Ok(desk) => {
            let (status, desk) = run_session(alloc, host_key, input, output, desk, clock);
            with_desk(status, desk)
        }
        Err(unopened) => without_desk(unopened.status, unopened.keeper),
    }
}

/// Serves a session over the input and the output on a desk without entries, for the caller 1.
fn run_session<S: Source, T: Sink, K: Keeper, C: Clock>(
    alloc: Global,
    host_key: &Text,
    input: &mut S,
    output: &mut T,
    desk: Desk<K>,
    clock: &mut C,
) -> (u8, Desk<K>)
    requires empty { desk.log ≡ [] }
    ensures opening { IsSameOpening desk result.1 }
    ensures of_ledger { IsRunOfLedger result.1 }
    ensures own { AreOwn 1 result.1.log }
    ensures served { IsSessionServed
        (run_at host_key.now (call_at (S.source input.old) (T.sink output.old)) (C.moments clock.old))
        (run_at host_key.now (call_at (S.source input.new) (T.sink output.new)) (C.moments clock.new))
        result.1 result.0 }
    ensures throughout { HoldsThroughout result.1 }
    ensures read_faults { (S.source input.old).faults ≤ (S.source input.new).faults }
    ensures write_faults { (T.sink output.old).faults ≤ (T.sink output.new).faults }
{
    let mut service = Solo::new(desk, 1);
    let served = serve_pair(alloc, &mut service, input, output, clock, host_key);
    let status = status_of(served.end);
    let desk = service.end();
    let _log = desk.log();
    (status, desk)
}

/// Serves a session over an input and an output that stand apart.
fn serve_pair<V: Service, S: Source, T: Sink, C: Clock>(
    alloc: Global,
    service: &mut V,
    input: &mut S,
    output: &mut T,
    clock: &mut C,
    host_key: &Text,
) -> Session
    ensures home { V.home service.new ≡ V.home service.old }
    ensures service { V.service service.new ≡ with_seen (V.service service.old) (V.service service.new).seen }
    ensures session { IsSession host_key.now
        (session_at (V.service service.old) (S.source input.old) (T.sink output.old) (C.moments clock.old))
        (session_at (V.service service.new) (S.source input.new) (T.sink output.new) (C.moments clock.new)) result }
    ensures read_faults { (S.source input.old).faults ≤ (S.source input.new).faults }
    ensures write_faults { (T.sink output.old).faults ≤ (T.sink output.new).faults }
{
    let mut link = Pair::new(input, output);
    session(alloc, service, &mut link, clock, host_key)
}

/// The status of the process by the end of its session.
fn status_of(end: SessionEnd) -> u8
    ensures { result ≡ session_status end }
{
    match end {
        SessionEnd::Ended | SessionEnd::Closed => ENDED,
        SessionEnd::CutShort | SessionEnd::Malformed => BAD_LINE,
        SessionEnd::SessionFull => PAST_LIMIT,
        SessionEnd::ReadFault => READ_FAULT,
        SessionEnd::WriteFault => WRITE_FAULT,
        SessionEnd::NoMemory => NO_MEMORY,
    }
}
