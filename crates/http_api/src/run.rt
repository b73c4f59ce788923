//! A session: the messages of a link, one after another.

ghost use Rattle.std.specs.Prelude.{◌≡◌, ◌≤◌};
ghost use Rattle.desk_types.specs.Serving.{with_seen};
ghost use Rattle.http_api.specs.SessionRun.{IsSession, session_at};

use crate::ending::{Session, SessionEnd};
use crate::serving::MessageServing;
use desk_io::{Clock, Link};
use desk_types::Service;
use query_words::Text;
use std::alloc::Global;

/// Serves the messages of a link, one after another: each is read, judged, and answered wholly before the next is
/// judged. The clock is asked once for each message that becomes a call, for its moment in seconds.
///
/// The messages are those of HTTP/1.1 (RFC 9112), without codings of the body. A call that stands in the service's
/// history is always answered, since no memory is taken behind it.
///
/// | End | Comes |
/// |---|---|
/// | `Ended` | the end came, with empty lines alone behind the last message |
/// | `Closed` | a message asked to close, and was answered |
/// | `CutShort` | the end came inside a message |
/// | `Malformed` | a message is none that can be served, and was answered so |
/// | `SessionFull` | the 10,000th message was answered |
/// | `ReadFault` | a read failed, and the link's count of failed reads rose |
/// | `WriteFault` | a write failed, and the link's count of failed writes rose |
/// | `NoMemory` | want of memory at the start, before anything was read |
pub fn session<V: Service, L: Link, C: Clock>(
    alloc: Global,
    service: &mut V,
    link: &mut L,
    clock: &mut C,
    host_key: &Text,
) -> Session
    ensures home { V.home service.new ≡ V.home service.old }
    ensures service { V.service service.new ≡ with_seen (V.service service.old) (V.service service.new).seen }
    ensures session { IsSession host_key.now
        (session_at (V.service service.old) (L.source link.old) (L.sink link.old) (C.moments clock.old))
        (session_at (V.service service.new) (L.source link.new) (L.sink link.new) (C.moments clock.new)) result }
    ensures lenders { (L.source link.new).lenders ≡ (L.source link.old).lenders }
    ensures read_faults { (L.source link.old).faults ≤ (L.source link.new).faults }
    ensures write_faults { (L.sink link.old).faults ≤ (L.sink link.new).faults }
{
    service.history_is_legal();
    let Ok(mut serving) = MessageServing::new(alloc) else {
        return Session {
            end: SessionEnd::NoMemory,
            messages: 0,
        };
    };
    serving.serve_messages(service, link, clock, host_key)
}
