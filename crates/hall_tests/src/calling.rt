//! Desks, and callers that make one call.

ghost use Rattle.std.specs.Prelude.{◌≡◌, [], All, IfSome};
ghost use Rattle.turn_lock.specs.Lists.{IsPrefix};
ghost use Rattle.turn_lock.specs.Passes.{AreAll};

use desk_core::Desk;
use desk_hall::{Hall, Held};
use desk_keeper::KeeperMem;
use desk_types::{Call, Fault, Reply, Service, Settings, Tables};
use query_words::NoMemory;
use std::alloc::Global;
use turn_lock::Pass;

/// An empty desk with the usual settings, whose keeper fails at its calls of these numbers. None for want of memory.
pub fn opened(alloc: Global, fails: Vec<u64>) -> Option<Desk<KeeperMem>>
    ensures { IfSome result (λ desk. desk.log ≡ []) }
{
    let keeper = KeeperMem::new(alloc, Tables::new(alloc), fails);
    Desk::open(alloc, keeper, Settings::usual()).ok()
}

/// Makes a call. The text says what it was told.
pub fn told<V: Service>(
    alloc: Global,
    service: &mut V,
    moment: u64,
    call: Call,
) -> Result<String, NoMemory>
    ensures home { V.home service.new ≡ V.home service.old }
    ensures me { (V.service service.new).me ≡ (V.service service.old).me }
{
    text_of(alloc, &service.call(moment, call))
}

/// How a call ended, as a text.
pub fn text_of(alloc: Global, ended: &Result<Reply, Fault>) -> Result<String, NoMemory> {
    Ok(format!(in alloc; "{ended:?}")?)
}

/// Closes a hall. What each pass has seen begins the journal.
pub fn closed(hall: Hall<KeeperMem>, passes: Vec<Pass<Held<KeeperMem>>>) -> Desk<KeeperMem>
    requires { AreAll hall passes.items }
    ensures { All (λ p. IsPrefix p.seen result.log) passes.items }
{
    hall.close(passes)
}
