//! What a call of the program leaves.

ghost use Rattle.std.specs.Prelude.{◌≡◌, None, Some};

use desk_core::Desk;
use desk_keeper::{Keeper, KeeperMem};
use std::mem;

/// What a call of the program leaves. Exactly one of `desk` and `keeper` is there.
#[derive(Drop)]
pub struct Served<K: Keeper> {
    /// The status of the process.
    pub status: u8,
    /// The desk that was served, as it stands at the end, where one was opened.
    pub desk: Option<Desk<K>>,
    /// The keeper that was handed in, where none was.
    pub keeper: Option<K>,
}

/// What a call leaves that served a desk.
pub fn with_desk<K: Keeper>(status: u8, desk: Desk<K>) -> Served<K>
    ensures { result ≡ record { status = status; desk = Some desk; keeper = None } }
{
    Served {
        status,
        desk: Some(desk),
        keeper: None,
    }
}

/// What a call leaves that opened no desk.
pub fn without_desk<K: Keeper>(status: u8, keeper: K) -> Served<K>
    ensures { result ≡ record { status = status; desk = None; keeper = Some keeper } }
{
    Served {
        status,
        desk: None,
        keeper: Some(keeper),
    }
}

/// The status of what is left as the process ends, which gives back its memory as a whole.
pub fn status_of(served: Served<KeeperMem>) -> u8
    ensures { result ≡ served.status }
{
    let Served {
        status,
        desk,
        keeper,
    } = served;
    mem::forget(desk);
    mem::forget(keeper);
    status
}
