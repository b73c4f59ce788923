//! What crosses threads: a hall is shared by reference, and a pass and a caller go to the thread that makes the calls.

use crate::caller::Caller;
use crate::hall::Hall;
use crate::held::Held;
use desk_keeper::Keeper;
use std::sync::Wait;
use turn_lock::Pass;

fn goes<T: Send>(_: &T) {}

fn is_shared<T: Sync>(_: &T) {}

// A hall and its passes, where their keeper may cross threads.
fn halls_are_shared<K: Keeper + Send>(hall: &Hall<K>, pass: &Pass<Held<K>>) {
    goes(hall);
    is_shared(hall);
    goes(pass);
}

// A caller, where threads may also share its handle.
fn callers_go<K: Keeper + Send, R: Wait + Sync>(caller: &Caller<'_, K, R>) {
    goes(caller);
}
