//! The steps of a turn, each on one word or on the slot.
ghost use Rattle.std.specs.Prelude.{◌≡◌, [], ◌∷◌, Some, None, MatchBool};
ghost use Rattle.turn_lock.specs.Steps.{MayDraw, Draws, MayLook, ComesIn, MayNote, Notes, MayPassOn, PassesOn};

use crate::grows::Grows;
use crate::line::{Draw, LockSeat, LockWords, Look, Note, PassOn};
use std::sync::Wait;
use std::thread::yield_now;

// The word of the ticket to be drawn next, of the ticket served, and of the list's length.
const NEXT_TICKET: usize = 0;

const TICKET_SERVED: usize = 1;

const LIST_LENGTH: usize = 2;

// The slot of the value.
const VALUE: usize = 0;

/// How often a caller looks before it lets other threads run between looks.
const QUICK_LOOKS: u64 = 16;

/// Draws the next ticket.
pub fn draw<V: Grows>(words: &LockWords<V>, seat: &mut LockSeat<V>) -> u64
    requires words { (seat.old.table_id ≡ words.now.table_id) × (words.now.table_id.words ≡ 3) }
    requires away { MayDraw seat.old.me }
    ensures table { seat.new.table_id ≡ seat.old.table_id }
    ensures drawn { Draws seat.old.me result seat.new.me }
{
    words.fetch_add::<Draw>(seat, NEXT_TICKET, 1)
}

/// Looks once, and says whether the ticket is served.
fn look<V: Grows>(words: &LockWords<V>, seat: &mut LockSeat<V>, ticket: u64) -> bool
    requires words { (seat.old.table_id ≡ words.now.table_id) × (words.now.table_id.words ≡ 3) }
    requires waits { MayLook seat.old.me ticket }
    ensures table { seat.new.table_id ≡ seat.old.table_id }
    ensures inside { MatchBool result (ComesIn V.items V.by V.name seat.old.me seat.new.me) (seat.new.me ≡ seat.old.me) }
{
    words.load::<Look>(seat, TICKET_SERVED) == ticket
}

/// Looks until the ticket is served.
pub fn wait<V: Grows, R: Wait>(rt: &R, words: &LockWords<V>, seat: &mut LockSeat<V>, ticket: u64)
    requires words { (seat.old.table_id ≡ words.now.table_id) × (words.now.table_id.words ≡ 3) }
    requires waits { MayLook seat.old.me ticket }
    ensures table { seat.new.table_id ≡ seat.old.table_id }
    ensures inside { ComesIn V.items V.by V.name seat.old.me seat.new.me }
{
    let mut looks = 0;
    for _ in rt.forever() {
        if look(words, seat, ticket) {
            return;
        }
        if looks < QUICK_LOOKS {
            looks += 1;
        } else {
            yield_now();
        }
    }
    unreachable!()
}

/// Takes the value out of the slot.
pub fn take<V: Grows>(words: &LockWords<V>, seat: &mut LockSeat<V>) -> V
    requires words { seat.old.table_id ≡ words.now.table_id }
    requires held { (value : V) × (seat.old.me.1 ≡ (0, Some value) ∷ []) }
    ensures table { seat.new.table_id ≡ seat.old.table_id }
    ensures value { seat.old.me.1 ≡ (0, Some result) ∷ [] }
    ensures left { seat.new.me ≡ (seat.old.me.0, (0, None) ∷ []) }
{
    match words.exchange(seat, VALUE, None) {
        Some(value) => value,
        None => unreachable!(),
    }
}

/// Puts a value into the slot.
pub fn put<V: Grows>(words: &LockWords<V>, seat: &mut LockSeat<V>, value: V)
    requires words { seat.old.table_id ≡ words.now.table_id }
    requires empty { seat.old.me.1 ≡ (0, None) ∷ [] }
    ensures table { seat.new.table_id ≡ seat.old.table_id }
    ensures held { seat.new.me ≡ (seat.old.me.0, (0, Some value) ∷ []) }
{
    let left = words.exchange(seat, VALUE, Some(value));
    let None = left else { unreachable!() };
}

/// Notes the length of the list.
pub fn note<V: Grows>(words: &LockWords<V>, seat: &mut LockSeat<V>, count: u64)
    requires words { (seat.old.table_id ≡ words.now.table_id) × (words.now.table_id.words ≡ 3) }
    requires grown { MayNote V.items V.by seat.old.me count }
    ensures table { seat.new.table_id ≡ seat.old.table_id }
    ensures noted { Notes V.items seat.old.me seat.new.me }
{
    words.swap::<Note>(seat, LIST_LENGTH, count);
}

/// Lets the next ticket be served.
pub fn pass_on<V: Grows>(words: &LockWords<V>, seat: &mut LockSeat<V>)
    requires words { (seat.old.table_id ≡ words.now.table_id) × (words.now.table_id.words ≡ 3) }
    requires seen { MayPassOn V.items V.name seat.old.me }
    ensures table { seat.new.table_id ≡ seat.old.table_id }
    ensures passed { PassesOn seat.old.me seat.new.me }
{
    words.fetch_add::<PassOn>(seat, TICKET_SERVED, 1);
}
