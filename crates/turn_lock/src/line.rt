//! The rule of the lock, and its kinds of steps.
use crate::grows::Grows;
use crate::view::View;
use atomic_table::{Join, Play, Seat, Shared, Split, Table, TableRule};
use std::alloc::Global;
use std::marker::PhantomData;
use std::snapshot::Snapshot;

/// What the lock is told when it is made.
#[derive(Drop)]
pub struct Founding<V> {
    pub callers: u64,
    pub value: Snapshot<V>,
}

/// The rule: callers take turns at the value.
pub struct Turns<V> {
    of: PhantomData<V>,
}

/// The memory of a lock: three words, and the slot of the value.
pub type LockTable<V: Grows> = Table<
    Option<V>,
    View<V::Item, V::Name>,
    Founding<V>,
    Turns<V>,
    Global,
>;

/// The same as callers share it.
pub type LockWords<V: Grows> = Shared<Option<V>, View<V::Item, V::Name>, Founding<V>, Turns<V>>;

/// What a caller steps with.
pub type LockSeat<V: Grows> = Seat<Option<V>, View<V::Item, V::Name>>;

impl<V: Grows> TableRule<Option<V>, View<V::Item, V::Name>, Founding<V>> for Turns<V> {
    ghost use Rattle.turn_lock.specs.Rule.{TakesTurns};
    ghost use Rattle.turn_lock.specs.Views.{newcomer};
    ghost use Rattle.turn_lock.specs.declared.view.View.TheVariants.{Live};

    ghost holds = { λ f. TakesTurns V.items V.by V.name (V.name f.value.value) f.callers };

    ghost first = { λ f. Live (newcomer 1 (V.name f.value.value)) };
}

/// Adds one to the ticket to be drawn next.
pub struct Draw;

impl<V: Grows> Play<Option<V>, View<V::Item, V::Name>> for Draw {
    ghost use Rattle.turn_lock.specs.Steps.{Draws};

    ghost then = { λ _ before found after. Draws before found after };
}

/// Loads the ticket served, and comes in where it is its own.
pub struct Look;

impl<V: Grows> Play<Option<V>, View<V::Item, V::Name>> for Look {
    ghost use Rattle.turn_lock.specs.Steps.{Looks};

    ghost then = { λ _ before found after. Looks V.items V.by V.name before found after };
}

/// Stores the length of the list.
pub struct Note;

impl<V: Grows> Play<Option<V>, View<V::Item, V::Name>> for Note {
    ghost use Rattle.turn_lock.specs.Steps.{Notes};

    ghost then = { λ _ before _ after. Notes V.items before after };
}

/// Adds one to the ticket served, and gives the value back.
pub struct PassOn;

impl<V: Grows> Play<Option<V>, View<V::Item, V::Name>> for PassOn {
    ghost use Rattle.turn_lock.specs.Steps.{PassesOn};

    ghost then = { λ _ before _ after. PassesOn before after };
}

/// Makes the seat of the next pass.
pub struct Deal;

impl<I, N> Split<View<I, N>> for Deal {
    ghost use Rattle.turn_lock.specs.Steps.{older, newer};

    ghost left = { older };

    ghost right = { newer };
}

/// Takes in what another seat knows.
pub struct Unite;

impl<I, N> Join<View<I, N>> for Unite {
    ghost use Rattle.turn_lock.specs.Steps.{joined_with};
    ghost use Rattle.turn_lock.specs.declared.view.View.TheVariants.{Spent};

    ghost both = { joined_with };

    ghost spent = { Spent };
}
