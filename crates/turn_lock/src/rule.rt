//! The rule of a desk's table, and the names of its steps.
ghost use Rattle.std.specs.Prelude.{ℕ, List};
ghost use Rattle.turn_lock.specs.Turns.{Kept, first_view, draws, looks, advances, settles, unborne, kept, split_off, joined, spent};

use crate::view::View;
use atomic_table::{Join, Play, Split, TableRule};
use std::marker::PhantomData;
use std::snapshot::Snapshot;

/// A value that stands for a list of entries, its history, and has a name.
pub trait Journalled {
    /// What one entry of the history says.
    type Entry;

    /// What stays the same of the value for good, as plain data.
    type Name;

    /// The list of entries for which the value stands.
    ghost entries: { Self → List Self.Entry };

    /// The number of the seat that made an entry.
    ghost bears: { Self.Entry → ℕ };

    /// The value's name.
    ghost named: { Self → Self.Name };
}

/// What a desk is told when it is made: its first value, which has the desk's name, and how many seats it has.
#[derive(Drop)]
pub struct Terms<T> {
    /// The first value.
    pub first: Snapshot<T>,
    /// How many seats the desk has in all.
    pub seats: u32,
}

/// The rule.
pub struct Turns<T> {
    marker: PhantomData<T>,
}

impl<T: Journalled> TableRule<Option<T>, View<T::Entry, T::Name>, Terms<T>> for Turns<T> {
    ghost holds = { λ key. Kept T.bears T.entries T.named (T.named key.first.value) key.seats };

    ghost first = { λ key. first_view (T.entries key.first.value) (T.named key.first.value) key.seats };
}

/// A ticket is drawn.
pub struct Draw<T> {
    marker: PhantomData<T>,
}

impl<T: Journalled> Play<Option<T>, View<T::Entry, T::Name>> for Draw<T> {
    ghost then = { draws T.bears T.entries T.named };
}

/// The ticket that is served is read, and the value's slot is taken where it is the seat's own.
pub struct Look<T> {
    marker: PhantomData<T>,
}

impl<T: Journalled> Play<Option<T>, View<T::Entry, T::Name>> for Look<T> {
    ghost then = { looks T.bears T.entries T.named };
}

/// The value is at home again, and the next ticket is served.
pub struct Advance<T> {
    marker: PhantomData<T>,
}

impl<T: Journalled> Play<Option<T>, View<T::Entry, T::Name>> for Advance<T> {
    ghost then = { advances T.bears T.entries T.named };
}

/// What came with a joined seat becomes the seat's own.
pub struct Settle<T> {
    marker: PhantomData<T>,
}

impl<T: Journalled> Play<Option<T>, View<T::Entry, T::Name>> for Settle<T> {
    ghost then = { settles T.bears T.entries T.named };
}

/// The seat learns that nothing it has seen bears a spare number.
pub struct Unborne<T> {
    marker: PhantomData<T>,
}

impl<T: Journalled> Play<Option<T>, View<T::Entry, T::Name>> for Unborne<T> {
    ghost then = { unborne T.bears T.entries T.named };
}

/// A seat is cut off with the least spare number.
pub struct Cut;

impl<E, N> Split<View<E, N>> for Cut {
    ghost left = { kept };

    ghost right = { split_off };
}

/// What another seat knows is noted beside what this one does.
pub struct Both;

impl<E, N> Join<View<E, N>> for Both {
    ghost both = { joined };

    ghost spent = { spent };
}
