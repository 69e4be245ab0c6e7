ghost use Rattle.std.specs.Prelude.{◌≡◌};

use crate::rule::{Journalled, Terms, Turns};
use crate::view::View;
use atomic_table::Table;
use std::alloc::Global;
use thiserror::Error;

/// Why a seat was not split.
#[derive(Clone, Copy, Debug, PartialEq, Eq, Drop, Error)]
pub enum SplitRefused {
    /// It has no spare number.
    #[error("the seat has no spare number")]
    SeatsFull,
}

/// A value that one thread at a time may take, in turns. It has the name of its first value for good, and 1 to 256 seats.
#[derive(Drop)]
pub struct Desk<T: Journalled> {
    pub(crate) table: Table<Option<T>, View<T::Entry, T::Name>, Terms<T>, Turns<T>, Global>,
    ghost sized: { (table.shared.table_id.words ≡ 2) × (table.shared.table_id.slots ≡ 1) },
}
