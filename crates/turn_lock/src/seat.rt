ghost use Rattle.std.specs.Prelude.{◌≡◌, ◌+◌, ◌≤◌, ◌∷◌, [], drop};

use crate::rule::Journalled;
use crate::view::View;

/// What a thread takes its turns with: a number, the numbers of seats that were joined into it, spare numbers, and what it has seen.
#[derive(Drop)]
pub struct Seat<T: Journalled> {
    pub(crate) place: atomic_table::Seat<Option<T>, View<T::Entry, T::Name>>,
    pub(crate) number: u64,
    pub(crate) least: u32,
    pub(crate) spare: u32,
    ghost numbered: { place.me.0.mine.own ≡ number ∷ drop 1 place.me.0.mine.own },
    ghost spares: { (place.me.0.mine.least ≡ least) × (place.me.0.mine.spare ≡ spare) },
    ghost few: { least + spare ≤ 256 },
    ghost settled: { (place.me.0.told.own ≡ []) × (place.me.0.told.spare ≡ 0) },
}
