ghost use Rattle.turn_writers.specs.Books.{writer};

use crate::entry::Entry;
use plain_data::Items;
use turn_lock::Journalled;

/// A list of entries. It stands for that list, and has no name.
#[derive(Drop)]
pub struct Book {
    /// The entries, the earliest first.
    pub entries: Items<Entry>,
}

impl Journalled for Book {
    type Entry = Entry;

    type Name = ();

    ghost entries = { λ b. b.entries };

    ghost bears = { writer };

    ghost named = { λ _. tt };
}
