//! The places of a stage with what was composed there.

ghost use Rattle.std.specs.Prelude.{◌≡◌, ◌∷◌, ◌++◌, [], length, IfOk, IfSome, OnOk, OnErr};
ghost use Rattle.std.specs.Option.{option_copied};
ghost use Rattle.change_core.specs.Kept.{IsCurrent};

use compose_api::Composer;
use plain_data::{Items, copy_two};
use std::alloc::{AllocError, Global};
use std::marker::Model;
use std::snapshot::Snapshot;

/// How many siblings are passed over at most to find a place again.
const SIBLINGS: usize = 32;

/// What was composed at a place. The keys that it read are those of the place above without the dropped, and the added.
#[derive(Drop)]
pub struct Kept<P, E, K> {
    /// The place.
    pub place: P,
    /// What was composed there.
    pub entry: E,
    /// The keys that it read and the place above did not.
    pub added: Items<K>,
    /// The keys that the place above read and it did not.
    pub dropped: Items<K>,
}

/// Adds an item at the end. After want of memory the list is as before.
fn push_last<T: Drop>(items: &mut Vec<T>, item: T) -> Result<(), AllocError>
    ensures ok { OnOk result (items.new.items ≡ items.old.items ++ item ∷ []) }
    ensures err { OnErr result (items.new.items ≡ items.old.items) }
{
    items.push(item)?;
    Ok(())
}

/// Places with what was composed there in one world.
///
/// Beside each place stands how many there are at it and below. No clause speaks of these sizes, by which places are found again.
#[derive(Drop)]
pub struct KeptStage<C: Composer> {
    kept: Vec<Kept<C::Place, C::Entry, C::Key>>,
    sizes: Vec<usize>,
    world: Snapshot<C::World>,
}

impl<C: Composer> Model for KeptStage<C> {
    ghost use Rattle.std.specs.List.{All};
    ghost use Rattle.change_core.specs.Kept.{Seen, seen, IsCurrent};

    ghost Value = { Seen C.World C.Place C.Entry };

    ghost view = { λ s. seen s.world.value s.kept.items };

    ghost invariant = { λ s. All (IsCurrent C.Key.cmp C.entry_of C.reads_of C.parent_of s.world.value) s.kept.items };
}

impl<C: Composer> KeptStage<C> {
    ghost use Rattle.std.specs.Prelude.{map};
    ghost use Rattle.change_core.specs.Kept.{item_of, seen, Seen};

    /// No places of this world. It takes no memory.
    pub fn new(alloc: Global, world: &C::World) -> KeptStage<C>
        ensures world { result.world ≡ world.now }
        ensures stage { result.stage ≡ [] }
    {
        KeptStage {
            kept: Vec::new(alloc),
            sizes: Vec::new(alloc),
            world: Snapshot::of(world),
        }
    }

    /// The allocator that the list grows by.
    pub fn allocator(&self) -> Global {
        *self.kept.allocator()
    }

    /// How many places there are.
    pub fn len(&self) -> usize
        ensures { result ≡ length self.now.stage }
    {
        self.kept.len()
    }

    /// Adds a place at the end.
    pub fn push(&mut self, kept: Kept<C::Place, C::Entry, C::Key>) -> Result<(), AllocError>
        requires { IsCurrent C.Key.cmp C.entry_of C.reads_of C.parent_of self.old.world kept }
        ensures world { self.new.world ≡ self.old.world }
        ensures stage { OnOk result (self.new.stage ≡ self.old.stage ++ (kept.place, kept.entry) ∷ []) }
    {
        self.sizes.push(1)?;
        push_last(&mut self.kept, kept)?;
        Ok(())
    }

    /// Notes that all from the place of this number on stand at it or below.
    pub fn close(&mut self, at: usize)
        ensures { self.new ≡ self.old }
    {
        let len = self.sizes.len();
        if at < len {
            self.sizes[at] = len - at;
        }
    }

    /// Turns the places round, so that the first can be taken first.
    pub fn turn(&mut self)
        ensures { self.new.world ≡ self.old.world }
    {
        self.kept.reverse();
        self.sizes.reverse();
    }

    /// How many places are left once this one, which stands at the end and is not taken yet, and all below it are taken.
    fn past(&self, len: usize) -> usize {
        match len.checked_sub(1) {
            None => 0,
            Some(at) => match self.sizes.get(at) {
                None => 0,
                Some(size) => len.saturating_sub(*size),
            },
        }
    }

    /// The place that would be taken next, if one is left.
    pub fn next_place(&self) -> Option<&C::Place> {
        match self.kept.last() {
            Some(kept) => Some(&kept.place),
            None => None,
        }
    }

    /// How many places are left before the given one is taken, where it is the next or one of its next siblings.
    fn find(&self, place: &C::Place) -> Option<usize> {
        let mut len = self.kept.len();
        for _sibling in 0..SIBLINGS {
            if len == 0 {
                return None;
            }
            if let Some(kept) = self.kept.get(len - 1) {
                if kept.place.cmp(place).is_eq() {
                    return Some(len);
                }
            }
            len = self.past(len);
        }
        None
    }

    /// Takes what is kept at the place, where it is the next or one of its next siblings, of which those before it are let go. How many
    /// places are left past all below it is told too.
    pub fn take(&mut self, place: &C::Place) -> Option<Kept<C::Place, C::Entry, C::Key>>
        ensures world { self.new.world ≡ self.old.world }
        ensures place { IfSome result (λ kept. kept.place ≡ place.now) }
        ensures current { IfSome result (IsCurrent C.Key.cmp C.entry_of C.reads_of C.parent_of self.old.world) }
    {
        let len = self.find(place)?;
        self.cut(len);
        self.sizes.pop();
        let kept = self.kept.pop()?;
        if kept.place.cmp(place).is_eq() {
            return Some(kept);
        }
        None
    }

    /// How many places are left past the given one and all below it, where it is the next or one of its next siblings.
    pub fn end_of(&self, place: &C::Place) -> usize {
        match self.find(place) {
            None => self.kept.len(),
            Some(len) => self.past(len),
        }
    }

    /// Lets go of places, until not more than so many are left.
    pub fn cut(&mut self, len: usize)
        ensures { self.new.world ≡ self.old.world }
    {
        self.kept.truncate(len);
        self.sizes.truncate(len);
    }

    /// Copies of the places with their entries.
    pub fn published(&self, alloc: Global) -> Result<Items<(C::Place, C::Entry)>, AllocError>
        ensures { IfOk result (λ items. items ≡ self.now.stage) }
    {
        let mut items = Items::new(alloc);
        for kept in self.kept.as_slice() {
            items.push(copy_two(&kept.place, &kept.entry)?)?;
        }
        Ok(items)
    }
}
