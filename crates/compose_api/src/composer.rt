//! The trait of composers.

ghost use Rattle.std.specs.Prelude.{◌≡◌, ◌≢◌, ◌↔◌, IsTrue, ◌+◌, ◌<◌, ◌≤◌, ℕ, List, Option, Some, None, Result, Ok, Err, length, slice_get, IfOk, IfErr, IfSome, Contains, AllPairs};
ghost use Rattle.std.specs.Option.{option_copied, option_map};
ghost use Rattle.std.specs.List.Sorted.{IsStrictlySortedBy};
ghost use Rattle.compose_api.specs.Refusals.{IfOp};
ghost use Rattle.compose_api.specs.Agreement.{Agree, IsChanged};

use plain_data::{ExactClone, ExactEq, ExactOrd, Items};
use std::alloc::AllocError;

/// Why a batch was not applied.
#[derive(Debug, Drop)]
pub enum ApplyRefused<F> {
    /// An operation was refused; those before it were not.
    Op {
        /// The number of the operation in the batch, counted from 1.
        op: u32,
        /// Why it was refused.
        fault: F,
    },
    /// There was no memory for the new world.
    NoMemory,
}

/// What was composed at a place.
#[derive(Drop)]
pub struct Composed<E, I> {
    /// The entry.
    pub entry: E,
    /// What composing it leaves for the places right below.
    pub index: I,
}

/// The world after a batch, with the keys at which it differs from the world before.
#[derive(Drop)]
pub struct Applied<W, K> {
    /// The world after the batch.
    pub world: W,
    /// The keys at which the two worlds do not have the same.
    pub changed: Items<K>,
}

/// Composes the entry of a place from a world, and applies batches to worlds.
pub trait Composer: Drop + Send + Sync {
    /// What all entries are functions of.
    type World: Drop;

    /// Where an entry stands, in a tree with one root.
    type Place: ExactOrd + ExactClone + Drop + Send + Sync;

    /// What is composed at a place.
    type Entry: ExactEq + ExactClone + Drop;

    /// What a place reads of a world.
    type Key: ExactOrd + ExactClone + Drop + Send + Sync;

    /// What composing a place leaves for the places right below it.
    type Index: Drop;

    /// Changes that are made together or not at all.
    type Batch: Drop;

    /// Why an operation of a batch is refused.
    type Fault: ExactClone + Drop + Send + Sync;

    /// What a world has at a key, which no code holds.
    ghost Held: { Type 0 };

    /// What a world has at this key.
    ghost value_of: { Self.World → Self.Key → Held };

    /// The entry of a place in a world.
    ghost entry_of: { Self.World → Self.Place → Self.Entry };

    /// What composing a place in a world leaves for the places right below it.
    ghost index_of: { Self.World → Self.Place → Self.Index };

    /// The keys that the entry of a place reads, each once and in their order.
    ghost reads_of: { Self.World → Self.Place → List Self.Key };

    /// The world after a batch, or the first refused operation, counted from 1, with its fault.
    ghost applied: { Self.World → Self.Batch → Result Self.World (ℕ × Self.Fault) };

    /// The place above, which the root place has not.
    ghost parent_of: { Self.Place → Option Self.Place };

    /// How many places are above.
    ghost depth_of: { Self.Place → ℕ };

    /// The place that has no parent.
    ghost root_place: { Self.Place };

    /// The places right below a place with this entry, in their order.
    ghost listed: { Self.Place → Self.Entry → List Self.Place };

    /// The root place.
    fn top(&self) -> Result<Self::Place, AllocError>
        ensures { IfOk result (λ place. place ≡ root_place) };

    /// How many places an entry lists; the same at each place.
    fn child_count(&self, entry: &Self::Entry) -> usize
        ensures { (place : Self.Place) → result ≡ length (listed place entry.now) };

    /// The listed place of this number, counted from 0.
    fn child_at(
        &self,
        place: &Self::Place,
        entry: &Self::Entry,
        i: usize,
    ) -> Result<Self::Place, AllocError>
        requires { i < length (listed place.now entry.now) }
        ensures { IfOk result (λ child. slice_get (listed place.now entry.now) i ≡ Some child) };

    /// Whether a place is the listed place of this number, counted from 0. Takes no memory.
    fn is_child(
        &self,
        place: &Self::Place,
        entry: &Self::Entry,
        i: usize,
        child: &Self::Place,
    ) -> bool
        ensures { IsTrue result ↔ (slice_get (listed place.now entry.now) i ≡ Some child.now) };

    /// The index of a place. That of the place above in the same world may be told; without it the work begins at the root place.
    fn index(
        &self,
        world: &Self::World,
        parent: Option<&Self::Index>,
        place: &Self::Place,
    ) -> Result<Self::Index, AllocError>
        requires { IfSome (option_copied parent) (λ above. Some above ≡ option_map (index_of world.now) (parent_of place.now)) }
        ensures { IfOk result (λ index. index ≡ index_of world.now place.now) };

    /// The entry of a place with its index. The index of the place above in the same world may be told.
    fn compose(
        &self,
        world: &Self::World,
        parent: Option<&Self::Index>,
        place: &Self::Place,
    ) -> Result<Composed<Self::Entry, Self::Index>, AllocError>
        requires { IfSome (option_copied parent) (λ above. Some above ≡ option_map (index_of world.now) (parent_of place.now)) }
        ensures entry { IfOk result (λ composed. composed.entry ≡ entry_of world.now place.now) }
        ensures index { IfOk result (λ composed. composed.index ≡ index_of world.now place.now) };

    /// The keys that the entry of a place reads. What the place above reads in the same world may be told.
    fn reads(
        &self,
        world: &Self::World,
        above: Option<&Items<Self::Key>>,
        place: &Self::Place,
        index: &Self::Index,
    ) -> Result<Items<Self::Key>, AllocError>
        requires above { IfSome (option_copied above) (λ keys. Some keys ≡ option_map (reads_of world.now) (parent_of place.now)) }
        requires index { index.now ≡ index_of world.now place.now }
        ensures { IfOk result (λ keys. keys ≡ reads_of world.now place.now) };

    /// The world after a batch, with the keys that it changed. The world itself is left as it is.
    fn apply(
        &self,
        world: &Self::World,
        batch: &Self::Batch,
    ) -> Result<Applied<Self::World, Self::Key>, ApplyRefused<Self::Fault>>
        ensures ok { IfOk result (λ after. applied world.now batch.now ≡ Ok after.world) }
        ensures changed { IfOk result (λ after. IsChanged (value_of world.now) (value_of after.world) after.changed) }
        ensures refused { IfErr result (λ e. IfOp e (λ op fault. applied world.now batch.now ≡ Err (op, fault))) };

    ghost reads_cover: { (w v : Self.World) (p : Self.Place) → Agree (value_of w) (value_of v) (reads_of w p) → (entry_of v p ≡ entry_of w p) × (reads_of v p ≡ reads_of w p) };

    ghost reads_are_in_order: { (w : Self.World) (p : Self.Place) → IsStrictlySortedBy Self.Key.cmp (reads_of w p) };

    ghost root_has_no_parent: { parent_of root_place ≡ None };

    ghost root_is_at_the_top: { depth_of root_place ≡ 0 };

    ghost listed_are_different: { (w : Self.World) (p : Self.Place) → AllPairs (λ x y. x ≢ y) (listed p (entry_of w p)) };

    ghost listed_are_below: { (w : Self.World) (p q : Self.Place) → Contains (listed p (entry_of w p)) q → (parent_of q ≡ Some p) × (depth_of q ≡ depth_of p + 1) × (depth_of q ≤ 64) };
}
