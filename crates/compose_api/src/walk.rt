//! All places of a world with their entries, composed from scratch.

ghost use Rattle.std.specs.Prelude.{◌≡◌, ◌++◌, ◌∷◌, [], ◌<◌, ◌≤◌, length, slice_get, OnOk, IfOk, IfSome, Err, Some};
ghost use Rattle.std.specs.Option.{option_map, option_copied};
ghost use Rattle.compose_api.specs.Stage.{walked, stage_of};

use crate::{Composed, Composer, StageRefused};
use plain_data::Items;
use std::alloc::{AllocError, Global};

/// The levels from the root place down to the deepest places.
const LEVELS: u32 = 65;

/// Composes a place and adds it with its entry at the end. Its index is handed out.
fn push_place<C: Composer>(
    composer: &C,
    world: &C::World,
    parent: Option<&C::Index>,
    place: C::Place,
    items: &mut Items<(C::Place, C::Entry)>,
) -> Result<C::Index, AllocError>
    requires { IfSome (option_copied parent) (λ above. Some above ≡ option_map (C.index_of world.now) (C.parent_of place)) }
    ensures index { IfOk result (λ index. index ≡ C.index_of world.now place) }
    ensures items { OnOk result (items.new ≡ items.old ++ (place, C.entry_of world.now place) ∷ []) }
{
    let Composed { entry, index } = composer.compose(world, parent, &place)?;
    items.push((place, entry))?;
    Ok(index)
}

/// How many places the item of this number lists.
fn count_below<C: Composer>(composer: &C, items: &Items<(C::Place, C::Entry)>, at: usize) -> usize
    ensures { IfSome (slice_get items.now at) (λ item. result ≡ length (C.listed item.0 item.1)) }
{
    match items.get(at) {
        None => 0,
        Some(item) => composer.child_count(&item.1),
    }
}

/// The place with the number `i` of those that the item `at` lists.
fn child_below<C: Composer>(
    composer: &C,
    items: &Items<(C::Place, C::Entry)>,
    at: usize,
    i: usize,
) -> Result<C::Place, AllocError>
    requires { IfSome (slice_get items.now at) (λ item. i < length (C.listed item.0 item.1)) }
    ensures { IfOk result (λ child. IfSome (slice_get items.now at) (λ item. slice_get (C.listed item.0 item.1) i ≡ Some child)) }
{
    match items.get(at) {
        None => Err(AllocError),
        Some(item) => composer.child_at(&item.0, &item.1, i),
    }
}

/// Composes a place and all below it, while there are not more items than this. Each place's index is let go once all below it is
/// composed.
fn push_walked<C: Composer>(
    composer: &C,
    world: &C::World,
    parent: Option<&C::Index>,
    place: C::Place,
    levels: u32,
    most: usize,
    items: &mut Items<(C::Place, C::Entry)>,
) -> Result<(), StageRefused>
    requires { IfSome (option_copied parent) (λ above. Some above ≡ option_map (C.index_of world.now) (C.parent_of place)) }
    ensures items { OnOk result (items.new ≡ items.old ++ walked C.entry_of C.listed levels world.now place) }
    ensures full { result ≡ Err StageRefused.Full → most < length (items.old ++ walked C.entry_of C.listed levels world.now place) }
{
    if levels == 0 {
        return Ok(());
    }
    if items.len() >= most {
        return Err(StageRefused::Full);
    }
    let at = items.len();
    let index = push_place(composer, world, parent, place, items)?;
    let count = count_below(composer, items, at);
    for i in 0..count {
        let child = child_below(composer, items, at, i)?;
        push_walked(
            composer,
            world,
            Some(&index),
            child,
            levels - 1,
            most,
            items,
        )?;
    }
    Ok(())
}

/// All populated places with their entries, depth first from the root place.
///
/// # Errors
///
/// `Full` exactly where there are more places than `most`. `NoMemory` where memory ran out.
pub fn stage_items_within<C: Composer>(
    alloc: Global,
    composer: &C,
    world: &C::World,
    most: usize,
) -> Result<Items<(C::Place, C::Entry)>, StageRefused>
    ensures stage { IfOk result (λ items. items ≡ stage_of C.entry_of C.listed world.now C.root_place) }
    ensures few { IfOk result (λ items. length items ≤ most) }
    ensures full { result ≡ Err StageRefused.Full → most < length (stage_of C.entry_of C.listed world.now C.root_place) }
{
    let mut items = Items::new(alloc);
    let root = composer.top()?;
    let above: Option<C::Index> = None;
    push_walked(
        composer,
        world,
        above.as_ref(),
        root,
        LEVELS,
        most,
        &mut items,
    )?;
    if items.len() > most {
        return Err(StageRefused::Full);
    }
    Ok(items)
}

/// The same for a stage of any size that memory holds.
pub fn stage_items<C: Composer>(
    alloc: Global,
    composer: &C,
    world: &C::World,
) -> Result<Items<(C::Place, C::Entry)>, AllocError>
    ensures { IfOk result (λ items. items ≡ stage_of C.entry_of C.listed world.now C.root_place) }
{
    match stage_items_within(alloc, composer, world, usize::MAX) {
        Ok(items) => Ok(items),
        Err(_) => Err(AllocError),
    }
}
