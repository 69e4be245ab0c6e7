ghost use Rattle.std.specs.Prelude.{◌≡◌, IfOk, OnOk, OnErr};
ghost use Rattle.list_ops.specs.ListEdits.{applied, firsts, folded, reordered};
ghost use Rattle.list_ops.specs.Opinions.{has_items};

use crate::edits;
use crate::places::{Places, Scanned, Sorted};
use plain_data::{ExactClone, ExactEq, ExactOrd, Items};
use std::alloc::{AllocError, Global};

/// An opinion on a list. An explicit list replaces what weaker opinions made; else the other lists
/// edit it: delete, add, prepend, append and reorder, in this order.
#[derive(Debug, Drop, PartialEq, Eq)]
pub struct ListOp<T> {
    /// The list that replaces what weaker opinions made; none where this opinion edits it.
    pub explicit: Option<Items<T>>,
    /// Items that are taken out.
    pub deleted: Items<T>,
    /// Items that are put to the end unless they are there.
    pub added: Items<T>,
    /// Items that are put to the front, wherever they were.
    pub prepended: Items<T>,
    /// Items that are put to the end, wherever they were.
    pub appended: Items<T>,
    /// Items that come into this order, each with what follows it.
    pub ordered: Items<T>,
}

impl<T> ListOp<T> {
    ghost use Rattle.list_ops.specs.Blank.{no_edits};
    ghost use Rattle.list_ops.specs.Opinions.{has_edits, is_opinion};

    /// The opinion that edits nothing. Takes no memory.
    pub fn new(alloc: Global) -> ListOp<T>
        ensures { result ≡ no_edits }
    {
        ListOp {
            explicit: None,
            deleted: Items::new(alloc),
            added: Items::new(alloc),
            prepended: Items::new(alloc),
            appended: Items::new(alloc),
            ordered: Items::new(alloc),
        }
    }

    /// Whether some edit has items, whatever the explicit list is.
    pub fn has_edits(&self) -> bool
        ensures { result ≡ has_edits self.now }
    {
        has_items(self.deleted.as_slice())
            || has_items(self.added.as_slice())
            || has_items(self.prepended.as_slice())
            || has_items(self.appended.as_slice())
            || has_items(self.ordered.as_slice())
    }

    /// Whether it is an opinion on the list: an explicit list, also an empty one, or some edit.
    pub fn is_opinion(&self) -> bool
        ensures { result ≡ is_opinion self.now }
    {
        match &self.explicit {
            Some(_) => true,
            None => self.has_edits(),
        }
    }
}

impl<T: ExactEq + ExactClone + Drop> ListOp<T> {
    ghost use Rattle.list_ops.specs.ListEdits.{applied};

    /// Makes of the list what the opinion makes of it. The time grows with the product of the
    /// lengths of the lists; `apply_ordered` is faster.
    pub fn apply(&self, list: &mut Vec<T>) -> Result<(), AllocError>
        ensures ok { OnOk result (list.new.items ≡ applied T.eq self.now list.old.items) }
        ensures err { OnErr result (list.new.items ≡ list.old.items) }
    {
        *list = applied::<Scanned, T>(*list.allocator(), self, list.as_slice())?;
        Ok(())
    }
}

impl<T: ExactEq + ExactOrd + ExactClone + Drop> ListOp<T> {
    ghost use Rattle.list_ops.specs.ListEdits.{applied};

    /// Like `apply`, by an order of the items: with `n` items in all it makes `n log n` comparisons.
    pub fn apply_ordered(&self, list: &mut Vec<T>) -> Result<(), AllocError>
        ensures ok { OnOk result (list.new.items ≡ applied T.eq self.now list.old.items) }
        ensures err { OnErr result (list.new.items ≡ list.old.items) }
    {
        *list = applied::<Sorted<T>, T>(*list.allocator(), self, list.as_slice())?;
        Ok(())
    }
}

/// What the opinion makes of a copy of the list.
fn applied<P: Places<T>, T: Eq + ExactClone + Drop>(
    alloc: Global,
    op: &ListOp<T>,
    list: &[T],
) -> Result<Vec<T>, AllocError>
    ensures { IfOk result (λ next. next.items ≡ applied T.eq op.now list.now) }
{
    let mut copied = Items::new(alloc);
    edits::push_all(&mut copied, list)?;
    Ok(edits::applied::<P, T>(alloc, op, copied)?.into_vec())
}

/// Whether there is an item.
fn has_items<T>(items: &[T]) -> bool
    ensures { result ≡ has_items items.now }
{
    match items {
        [] => false,
        [_, ..] => true,
    }
}

/// What the opinions, the weakest first, make of the empty list. The time grows with the product of
/// the lengths of the lists; `fold_ordered` is faster.
pub fn fold<T: ExactEq + ExactClone + Drop>(
    alloc: Global,
    ops: &[ListOp<T>],
) -> Result<Vec<T>, AllocError>
    ensures { IfOk result (λ list. list.items ≡ folded T.eq ops.now) }
{
    Ok(edits::fold::<Scanned, T>(alloc, ops)?.into_vec())
}

/// Like `fold`, by an order of the items.
pub fn fold_ordered<T: ExactEq + ExactOrd + ExactClone + Drop>(
    alloc: Global,
    ops: &[ListOp<T>],
) -> Result<Vec<T>, AllocError>
    ensures { IfOk result (λ list. list.items ≡ folded T.eq ops.now) }
{
    Ok(edits::fold::<Sorted<T>, T>(alloc, ops)?.into_vec())
}

/// The first of each item, by an order of the items: with `n` items it makes `n log n` comparisons.
pub fn firsts_ordered<T: ExactEq + ExactOrd + ExactClone + Drop>(
    alloc: Global,
    items: &[T],
) -> Result<Items<T>, AllocError>
    ensures { IfOk result (λ kept. kept ≡ firsts T.eq items.now) }
{
    edits::firsts::<Sorted<T>, T>(alloc, items)
}

/// Like `firsts_ordered`, of a list that is handed over: where it is short and has no repeat, it is the list itself, and nothing is copied.
pub fn once_ordered<T: ExactEq + ExactOrd + ExactClone + Drop>(
    alloc: Global,
    items: Items<T>,
) -> Result<Items<T>, AllocError>
    ensures { IfOk result (λ kept. kept ≡ firsts T.eq items) }
{
    edits::once::<Sorted<T>, T>(alloc, items)
}

/// Puts the groups of the listed items into listed order. A group is a listed item and the unlisted
/// ones that follow it; unlisted items before the first group stay in front. The time grows with the
/// product of the lengths; `reorder_ordered` is faster.
pub fn reorder<T: ExactEq + ExactClone + Drop>(
    list: &mut Vec<T>,
    order: &[T],
) -> Result<(), AllocError>
    ensures ok { OnOk result (list.new.items ≡ reordered T.eq order.now list.old.items) }
    ensures err { OnErr result (list.new.items ≡ list.old.items) }
{
    let next = edits::reordered::<Scanned, T>(*list.allocator(), order, list.as_slice())?;
    *list = next.into_vec();
    Ok(())
}

/// Like `reorder`, by an order of the items.
pub fn reorder_ordered<T: ExactEq + ExactOrd + ExactClone + Drop>(
    list: &mut Vec<T>,
    order: &[T],
) -> Result<(), AllocError>
    ensures ok { OnOk result (list.new.items ≡ reordered T.eq order.now list.old.items) }
    ensures err { OnErr result (list.new.items ≡ list.old.items) }
{
    let next = edits::reordered::<Sorted<T>, T>(*list.allocator(), order, list.as_slice())?;
    *list = next.into_vec();
    Ok(())
}
