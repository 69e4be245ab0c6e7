//! Edits of lists, over any way to look up where items stand.
ghost use Rattle.std.specs.Prelude.{◌≡◌, ◌++◌, ◌<◌, false, IfOk, OnOk, IfSome, length, take};
ghost use Rattle.std.specs.List.{position_from};
ghost use Rattle.list_ops.specs.ListEdits.{contains, without, firsts, until_listed, group_of, group_at, grouped, reordered, with_deleted, with_added, with_prepended, with_appended, edited, applied, folded};

use crate::op::ListOp;
use crate::places::{FEW, Places, place_in};
use plain_data::{ExactClone, Items, copy};
use std::alloc::{AllocError, Global};

/// What the opinions, the weakest first, make of the empty list. What is no opinion is passed over, once a list is known to have no
/// repeats.
pub fn fold<P: Places<T>, T: Eq + ExactClone + Drop>(
    alloc: Global,
    ops: &[ListOp<T>],
) -> Result<Items<T>, AllocError>
    ensures { IfOk result (λ list. list ≡ folded T.eq ops.now) }
{
    let mut list = Items::new(alloc);
    let mut is_once = true;
    for op in ops {
        let is_opinion = op.is_opinion();
        if is_opinion || !is_once {
            list = applied::<P, T>(alloc, op, list)?;
            is_once = !is_opinion;
        }
    }
    Ok(list)
}

/// The groups of the listed items in listed order.
pub fn reordered<P: Places<T>, T: Eq + ExactClone + Drop>(
    alloc: Global,
    order: &[T],
    items: &[T],
) -> Result<Items<T>, AllocError>
    ensures { IfOk result (λ next. next ≡ reordered T.eq order.now items.now) }
{
    let order = firsts::<P, T>(alloc, order)?;
    let items = firsts::<P, T>(alloc, items)?;
    grouped::<P, T>(alloc, order.as_slice(), items.as_slice())
}

/// What an opinion makes of a list.
pub fn applied<P: Places<T>, T: Eq + ExactClone + Drop>(
    alloc: Global,
    op: &ListOp<T>,
    list: Items<T>,
) -> Result<Items<T>, AllocError>
    ensures { IfOk result (λ next. next ≡ applied T.eq op.now list) }
{
    match &op.explicit {
        Some(items) => firsts::<P, T>(alloc, items.as_slice()),
        None => edited::<P, T>(alloc, op, list),
    }
}

/// What an opinion that is not explicit makes of a list.
fn edited<P: Places<T>, T: Eq + ExactClone + Drop>(
    alloc: Global,
    op: &ListOp<T>,
    list: Items<T>,
) -> Result<Items<T>, AllocError>
    ensures { IfOk result (λ next. next ≡ edited T.eq op.now list) }
{
    let kept = with_deleted::<P, T>(alloc, op.deleted.as_slice(), list)?;
    let more = with_added::<P, T>(alloc, op.added.as_slice(), kept)?;
    let front = with_prepended::<P, T>(alloc, op.prepended.as_slice(), more)?;
    let back = with_appended::<P, T>(alloc, op.appended.as_slice(), front)?;
    in_order::<P, T>(alloc, op.ordered.as_slice(), back)
}

fn with_deleted<P: Places<T>, T: Eq + ExactClone + Drop>(
    alloc: Global,
    deleted: &[T],
    list: Items<T>,
) -> Result<Items<T>, AllocError>
    ensures { IfOk result (λ next. next ≡ with_deleted T.eq deleted.now list) }
{
    let list = once::<P, T>(alloc, list)?;
    if deleted.is_empty() {
        return Ok(list);
    }
    let deleted = firsts::<P, T>(alloc, deleted)?;
    without::<P, T>(alloc, list.as_slice(), deleted.as_slice())
}

fn with_added<P: Places<T>, T: Eq + ExactClone + Drop>(
    alloc: Global,
    added: &[T],
    list: Items<T>,
) -> Result<Items<T>, AllocError>
    ensures { IfOk result (λ next. next ≡ with_added T.eq added.now list) }
{
    if added.is_empty() {
        return Ok(list);
    }
    let added = firsts::<P, T>(alloc, added)?;
    if list.is_empty() {
        return Ok(added);
    }
    let absent = without::<P, T>(alloc, added.as_slice(), list.as_slice())?;
    joined(list, absent.as_slice())
}

fn with_prepended<P: Places<T>, T: Eq + ExactClone + Drop>(
    alloc: Global,
    prepended: &[T],
    list: Items<T>,
) -> Result<Items<T>, AllocError>
    ensures { IfOk result (λ next. next ≡ with_prepended T.eq prepended.now list) }
{
    if prepended.is_empty() {
        return Ok(list);
    }
    let prepended = firsts::<P, T>(alloc, prepended)?;
    let behind = without::<P, T>(alloc, list.as_slice(), prepended.as_slice())?;
    joined(prepended, behind.as_slice())
}

fn with_appended<P: Places<T>, T: Eq + ExactClone + Drop>(
    alloc: Global,
    appended: &[T],
    list: Items<T>,
) -> Result<Items<T>, AllocError>
    ensures { IfOk result (λ next. next ≡ with_appended T.eq appended.now list) }
{
    if appended.is_empty() {
        return Ok(list);
    }
    let appended = firsts::<P, T>(alloc, appended)?;
    let before = without::<P, T>(alloc, list.as_slice(), appended.as_slice())?;
    joined(before, appended.as_slice())
}

/// The groups of listed items in the order in which they are listed; the items themselves where none is listed.
fn in_order<P: Places<T>, T: Eq + ExactClone + Drop>(
    alloc: Global,
    ordered: &[T],
    list: Items<T>,
) -> Result<Items<T>, AllocError>
    ensures { IfOk result (λ next. next ≡ grouped T.eq (firsts T.eq ordered.now) list) }
{
    if ordered.is_empty() {
        return Ok(list);
    }
    let order = firsts::<P, T>(alloc, ordered)?;
    grouped::<P, T>(alloc, order.as_slice(), list.as_slice())
}

/// The items, and then copies of more.
fn joined<T: ExactClone + Drop>(items: Items<T>, more: &[T]) -> Result<Items<T>, AllocError>
    ensures { IfOk result (λ all. all ≡ items ++ more.now) }
{
    let mut all = items;
    push_all(&mut all, more)?;
    Ok(all)
}

/// Appends copies.
pub fn push_all<T: ExactClone + Drop>(out: &mut Items<T>, items: &[T]) -> Result<(), AllocError>
    ensures { OnOk result (out.new ≡ out.old ++ items.now) }
{
    for item in items {
        out.push(copy(item)?)?;
    }
    Ok(())
}

/// Whether an item is in the list that `places` speaks of.
fn stands<P: Places<T>, T: Eq>(places: &P, items: &[T], item: &T) -> bool
    requires { (x : T) → P.place_of places.now items.now x ≡ position_from (λ y. T.eq y x) 0 items.now }
    ensures { result ≡ contains T.eq items.now item.now }
{
    places.place(items, item).is_some()
}

/// Whether an item is in the list before a place.
fn stands_before<P: Places<T>, T: Eq>(places: &P, items: &[T], at: usize, item: &T) -> bool
    requires { (x : T) → P.place_of places.now items.now x ≡ position_from (λ y. T.eq y x) 0 items.now }
    ensures { result ≡ contains T.eq (take at items.now) item.now }
{
    match places.place(items, item) {
        Some(first) => first < at,
        None => false,
    }
}

/// The items that are not among `out`.
fn without<P: Places<T>, T: Eq + ExactClone + Drop>(
    alloc: Global,
    items: &[T],
    out: &[T],
) -> Result<Items<T>, AllocError>
    ensures { IfOk result (λ kept. kept ≡ without T.eq items.now out.now) }
{
    let places = P::of(alloc, out)?;
    let mut kept = Items::new(alloc);
    for item in items {
        if !stands(&places, out, item) {
            kept.push(copy(item)?)?;
        }
    }
    Ok(kept)
}

/// The first of each item.
pub fn firsts<P: Places<T>, T: Eq + ExactClone + Drop>(
    alloc: Global,
    items: &[T],
) -> Result<Items<T>, AllocError>
    ensures { IfOk result (λ kept. kept ≡ firsts T.eq items.now) }
{
    let places = P::of(alloc, items)?;
    let mut kept = Items::new(alloc);
    for i in 0..items.len() {
        if !stands_before(&places, items, i, &items[i]) {
            kept.push(copy(&items[i])?)?;
        }
    }
    Ok(kept)
}

/// The first of each item: of few items without a repeat the list itself, of which nothing is copied.
pub fn once<P: Places<T>, T: Eq + ExactClone + Drop>(
    alloc: Global,
    items: Items<T>,
) -> Result<Items<T>, AllocError>
    ensures { IfOk result (λ kept. kept ≡ firsts T.eq items) }
{
    if items.len() <= FEW && !has_repeats(items.as_slice()) {
        return Ok(items);
    }
    firsts::<P, T>(alloc, items.as_slice())
}

/// Whether an item stands again behind itself, told by comparing each with those before it.
fn has_repeats<T: Eq>(items: &[T]) -> bool
    ensures { result ≡ false → firsts T.eq items.now ≡ items.now }
{
    for i in 0..items.len() {
        if is_among(&items[..i], &items[i]) {
            return true;
        }
    }
    false
}

/// Whether an item is in a list, told by going through it.
fn is_among<T: Eq>(items: &[T], item: &T) -> bool
    ensures { result ≡ contains T.eq items.now item.now }
{
    place_in(items, item).is_some()
}

/// The unlisted items before the first group, and then the groups in listed order.
fn grouped<P: Places<T>, T: Eq + ExactClone + Drop>(
    alloc: Global,
    order: &[T],
    items: &[T],
) -> Result<Items<T>, AllocError>
    ensures { IfOk result (λ next. next ≡ grouped T.eq order.now items.now) }
{
    let listed = P::of(alloc, order)?;
    let places = P::of(alloc, items)?;
    let mut next = Items::new(alloc);
    push_until_listed(&mut next, &listed, order, items)?;
    for item in order {
        push_group_of(&mut next, &listed, order, &places, items, item)?;
    }
    Ok(next)
}

/// The first place of an item in the list that `places` speaks of.
fn place<P: Places<T>, T: Eq>(places: &P, items: &[T], item: &T) -> Option<usize>
    requires { (x : T) → P.place_of places.now items.now x ≡ position_from (λ y. T.eq y x) 0 items.now }
    ensures at { result ≡ position_from (λ y. T.eq y item.now) 0 items.now }
    ensures within { IfSome result (λ at. at < length items.now) }
{
    places.place(items, item)
}

/// Appends copies of the items before the first listed one.
fn push_until_listed<P: Places<T>, T: Eq + ExactClone + Drop>(
    out: &mut Items<T>,
    listed: &P,
    order: &[T],
    items: &[T],
) -> Result<(), AllocError>
    requires { (x : T) → P.place_of listed.now order.now x ≡ position_from (λ y. T.eq y x) 0 order.now }
    ensures { OnOk result (out.new ≡ out.old ++ until_listed T.eq order.now items.now) }
{
    for item in items {
        if stands(listed, order, item) {
            return Ok(());
        }
        out.push(copy(item)?)?;
    }
    Ok(())
}

/// Appends a copy of the group of a listed item.
fn push_group_of<P: Places<T>, T: Eq + ExactClone + Drop>(
    out: &mut Items<T>,
    listed: &P,
    order: &[T],
    places: &P,
    items: &[T],
    item: &T,
) -> Result<(), AllocError>
    requires listed { (x : T) → P.place_of listed.now order.now x ≡ position_from (λ y. T.eq y x) 0 order.now }
    requires places { (x : T) → P.place_of places.now items.now x ≡ position_from (λ y. T.eq y x) 0 items.now }
    ensures { OnOk result (out.new ≡ out.old ++ group_of T.eq order.now items.now item.now) }
{
    let Some(at) = place(places, items, item) else {
        return Ok(());
    };
    push_group(out, listed, order, items, at)?;
    Ok(())
}

/// Appends a copy of the group that begins at a place.
fn push_group<P: Places<T>, T: Eq + ExactClone + Drop>(
    out: &mut Items<T>,
    listed: &P,
    order: &[T],
    items: &[T],
    at: usize,
) -> Result<(), AllocError>
    requires listed { (x : T) → P.place_of listed.now order.now x ≡ position_from (λ y. T.eq y x) 0 order.now }
    requires within { at < length items.now }
    ensures { OnOk result (out.new ≡ out.old ++ group_at T.eq order.now items.now at) }
{
    out.push(copy(&items[at])?)?;
    push_until_listed(out, listed, order, &items[at + 1..])
}
