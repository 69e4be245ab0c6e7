//! Each call with ample memory.
use plain_data::Items;
use stage_publish::Edition;
use std::alloc::Global;
use std::test::Fail;

/// The fourth version, after two batches, of three items.
fn three_items(alloc: Global) -> Result<Edition<u64, u64>, Fail> {
    let mut items: Items<(u64, u64)> = Items::new(alloc);
    items.push((5, 50))?;
    items.push((3, 30))?;
    items.push((9, 90))?;
    Ok(Edition::build(alloc, 4, 2, items, None)?)
}

/// Whether an edition and its view have its numbers.
fn has_its_numbers(edition: &Edition<u64, u64>) -> bool {
    let view = edition.view();
    edition.version() == 4
        && edition.batches() == 2
        && edition.len() == 3
        && !edition.is_empty()
        && view.version() == 4
        && view.batches() == 2
        && view.len() == 3
        && !view.is_empty()
}

#[test]
fn an_edition_has_its_numbers(rt: HostRuntime) -> Result<(), Fail> {
    let edition = three_items(rt.alloc())?;
    let has_them = has_its_numbers(&edition);
    drop(edition);
    assert!(rt; has_them);
    Ok(())
}

/// Whether an edition has its items by key, and has no other.
fn finds_its_items(edition: &Edition<u64, u64>) -> bool {
    let view = edition.view();
    view.find(&3) == Some(&30) && view.find(&9) == Some(&90) && view.find(&4).is_none()
}

/// Whether an edition has its items in order.
fn has_its_order(edition: &Edition<u64, u64>) -> bool {
    let view = edition.view();
    view.nth(0) == Some((&5, &50)) && view.nth(2) == Some((&9, &90)) && view.nth(3).is_none()
}

#[test]
fn an_edition_has_its_items_in_order(rt: HostRuntime) -> Result<(), Fail> {
    let edition = three_items(rt.alloc())?;
    let has_them = finds_its_items(&edition) && has_its_order(&edition);
    drop(edition);
    assert!(rt; has_them);
    Ok(())
}
