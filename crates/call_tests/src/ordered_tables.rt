//! Each call with ample memory.
use plain_data::{copy, same};
use spec_tables::OrderedTable;
use std::alloc::Global;
use std::test::Fail;

/// The table of 3, 5 and 9, each with ten times as much.
fn three_entries(alloc: Global) -> Result<OrderedTable<u64, u64>, Fail> {
    let mut table = OrderedTable::new(alloc);
    table.insert(5, 50)?;
    table.insert(3, 30)?;
    table.insert(9, 90)?;
    Ok(table)
}

#[test]
fn an_insertion_tells_what_it_replaces(rt: HostRuntime) -> Result<(), Fail> {
    let mut table: OrderedTable<u64, u64> = OrderedTable::new(rt.alloc());
    let begins_empty = table.is_empty() && table.len() == 0;
    let first = table.insert(5, 50)?;
    let second = table.insert(3, 30)?;
    let third = table.insert(9, 90)?;
    let again = table.insert(5, 55)?;
    let are_new = first.is_none() && second.is_none() && third.is_none();
    let has_three = again == Some(50) && table.len() == 3 && !table.is_empty();
    drop(table);
    assert!(rt; begins_empty && are_new && has_three);
    Ok(())
}

#[test]
fn entries_are_found_by_their_keys(rt: HostRuntime) -> Result<(), Fail> {
    let mut table = three_entries(rt.alloc())?;
    table.insert(5, 55)?;
    let finds = table.get(&5) == Some(&55)
        && table.get(&4).is_none()
        && table.has(&9)
        && !table.has(&10);
    drop(table);
    assert!(rt; finds);
    Ok(())
}

/// Whether a table of 3, 5 and 9 has them in order.
fn has_its_order(table: &OrderedTable<u64, u64>) -> bool {
    table.at(0) == Some((&3, &30))
        && table.at(2) == Some((&9, &90))
        && table.at(3).is_none()
        && table.iter().next() == Some((&3, &30))
        && table.iter().count() == 3
}

#[test]
fn entries_stand_in_the_order_of_keys(rt: HostRuntime) -> Result<(), Fail> {
    let table = three_entries(rt.alloc())?;
    let is_in_order = has_its_order(&table);
    drop(table);
    assert!(rt; is_in_order);
    Ok(())
}

#[test]
fn entries_are_gone_over_from_a_key_on(rt: HostRuntime) -> Result<(), Fail> {
    let mut table = three_entries(rt.alloc())?;
    table.insert(5, 55)?;
    let goes_on = table.iter_from(&4).next() == Some((&5, &55))
        && table.iter_from(&9).count() == 1
        && table.iter_from(&10).next().is_none();
    drop(table);
    assert!(rt; goes_on);
    Ok(())
}

/// Whether an exchange changes one entry, and none of a copy.
fn exchanges_one(table: &mut OrderedTable<u64, u64>) -> Result<bool, Fail> {
    let before = copy(table)?;
    let is_copied = same(table, &before);
    let is_told = table.replace(&5, 51) == Ok(50) && table.replace(&4, 40) == Err(40);
    let is_changed = !same(table, &before) && table.get(&5) == Some(&51);
    drop(before);
    Ok(is_copied && is_told && is_changed)
}

#[test]
fn an_exchange_changes_one_entry(rt: HostRuntime) -> Result<(), Fail> {
    let mut table = three_entries(rt.alloc())?;
    let exchanged = exchanges_one(&mut table);
    drop(table);
    assert!(rt; exchanged?);
    Ok(())
}

#[test]
fn a_removal_takes_one_entry(rt: HostRuntime) -> Result<(), Fail> {
    let mut table = three_entries(rt.alloc())?;
    let is_removed = table.remove(&3) == Some(30) && table.remove(&3).is_none();
    let leaves_two = table.len() == 2 && table.get(&5) == Some(&50);
    drop(table);
    assert!(rt; is_removed && leaves_two);
    Ok(())
}

/// The table of the keys below a count, put from the last to the first, each with itself.
fn keys_below(alloc: Global, count: u64) -> Result<OrderedTable<u64, u64>, Fail> {
    let mut table = OrderedTable::new(alloc);
    for key in (0..count).rev() {
        table.insert(key, key)?;
    }
    Ok(table)
}

/// Whether forty entries are found from either end, and by their keys.
fn has_forty(table: &OrderedTable<u64, u64>) -> bool {
    table.len() == 40
        && table.iter().count() == 40
        && table.iter().next() == Some((&0, &0))
        && table.iter().next_back() == Some((&39, &39))
        && table.at(7) == Some((&7, &7))
        && table.iter_from(&35).count() == 5
        && table.last_until(&50) == Some((&39, &39))
}

#[test]
fn many_entries_stand_in_the_order_of_keys(rt: HostRuntime) -> Result<(), Fail> {
    let mut table = keys_below(rt.alloc(), 40)?;
    let is_in_order = has_forty(&table);
    let is_exchanged = table.replace(&5, 51) == Ok(5)
        && table.replace(&40, 1) == Err(1)
        && table.get(&5) == Some(&51);
    let is_removed = table.remove(&7) == Some(7) && !table.has(&7) && table.len() == 39;
    drop(table);
    assert!(rt; is_in_order && is_exchanged && is_removed);
    Ok(())
}

#[test]
fn a_single_entry_is_found_and_taken_out(rt: HostRuntime) -> Result<(), Fail> {
    let mut table = keys_below(rt.alloc(), 1)?;
    let is_found = table.iter().next() == Some((&0, &0))
        && table.iter_from(&1).next().is_none()
        && table.last_until(&1) == Some((&0, &0))
        && table.at(1).is_none();
    let is_removed = table.remove(&1).is_none() && table.remove(&0) == Some(0) && table.is_empty();
    drop(table);
    assert!(rt; is_found && is_removed);
    Ok(())
}
