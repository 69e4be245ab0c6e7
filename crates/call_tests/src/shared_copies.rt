//! Each call with ample memory, and copies that stay as they were.
use plain_data::{Items, copy, same};
use shared_tables::SharedTable;
use std::alloc::Global;
use std::test::Fail;

/// The table of 3, 5 and 9, where what 5 had at first was replaced.
fn three_entries(alloc: Global) -> Result<SharedTable<u64, u64>, Fail> {
    let mut table = SharedTable::new(alloc);
    table.insert(5, 50)?;
    table.insert(3, 30)?;
    table.insert(9, 90)?;
    table.insert(5, 55)?;
    Ok(table)
}

/// The table of 3 and 5.
fn two_entries(alloc: Global) -> Result<SharedTable<u64, u64>, Fail> {
    let mut table = SharedTable::new(alloc);
    table.insert(3, 30)?;
    table.insert(5, 50)?;
    Ok(table)
}

/// A key of 3 and 5.
fn list_key(alloc: Global) -> Result<Items<u64>, Fail> {
    let mut key = Items::new(alloc);
    key.push(3)?;
    key.push(5)?;
    Ok(key)
}

#[test]
fn a_key_that_is_a_list_is_found_by_its_items(rt: HostRuntime) -> Result<(), Fail> {
    let mut table: SharedTable<Items<u64>, u64> = SharedTable::new(rt.alloc());
    table.insert(list_key(rt.alloc())?, 35)?;
    let finds = table.get_by_items(&[3, 5]) == Some(&35) && table.get_by_items(&[3]).is_none();
    drop(table);
    assert!(rt; finds);
    Ok(())
}

#[test]
fn a_table_begins_empty(rt: HostRuntime) -> Result<(), Fail> {
    let table: SharedTable<u64, u64> = SharedTable::new(rt.alloc());
    let begins_empty = table.is_empty() && table.iter().next().is_none();
    drop(table);
    assert!(rt; begins_empty);
    Ok(())
}

#[test]
fn entries_are_found_by_their_keys(rt: HostRuntime) -> Result<(), Fail> {
    let table = three_entries(rt.alloc())?;
    let finds = !table.is_empty()
        && table.get(&5) == Some(&55)
        && table.get(&4).is_none()
        && table.has(&9)
        && !table.has(&10);
    drop(table);
    assert!(rt; finds);
    Ok(())
}

/// Whether a table of 3, 5 and 9 is gone over in order.
fn has_its_order(table: &SharedTable<u64, u64>) -> bool {
    table.iter().count() == 3
        && table.iter().next() == Some((&3, &30))
        && table.iter_from(&4).next() == Some((&5, &55))
}

/// Whether a table of 3, 5 and 9 is gone over from a key on.
fn has_its_rest(table: &SharedTable<u64, u64>) -> bool {
    table.iter_from(&5).count() == 2
        && table.iter_from(&9).count() == 1
        && table.iter_from(&10).next().is_none()
}

#[test]
fn entries_stand_in_the_order_of_keys(rt: HostRuntime) -> Result<(), Fail> {
    let table = three_entries(rt.alloc())?;
    let is_in_order = has_its_order(&table) && has_its_rest(&table);
    drop(table);
    assert!(rt; is_in_order);
    Ok(())
}

/// Whether an exchange changes one entry of a table of 3 and 5, and none of this copy.
fn exchanges_one(
    table: &mut SharedTable<u64, u64>,
    before: &SharedTable<u64, u64>,
) -> Result<bool, Fail> {
    let equal_at_first = same(table, before);
    let given = table.exchange(&5, 51)?;
    let absent = table.exchange(&4, 40)?;
    let are_told = given == Some(50) && absent.is_none();
    Ok(equal_at_first && are_told && !same(table, before) && !same(before, table))
}

fn exchanges_one_beside_a_copy(table: &mut SharedTable<u64, u64>) -> Result<bool, Fail> {
    let before = copy(table)?;
    let exchanged = exchanges_one(table, &before);
    drop(before);
    exchanged
}

#[test]
fn an_exchange_changes_one_entry(rt: HostRuntime) -> Result<(), Fail> {
    let mut table = two_entries(rt.alloc())?;
    let exchanged = exchanges_one_beside_a_copy(&mut table);
    drop(table);
    assert!(rt; exchanged?);
    Ok(())
}

/// Whether a removal takes one entry of a table of 3 and 5, once.
fn removes_one(table: &mut SharedTable<u64, u64>) -> Result<bool, Fail> {
    table.exchange(&5, 51)?;
    let taken = table.remove(&3)?;
    let taken_again = table.remove(&3)?;
    Ok(taken && !taken_again && table.iter().count() == 1 && table.get(&5) == Some(&51))
}

/// Whether nothing of that is taken from a copy that was made before.
fn removes_none_of_a_copy(table: &mut SharedTable<u64, u64>) -> Result<bool, Fail> {
    let before = copy(table)?;
    let removed = removes_one(table);
    let is_left = before.iter().count() == 2 && before.get(&5) == Some(&50) && before.has(&3);
    drop(before);
    let removed = removed?;
    Ok(removed && is_left)
}

#[test]
fn a_removal_takes_one_entry_and_none_of_a_copy(rt: HostRuntime) -> Result<(), Fail> {
    let mut table = two_entries(rt.alloc())?;
    let removed = removes_none_of_a_copy(&mut table);
    drop(table);
    assert!(rt; removed?);
    Ok(())
}

/// The table of the numbers below 1000, each with itself.
fn thousand_entries(alloc: Global) -> Result<SharedTable<u64, u64>, Fail> {
    let mut table = SharedTable::new(alloc);
    for key in 0..1000 {
        table.insert(key, key)?;
    }
    Ok(table)
}

/// Replaces the upper half by zeros, and adds as many entries.
fn overwrite_upper_half(table: &mut SharedTable<u64, u64>) -> Result<(), Fail> {
    for key in 500..1500 {
        table.insert(key, 0)?;
    }
    Ok(())
}

/// Whether each fourth number below 1000 had an entry, which is taken.
fn take_each_fourth(table: &mut SharedTable<u64, u64>) -> Result<bool, Fail> {
    for key in 0..250 {
        if !table.remove(&(4 * key))? {
            return Ok(false);
        }
    }
    Ok(true)
}

/// Whether the entries are the numbers below 1000 in order, each with itself.
fn is_gone_over_in_order(table: &SharedTable<u64, u64>) -> bool {
    let mut expected: u64 = 0;
    for (key, value) in table.iter() {
        if *key != expected || *value != expected {
            return false;
        }
        expected = expected.saturating_add(1);
    }
    expected == 1000
}

/// Whether each number below 1000 has itself in the one table, and all but each fourth an entry in the other.
fn are_found(before: &SharedTable<u64, u64>, after: &SharedTable<u64, u64>) -> bool {
    for key in 0..1000 {
        if before.get(&key) != Some(&key) || after.has(&key) != (key % 4 != 0) {
            return false;
        }
    }
    true
}

/// Whether a thousand entries change as they should beside a copy that stays as it was.
fn is_changed_beside(
    table: &mut SharedTable<u64, u64>,
    before: &SharedTable<u64, u64>,
) -> Result<bool, Fail> {
    overwrite_upper_half(table)?;
    let taken = take_each_fourth(table)?;
    let has_them = table.iter().count() == 1250 && table.get(&1499) == Some(&0);
    Ok(
        taken
            && has_them
            && is_gone_over_in_order(before)
            && are_found(before, table)
            && !same(table, before),
    )
}

fn is_changed_beside_a_copy(table: &mut SharedTable<u64, u64>) -> Result<bool, Fail> {
    let before = copy(table)?;
    let changed = is_changed_beside(table, &before);
    drop(before);
    changed
}

#[test]
fn a_copy_of_many_entries_stays_as_it_was(rt: HostRuntime) -> Result<(), Fail> {
    let mut table = thousand_entries(rt.alloc())?;
    let changed = is_changed_beside_a_copy(&mut table);
    drop(table);
    assert!(rt; changed?);
    Ok(())
}

/// The table of the numbers below 257, as they are inserted: rising, falling and mixed.
fn rising(alloc: Global) -> Result<SharedTable<u64, u64>, Fail> {
    let mut table = SharedTable::new(alloc);
    for key in 0..257 {
        table.insert(key, 7)?;
    }
    Ok(table)
}

fn falling(alloc: Global) -> Result<SharedTable<u64, u64>, Fail> {
    let mut table = SharedTable::new(alloc);
    for key in 0..257 {
        table.insert(256 - key, 7)?;
    }
    Ok(table)
}

fn mixed(alloc: Global) -> Result<SharedTable<u64, u64>, Fail> {
    let mut table = SharedTable::new(alloc);
    for key in 0..257 {
        table.insert((key * 101) % 257, 7)?;
    }
    Ok(table)
}

/// Whether each of the numbers below 257 had an entry, which is taken.
fn take_all(table: &mut SharedTable<u64, u64>) -> Result<bool, Fail> {
    for key in 0..257 {
        if !table.remove(&((key * 55) % 257))? {
            return Ok(false);
        }
    }
    Ok(true)
}

#[test]
fn keys_in_any_order_end_in_order(rt: HostRuntime) -> Result<(), Fail> {
    let rising = rising(rt.alloc())?;
    let falling = falling(rt.alloc())?;
    let mut mixed = mixed(rt.alloc())?;
    let equal = same(&rising, &falling) && same(&rising, &mixed);
    let taken = take_all(&mut mixed)?;
    assert!(rt; equal && taken && mixed.is_empty());
    Ok(())
}
