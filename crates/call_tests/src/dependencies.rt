use dependency_table::Table;
use std::test::Fail;

/// Whether these keys mark just these places, each once and in order.
fn marks(table: &Table<u64, u64>, keys: &[u64], places: &[u64]) -> Result<bool, Fail> {
    Ok(table.marked_by(keys)?.as_slice() == places)
}

#[test]
fn marks_the_places_of_a_key(rt: HostRuntime) -> Result<(), Fail> {
    let mut table: Table<u64, u64> = Table::new(rt.alloc());
    table.put(&10, &[1, 2])?;
    table.put(&20, &[2])?;
    let by_one = marks(&table, &[1], &[10])?;
    table.put(&10, &[3])?;
    let by_two = marks(&table, &[2], &[20])?;
    table.forget(&20);
    let by_two_no_more = marks(&table, &[2], &[])?;
    assert!(rt; by_one && by_two && by_two_no_more);
    Ok(())
}

#[test]
fn marks_each_place_once_and_in_order(rt: HostRuntime) -> Result<(), Fail> {
    let mut table: Table<u64, u64> = Table::new(rt.alloc());
    table.put(&30, &[7, 8, 7])?;
    table.put(&10, &[8, 9])?;
    table.put(&20, &[1])?;
    let by_four = marks(&table, &[9, 8, 7, 8], &[10, 30])?;
    let by_none = marks(&table, &[], &[])?;
    table.forget(&40);
    table.put(&30, &[])?;
    let by_two = marks(&table, &[7, 8], &[10])?;
    assert!(rt; by_four && by_none && by_two);
    Ok(())
}
