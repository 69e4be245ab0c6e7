use std::test::Fail;
use turn_writers::{Book, write_by_many, write_by_two};

/// Whether the entries of this seat count up from 0, and how many it has.
fn counted(book: &Book, by: u64) -> Option<u64> {
    let mut next = 0;
    for entry in book.entries.as_slice() {
        if entry.by == by {
            if entry.step != next {
                return None;
            }
            next = next.checked_add(1)?;
        }
    }
    Some(next)
}

#[test]
fn two_threads_write_a_thousand_entries_each(rt: HostRuntime) -> Result<(), Fail> {
    let book = write_by_two(&rt, rt.alloc(), 1000)?;
    assert!(rt; book.entries.len() == 2000);
    assert!(rt; counted(&book, 0) == Some(1000) && counted(&book, 1) == Some(1000));
    Ok(())
}

#[test]
fn two_hundred_and_fifty_six_threads_write_in_turns(rt: HostRuntime) -> Result<(), Fail> {
    let book = write_by_many(&rt, rt.alloc(), 256, 8)?;
    assert!(rt; book.entries.len() == 2048);
    for by in 0..256u64 {
        assert!(rt; counted(&book, by) == Some(8));
    }
    Ok(())
}

#[test]
fn one_seat_needs_no_other_thread(rt: HostRuntime) -> Result<(), Fail> {
    let book = write_by_many(&rt, rt.alloc(), 1, 3)?;
    assert!(rt; book.entries.len() == 3 && counted(&book, 0) == Some(3));
    Ok(())
}
