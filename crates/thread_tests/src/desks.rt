use std::test::Fail;
use turn_lock::{Desk, Journalled, SplitRefused};

/// A value with a list of who had it.
#[derive(Drop)]
struct Marks {
    list: Vec<u64>,
}

impl Journalled for Marks {
    type Entry = u64;

    type Name = ();

    ghost entries = { λ m. m.list.items };

    ghost bears = { λ by. by };

    ghost named = { λ _. tt };
}

#[test]
fn splits_while_numbers_are_spare(rt: HostRuntime) -> Result<(), Fail> {
    let marks = Marks {
        list: Vec::new(rt.alloc()),
    };
    let (desk, mut first) = Desk::new(rt.alloc(), 2, marks)?;
    let second = desk.split_seat(&mut first);
    let third = desk.split_seat(&mut first);
    assert!(rt; second.is_ok_and(|seat| seat.number() == 1 && seat.spare() == 0));
    assert!(rt; matches!(third, Err(SplitRefused::SeatsFull)) && first.spare() == 0);
    Ok(())
}

#[test]
fn a_turn_begins_where_the_last_one_ended(rt: HostRuntime) -> Result<(), Fail> {
    let marks = Marks {
        list: Vec::new(rt.alloc()),
    };
    let (desk, mut first) = Desk::new(rt.alloc(), 3, marks)?;
    let Ok(mut second) = desk.split_seat(&mut first) else {
        panic!(rt; "a number was spare")
    };
    let mut value = desk.take_turn(&rt, &mut second);
    let pushed = value.list.push(second.number());
    desk.give_back(&mut second, value);
    let value = desk.take_turn(&rt, &mut first);
    let long = value.list.len();
    desk.give_back(&mut first, value);
    desk.join_seat(&mut first, second);
    let spare = first.spare();
    let value = desk.close(first);
    assert!(rt; pushed.is_ok() && long == 1 && spare == 1 && value.list[0] == 1);
    Ok(())
}

#[test]
fn a_seat_without_numbers_says_why(rt: HostRuntime) -> Result<(), Fail> {
    let fault = SplitRefused::SeatsFull;
    let said = format!(in rt.alloc(); "{fault}")?;
    assert!(rt; said.as_str() == "the seat has no spare number");
    Ok(())
}
