//! Which numbers a value holds.
ghost use Rattle.std.specs.Prelude.{◌≡◌, true, map};
ghost use Rattle.sdf_values.specs.Proper.{all_true};
ghost use Rattle.value_shapes.specs.Held.{is_held, is_held_item, is_held_number};

use sdf_values::{DictItem, Num, Value};

/// Each value that a program has holds its numbers so: whole numbers within 128 signed bits, decimals in their one form,
/// times within 10^12 whole units of 0. The call reads each of them, and takes no memory.
pub fn numbers_are_held(value: &Value)
    ensures { is_held value.now ≡ true }
{
    read(value)
}

#[cycle(read)]
fn read(value: &Value)
    ensures { is_held value.now ≡ true }
{
    match value {
        Value::Whole(n) => {
            let _whole = *n;
        }
        Value::Number(x) => read_number(*x),
        Value::Time(time) => {
            let _units = time.units;
        }
        Value::Tuple(items) | Value::Array(items) => read_all(items.as_slice()),
        Value::Dict(items) => read_items(items.as_slice()),
        _ => {}
    }
}

fn read_number(x: Num)
    ensures { is_held_number x ≡ true }
{
    match x {
        Num::Finite(d) => {
            let _exp = d.exp;
        }
        _ => {}
    }
}

#[cycle(read)]
fn read_all(values: &[Value])
    ensures { all_true (map is_held values.now) ≡ true }
{
    for value in values {
        read(value);
    }
}

#[cycle(read)]
fn read_items(items: &[DictItem])
    ensures { all_true (map is_held_item items.now) ≡ true }
{
    for item in items {
        read(&item.value);
    }
}
