//! Equality of values, which decides `≡`.
ghost use Rattle.std.specs.Prelude.{◌≡◌, ◌↔◌, IsTrue};

use crate::value::{DictItem, Value};

impl Value {
    /// Whether the two are one value.
    pub fn same(&self, other: &Value) -> bool
        ensures { IsTrue result ↔ (self.now ≡ other.now) }
    {
        same(self, other)
    }
}

impl DictItem {
    /// Whether the two are one entry.
    pub fn same(&self, other: &DictItem) -> bool
        ensures { IsTrue result ↔ (self.now ≡ other.now) }
    {
        same_item(self, other)
    }
}

#[cycle(same)]
fn same(a: &Value, b: &Value) -> bool
    ensures { IsTrue result ↔ (a.now ≡ b.now) }
{
    match a {
        Value::Bool(x) => match b {
            Value::Bool(y) => x == y,
            _ => false,
        },
        Value::Whole(x) => match b {
            Value::Whole(y) => x == y,
            _ => false,
        },
        Value::Number(x) => match b {
            Value::Number(y) => x == y,
            _ => false,
        },
        Value::Time(x) => match b {
            Value::Time(y) => x == y,
            _ => false,
        },
        Value::Text(x) => match b {
            Value::Text(y) => x == y,
            _ => false,
        },
        Value::Asset(x) => match b {
            Value::Asset(y) => x == y,
            _ => false,
        },
        Value::PathText(x) => match b {
            Value::PathText(y) => x == y,
            _ => false,
        },
        Value::Word(x) => match b {
            Value::Word(y) => x == y,
            _ => false,
        },
        Value::Tuple(x) => match b {
            Value::Tuple(y) => same_values(x.as_slice(), y.as_slice()),
            _ => false,
        },
        Value::Array(x) => match b {
            Value::Array(y) => same_values(x.as_slice(), y.as_slice()),
            _ => false,
        },
        Value::Dict(x) => match b {
            Value::Dict(y) => same_items(x.as_slice(), y.as_slice()),
            _ => false,
        },
        Value::Block => matches!(b, Value::Block),
    }
}

#[cycle(same)]
fn same_values(a: &[Value], b: &[Value]) -> bool
    ensures { IsTrue result ↔ (a.now ≡ b.now) }
{
    if a.len() != b.len() {
        return false;
    }
    for i in 0..a.len() {
        if !same(&a[i], &b[i]) {
            return false;
        }
    }
    true
}

#[cycle(same)]
fn same_items(a: &[DictItem], b: &[DictItem]) -> bool
    ensures { IsTrue result ↔ (a.now ≡ b.now) }
{
    if a.len() != b.len() {
        return false;
    }
    for i in 0..a.len() {
        if !same_item(&a[i], &b[i]) {
            return false;
        }
    }
    true
}

#[cycle(same)]
fn same_item(a: &DictItem, b: &DictItem) -> bool
    ensures { IsTrue result ↔ (a.now ≡ b.now) }
{
    a.key == b.key && a.ty == b.ty && same(&a.value, &b.value)
}
