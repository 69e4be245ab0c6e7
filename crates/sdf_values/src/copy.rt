//! `clone`, written out since a derived one says nothing of a type that holds itself.
ghost use Rattle.std.specs.Prelude.{◌≡◌, IfOk};

use crate::value::{DictItem, Value};
use plain_data::{ExactClone, Items, Text};
use std::alloc::{AllocError, Global};

impl Clone for Value {
    ghost is_clone = { λ v w. w ≡ v };

    fn clone(&self) -> Result<Value, AllocError> {
        copy(self)
    }
}

impl Clone for DictItem {
    ghost is_clone = { λ v w. w ≡ v };

    fn clone(&self) -> Result<DictItem, AllocError> {
        copy_item(self)
    }
}

#[cycle(copy)]
fn copy(value: &Value) -> Result<Value, AllocError>
    ensures { IfOk result (λ v. v ≡ value.now) }
{
    match value {
        Value::Bool(b) => Ok(Value::Bool(*b)),
        Value::Whole(n) => Ok(Value::Whole(*n)),
        Value::Number(x) => Ok(Value::Number(*x)),
        Value::Time(t) => Ok(Value::Time(*t)),
        Value::Text(text) => Ok(Value::Text(text.clone()?)),
        Value::Asset(text) => Ok(Value::Asset(text.clone()?)),
        Value::PathText(text) => Ok(Value::PathText(text.clone()?)),
        Value::Word(text) => Ok(Value::Word(text.clone()?)),
        Value::Tuple(items) => Ok(Value::Tuple(copy_values(items)?)),
        Value::Array(items) => Ok(Value::Array(copy_values(items)?)),
        Value::Dict(items) => Ok(Value::Dict(copy_dict(items)?)),
        Value::Block => Ok(Value::Block),
    }
}

#[cycle(copy)]
fn copy_values(items: &Items<Value>) -> Result<Items<Value>, AllocError>
    ensures { IfOk result (λ v. v ≡ items.now) }
{
    let mut copies = Items::with_room_of(items)?;
    for item in items.as_slice() {
        copies.push(copy(item)?)?;
    }
    Ok(copies)
}

#[cycle(copy)]
fn copy_dict(items: &Items<DictItem>) -> Result<Items<DictItem>, AllocError>
    ensures { IfOk result (λ v. v ≡ items.now) }
{
    let mut copies = Items::with_room_of(items)?;
    for item in items.as_slice() {
        copies.push(copy_item(item)?)?;
    }
    Ok(copies)
}

#[cycle(copy)]
fn copy_item(item: &DictItem) -> Result<DictItem, AllocError>
    ensures { IfOk result (λ v. v ≡ item.now) }
{
    let key = item.key.clone()?;
    let value = copy(&item.value)?;
    Ok(DictItem {
        key,
        ty: item.ty,
        value,
    })
}

impl ExactClone for Value {
    ghost copy_is_same = { λ x y h. h };
}

impl ExactClone for DictItem {
    ghost copy_is_same = { λ x y h. h };
}
