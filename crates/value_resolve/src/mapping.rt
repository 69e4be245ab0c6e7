//! The times inside a value, through an offset.
ghost use Rattle.std.specs.Prelude.{◌≡◌, map, IfOk};
ghost use Rattle.sdf_values.specs.Scales.{mapped};
ghost use Rattle.sdf_values.specs.declared.value.DictItem.{out-DictItem};
ghost use Rattle.composition.specs.Values.{if_time, if_value, all_some, mapped_value, mapped_item, value_on_stage};

use plain_data::{Items, copy};
use prim_opinions::StageOffset;
use sdf_values::{DictItem, TimeCode, Value};
use std::alloc::AllocError;

fn mapped_time(offset: StageOffset, time: TimeCode) -> Option<Value>
    ensures { result ≡ if_value Value.Time (if_time (mapped offset time)) }
{
    match offset.map(time) {
        Some(time) => Some(Value::Time(time)),
        None => None,
    }
}

fn tuple_of(items: Option<Items<Value>>) -> Option<Value>
    ensures { result ≡ if_value Value.Tuple items }
{
    match items {
        Some(items) => Some(Value::Tuple(items)),
        None => None,
    }
}

fn array_of(items: Option<Items<Value>>) -> Option<Value>
    ensures { result ≡ if_value Value.Array items }
{
    match items {
        Some(items) => Some(Value::Array(items)),
        None => None,
    }
}

fn dict_of(items: Option<Items<DictItem>>) -> Option<Value>
    ensures { result ≡ if_value Value.Dict items }
{
    match items {
        Some(items) => Some(Value::Dict(items)),
        None => None,
    }
}

/// The value with its times mapped; none where one leaves the range.
#[cycle(mapped)]
fn mapped(offset: StageOffset, value: &Value) -> Result<Option<Value>, AllocError>
    ensures { IfOk result (λ v. v ≡ mapped_value offset value.now) }
{
    match value {
        Value::Bool(b) => Ok(Some(Value::Bool(*b))),
        Value::Whole(n) => Ok(Some(Value::Whole(*n))),
        Value::Number(x) => Ok(Some(Value::Number(*x))),
        Value::Time(t) => Ok(mapped_time(offset, *t)),
        Value::Text(text) => Ok(Some(Value::Text(copy(text)?))),
        Value::Asset(text) => Ok(Some(Value::Asset(copy(text)?))),
        Value::PathText(text) => Ok(Some(Value::PathText(copy(text)?))),
        Value::Word(text) => Ok(Some(Value::Word(copy(text)?))),
        Value::Tuple(items) => Ok(tuple_of(mapped_values(offset, items)?)),
        Value::Array(items) => Ok(array_of(mapped_values(offset, items)?)),
        Value::Dict(items) => Ok(dict_of(mapped_dict(offset, items)?)),
        Value::Block => Ok(Some(Value::Block)),
    }
}

#[cycle(mapped)]
fn mapped_values(
    offset: StageOffset,
    items: &Items<Value>,
) -> Result<Option<Items<Value>>, AllocError>
    ensures { IfOk result (λ values. values ≡ all_some (map (mapped_value offset) items.now)) }
{
    let mut kept = Items::with_room_of(items)?;
    for item in items.as_slice() {
        match mapped(offset, item)? {
            Some(value) => kept.push(value)?,
            None => return Ok(None),
        }
    }
    Ok(Some(kept))
}

#[cycle(mapped)]
fn mapped_dict(
    offset: StageOffset,
    items: &Items<DictItem>,
) -> Result<Option<Items<DictItem>>, AllocError>
    ensures { IfOk result (λ kept. kept ≡ all_some (map (λ item. mapped_item (record { key = (out-DictItem item).key; ty = (out-DictItem item).ty; value = mapped_value offset (out-DictItem item).value })) items.now)) }
{
    let mut kept = Items::with_room_of(items)?;
    for item in items.as_slice() {
        match mapped_entry(offset, item)? {
            Some(item) => kept.push(item)?,
            None => return Ok(None),
        }
    }
    Ok(Some(kept))
}

#[cycle(mapped)]
fn mapped_entry(offset: StageOffset, item: &DictItem) -> Result<Option<DictItem>, AllocError>
    ensures { IfOk result (λ kept. kept ≡ mapped_item (record { key = (out-DictItem item.now).key; ty = (out-DictItem item.now).ty; value = mapped_value offset (out-DictItem item.now).value })) }
{
    let key = copy(&item.key)?;
    match mapped(offset, &item.value)? {
        Some(value) => Ok(Some(DictItem {
            key,
            ty: item.ty,
            value,
        })),
        None => Ok(None),
    }
}

/// A value as it is on the stage: with its times mapped, if it has the type `timecode`; none where one leaves the range.
pub fn value_on_stage(
    times: bool,
    offset: StageOffset,
    value: &Value,
) -> Result<Option<Value>, AllocError>
    ensures { IfOk result (λ v. v ≡ value_on_stage times offset value.now) }
{
    if times {
        mapped(offset, value)
    } else {
        Ok(Some(copy(value)?))
    }
}
