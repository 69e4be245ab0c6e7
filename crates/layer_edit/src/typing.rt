//! Values as an attribute or a key of metadata takes them.
ghost use Rattle.std.specs.Prelude.{◌≡◌, map, IfOk};
ghost use Rattle.std.specs.Result.{result_ok};
ghost use Rattle.sdf_values.specs.Conforms.{one};
ghost use Rattle.usda_fields.specs.Keys.{key_rule, judged};
ghost use Rattle.usda_values.specs.Shaping.{take_shape};
ghost use Rattle.layer_edit.specs.Typing.{is_but_for_time, is_member, are_members, has_form, typed, kept, kept_number, kept_all, kept_entry, as_ruled, meta_value};

use plain_data::{Items, Text, copy};
use sdf_values::{DictItem, ElementType, Num, RefusalKind, TypeName, Value};
use spec_properties::Meta;
use std::alloc::{AllocError, Global};
use usda_fields::{KeyRule, put_value};
use usda_values::{PartFault, ValueFault, by_value, take_shape};

/// Whether a value is one of a type, or is refused for a time alone.
fn fits(alloc: Global, ty: TypeName, value: &Value) -> Result<bool, AllocError>
    ensures { IfOk result (λ fits. fits ≡ is_but_for_time (take_shape ty value.now)) }
{
    match take_shape(alloc, ty, copy(value)?) {
        Ok(fitting) => {
            drop(fitting);
            Ok(true)
        }
        Err(ValueFault::Refused { kind, at: _ }) => Ok(matches!(kind, RefusalKind::TimeRange)),
        Err(ValueFault::NoMemory) => Err(AllocError),
    }
}

fn is_member(alloc: Global, element: ElementType, value: &Value) -> Result<bool, AllocError>
    ensures { IfOk result (λ fits. fits ≡ is_member element value.now) }
{
    if value.is_block() {
        return Ok(false);
    }
    fits(alloc, TypeName::one(element), value)
}

fn are_members(alloc: Global, ty: TypeName, values: &[Value]) -> Result<bool, AllocError>
    ensures { IfOk result (λ fit. fit ≡ are_members ty values.now) }
{
    if !ty.array {
        return Ok(false);
    }
    for value in values {
        if !is_member(alloc, ty.element, value)? {
            return Ok(false);
        }
    }
    Ok(true)
}

/// Whether a value has the form of a type, its times in range or not.
#[tactic(auto, unfolding(crate::specs::Typing::has_form))]
pub fn has_form(alloc: Global, ty: TypeName, value: &Value) -> Result<bool, AllocError>
    ensures { IfOk result (λ has. has ≡ has_form ty value.now) }
{
    match value {
        Value::Array(values) => are_members(alloc, ty, values.as_slice()),
        _ => fits(alloc, ty, value),
    }
}

/// A value as one of a type; nothing where the type does not take it.
#[tactic(auto, unfolding(crate::specs::Typing::typed))]
pub fn typed(alloc: Global, ty: TypeName, value: &Value) -> Result<Option<Value>, AllocError>
    ensures { IfOk result (λ v. v ≡ typed ty value.now) }
{
    match take_shape(alloc, ty, copy(value)?) {
        Ok(value) => Ok(Some(value)),
        Err(ValueFault::Refused { kind: _, at: _ }) => Ok(None),
        Err(ValueFault::NoMemory) => Err(AllocError),
    }
}

/// A value of metadata, inside an entry of a dictionary or not: a number is kept as a whole one where it is one.
#[cycle(kept)]
fn kept(alloc: Global, is_typed: bool, value: &Value) -> Result<Value, AllocError>
    ensures { IfOk result (λ v. v ≡ kept value.now is_typed) }
{
    match value {
        Value::Bool(b) => Ok(Value::Bool(*b)),
        Value::Whole(n) => Ok(Value::Whole(*n)),
        Value::Number(x) => Ok(kept_number(is_typed, *x)),
        Value::Time(t) => Ok(Value::Time(*t)),
        Value::Text(text) => Ok(Value::Text(copy(text)?)),
        Value::Asset(text) => Ok(Value::Asset(copy(text)?)),
        Value::PathText(text) => Ok(Value::PathText(copy(text)?)),
        Value::Word(text) => Ok(Value::Word(copy(text)?)),
        Value::Tuple(items) => Ok(Value::Tuple(kept_all(alloc, is_typed, items.as_slice())?)),
        Value::Array(items) => Ok(Value::Array(kept_all(alloc, is_typed, items.as_slice())?)),
        Value::Dict(items) => Ok(Value::Dict(kept_dict(alloc, items.as_slice())?)),
        Value::Block => Ok(Value::Block),
    }
}

#[cycle(kept)]
fn kept_all(alloc: Global, is_typed: bool, values: &[Value]) -> Result<Items<Value>, AllocError>
    ensures { IfOk result (λ vs. vs ≡ kept_all (map kept values.now) is_typed) }
{
    let mut all = Items::new(alloc);
    for value in values {
        all.push(kept(alloc, is_typed, value)?)?;
    }
    Ok(all)
}

#[cycle(kept)]
fn kept_dict(alloc: Global, items: &[DictItem]) -> Result<Items<DictItem>, AllocError>
    ensures { IfOk result (λ vs. vs ≡ map kept_entry items.now) }
{
    let mut all = Items::new(alloc);
    for item in items {
        all.push(kept_entry(alloc, item)?)?;
    }
    Ok(all)
}

#[cycle(kept)]
fn kept_entry(alloc: Global, item: &DictItem) -> Result<DictItem, AllocError>
    ensures { IfOk result (λ i. i ≡ kept_entry item.now) }
{
    let key = copy(&item.key)?;
    let value = kept(alloc, true, &item.value)?;
    Ok(DictItem {
        key,
        ty: item.ty,
        value,
    })
}

fn kept_number(is_typed: bool, x: Num) -> Value
    ensures { result ≡ kept_number is_typed x }
{
    if is_typed {
        Value::Number(x)
    } else {
        by_value(x)
    }
}

fn shaped(alloc: Global, element: ElementType, value: &Value) -> Result<Option<Value>, AllocError>
    ensures { IfOk result (λ v. v ≡ result_ok (take_shape (one element) value.now)) }
{
    match take_shape(alloc, TypeName::one(element), copy(value)?) {
        Ok(value) => Ok(Some(value)),
        Err(ValueFault::Refused { kind: _, at: _ }) => Ok(None),
        Err(ValueFault::NoMemory) => Err(AllocError),
    }
}

fn as_ruled(alloc: Global, rule: KeyRule, value: &Value) -> Result<Option<Value>, AllocError>
    ensures { IfOk result (λ v. v ≡ result_ok (as_ruled rule value.now)) }
{
    match rule {
        KeyRule::Comment => shaped(alloc, ElementType::String, value),
        KeyRule::Boolean => shaped(alloc, ElementType::Bool, value),
        KeyRule::DefaultPrim => shaped(alloc, ElementType::String, value),
        KeyRule::Relocates => Ok(Some(kept(alloc, false, value)?)),
        KeyRule::Free => Ok(Some(kept(alloc, false, value)?)),
    }
}

fn judged(alloc: Global, key: &Text, value: Value) -> Result<Option<Value>, AllocError>
    ensures { IfOk result (λ v. v ≡ result_ok (judged (key_rule key.now) value)) }
{
    let name = match copy(key) {
        Ok(name) => name,
        Err(error) => {
            drop(value);
            return Err(error);
        }
    };
    let mut meta = Meta::new(alloc);
    match put_value(alloc, &mut meta, name, value) {
        Ok(()) => {
            let kept = meta.remove(key);
            drop(meta);
            Ok(kept)
        }
        Err(PartFault::Refused(_)) => {
            drop(meta);
            Ok(None)
        }
        Err(PartFault::NoMemory) => {
            drop(meta);
            Err(AllocError)
        }
    }
}

/// The value that a key of metadata keeps; nothing where it does not take the value.
#[tactic(auto, unfolding(crate::specs::Typing::meta_value))]
pub fn meta_value(alloc: Global, key: &Text, value: &Value) -> Result<Option<Value>, AllocError>
    ensures { IfOk result (λ v. v ≡ meta_value key.now value.now) }
{
    match as_ruled(alloc, KeyRule::of_key(key.as_str()), value)? {
        Some(value) => judged(alloc, key, value),
        None => Ok(None),
    }
}
