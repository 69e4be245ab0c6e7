//! Values as values of a type.
ghost use Rattle.std.specs.Prelude.{map};
ghost use Rattle.usda_values.specs.Scalars.{take_element};
ghost use Rattle.usda_values.specs.Takes.{Gives};
ghost use Rattle.usda_values.specs.Shaping.{taken, take_all, take_counted, take_tuple, take_leaf, take_shape, AnswersShape, GivesAll};
ghost use Rattle.sdf_values.specs.Conforms.{members_of, one};

use crate::fault::{PartFault, ValueFault, shape_fault};
use crate::scalar::take_element;
use plain_data::{Items, copy};
use sdf_values::{ElementType, TypeName, Value, members_of};
use std::alloc::Global;

fn take_leaf(ty: TypeName, value: &Value) -> Result<Value, PartFault>
    ensures { Gives result (take_leaf value.now ty) }
{
    if ty.array {
        return Err(shape_fault());
    }
    take_element(ty.element, copy(value)?)
}

#[cycle(taken)]
fn taken(alloc: Global, ty: TypeName, value: &Value) -> Result<Value, PartFault>
    ensures { Gives result (taken value.now ty) }
{
    match value {
        Value::Tuple(items) => {
            if ty.array {
                return Err(shape_fault());
            }
            take_tuple(alloc, ty.element, items.as_slice())
        }
        Value::Array(items) => {
            if !ty.array {
                return Err(shape_fault());
            }
            match take_all(alloc, TypeName::one(ty.element), items.as_slice()) {
                Ok(values) => Ok(Value::Array(values)),
                Err(fault) => Err(fault),
            }
        }
        Value::Dict(_) | Value::Block => Err(shape_fault()),
        Value::Bool(_)
        | Value::Whole(_)
        | Value::Number(_)
        | Value::Time(_)
        | Value::Text(_)
        | Value::Asset(_)
        | Value::PathText(_)
        | Value::Word(_) => take_leaf(ty, value),
    }
}

#[cycle(taken)]
fn take_tuple(alloc: Global, element: ElementType, values: &[Value]) -> Result<Value, PartFault>
    ensures { Gives result (take_tuple (members_of element) (map taken values.now)) }
{
    match members_of(element) {
        None => Err(shape_fault()),
        Some((member, count)) => match take_counted(alloc, count, TypeName::one(member), values) {
            Ok(values) => Ok(Value::Tuple(values)),
            Err(fault) => Err(fault),
        },
    }
}

/// The members of an array.
#[cycle(taken)]
fn take_all(alloc: Global, ty: TypeName, values: &[Value]) -> Result<Items<Value>, PartFault>
    ensures { GivesAll result (take_all (map taken values.now) ty) }
{
    let mut all = Items::new(alloc);
    for value in values {
        match taken(alloc, ty, value) {
            Ok(value) => all.push(value)?,
            Err(fault) => return Err(fault),
        }
    }
    Ok(all)
}

/// The members of a tuple, of which there have to be so many.
#[cycle(taken)]
fn take_counted(
    alloc: Global,
    count: usize,
    ty: TypeName,
    values: &[Value],
) -> Result<Items<Value>, PartFault>
    ensures { GivesAll result (take_counted count (map taken values.now) ty) }
{
    let mut all = Items::new(alloc);
    for (i, value) in values.iter().enumerate() {
        if i >= count {
            return Err(shape_fault());
        }
        match taken(alloc, ty, value) {
            Ok(value) => all.push(value)?,
            Err(fault) => return Err(fault),
        }
    }
    if values.len() < count {
        return Err(shape_fault());
    }
    Ok(all)
}

/// A value as one of a type, equal in meaning. The block stands for a value of any type.
///
/// The refusal is the first that a reader of the same tokens would meet; its `at` is 0, since no token is seen here.
#[tactic(auto, unfolding(crate::specs::Shaping::take_shape))]
pub fn take_shape(alloc: Global, ty: TypeName, v: Value) -> Result<Value, ValueFault>
    ensures { AnswersShape result (take_shape ty v) }
{
    if v.is_block() {
        drop(v);
        return Ok(Value::Block);
    }
    let taken = taken(alloc, ty, &v);
    drop(v);
    match taken {
        Ok(value) => Ok(value),
        Err(PartFault::Refused(kind)) => Err(ValueFault::Refused { kind, at: 0 }),
        Err(PartFault::NoMemory) => Err(ValueFault::NoMemory),
    }
}
