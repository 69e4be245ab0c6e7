//! Adding properties, and their defaults and samples.
ghost use Rattle.std.specs.Prelude.{◌≡◌, Ok, true, OnOk};
ghost use Rattle.std.specs.Option.{option_copied};
ghost use Rattle.layer_edit.specs.Outcomes.{Does, Gives};
ghost use Rattle.layer_edit.specs.Places.{is_property_path};
ghost use Rattle.layer_edit.specs.Properties.{blank_attribute, blank_relationship, with_new_property, attribute_added, relationship_added, type_of, at_attribute, default_given, default_set, default_dropped, default_cleared, sample_given, sample_set, sample_dropped, sample_cleared};

use crate::change::{PropertyChange, SpecChange};
use crate::kinds::is_property_path;
use crate::places::{above, change_at, change_property_at, has_parent, has_spec, property_in};
use crate::typing::{has_form, typed};
use edit_batches::{EditFault, OpRefused};
use list_ops::ListOp;
use plain_data::{Text, copy};
use sdf_paths::{Element, Path};
use sdf_specs::{Layer, Meta, Property, Samples};
use sdf_values::{Num, TypeName, Value};
use std::alloc::{AllocError, Global};
use usda_values::finite_time;

fn blank_attribute(alloc: Global, name: Text, ty: TypeName, custom: bool, uniform: bool) -> Property
    ensures { result ≡ blank_attribute name ty custom uniform }
{
    Property::Attr {
        name,
        ty,
        custom,
        uniform,
        default: None,
        samples: Samples::new(alloc),
        connections: ListOp::new(alloc),
        meta: Meta::new(alloc),
    }
}

fn blank_relationship(alloc: Global, name: Text, custom: bool) -> Property
    ensures { result ≡ blank_relationship name custom }
{
    Property::Rel {
        name,
        custom,
        targets: ListOp::new(alloc),
        meta: Meta::new(alloc),
    }
}

fn put_attribute(
    alloc: Global,
    layer: &mut Layer,
    path: &Path,
    ty: TypeName,
    custom: bool,
    uniform: bool,
) -> Result<(), AllocError>
    ensures { OnOk result (is_property_path path.now ≡ true → layer.new ≡ with_new_property path.now (λ name. blank_attribute name ty custom uniform) layer.old) }
{
    let owner = above(alloc, path)?;
    match path.elements().last() {
        Some(Element::Property(name)) => {
            let property = blank_attribute(alloc, copy(name)?, ty, custom, uniform);
            change_at(alloc, layer, &owner, SpecChange::PutProperty { property })
        }
        Some(Element::Prim(_)) => Ok(()),
        Some(Element::Selection { .. }) => Ok(()),
        None => Ok(()),
    }
}

fn put_relationship(
    alloc: Global,
    layer: &mut Layer,
    path: &Path,
    custom: bool,
) -> Result<(), AllocError>
    ensures { OnOk result (is_property_path path.now ≡ true → layer.new ≡ with_new_property path.now (λ name. blank_relationship name custom) layer.old) }
{
    let owner = above(alloc, path)?;
    match path.elements().last() {
        Some(Element::Property(name)) => {
            let property = blank_relationship(alloc, copy(name)?, custom);
            change_at(alloc, layer, &owner, SpecChange::PutProperty { property })
        }
        Some(Element::Prim(_)) => Ok(()),
        Some(Element::Selection { .. }) => Ok(()),
        None => Ok(()),
    }
}

/// Adds an attribute at the path of a property.
///
/// # Errors
///
/// `WrongPath`; `NoParent` where its owner has no spec; `SpecThere` where the path has a property; `NoSuchType` where there is no type.
/// The layer is then as before, unless memory ran out.
#[tactic(auto, unfolding(crate::specs::Properties::attribute_added, crate::specs::Outcomes::passing, crate::specs::Outcomes::given))]
pub fn add_attribute(
    alloc: Global,
    layer: &mut Layer,
    path: &Path,
    ty: Option<TypeName>,
    custom: bool,
    uniform: bool,
) -> Result<(), OpRefused>
    ensures { Does result layer.old layer.new (attribute_added path.now ty custom uniform layer.old) }
{
    if !is_property_path(path) {
        return Err(OpRefused::Fault(EditFault::WrongPath));
    }
    if !has_parent(layer, path)? {
        return Err(OpRefused::Fault(EditFault::NoParent));
    }
    if has_spec(alloc, layer, path)? {
        return Err(OpRefused::Fault(EditFault::SpecThere));
    }
    match ty {
        Some(ty) => {
            put_attribute(alloc, layer, path, ty, custom, uniform)?;
            Ok(())
        }
        None => Err(OpRefused::Fault(EditFault::NoSuchType)),
    }
}

/// Adds a relationship at the path of a property.
///
/// # Errors
///
/// `WrongPath`; `NoParent` where its owner has no spec; `SpecThere` where the path has a property.
/// The layer is then as before, unless memory ran out.
#[tactic(auto, unfolding(crate::specs::Properties::relationship_added, crate::specs::Outcomes::passing))]
pub fn add_relationship(
    alloc: Global,
    layer: &mut Layer,
    path: &Path,
    custom: bool,
) -> Result<(), OpRefused>
    ensures { Does result layer.old layer.new (relationship_added path.now custom layer.old) }
{
    if !is_property_path(path) {
        return Err(OpRefused::Fault(EditFault::WrongPath));
    }
    if !has_parent(layer, path)? {
        return Err(OpRefused::Fault(EditFault::NoParent));
    }
    if has_spec(alloc, layer, path)? {
        return Err(OpRefused::Fault(EditFault::SpecThere));
    }
    put_relationship(alloc, layer, path, custom)?;
    Ok(())
}

fn type_of(property: Option<&Property>) -> Option<TypeName>
    ensures { result ≡ type_of (option_copied property.entry) }
{
    match property {
        Some(Property::Attr { ty, .. }) => Some(*ty),
        Some(Property::Rel { .. }) => None,
        None => None,
    }
}

/// The type of the attribute at a path.
#[tactic(auto, unfolding(crate::specs::Outcomes::passing, crate::specs::Outcomes::given))]
fn attribute_type(alloc: Global, layer: &Layer, path: &Path) -> Result<TypeName, OpRefused>
    ensures { Gives result (at_attribute path.now layer.now (λ ty. Ok ty)) }
{
    if !is_property_path(path) {
        return Err(OpRefused::Fault(EditFault::WrongPath));
    }
    let owner = above(alloc, path)?;
    match type_of(property_in(layer, &owner, path)) {
        Some(ty) => Ok(ty),
        None => Err(OpRefused::Fault(EditFault::NoSpec)),
    }
}

#[tactic(auto, unfolding(crate::specs::Properties::default_given, crate::specs::Outcomes::passing, crate::specs::Outcomes::given))]
fn give_default(
    alloc: Global,
    layer: &mut Layer,
    path: &Path,
    ty: TypeName,
    value: &Value,
) -> Result<(), OpRefused>
    ensures { Does result layer.old layer.new (default_given path.now ty value.now layer.old) }
{
    if !has_form(alloc, ty, value)? {
        return Err(OpRefused::Fault(EditFault::ValueShape));
    }
    match typed(alloc, ty, value)? {
        Some(value) => {
            let value = Some(value);
            change_property_at(alloc, layer, path, PropertyChange::Default { value })?;
            Ok(())
        }
        None => Err(OpRefused::Fault(EditFault::TimeRange)),
    }
}

/// Gives an attribute a default.
///
/// # Errors
///
/// `WrongPath`; `NoSpec` where no attribute is there; `ValueShape` where the type does not take the value; `TimeRange` where a time in
/// it is out of range. The layer is then as before, unless memory ran out.
pub fn set_default(
    alloc: Global,
    layer: &mut Layer,
    path: &Path,
    value: &Value,
) -> Result<(), OpRefused>
    ensures { Does result layer.old layer.new (default_set path.now value.now layer.old) }
{
    match attribute_type(alloc, layer, path) {
        Ok(ty) => give_default(alloc, layer, path, ty, value),
        Err(refused) => Err(refused),
    }
}

#[tactic(auto, unfolding(crate::specs::Properties::default_dropped))]
fn drop_default(alloc: Global, layer: &mut Layer, path: &Path) -> Result<(), OpRefused>
    ensures { Does result layer.old layer.new (default_dropped path.now layer.old) }
{
    let change = PropertyChange::Default { value: None };
    change_property_at(alloc, layer, path, change)?;
    Ok(())
}

/// Takes the default of an attribute away.
///
/// # Errors
///
/// `WrongPath`; `NoSpec` where no attribute is there. The layer is then as before, unless memory ran out.
pub fn clear_default(alloc: Global, layer: &mut Layer, path: &Path) -> Result<(), OpRefused>
    ensures { Does result layer.old layer.new (default_cleared path.now layer.old) }
{
    match attribute_type(alloc, layer, path) {
        Ok(_ty) => drop_default(alloc, layer, path),
        Err(refused) => Err(refused),
    }
}

#[tactic(auto, unfolding(crate::specs::Properties::sample_given, crate::specs::Outcomes::passing, crate::specs::Outcomes::given))]
fn give_sample(
    alloc: Global,
    layer: &mut Layer,
    path: &Path,
    ty: TypeName,
    time: Num,
    value: &Value,
) -> Result<(), OpRefused>
    ensures { Does result layer.old layer.new (sample_given path.now ty time value.now layer.old) }
{
    if !has_form(alloc, ty, value)? {
        return Err(OpRefused::Fault(EditFault::ValueShape));
    }
    let Some(time) = finite_time(time) else {
        return Err(OpRefused::Fault(EditFault::TimeRange));
    };
    match typed(alloc, ty, value)? {
        Some(value) => {
            let change = PropertyChange::Sample { time, value };
            change_property_at(alloc, layer, path, change)?;
            Ok(())
        }
        None => Err(OpRefused::Fault(EditFault::TimeRange)),
    }
}

/// Gives an attribute a value at a time.
///
/// # Errors
///
/// `WrongPath`; `NoSpec` where no attribute is there; `ValueShape` where the type does not take the value; `TimeRange` where the time
/// or one in the value is out of range. The layer is then as before, unless memory ran out.
pub fn set_sample(
    alloc: Global,
    layer: &mut Layer,
    path: &Path,
    time: Num,
    value: &Value,
) -> Result<(), OpRefused>
    ensures { Does result layer.old layer.new (sample_set path.now time value.now layer.old) }
{
    match attribute_type(alloc, layer, path) {
        Ok(ty) => give_sample(alloc, layer, path, ty, time, value),
        Err(refused) => Err(refused),
    }
}

#[tactic(auto, unfolding(crate::specs::Properties::sample_dropped, crate::specs::Outcomes::given))]
fn drop_sample(alloc: Global, layer: &mut Layer, path: &Path, time: Num) -> Result<(), OpRefused>
    ensures { Does result layer.old layer.new (sample_dropped path.now time layer.old) }
{
    match finite_time(time) {
        Some(time) => {
            change_property_at(alloc, layer, path, PropertyChange::NoSample { time })?;
            Ok(())
        }
        None => Err(OpRefused::Fault(EditFault::TimeRange)),
    }
}

/// Takes the value of an attribute at a time away.
///
/// # Errors
///
/// `WrongPath`; `NoSpec` where no attribute is there; `TimeRange` where the time is out of range.
/// The layer is then as before, unless memory ran out.
pub fn clear_sample(
    alloc: Global,
    layer: &mut Layer,
    path: &Path,
    time: Num,
) -> Result<(), OpRefused>
    ensures { Does result layer.old layer.new (sample_cleared path.now time layer.old) }
{
    match attribute_type(alloc, layer, path) {
        Ok(_ty) => drop_sample(alloc, layer, path, time),
        Err(refused) => Err(refused),
    }
}
