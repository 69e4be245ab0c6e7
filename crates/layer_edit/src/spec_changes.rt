//! Changes of the specs of prims and variants.
ghost use Rattle.std.specs.Prelude.{◌≡◌, OnOk, IfOk};
ghost use Rattle.spec_properties.specs.Properties.{property_at, with_property, without_property};
ghost use Rattle.layer_edit.specs.Fields.{given_list, with_paths, with_references, with_texts, with_selection, with_order};
ghost use Rattle.layer_edit.specs.Metadata.{with_spec_entry};
ghost use Rattle.layer_edit.specs.Places.{with_properties};
ghost use Rattle.layer_edit.specs.Prims.{with_children, with_sets};
ghost use Rattle.layer_edit.specs.Changes.{names_changed, sets_changed, with_changed_in, spec_changed};

use crate::change::{NameChange, PropertyChange, SpecChange, VariantChange};
use crate::names::{change_names, change_sets};
use crate::property_changes::{changed_property, given_list, with_entry};
use list_ops::ListOp;
use plain_data::{Items, Text};
use sdf_paths::Path;
use sdf_specs::{Meta, Property, RefItem, Spec};
use sdf_values::Value;
use std::alloc::{AllocError, Global};
use std::mem;
use usda_fields::{OrderWord, PathField, ReferenceField, TextField};
use usda_lists::ListEdit;

/// Gives one list of an opinion.
fn give_list<T: Drop>(alloc: Global, op: &mut ListOp<T>, edit: ListEdit, items: Items<T>)
    ensures { op.new ≡ given_list edit items op.old }
{
    let before = mem::replace(op, ListOp::new(alloc));
    drop(mem::replace(op, given_list(alloc, before, edit, items)));
}

fn give_paths(alloc: Global, spec: &mut Spec, field: PathField, edit: ListEdit, items: Items<Path>)
    ensures { spec.new ≡ with_paths field edit items spec.old }
{
    match field {
        PathField::Inherits => give_list(alloc, &mut spec.arcs.inherits, edit, items),
        PathField::Specializes => give_list(alloc, &mut spec.arcs.specializes, edit, items),
    }
}

fn give_references(
    alloc: Global,
    spec: &mut Spec,
    field: ReferenceField,
    edit: ListEdit,
    items: Items<RefItem>,
)
    ensures { spec.new ≡ with_references field edit items spec.old }
{
    match field {
        ReferenceField::References => give_list(alloc, &mut spec.arcs.references, edit, items),
        ReferenceField::Payload => give_list(alloc, &mut spec.arcs.payloads, edit, items),
    }
}

fn give_texts(alloc: Global, spec: &mut Spec, field: TextField, edit: ListEdit, items: Items<Text>)
    ensures { spec.new ≡ with_texts field edit items spec.old }
{
    match field {
        TextField::VariantSets => give_list(alloc, &mut spec.arcs.variant_sets, edit, items),
        TextField::ApiSchemas => give_list(alloc, &mut spec.body.api_schemas, edit, items),
        TextField::ClipSets => give_list(alloc, &mut spec.body.clip_sets, edit, items),
    }
}

fn select(spec: &mut Spec, set: Text, variant: Option<Text>) -> Result<(), AllocError>
    ensures { OnOk result (spec.new ≡ with_selection set variant spec.old) }
{
    match variant {
        Some(variant) => {
            drop(spec.arcs.selections.insert(set, variant)?);
        }
        None => {
            drop(spec.arcs.selections.remove(&set));
        }
    }
    Ok(())
}

fn reorder(spec: &mut Spec, word: OrderWord, names: Items<Text>)
    ensures { spec.new ≡ with_order word names spec.old }
{
    match word {
        OrderWord::NameChildren => spec.body.child_order = names,
        OrderWord::PropertyNames => spec.body.property_order = names,
    }
}

fn give_meta(
    alloc: Global,
    spec: &mut Spec,
    key: Text,
    value: Option<Value>,
) -> Result<(), AllocError>
    ensures { OnOk result (spec.new ≡ with_spec_entry key value spec.old) }
{
    let before = mem::replace(&mut spec.body.meta, Meta::new(alloc));
    let meta = with_entry(before, key, value)?;
    drop(mem::replace(&mut spec.body.meta, meta));
    Ok(())
}

fn rename(alloc: Global, spec: &mut Spec, change: NameChange) -> Result<(), AllocError>
    ensures { OnOk result (spec.new ≡ with_children (names_changed change) spec.old) }
{
    let before = mem::replace(&mut spec.body.children, Items::new(alloc));
    spec.body.children = change_names(alloc, before, change)?;
    Ok(())
}

fn rename_variants(alloc: Global, spec: &mut Spec, change: VariantChange) -> Result<(), AllocError>
    ensures { OnOk result (spec.new ≡ with_sets (sets_changed change) spec.old) }
{
    let before = mem::replace(&mut spec.body.variant_names, Items::new(alloc));
    spec.body.variant_names = change_sets(alloc, before, change)?;
    Ok(())
}

fn put_property(spec: &mut Spec, property: Property) -> Result<(), AllocError>
    ensures { OnOk result (spec.new ≡ with_properties (with_property property spec.old.body.properties) spec.old) }
{
    drop(spec.body.properties.insert(property)?);
    Ok(())
}

fn drop_property(spec: &mut Spec, name: &Text)
    ensures { spec.new ≡ with_properties (without_property name.now spec.old.body.properties) spec.old }
{
    drop(spec.body.properties.remove(name));
}

fn change_property(
    alloc: Global,
    spec: &mut Spec,
    name: &Text,
    change: PropertyChange,
) -> Result<(), AllocError>
    ensures { OnOk result (spec.new ≡ with_changed_in (property_at name.now spec.old.body.properties) change spec.old) }
{
    match spec.body.properties.take(name) {
        Ok(taken) => match taken {
            Some(property) => {
                let property = changed_property(alloc, property, change)?;
                drop(spec.body.properties.insert(property)?);
                Ok(())
            }
            None => {
                drop(change);
                Ok(())
            }
        },
        Err(error) => {
            drop(change);
            Err(error)
        }
    }
}

fn change_spec(alloc: Global, spec: &mut Spec, change: SpecChange) -> Result<(), AllocError>
    ensures { OnOk result (spec.new ≡ spec_changed change spec.old) }
{
    match change {
        SpecChange::Paths { field, edit, items } => {
            give_paths(alloc, spec, field, edit, items);
            Ok(())
        }
        SpecChange::References { field, edit, items } => {
            give_references(alloc, spec, field, edit, items);
            Ok(())
        }
        SpecChange::Texts { field, edit, items } => {
            give_texts(alloc, spec, field, edit, items);
            Ok(())
        }
        SpecChange::Selection { set, variant } => select(spec, set, variant),
        SpecChange::Order { word, names } => {
            reorder(spec, word, names);
            Ok(())
        }
        SpecChange::Meta { key, value } => give_meta(alloc, spec, key, value),
        SpecChange::Names { change } => rename(alloc, spec, change),
        SpecChange::Variants { change } => rename_variants(alloc, spec, change),
        SpecChange::PutProperty { property } => put_property(spec, property),
        SpecChange::DropProperty { name } => {
            drop_property(spec, &name);
            Ok(())
        }
        SpecChange::ChangeProperty { name, change } => change_property(alloc, spec, &name, change),
    }
}

/// A spec after a change.
pub fn changed_spec(alloc: Global, spec: Spec, change: SpecChange) -> Result<Spec, AllocError>
    ensures { IfOk result (λ changed. changed ≡ spec_changed change spec) }
{
    let mut spec = spec;
    match change_spec(alloc, &mut spec, change) {
        Ok(()) => Ok(spec),
        Err(error) => {
            drop(spec);
            Err(error)
        }
    }
}
