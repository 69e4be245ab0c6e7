//! The properties of a prim, by the opinions on it.
ghost use Rattle.std.specs.Prelude.{◌≡◌, ◌++◌, IfOk, OnOk};
ghost use Rattle.std.specs.List.{list_any};
ghost use Rattle.composition.specs.Views.{is_custom, property_meta};
ghost use Rattle.prim_opinions.specs.Counting.{counted};
ghost use Rattle.target_resolve.specs.Resolving.{targets_by, faults_by as target_faults_by};
ghost use Rattle.value_resolve.specs.Resolving.{default_by, samples_by, faults_by as time_faults_by};
ghost use Rattle.prim_compose.specs.Composed.{property_views, faults_of_property, merged_metadata};
ghost use Rattle.prim_compose.specs.Properties.{viewed_by, folded_of, views_on, faults_on};

use field_resolve::{merge_into, property_names_of};
use list_ops::push_all;
use plain_data::{Items, Text, copy};
use prim_opinions::{PropertyAt, SaidAt, specs_of};
use prim_view::{PrimFault, PropertyView};
use sdf_paths::Path;
use sdf_values::Value;
use spec_properties::{Meta, Property, Samples};
use spec_tables::OrderedTable;
use std::alloc::{AllocError, Global};
use target_resolve::resolve_targets_by;
use value_resolve::{AttrValue, resolve_attr_by};

/// Properties on the stage, and the faults of what is said of them.
#[derive(Drop)]
pub struct Properties {
    /// The properties, in their order.
    pub views: Items<PropertyView>,
    /// What composition found wrong with them.
    pub faults: Items<PrimFault>,
}

/// What all specs of a property make together.
#[derive(Drop)]
pub struct Folded {
    /// Whether some spec says `custom`.
    pub custom: bool,
    /// The default of an attribute that decides; a block is one.
    pub default: Option<Value>,
    /// The samples of an attribute that decide, in the times of the stage.
    pub samples: Samples,
    /// The connections of an attribute or the targets of a relationship; none where there is no opinion on them.
    pub targets: Option<Items<Path>>,
    /// The metadata of all specs as one.
    pub meta: Meta,
}

/// The metadata of a property.
fn meta_of(property: &Property) -> &Meta
    ensures { result.now ≡ property_meta property.now }
{
    match property {
        Property::Attr { meta, .. } => meta,
        Property::Rel { meta, .. } => meta,
    }
}

/// The metadata of all specs as one.
#[tactic(auto, unfolding(crate::specs::Composed::merged_metadata))]
fn merged_meta(alloc: Global, specs: &[PropertyAt<'_, '_, '_>]) -> Result<Meta, AllocError>
    ensures { IfOk result (λ meta. meta ≡ merged_metadata specs.now) }
{
    let mut meta = OrderedTable::new(alloc);
    for spec in specs {
        merge_into(alloc, &mut meta, meta_of(spec.property()))?;
    }
    Ok(meta)
}

/// Whether a property is custom.
fn is_custom(property: &Property) -> bool
    ensures { result ≡ is_custom property.now }
{
    match property {
        Property::Attr { custom, .. } => *custom,
        Property::Rel { custom, .. } => *custom,
    }
}

/// Whether some spec says that the property is custom.
fn has_custom(specs: &[PropertyAt<'_, '_, '_>]) -> bool
    ensures { result ≡ list_any (λ p. is_custom p.property) specs.now }
{
    for spec in specs {
        if is_custom(spec.property()) {
            return true;
        }
    }
    false
}

/// The property of this name on the stage, of which this is the strongest spec.
fn view_named(name: Text, strongest: &Property, folded: Folded) -> PropertyView
    ensures { result ≡ viewed_by name strongest.now folded }
{
    let Folded {
        custom,
        default,
        samples,
        targets,
        meta,
    } = folded;
    match strongest {
        Property::Attr { ty, uniform, .. } => PropertyView::Attr {
            name,
            ty: *ty,
            custom,
            uniform: *uniform,
            default,
            samples,
            connections: targets,
            meta,
        },
        Property::Rel { .. } => {
            drop((default, samples));
            PropertyView::Rel {
                name,
                custom,
                targets,
                meta,
            }
        }
    }
}

/// The property on the stage, of which this is the strongest spec.
fn viewed_by(name: &Text, strongest: &Property, folded: Folded) -> Result<PropertyView, AllocError>
    ensures { IfOk result (λ view. view ≡ viewed_by name.now strongest.now folded) }
{
    match copy(name) {
        Ok(name) => Ok(view_named(name, strongest, folded)),
        Err(error) => {
            drop(folded);
            Err(error)
        }
    }
}

/// The default and the samples that specs decide; appends the faults of what they say.
fn fold_values(
    alloc: Global,
    faults: &mut Items<PrimFault>,
    name: &Text,
    specs: &[PropertyAt<'_, '_, '_>],
) -> Result<(Option<Value>, Samples), AllocError>
    ensures values { IfOk result (λ both. both ≡ (default_by specs.now, samples_by specs.now)) }
    ensures faults { OnOk result (faults.new ≡ faults.old ++ time_faults_by name.now specs.now) }
{
    let AttrValue {
        default,
        samples,
        faults: told,
    } = resolve_attr_by(alloc, name, specs)?;
    match push_all(faults, told.as_slice()) {
        Ok(()) => {
            drop(told);
            Ok((default, samples))
        }
        Err(error) => {
            drop((default, samples, told));
            Err(error)
        }
    }
}

/// The targets or connections and the metadata that specs make; appends the faults of what they say.
fn fold_lists(
    alloc: Global,
    faults: &mut Items<PrimFault>,
    name: &Text,
    specs: &[PropertyAt<'_, '_, '_>],
) -> Result<(Option<Items<Path>>, Meta), AllocError>
    ensures lists { IfOk result (λ both. both ≡ (targets_by specs.now, merged_metadata specs.now)) }
    ensures faults { OnOk result (faults.new ≡ faults.old ++ target_faults_by name.now specs.now) }
{
    let list = resolve_targets_by(alloc, name, specs)?;
    push_all(faults, list.faults.as_slice())?;
    let meta = merged_meta(alloc, specs)?;
    Ok((list.targets, meta))
}

/// What specs make together; appends the faults of what they say.
fn fold_specs(
    alloc: Global,
    faults: &mut Items<PrimFault>,
    name: &Text,
    specs: &[PropertyAt<'_, '_, '_>],
) -> Result<Folded, AllocError>
    ensures folded { IfOk result (λ folded. folded ≡ folded_of specs.now) }
    ensures faults { OnOk result (faults.new ≡ faults.old ++ faults_of_property name.now specs.now) }
{
    let values = fold_values(alloc, faults, name, specs)?;
    match fold_lists(alloc, faults, name, specs) {
        Ok((targets, meta)) => {
            let (default, samples) = values;
            Ok(Folded {
                custom: has_custom(specs),
                default,
                samples,
                targets,
                meta,
            })
        }
        Err(error) => {
            drop(values);
            Err(error)
        }
    }
}

/// Appends a property of this name, if there is a spec of it.
fn push_view(
    views: &mut Items<PropertyView>,
    name: &Text,
    specs: &[PropertyAt<'_, '_, '_>],
    folded: Folded,
) -> Result<(), AllocError>
    requires { folded ≡ folded_of specs.now }
    ensures { OnOk result (views.new ≡ views.old ++ property_views name.now specs.now) }
{
    match specs.first() {
        Some(strongest) => {
            let view = viewed_by(name, strongest.property(), folded)?;
            views.push(view)?;
            Ok(())
        }
        None => {
            drop(folded);
            Ok(())
        }
    }
}

/// Appends the property of this name and the faults of what is said of it.
fn push_property(
    alloc: Global,
    properties: &mut Properties,
    said: &[SaidAt<'_, '_>],
    name: &Text,
) -> Result<(), AllocError>
    ensures views { OnOk result (properties.new.views ≡ properties.old.views ++ property_views name.now (counted name.now said.now)) }
    ensures faults { OnOk result (properties.new.faults ≡ properties.old.faults ++ faults_of_property name.now (counted name.now said.now)) }
{
    let specs = specs_of(alloc, name, said)?;
    let folded = fold_specs(alloc, &mut properties.faults, name, specs.as_slice())?;
    push_view(&mut properties.views, name, specs.as_slice(), folded)
}

/// The properties of a prim in their order, by the opinions on it.
pub fn properties_of(alloc: Global, said: &[SaidAt<'_, '_>]) -> Result<Properties, AllocError>
    ensures views { IfOk result (λ properties. properties.views ≡ views_on said.now) }
    ensures faults { IfOk result (λ properties. properties.faults ≡ faults_on said.now) }
{
    let names = property_names_of(alloc, said)?;
    let mut properties = Properties {
        views: Items::new(alloc),
        faults: Items::new(alloc),
    };
    for name in names.as_slice() {
        push_property(alloc, &mut properties, said, name)?;
    }
    Ok(properties)
}
