//! Lists of fields, selections, orders and sublayers.
ghost use Rattle.std.specs.Prelude.{◌≡◌, OnOk, OnErr};
ghost use Rattle.std.specs.Option.{option_copied};
ghost use Rattle.layer_edit.specs.Outcomes.{Does};
ghost use Rattle.layer_edit.specs.Places.{property_in};
ghost use Rattle.layer_edit.specs.Fields.{is_relationship, is_attribute, takes_order, reordered, paths_set, references_set, texts_set, targets_set, connections_set, list_set, selection_set, order_set, sublayers_set};

use crate::change::{PropertyChange, SpecChange};
use crate::kinds::{is_property_path, is_spec_path};
use crate::offsets::{has_bad_item, has_bad_target, items_of, sublayers_of};
use crate::places::{above, change_at, change_property_at, has_spec, property_in};
use asset_names::AssetId;
use edit_batches::{EditFault, FieldList, OpRefused, WrittenReference, WrittenSubLayer};
use plain_data::{Items, Text, copy};
use sdf_paths::Path;
use sdf_specs::{Head, Layer, Property, SubLayer};
use std::alloc::{AllocError, Global};
use usda_fields::{OrderWord, PathField, ReferenceField, TextField};
use usda_lists::ListEdit;

#[tactic(auto, unfolding(crate::specs::Fields::paths_set, crate::specs::Outcomes::passing))]
fn set_paths(
    alloc: Global,
    layer: &mut Layer,
    path: &Path,
    field: PathField,
    edit: ListEdit,
    items: &Items<Path>,
) -> Result<(), OpRefused>
    ensures { Does result layer.old layer.new (paths_set field edit items.now path.now layer.old) }
{
    if !is_spec_path(path) {
        return Err(OpRefused::Fault(EditFault::WrongPath));
    }
    if !has_spec(alloc, layer, path)? {
        return Err(OpRefused::Fault(EditFault::NoSpec));
    }
    if has_bad_target(items.as_slice()) {
        return Err(OpRefused::Fault(EditFault::BadArc));
    }
    let items = copy(items)?;
    change_at(alloc, layer, path, SpecChange::Paths { field, edit, items })?;
    Ok(())
}

#[tactic(auto, unfolding(crate::specs::Fields::references_set, crate::specs::Outcomes::passing, crate::specs::Outcomes::given))]
fn set_references(
    alloc: Global,
    name: &AssetId,
    layer: &mut Layer,
    path: &Path,
    field: ReferenceField,
    edit: ListEdit,
    written: &Items<WrittenReference>,
) -> Result<(), OpRefused>
    ensures { Does result layer.old layer.new (references_set name.now field edit written.now path.now layer.old) }
{
    if !is_spec_path(path) {
        return Err(OpRefused::Fault(EditFault::WrongPath));
    }
    if !has_spec(alloc, layer, path)? {
        return Err(OpRefused::Fault(EditFault::NoSpec));
    }
    let Some(items) = items_of(alloc, written.as_slice())? else {
        return Err(OpRefused::Fault(EditFault::OffsetRange));
    };
    if has_bad_item(alloc, name, written.as_slice())? {
        return Err(OpRefused::Fault(EditFault::BadArc));
    }
    let change = SpecChange::References { field, edit, items };
    change_at(alloc, layer, path, change)?;
    Ok(())
}

#[tactic(auto, unfolding(crate::specs::Fields::texts_set, crate::specs::Outcomes::passing))]
fn set_texts(
    alloc: Global,
    layer: &mut Layer,
    path: &Path,
    field: TextField,
    edit: ListEdit,
    items: &Items<Text>,
) -> Result<(), OpRefused>
    ensures { Does result layer.old layer.new (texts_set field edit items.now path.now layer.old) }
{
    if !is_spec_path(path) {
        return Err(OpRefused::Fault(EditFault::WrongPath));
    }
    if !has_spec(alloc, layer, path)? {
        return Err(OpRefused::Fault(EditFault::NoSpec));
    }
    let items = copy(items)?;
    change_at(alloc, layer, path, SpecChange::Texts { field, edit, items })?;
    Ok(())
}

fn is_relationship(property: Option<&Property>) -> bool
    ensures { result ≡ is_relationship (option_copied property.entry) }
{
    match property {
        Some(Property::Attr { .. }) => false,
        Some(Property::Rel { .. }) => true,
        None => false,
    }
}

fn is_attribute(property: Option<&Property>) -> bool
    ensures { result ≡ is_attribute (option_copied property.entry) }
{
    match property {
        Some(Property::Attr { .. }) => true,
        Some(Property::Rel { .. }) => false,
        None => false,
    }
}

#[tactic(auto, unfolding(crate::specs::Fields::targets_set, crate::specs::Outcomes::passing))]
fn set_targets(
    alloc: Global,
    layer: &mut Layer,
    path: &Path,
    edit: ListEdit,
    items: &Items<Path>,
) -> Result<(), OpRefused>
    ensures { Does result layer.old layer.new (targets_set edit items.now path.now layer.old) }
{
    if !is_property_path(path) {
        return Err(OpRefused::Fault(EditFault::WrongPath));
    }
    let owner = above(alloc, path)?;
    if !is_relationship(property_in(layer, &owner, path)) {
        return Err(OpRefused::Fault(EditFault::NoSpec));
    }
    let items = copy(items)?;
    change_property_at(alloc, layer, path, PropertyChange::Targets { edit, items })?;
    Ok(())
}

#[tactic(auto, unfolding(crate::specs::Fields::connections_set, crate::specs::Outcomes::passing))]
fn set_connections(
    alloc: Global,
    layer: &mut Layer,
    path: &Path,
    edit: ListEdit,
    items: &Items<Path>,
) -> Result<(), OpRefused>
    ensures { Does result layer.old layer.new (connections_set edit items.now path.now layer.old) }
{
    if !is_property_path(path) {
        return Err(OpRefused::Fault(EditFault::WrongPath));
    }
    let owner = above(alloc, path)?;
    if !is_attribute(property_in(layer, &owner, path)) {
        return Err(OpRefused::Fault(EditFault::NoSpec));
    }
    let items = copy(items)?;
    change_property_at(alloc, layer, path, PropertyChange::Targets { edit, items })?;
    Ok(())
}

/// Gives one list of a field, of the layer of this name.
///
/// # Errors
///
/// `WrongPath`; `NoSpec`; `OffsetRange` of any item; `BadArc` of any item. The layer is then as before, unless memory ran out.
pub fn set_list(
    alloc: Global,
    name: &AssetId,
    layer: &mut Layer,
    path: &Path,
    edit: ListEdit,
    list: &FieldList,
) -> Result<(), OpRefused>
    ensures { Does result layer.old layer.new (list_set name.now path.now edit list.now layer.old) }
{
    match list {
        FieldList::Paths { field, items } => set_paths(alloc, layer, path, *field, edit, items),
        FieldList::References { field, items } => {
            set_references(alloc, name, layer, path, *field, edit, items)
        }
        FieldList::Texts { field, items } => set_texts(alloc, layer, path, *field, edit, items),
        FieldList::Targets { items } => set_targets(alloc, layer, path, edit, items),
        FieldList::Connections { items } => set_connections(alloc, layer, path, edit, items),
    }
}

/// Selects a variant of a set, or takes the selection of the set away.
///
/// # Errors
///
/// `WrongPath`; `NoSpec`. The layer is then as before, unless memory ran out.
#[tactic(auto, unfolding(crate::specs::Fields::selection_set, crate::specs::Outcomes::passing))]
pub fn set_selection(
    alloc: Global,
    layer: &mut Layer,
    path: &Path,
    set: &Text,
    variant: Option<Text>,
) -> Result<(), OpRefused>
    ensures { Does result layer.old layer.new (selection_set path.now set.now variant layer.old) }
{
    if !is_spec_path(path) {
        return Err(OpRefused::Fault(EditFault::WrongPath));
    }
    if !has_spec(alloc, layer, path)? {
        return Err(OpRefused::Fault(EditFault::NoSpec));
    }
    let set = copy(set)?;
    change_at(alloc, layer, path, SpecChange::Selection { set, variant })?;
    Ok(())
}

fn takes_order(word: OrderWord, path: &Path) -> bool
    ensures { result ≡ takes_order word path.now }
{
    match word {
        OrderWord::NameChildren => path.is_root() || is_spec_path(path),
        OrderWord::PropertyNames => is_spec_path(path),
    }
}

fn reorder_roots(alloc: Global, layer: &mut Layer, names: Items<Text>)
    ensures { layer.new ≡ record layer.old { head = record layer.old.head { root_order = names } } }
{
    let mut head = layer.replace_head(Head::blank(alloc));
    head.root_order = names;
    layer.set_head(head);
}

fn reorder(
    alloc: Global,
    layer: &mut Layer,
    path: &Path,
    word: OrderWord,
    names: Items<Text>,
) -> Result<(), AllocError>
    ensures { OnOk result (layer.new ≡ reordered word names path.now layer.old) }
{
    if path.is_root() {
        reorder_roots(alloc, layer, names);
        return Ok(());
    }
    change_at(alloc, layer, path, SpecChange::Order { word, names })
}

/// Gives the order of children or of properties; at `/` of the root prims.
///
/// # Errors
///
/// `WrongPath`; `NoSpec`. The layer is then as before, unless memory ran out.
#[tactic(auto, unfolding(crate::specs::Fields::order_set, crate::specs::Outcomes::passing))]
pub fn set_order(
    alloc: Global,
    layer: &mut Layer,
    path: &Path,
    word: OrderWord,
    names: &Items<Text>,
) -> Result<(), OpRefused>
    ensures { Does result layer.old layer.new (order_set path.now word names.now layer.old) }
{
    if !takes_order(word, path) {
        return Err(OpRefused::Fault(EditFault::WrongPath));
    }
    if !has_spec(alloc, layer, path)? {
        return Err(OpRefused::Fault(EditFault::NoSpec));
    }
    reorder(alloc, layer, path, word, copy(names)?)?;
    Ok(())
}

fn put_sublayers(alloc: Global, layer: &mut Layer, sublayers: Items<SubLayer>)
    ensures { layer.new ≡ record layer.old { head = record layer.old.head { sublayers = sublayers } } }
{
    let mut head = layer.replace_head(Head::blank(alloc));
    head.sublayers = sublayers;
    layer.set_head(head);
}

/// Gives the sublayers of a layer.
///
/// # Errors
///
/// `OffsetRange` of any sublayer. The layer is then as before, also where memory ran out.
#[tactic(auto, unfolding(crate::specs::Fields::sublayers_set, crate::specs::Outcomes::given))]
pub fn set_sublayers(
    alloc: Global,
    layer: &mut Layer,
    written: &Items<WrittenSubLayer>,
) -> Result<(), OpRefused>
    ensures made { Does result layer.old layer.new (sublayers_set written.now layer.old) }
    ensures kept { OnErr result (layer.new ≡ layer.old) }
{
    match sublayers_of(alloc, written.as_slice())? {
        Some(sublayers) => {
            put_sublayers(alloc, layer, sublayers);
            Ok(())
        }
        None => Err(OpRefused::Fault(EditFault::OffsetRange)),
    }
}
