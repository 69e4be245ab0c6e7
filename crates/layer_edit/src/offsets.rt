//! Offsets, references and sublayers as they are written.
ghost use Rattle.std.specs.Prelude.{◌≡◌, IfOk};
ghost use Rattle.std.specs.List.{list_any};
ghost use Rattle.usda_lists.specs.Offsets.{whole_number};
ghost use Rattle.layer_edit.specs.Offsets.{in_bounds, offset_of_wholes, offset_of, item_of, items_of, sublayer_of, sublayers_of, is_bad_target, is_bad_path, is_bad_asset, is_bad_item};

use crate::kinds::is_plain_prim;
use asset_names::AssetId;
use edit_batches::{WrittenOffset, WrittenReference, WrittenSubLayer};
use layer_set::anchored;
use plain_data::{Items, Text, copy};
use sdf_paths::Path;
use sdf_specs::{RefItem, SubLayer};
use sdf_values::LayerOffset;
use std::alloc::{AllocError, Global};
use usda_lists::whole_number;

fn in_bounds(offset: i128, scale: i128) -> bool
    ensures { result ≡ in_bounds offset scale }
{
    offset.unsigned_abs() <= 1_000_000_000 && 1 <= scale && scale <= 1_000_000
}

fn offset_of_wholes(offset: Option<i128>, scale: Option<i128>) -> Option<LayerOffset>
    ensures { result ≡ offset_of_wholes offset scale }
{
    match (offset, scale) {
        (Some(offset), Some(scale)) => {
            if in_bounds(offset, scale) {
                Some(LayerOffset {
                    offset: offset as i64,
                    scale: scale as i64,
                })
            } else {
                None
            }
        }
        _ => None,
    }
}

/// The offset that is written; none where it is out of range.
#[tactic(auto, unfolding(crate::specs::Offsets::offset_of))]
fn offset_of(written: WrittenOffset) -> Option<LayerOffset>
    ensures { result ≡ offset_of written }
{
    offset_of_wholes(whole_number(written.offset), whole_number(written.scale))
}

fn item_of(written: &WrittenReference) -> Result<Option<RefItem>, AllocError>
    ensures { IfOk result (λ item. item ≡ item_of written.now) }
{
    match offset_of(written.offset) {
        Some(offset) => Ok(Some(RefItem {
            asset: copy(&written.asset)?,
            path: copy(&written.path)?,
            offset,
        })),
        None => Ok(None),
    }
}

/// The items with their offsets; none where an offset is out of range.
pub fn items_of(
    alloc: Global,
    written: &[WrittenReference],
) -> Result<Option<Items<RefItem>>, AllocError>
    ensures { IfOk result (λ items. items ≡ items_of written.now) }
{
    let mut items = Items::new(alloc);
    for reference in written {
        match item_of(reference)? {
            Some(item) => items.push(item)?,
            None => return Ok(None),
        }
    }
    Ok(Some(items))
}

fn sublayer_of(written: &WrittenSubLayer) -> Result<Option<SubLayer>, AllocError>
    ensures { IfOk result (λ sublayer. sublayer ≡ sublayer_of written.now) }
{
    match offset_of(written.offset) {
        Some(offset) => Ok(Some(SubLayer {
            asset: copy(&written.asset)?,
            offset,
        })),
        None => Ok(None),
    }
}

/// The sublayers with their offsets; none where an offset is out of range.
pub fn sublayers_of(
    alloc: Global,
    written: &[WrittenSubLayer],
) -> Result<Option<Items<SubLayer>>, AllocError>
    ensures { IfOk result (λ sublayers. sublayers ≡ sublayers_of written.now) }
{
    let mut sublayers = Items::new(alloc);
    for reference in written {
        match sublayer_of(reference)? {
            Some(sublayer) => sublayers.push(sublayer)?,
            None => return Ok(None),
        }
    }
    Ok(Some(sublayers))
}

/// Whether a class or the target of a reference is no prim, or selects a variant.
pub fn is_bad_target(path: &Path) -> bool
    ensures { result ≡ is_bad_target path.now }
{
    !is_plain_prim(path)
}

/// Whether one of the classes is no prim, or selects a variant.
pub fn has_bad_target(paths: &[Path]) -> bool
    ensures { result ≡ list_any is_bad_target paths.now }
{
    paths.iter().any(is_bad_target)
}

fn is_bad_path(path: &Option<Path>) -> bool
    ensures { result ≡ is_bad_path path.now }
{
    match path {
        Some(path) => is_bad_target(path),
        None => false,
    }
}

/// Whether an asset names no layer, from the folder of this one.
fn is_bad_asset(alloc: Global, layer: &AssetId, asset: &Option<Text>) -> Result<bool, AllocError>
    ensures { IfOk result (λ bad. bad ≡ is_bad_asset layer.now asset.now) }
{
    match asset {
        Some(asset) => {
            let name = anchored(alloc, layer, asset.as_str())?;
            Ok(!name.is_some())
        }
        None => Ok(false),
    }
}

#[tactic(auto, unfolding(crate::specs::Offsets::is_bad_item))]
fn is_bad_item(alloc: Global, layer: &AssetId, item: &WrittenReference) -> Result<bool, AllocError>
    ensures { IfOk result (λ bad. bad ≡ is_bad_item layer.now item.now) }
{
    Ok(is_bad_path(&item.path) || is_bad_asset(alloc, layer, &item.asset)?)
}

/// Whether one of the references has a target or an asset that no arc has.
pub fn has_bad_item(
    alloc: Global,
    layer: &AssetId,
    items: &[WrittenReference],
) -> Result<bool, AllocError>
    ensures { IfOk result (λ bad. bad ≡ list_any (is_bad_item layer.now) items.now) }
{
    for item in items {
        if is_bad_item(alloc, layer, item)? {
            return Ok(true);
        }
    }
    Ok(false)
}
