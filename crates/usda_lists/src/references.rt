//! Items of references and payloads, and sublayers.
ghost use Rattle.std.specs.Prelude.{◌≡◌, ◌++◌, ◌∷◌, [], Ok, IfOk, OnOk, OnErr};
ghost use Rattle.usda_lists.specs.Acts.{Does, Gives};
ghost use Rattle.usda_lists.specs.Lists.{amend_last, amend_list};
ghost use Rattle.usda_lists.specs.References.{asset_item, path_or_none, path_item, with_path, with_number_of, sublayer_of, sublayer_number};

use crate::edit::ListEdit;
use crate::lists::{put_list, take_list};
use crate::offset::{OffsetKey, set_offset};
use crate::paths::path_from;
use list_ops::ListOp;
use plain_data::{Items, Text};
use sdf_paths::Path;
use sdf_values::{LayerOffset, RefusalKind};
use spec_parts::{RefItem, SubLayer};
use std::alloc::{AllocError, Global};
use usda_lexer::{asset_text, path_text};
use usda_values::PartFault;

/// The item of an asset token, without a path; the empty asset is none.
pub fn asset_item(alloc: Global, text: &str) -> Result<RefItem, AllocError>
    ensures { IfOk result (λ item. item ≡ asset_item text.now) }
{
    let asset = asset_text(text);
    Ok(RefItem {
        asset: if asset.is_empty() {
            None
        } else {
            Some(Text::of(alloc, asset)?)
        },
        path: None,
        offset: LayerOffset::identity(),
    })
}

fn path_or_none(alloc: Global, base: &Path, text: &str) -> Result<Option<Path>, PartFault>
    ensures { Gives result (path_or_none base.now text.now) }
{
    if text.is_empty() {
        return Ok(None);
    }
    match path_from(alloc, base, text)? {
        Some(path) => Ok(Some(path)),
        None => Err(PartFault::Refused(RefusalKind::Syntax)),
    }
}

/// The item of a path token that stands alone; `<>` is no path. `Syntax` where the token is no path.
pub fn path_item(alloc: Global, base: &Path, text: &str) -> Result<RefItem, PartFault>
    ensures { Gives result (path_item base.now text.now) }
{
    match path_or_none(alloc, base, path_text(text)) {
        Ok(path) => Ok(RefItem {
            asset: None,
            path,
            offset: LayerOffset::identity(),
        }),
        Err(fault) => Err(fault),
    }
}

fn with_path(alloc: Global, base: &Path, text: &str, item: RefItem) -> Result<RefItem, PartFault>
    ensures { Gives result (with_path base.now text.now item) }
{
    let RefItem { asset, offset, .. } = item;
    match path_or_none(alloc, base, path_text(text)) {
        Ok(path) => Ok(RefItem {
            asset,
            path,
            offset,
        }),
        Err(fault) => Err(fault),
    }
}

fn with_number_of(key: OffsetKey, text: &str, item: RefItem) -> Result<RefItem, PartFault>
    ensures { Gives result (with_number_of key text.now item) }
{
    let RefItem {
        asset,
        path,
        offset,
    } = item;
    match set_offset(key, text, offset) {
        Ok(offset) => Ok(RefItem {
            asset,
            path,
            offset,
        }),
        Err(fault) => Err(fault),
    }
}

fn amend_path(
    alloc: Global,
    base: &Path,
    text: &str,
    items: &mut Items<RefItem>,
) -> Result<(), PartFault>
    ensures { Does result items.new (amend_last (with_path base.now text.now) items.old) }
{
    let Some(item) = items.pop() else {
        return Ok(());
    };
    match with_path(alloc, base, text, item) {
        Ok(item) => {
            items.push(item)?;
            Ok(())
        }
        Err(fault) => Err(fault),
    }
}

fn amend_offset(key: OffsetKey, text: &str, items: &mut Items<RefItem>) -> Result<(), PartFault>
    ensures { Does result items.new (amend_last (with_number_of key text.now) items.old) }
{
    let Some(item) = items.pop() else {
        return Ok(());
    };
    match with_number_of(key, text, item) {
        Ok(item) => {
            items.push(item)?;
            Ok(())
        }
        Err(fault) => Err(fault),
    }
}

/// Gives the last item of a list the path of the token behind its asset; `<>` is no path. `Syntax` where the token is no path. After a
/// fault the list is of no use.
pub fn set_last_path(
    alloc: Global,
    op: &mut ListOp<RefItem>,
    edit: ListEdit,
    base: &Path,
    text: &str,
) -> Result<(), PartFault>
    ensures { Does result op.new (amend_list edit (amend_last (with_path base.now text.now)) op.old) }
{
    let mut items = take_list(op, edit);
    match amend_path(alloc, base, text, &mut items) {
        Ok(()) => {
            put_list(op, edit, items);
            Ok(())
        }
        Err(fault) => {
            drop(items);
            Err(fault)
        }
    }
}

/// Gives the last item of a list an offset or a scale, by the number token of the key: `OffsetRange` where it is out of its bounds. After
/// a fault the list is of no use.
pub fn set_last_offset(
    op: &mut ListOp<RefItem>,
    edit: ListEdit,
    key: OffsetKey,
    text: &str,
) -> Result<(), PartFault>
    ensures { Does result op.new (amend_list edit (amend_last (with_number_of key text.now)) op.old) }
{
    let mut items = take_list(op, edit);
    match amend_offset(key, text, &mut items) {
        Ok(()) => {
            put_list(op, edit, items);
            Ok(())
        }
        Err(fault) => {
            drop(items);
            Err(fault)
        }
    }
}

/// Adds a sublayer by its asset token, as written. After want of memory the list is as before.
pub fn push_sublayer(
    alloc: Global,
    sublayers: &mut Items<SubLayer>,
    text: &str,
) -> Result<(), AllocError>
    ensures ok { OnOk result (sublayers.new ≡ sublayers.old ++ sublayer_of text.now ∷ []) }
    ensures err { OnErr result (sublayers.new ≡ sublayers.old) }
{
    sublayers.push(SubLayer {
        asset: Text::of(alloc, asset_text(text))?,
        offset: LayerOffset::identity(),
    })
}

fn sublayer_number(key: OffsetKey, text: &str, sublayer: SubLayer) -> Result<SubLayer, PartFault>
    ensures { Gives result (sublayer_number key text.now sublayer) }
{
    let SubLayer { asset, offset } = sublayer;
    match set_offset(key, text, offset) {
        Ok(offset) => Ok(SubLayer { asset, offset }),
        Err(fault) => Err(fault),
    }
}

/// Gives the last sublayer an offset or a scale, by the number token of the key: `OffsetRange` where it is out of its bounds. After a fault
/// the list is of no use.
pub fn set_sublayer_offset(
    sublayers: &mut Items<SubLayer>,
    key: OffsetKey,
    text: &str,
) -> Result<(), PartFault>
    ensures { Does result sublayers.new (amend_last (sublayer_number key text.now) sublayers.old) }
{
    let Some(sublayer) = sublayers.pop() else {
        return Ok(());
    };
    match sublayer_number(key, text, sublayer) {
        Ok(sublayer) => {
            sublayers.push(sublayer)?;
            Ok(())
        }
        Err(fault) => Err(fault),
    }
}
