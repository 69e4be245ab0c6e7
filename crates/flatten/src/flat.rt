//! A stage as a layer, and its text.
ghost use Rattle.std.specs.Prelude.{◌≡◌, IfOk, OnOk, [], slice_get};
ghost use Rattle.std.specs.Option.{option_copied};
ghost use Rattle.sdf_paths.specs.Order.{path_cmp};
ghost use Rattle.sdf_specs.specs.Layers.{with_spec};
ghost use Rattle.stage_publish.specs.Editions.{item_at};
ghost use Rattle.usda_writer.specs.Canonical.{canonical};
ghost use Rattle.flatten.specs.Flattened.{with_prim, with_item, with_prims, flat_layer};

use crate::head::head_of;
use crate::prim::flat_spec;
use plain_data::copy;
use prim_view::PrimView;
use sdf_paths::Path;
use sdf_specs::{Layer, SharedTable, Spec};
use stage_entries::StageEntry;
use stage_publish::View;
use std::alloc::{AllocError, Global};
use usda_writer::write_layer;

/// What stands at `/`.
fn root_of<'v>(alloc: Global, view: &'v View<'_, Path, StageEntry>) -> Option<&'v StageEntry>
    ensures { option_copied result ≡ item_at path_cmp [] view.now.items }
{
    let root = Path::root(alloc);
    view.find(&root)
}

/// Puts a value at a path, in place of one that is there.
fn put<V: Drop>(values: &mut SharedTable<Path, V>, path: &Path, value: V) -> Result<(), AllocError>
    ensures { OnOk result (values.new ≡ with_spec path.now value values.old) }
{
    values.insert(copy(path)?, value)?;
    Ok(())
}

/// Puts a prim into a table of specs; `/` has no spec.
fn put_prim(
    alloc: Global,
    specs: &mut SharedTable<Path, Spec>,
    path: &Path,
    prim: &PrimView,
) -> Result<(), AllocError>
    ensures { OnOk result (specs.new ≡ with_prim path.now prim.now specs.old) }
{
    if path.is_root() {
        return Ok(());
    }
    let spec = flat_spec(alloc, prim)?;
    put(specs, path, spec)
}

/// Puts the prim at an index of a stage into a table of specs, if there is one.
fn put_nth(
    alloc: Global,
    specs: &mut SharedTable<Path, Spec>,
    view: &View<'_, Path, StageEntry>,
    i: usize,
) -> Result<(), AllocError>
    ensures { OnOk result (specs.new ≡ with_item (slice_get view.now.items i) specs.old) }
{
    match view.nth(i) {
        None => Ok(()),
        Some((path, entry)) => put_prim(alloc, specs, path, entry.view()),
    }
}

/// Puts each prim of a stage into a table of specs, in the order of the stage.
fn put_prims(
    alloc: Global,
    specs: &mut SharedTable<Path, Spec>,
    view: &View<'_, Path, StageEntry>,
) -> Result<(), AllocError>
    ensures { OnOk result (specs.new ≡ with_prims view.now.items specs.old) }
{
    for i in 0..view.len() {
        put_nth(alloc, specs, view, i)?;
    }
    Ok(())
}

/// The stage as one layer: the metadata of `/` as its head, and a spec for each other path with what the stage has there.
///
/// # Errors
///
/// Memory ran out.
pub fn flatten_layer(alloc: Global, view: &View<'_, Path, StageEntry>) -> Result<Layer, AllocError>
    ensures { IfOk result (λ layer. layer ≡ flat_layer view.now.items) }
{
    let mut specs = SharedTable::new(alloc);
    put_prims(alloc, &mut specs, view)?;
    let head = head_of(alloc, root_of(alloc, view))?;
    Ok(Layer::from_parts(alloc, head, specs))
}

/// The canonical text of the stage as one layer.
///
/// # Errors
///
/// Memory ran out.
pub fn flatten_text(alloc: Global, view: &View<'_, Path, StageEntry>) -> Result<Vec<u8>, AllocError>
    ensures { IfOk result (λ text. text.items ≡ canonical (flat_layer view.now.items)) }
{
    let layer = flatten_layer(alloc, view)?;
    let text = write_layer(alloc, &layer);
    drop(layer);
    text
}
