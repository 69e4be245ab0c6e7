//! The prims and variants of a layer, one after the other as its canonical text has them.
ghost use Rattle.std.specs.Prelude.{◌≡◌, ◌++◌, false, OnOk, IfOk};
ghost use Rattle.std.specs.List.{flat_map};
ghost use Rattle.sdf_paths.specs.Paths.{is_property};
ghost use Rattle.sdf_specs.specs.Found.{StandAtPaths};
ghost use Rattle.layer_load.specs.Assets.{assets_of_prim, assets_of_prims, assets_of_variant, assets_of_set, assets_within, assets_of_layer};

use crate::assets::{push_arcs, push_sublayers};
use plain_data::{Items, Text};
use sdf_paths::Path;
use sdf_specs::{Layer, Spec, VariantSet, prim_spec_below, stand_at_paths, variant_spec_below};
use std::alloc::{AllocError, Global};

/// The assets that a layer names.
pub fn assets_of_layer(alloc: Global, layer: &Layer) -> Result<Items<Text>, AllocError>
    ensures { IfOk result (λ assets. assets ≡ assets_of_layer layer.now) }
{
    stand_at_paths(layer);
    let mut assets = Items::new(alloc);
    push_sublayers(&mut assets, layer.head().sublayers.as_slice())?;
    push_prims(
        &mut assets,
        layer,
        layer.len(),
        &Path::root(alloc),
        layer.head().root_names.as_slice(),
    )?;
    Ok(assets)
}

/// Appends the assets of the prims of these names below a path, each with what stands within it for so many levels.
#[cycle(walk)]
fn push_prims(
    out: &mut Items<Text>,
    layer: &Layer,
    levels: usize,
    path: &Path,
    names: &[Text],
) -> Result<(), AllocError>
    requires stand { StandAtPaths layer.now.specs }
    requires prim { is_property path.now ≡ false }
    ensures { OnOk result (out.new ≡ out.old ++ assets_of_prims layer.now.specs (assets_within layer.now.specs levels) path.now names.now) }
{
    for name in names {
        push_prim(out, layer, levels, path, name)?;
    }
    Ok(())
}

#[cycle(walk)]
fn push_prim(
    out: &mut Items<Text>,
    layer: &Layer,
    levels: usize,
    path: &Path,
    name: &Text,
) -> Result<(), AllocError>
    requires stand { StandAtPaths layer.now.specs }
    requires prim { is_property path.now ≡ false }
    ensures { OnOk result (out.new ≡ out.old ++ assets_of_prim layer.now.specs (assets_within layer.now.specs levels) path.now name.now) }
{
    let Some((child, spec)) = prim_spec_below(layer, path, name)? else {
        return Ok(());
    };
    push_arcs(out, &spec.arcs)?;
    push_within(out, layer, levels, &child, spec)
}

#[cycle(walk)]
fn push_sets(
    out: &mut Items<Text>,
    layer: &Layer,
    levels: usize,
    path: &Path,
    sets: &[VariantSet],
) -> Result<(), AllocError>
    requires stand { StandAtPaths layer.now.specs }
    requires prim { is_property path.now ≡ false }
    ensures { OnOk result (out.new ≡ out.old ++ flat_map (assets_of_set layer.now.specs (assets_within layer.now.specs levels) path.now) sets.now) }
{
    for set in sets {
        push_set(out, layer, levels, path, set)?;
    }
    Ok(())
}

#[cycle(walk)]
fn push_set(
    out: &mut Items<Text>,
    layer: &Layer,
    levels: usize,
    path: &Path,
    set: &VariantSet,
) -> Result<(), AllocError>
    requires stand { StandAtPaths layer.now.specs }
    requires prim { is_property path.now ≡ false }
    ensures { OnOk result (out.new ≡ out.old ++ assets_of_set layer.now.specs (assets_within layer.now.specs levels) path.now set.now) }
{
    for variant in set.variants.as_slice() {
        push_variant(out, layer, levels, path, &set.set, variant)?;
    }
    Ok(())
}

#[cycle(walk)]
fn push_variant(
    out: &mut Items<Text>,
    layer: &Layer,
    levels: usize,
    path: &Path,
    set: &Text,
    variant: &Text,
) -> Result<(), AllocError>
    requires stand { StandAtPaths layer.now.specs }
    requires prim { is_property path.now ≡ false }
    ensures { OnOk result (out.new ≡ out.old ++ assets_of_variant layer.now.specs (assets_within layer.now.specs levels) path.now set.now variant.now) }
{
    let Some((below, spec)) = variant_spec_below(layer, path, set, variant)? else {
        return Ok(());
    };
    push_arcs(out, &spec.arcs)?;
    push_within(out, layer, levels, &below, spec)
}

#[cycle(walk)]
fn push_within(
    out: &mut Items<Text>,
    layer: &Layer,
    levels: usize,
    path: &Path,
    spec: &Spec,
) -> Result<(), AllocError>
    requires stand { StandAtPaths layer.now.specs }
    requires prim { is_property path.now ≡ false }
    ensures { OnOk result (out.new ≡ out.old ++ assets_within layer.now.specs levels path.now spec.now) }
{
    if levels == 0 {
        return Ok(());
    }
    push_sets(
        out,
        layer,
        levels - 1,
        path,
        spec.body.variant_names.as_slice(),
    )?;
    push_prims(out, layer, levels - 1, path, spec.body.children.as_slice())
}
