//! The assets of the arcs of a spec.
ghost use Rattle.std.specs.Prelude.{◌≡◌, ◌++◌, map, OnOk};
ghost use Rattle.spec_parts.specs.declared.items.SubLayer.{SubLayer as SaidSubLayer};
ghost use Rattle.layer_load.specs.Assets.{given, assets_of_items, explicit_assets, assets_of_list, assets_of_arcs};

use list_ops::ListOp;
use plain_data::{Items, Text, copy};
use spec_parts::{ArcPart, RefItem, SubLayer};
use std::alloc::AllocError;

/// Appends the assets of sublayers.
pub fn push_sublayers(out: &mut Items<Text>, sublayers: &[SubLayer]) -> Result<(), AllocError>
    ensures { OnOk result (out.new ≡ out.old ++ map (λ (s : SaidSubLayer). s.asset) sublayers.now) }
{
    for sublayer in sublayers {
        out.push(copy(&sublayer.asset)?)?;
    }
    Ok(())
}

/// Appends the asset of an item, if it has one.
fn push_given(out: &mut Items<Text>, asset: &Option<Text>) -> Result<(), AllocError>
    ensures { OnOk result (out.new ≡ out.old ++ given asset.now) }
{
    match asset {
        None => Ok(()),
        Some(asset) => out.push(copy(asset)?),
    }
}

fn push_items(out: &mut Items<Text>, items: &[RefItem]) -> Result<(), AllocError>
    ensures { OnOk result (out.new ≡ out.old ++ assets_of_items items.now) }
{
    for item in items {
        push_given(out, &item.asset)?;
    }
    Ok(())
}

fn push_explicit(out: &mut Items<Text>, explicit: &Option<Items<RefItem>>) -> Result<(), AllocError>
    ensures { OnOk result (out.new ≡ out.old ++ explicit_assets explicit.now) }
{
    match explicit {
        None => Ok(()),
        Some(items) => push_items(out, items.as_slice()),
    }
}

/// Appends the assets of an opinion on a list, one list after the other.
fn push_list(out: &mut Items<Text>, op: &ListOp<RefItem>) -> Result<(), AllocError>
    ensures { OnOk result (out.new ≡ out.old ++ assets_of_list op.now) }
{
    push_explicit(out, &op.explicit)?;
    push_items(out, op.deleted.as_slice())?;
    push_items(out, op.added.as_slice())?;
    push_items(out, op.prepended.as_slice())?;
    push_items(out, op.appended.as_slice())?;
    push_items(out, op.ordered.as_slice())
}

/// Appends the assets of references and payloads.
pub fn push_arcs(out: &mut Items<Text>, arcs: &ArcPart) -> Result<(), AllocError>
    ensures { OnOk result (out.new ≡ out.old ++ assets_of_arcs arcs.now) }
{
    push_list(out, &arcs.references)?;
    push_list(out, &arcs.payloads)
}
