ghost use Rattle.std.specs.Prelude.{◌≡◌, ◌++◌, IfOk, OnOk, option_to_list};
ghost use Rattle.layer_set.specs.LookUps.{look_ups};
ghost use Rattle.prim_opinions.specs.Gathering.{said_by, said_in, said_on};

use crate::offset::StageOffset;
use crate::said::SaidAt;
use crate::stacks::{Stacks, layers_of, note_stack};
use asset_names::AssetId;
use layer_set::World;
use plain_data::{Items, copy};
use prim_view::Site;
use sdf_values::LayerOffset;
use std::alloc::{AllocError, Global};

/// Appends what a layer of a stack says at a site, if it says something.
fn push_said_by<'w, 's>(
    out: &mut Items<SaidAt<'w, 's>>,
    world: &'w World,
    site: &'s Site,
    layer: &AssetId,
    offset: LayerOffset,
) -> Result<(), AllocError>
    ensures { OnOk result (out.new ≡ out.old ++ option_to_list (said_by (look_ups world.now) site.now (layer.now, offset))) }
{
    let Some(spec) = world.spec(layer, &site.path) else {
        return Ok(());
    };
    let offset = StageOffset::of(offset, site.offset);
    out.push(SaidAt::new(site, copy(layer)?, offset, spec))
}

/// Appends what the layers of a stack say at a site.
fn push_said_in<'w, 's>(
    out: &mut Items<SaidAt<'w, 's>>,
    world: &'w World,
    site: &'s Site,
    layers: &[(AssetId, LayerOffset)],
) -> Result<(), AllocError>
    ensures { OnOk result (out.new ≡ out.old ++ said_in (look_ups world.now) site.now layers.now) }
{
    for (layer, offset) in layers {
        push_said_by(out, world, site, layer, *offset)?;
    }
    Ok(())
}

/// What the layers say of a prim at its sites: site by site, and at a site layer by layer of its stack, the strongest first.
///
/// # Errors
///
/// Memory ran out.
pub fn opinions_on<'w, 's>(
    alloc: Global,
    world: &'w World,
    sites: &'s [Site],
) -> Result<Items<SaidAt<'w, 's>>, AllocError>
    ensures { IfOk result (λ said. said ≡ said_on (look_ups world.now) sites.now) }
{
    let mut stacks = Stacks::new(alloc);
    let mut said = Items::new(alloc);
    for site in sites {
        note_stack(alloc, world, &mut stacks, &site.stack)?;
        push_said_in(&mut said, world, site, layers_of(&stacks, &site.stack))?;
    }
    Ok(said)
}
