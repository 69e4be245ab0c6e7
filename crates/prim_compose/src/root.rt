//! What the stage has at `/`.
ghost use Rattle.std.specs.Prelude.{◌≡◌, ◌++◌, ◌∷◌, [], fold, IfOk, OnOk};
ghost use Rattle.composition.specs.Merging.{with_weaker};
ghost use Rattle.composition.specs.Views.{empty_view, with_default_prim, head_meta, root_site};
ghost use Rattle.layer_set.specs.LookUps.{look_ups, layer_head, heading_of, roots_of};
ghost use Rattle.prim_compose.specs.Root.{root_with, with_default, merged_onto, session_tables};
ghost use Rattle.prim_compose.specs.Composed.{namings_of, named_by, root_viewed, root_metadata};

use crate::children::children_below;
use crate::faults::faults_after;
use asset_names::AssetId;
use field_resolve::{child_naming, folded_texts, merge_into, texts_once};
use layer_set::{Held, World};
use layer_stack::stack;
use list_ops::ListOp;
use plain_data::{Items, Text, copy};
use prim_view::{PrimFault, PrimView, Site, StackName};
use sdf_paths::Path;
use sdf_specs::{Head, Specifier, default_key};
use sdf_values::{LayerOffset, Value};
use spec_properties::Meta;
use spec_tables::OrderedTable;
use std::alloc::{AllocError, Global};

/// Appends what a layer says of the names of root prims, as an edit.
fn push_naming(alloc: Global, edits: &mut Vec<ListOp<Text>>, held: &Held) -> Result<(), AllocError>
    ensures { OnOk result (edits.new.items ≡ edits.old.items ++ namings_of (roots_of held.now)) }
{
    match held {
        Held::Present(layer) => {
            let head = layer.head();
            edits.push(child_naming(alloc, head.root_names.as_slice(), &head.root_order)?)?;
            Ok(())
        }
        Held::Absent => Ok(()),
        Held::Broken(_) => Ok(()),
    }
}

/// The names of root prims that these layers give, each once, in their order.
fn root_names(
    alloc: Global,
    world: &World,
    layers: &[(AssetId, LayerOffset)],
) -> Result<Items<Text>, AllocError>
    ensures { IfOk result (λ names. names ≡ named_by (look_ups world.now) layers.now) }
{
    let mut edits = Vec::new(alloc);
    for (layer, _) in layers {
        push_naming(alloc, &mut edits, world.held(layer))?;
    }
    texts_once(alloc, folded_texts(alloc, edits)?)
}

/// Metadata with a default prim.
fn with_default(alloc: Global, meta: &Meta, name: &Text) -> Result<Meta, AllocError>
    ensures { IfOk result (λ all. all ≡ with_default name.now meta.now) }
{
    let mut all = copy(meta)?;
    drop(all.insert(default_key(alloc)?, Value::Text(copy(name)?))?);
    Ok(all)
}

/// Merges what a head says of `/` below the stronger metadata.
fn merge_head(alloc: Global, meta: &mut Meta, head: &Head) -> Result<(), AllocError>
    ensures { OnOk result (meta.new ≡ fold with_weaker meta.old (with_default_prim (layer_head head.now))) }
{
    match &head.default_prim {
        None => merge_into(alloc, meta, &head.meta),
        Some(name) => {
            let all = with_default(alloc, &head.meta, name)?;
            merge_into(alloc, meta, &all)?;
            Ok(())
        }
    }
}

/// Merges what stands at a layer's name says of `/` below the stronger metadata.
fn merge_layer(alloc: Global, meta: &mut Meta, held: &Held) -> Result<(), AllocError>
    ensures { OnOk result (meta.new ≡ merged_onto meta.old (head_meta (heading_of held.now))) }
{
    match held {
        Held::Present(layer) => merge_head(alloc, meta, layer.head()),
        Held::Absent => Ok(()),
        Held::Broken(_) => Ok(()),
    }
}

/// Merges what the session layer says of `/`, if there is one.
fn merge_session(alloc: Global, meta: &mut Meta, world: &World) -> Result<(), AllocError>
    ensures { OnOk result (meta.new ≡ merged_onto meta.old (session_tables (look_ups world.now))) }
{
    match world.session() {
        Some(session) => merge_layer(alloc, meta, world.held(session)),
        None => Ok(()),
    }
}

/// The metadata of `/`: that of the session layer, if there is one, and then that of the root layer.
fn root_meta(alloc: Global, world: &World) -> Result<Meta, AllocError>
    ensures { IfOk result (λ meta. meta ≡ root_metadata (look_ups world.now)) }
{
    let mut meta = OrderedTable::new(alloc);
    merge_session(alloc, &mut meta, world)?;
    merge_layer(alloc, &mut meta, world.held(world.root()))?;
    Ok(meta)
}

/// `/` as the one site of itself.
fn root_sites(alloc: Global) -> Result<Items<Site>, AllocError>
    ensures { IfOk result (λ sites. sites ≡ root_site ∷ []) }
{
    let mut sites = Items::new(alloc);
    sites.push(Site {
        stack: StackName::Root,
        path: Path::root(alloc),
        maps: Items::new(alloc),
        offset: LayerOffset::identity(),
        by_class: false,
        has_spec: true,
    })?;
    Ok(sites)
}

/// The view with no prim but these parts.
fn root_of(
    alloc: Global,
    meta: Meta,
    children: Items<Text>,
    sites: Items<Site>,
    faults: Items<PrimFault>,
) -> PrimView
    ensures { result ≡ record empty_view { meta = meta; children = children; sites = sites; faults = faults } }
{
    PrimView {
        specifier: Specifier::Over,
        type_name: None,
        meta,
        api_schemas: None,
        clip_sets: None,
        properties: Items::new(alloc),
        children,
        choices: Items::new(alloc),
        sites,
        faults,
        since: 0,
    }
}

/// The view of `/` by its metadata, the names of its children and the faults of its sublayers.
fn view_of(
    alloc: Global,
    meta: Meta,
    names: &[Text],
    faults: Items<PrimFault>,
) -> Result<PrimView, AllocError>
    ensures { IfOk result (λ view. view ≡ root_with meta names.now faults) }
{
    let root = Path::root(alloc);
    let children = children_below(alloc, &root, names)?;
    let faults = faults_after(alloc, faults, children.faults.as_slice())?;
    let sites = root_sites(alloc)?;
    Ok(root_of(alloc, meta, children.names, sites, faults))
}

/// The view of `/`.
pub fn root_view(alloc: Global, world: &World) -> Result<PrimView, AllocError>
    ensures { IfOk result (λ view. view ≡ root_viewed (look_ups world.now)) }
{
    let stack = stack(alloc, world, &StackName::Root)?;
    let names = root_names(alloc, world, stack.layers.as_slice())?;
    let meta = root_meta(alloc, world)?;
    view_of(alloc, meta, names.as_slice(), stack.faults)
}
