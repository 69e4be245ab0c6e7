ghost use Rattle.std.specs.Prelude.{◌≡◌, ◌++◌, true, map, option_map, IfOk};
ghost use Rattle.std.specs.List.{list_all};
ghost use Rattle.composition.specs.Faults.{child_too_long};
ghost use Rattle.composition.specs.Fields.{listed_children, unlisted_children};
ghost use Rattle.composition.specs.Paths.{limits};
ghost use Rattle.composition.specs.Views.{empty_view};
ghost use Rattle.field_resolve.specs.Activity.{active_names};
ghost use Rattle.field_resolve.specs.Folding.{meta_on};
ghost use Rattle.layer_set.specs.LookUps.{look_ups};
ghost use Rattle.prim_index.specs.Answer.{indexed_of, sites_in, choices_in, faults_in};
ghost use Rattle.sdf_paths.specs.Paths.{is_prim_name};
ghost use Rattle.prim_index.specs.Once.{faults_once};
ghost use Rattle.prim_trees.specs.Meant.{meant};
ghost use Rattle.prim_compose.specs.Listing.{entry_at};
ghost use Rattle.prim_compose.specs.Properties.{views_on, faults_on};
ghost use Rattle.prim_compose.specs.Trees.{tree_at};
ghost use Rattle.prim_compose.specs.Viewed.{index_in, seen, seen_by};

use crate::children::children_below;
use crate::faults::faults_after;
use crate::lists::copied;
use crate::properties::properties_of;
use crate::root::root_view;
use field_resolve::{PrimFields, active_names, fields_of};
use layer_set::World;
use list_ops::push_all;
use plain_data::{Items, Text, copy};
use prim_index::{PrimIndex, index_of};
use prim_opinions::{SaidAt, opinions_on};
use prim_trees::Tree;
use prim_view::{Choices, PrimFault, PrimView, PropertyView, Site};
use sdf_paths::Path;
use sdf_specs::Specifier;
use spec_properties::Meta;
use spec_tables::OrderedTable;
use std::alloc::{AllocError, Global};

/// The view that has nothing but faults.
fn bare_view(alloc: Global, faults: Items<PrimFault>) -> PrimView
    ensures { result ≡ record empty_view { faults = faults } }
{
    PrimView {
        specifier: Specifier::Over,
        type_name: None,
        meta: OrderedTable::new(alloc),
        api_schemas: None,
        clip_sets: None,
        properties: Items::new(alloc),
        children: Items::new(alloc),
        choices: Items::new(alloc),
        sites: Items::new(alloc),
        faults,
        since: 0,
    }
}

/// The faults of a prim: those of its index, of its properties and of its children, each once.
fn all_faults(
    alloc: Global,
    index: &PrimIndex,
    properties: &[PrimFault],
    children: &[PrimFault],
) -> Result<Items<PrimFault>, AllocError>
    ensures { IfOk result (λ faults. faults ≡ faults_once ((faults_in index.now ++ properties.now) ++ children.now)) }
{
    let mut faults = copied(alloc, index.faults())?;
    push_all(&mut faults, properties)?;
    faults_after(alloc, faults, children)
}

/// A view of these parts, whose properties, children, sites and faults stay with no more room than they need.
fn joined(
    fields: PrimFields,
    mut properties: Items<PropertyView>,
    mut children: Items<Text>,
    choices: Choices,
    mut sites: Items<Site>,
    mut faults: Items<PrimFault>,
) -> PrimView
    ensures { result ≡ record { specifier = fields.specifier; type_name = fields.type_name; meta = fields.meta; api_schemas = fields.api_schemas; clip_sets = fields.clip_sets; properties = properties; children = children; choices = choices; sites = sites; faults = faults; since = 0 } }
{
    properties.fit();
    children.fit();
    sites.fit();
    faults.fit();
    PrimView {
        specifier: fields.specifier,
        type_name: fields.type_name,
        meta: fields.meta,
        api_schemas: fields.api_schemas,
        clip_sets: fields.clip_sets,
        properties,
        children,
        choices,
        sites,
        faults,
        since: 0,
    }
}

/// The names of a prim's children, and its faults: those of its index, of its properties, given here, and of its children.
fn listed(
    alloc: Global,
    place: &Path,
    index: &PrimIndex,
    said: &[SaidAt<'_, '_>],
    meta: &Meta,
    properties: &[PrimFault],
) -> Result<(Items<Text>, Items<PrimFault>), AllocError>
    requires place { list_all is_prim_name place.now ≡ true }
    requires meta { meta.now ≡ meta_on said.now }
    ensures { IfOk result (λ both. both ≡ (listed_children limits place.now (active_names said.now), faults_once ((faults_in index.now ++ properties.now) ++ map child_too_long (unlisted_children limits place.now (active_names said.now))))) }
{
    let names = active_names(alloc, meta, said)?;
    let children = children_below(alloc, place, names.as_slice())?;
    match all_faults(alloc, index, properties, children.faults.as_slice()) {
        Ok(faults) => Ok((children.names, faults)),
        Err(error) => {
            drop(children);
            Err(error)
        }
    }
}

/// The properties of a prim with the names of its children, and its faults.
fn content_of(
    alloc: Global,
    place: &Path,
    index: &PrimIndex,
    said: &[SaidAt<'_, '_>],
    meta: &Meta,
) -> Result<((Items<PropertyView>, Items<Text>), Items<PrimFault>), AllocError>
    requires place { list_all is_prim_name place.now ≡ true }
    requires meta { meta.now ≡ meta_on said.now }
    ensures { IfOk result (λ all. all ≡ ((views_on said.now, listed_children limits place.now (active_names said.now)), faults_once ((faults_in index.now ++ faults_on said.now) ++ map child_too_long (unlisted_children limits place.now (active_names said.now))))) }
{
    let properties = properties_of(alloc, said)?;
    match listed(
        alloc,
        place,
        index,
        said,
        meta,
        properties.faults.as_slice(),
    ) {
        Ok((children, faults)) => Ok(((properties.views, children), faults)),
        Err(error) => {
            drop(properties);
            Err(error)
        }
    }
}

/// The choices and the sites of an index.
fn chosen(alloc: Global, index: &PrimIndex) -> Result<(Choices, Items<Site>), AllocError>
    ensures { IfOk result (λ both. both ≡ (choices_in index.now, sites_in index.now)) }
{
    let choices = copy(index.choices())?;
    match copied(alloc, index.sites()) {
        Ok(sites) => Ok((choices, sites)),
        Err(error) => {
            drop(choices);
            Err(error)
        }
    }
}

/// The view at a plain prim path, by its index and the opinions on it.
fn view_from(
    alloc: Global,
    place: &Path,
    index: &PrimIndex,
    said: &[SaidAt<'_, '_>],
) -> Result<PrimView, AllocError>
    requires { list_all is_prim_name place.now ≡ true }
    ensures { IfOk result (λ view. view ≡ seen place.now (index_in index.now) said.now) }
{
    let fields = fields_of(alloc, said)?;
    match content_of(alloc, place, index, said, &fields.meta) {
        Ok((content, faults)) => match chosen(alloc, index) {
            Ok((choices, sites)) => {
                let (properties, children) = content;
                Ok(joined(fields, properties, children, choices, sites, faults))
            }
            Err(error) => {
                drop((fields, content, faults));
                Err(error)
            }
        },
        Err(error) => {
            drop(fields);
            Err(error)
        }
    }
}

/// The view at a plain prim path, by its index.
fn view_by(
    alloc: Global,
    world: &World,
    place: &Path,
    index: &PrimIndex,
) -> Result<PrimView, AllocError>
    requires { list_all is_prim_name place.now ≡ true }
    ensures { IfOk result (λ view. view ≡ seen_by (look_ups world.now) place.now index.now) }
{
    if index.is_overgrown() {
        let faults = copied(alloc, index.faults())?;
        return Ok(bare_view(alloc, faults));
    }
    let said = opinions_on(alloc, world, index.sites())?;
    view_from(alloc, place, index, said.as_slice())
}

/// The view at a plain prim path, by its tree.
fn prim_view(
    alloc: Global,
    world: &World,
    place: &Path,
    tree: &Tree,
) -> Result<PrimView, AllocError>
    requires { list_all is_prim_name place.now ≡ true }
    ensures { IfOk result (λ view. view ≡ seen_by (look_ups world.now) place.now (indexed_of limits (meant tree.now))) }
{
    let index = index_of(alloc, tree)?;
    view_by(alloc, world, place, &index)
}

/// The view of a path by its tree, where it has one.
pub fn view_with(
    alloc: Global,
    world: &World,
    path: &Path,
    tree: &Option<Tree>,
) -> Result<PrimView, AllocError>
    requires { option_map meant tree.now ≡ tree_at (look_ups world.now) path.now }
    ensures { IfOk result (λ view. view ≡ entry_at world.now path.now) }
{
    if path.is_root() {
        return root_view(alloc, world);
    }
    match tree {
        Some(tree) => prim_view(alloc, world, path, tree),
        None => Ok(bare_view(alloc, Items::new(alloc))),
    }
}
