ghost use Rattle.std.specs.Prelude.{◌≡◌, ◌++◌, map, IfOk, OnOk};
ghost use Rattle.layer_set.specs.LookUps.{look_ups};
ghost use Rattle.prim_opinions.specs.Counting.{counted};
ghost use Rattle.prim_opinions.specs.Gathering.{said_on};
ghost use Rattle.target_resolve.specs.Translating.{outside, edits_of};
ghost use Rattle.target_resolve.specs.Resolving.{with_op, ops_by, targets_by, faults_by};

use crate::edits::{if_any, translated_edits};
use layer_set::World;
use list_ops::ListOp;
use plain_data::{Items, Text, copy};
use prim_opinions::{PropertyAt, SaidAt, opinions_on, specs_of};
use prim_view::{PrimFault, Site, TargetFault};
use sdf_paths::Path;
use spec_properties::Property;
use std::alloc::{AllocError, Global};

/// The targets of a relationship, or the connections of an attribute, on the stage.
#[derive(Debug, Drop)]
pub struct TargetList {
    /// The paths in their order, each once; none where there is no opinion on them.
    pub targets: Option<Items<Path>>,
    /// `TargetOutside`, for each item without a translation that is not only deleted.
    pub faults: Items<PrimFault>,
}

/// What the opinions so far say of the list.
#[derive(Drop)]
struct Gathered {
    ops: Items<ListOp<Path>>,
    faults: Items<PrimFault>,
}

/// The edits of a property: of its targets, or of its connections.
fn edits_of(property: &Property) -> &ListOp<Path>
    ensures { result.now ≡ edits_of property.now }
{
    match property {
        Property::Attr { connections, .. } => connections,
        Property::Rel { targets, .. } => targets,
    }
}

/// Appends a fault for each item of an opinion that has no translation.
fn push_faults(
    faults: &mut Items<PrimFault>,
    name: &Text,
    said: &SaidAt<'_, '_>,
    lost: &[Path],
) -> Result<(), AllocError>
    ensures { OnOk result (faults.new ≡ faults.old ++ map (outside name.now said.now) lost.now) }
{
    for target in lost {
        faults.push(PrimFault::TargetOutside(TargetFault {
            layer: copy(said.layer())?,
            site: copy(&said.site().path)?,
            name: copy(name)?,
            target: copy(target)?,
        }))?;
    }
    Ok(())
}

/// Appends the edits of an opinion on the stage, if they are an opinion on the list.
fn push_op(
    ops: &mut Items<ListOp<Path>>,
    edits: &ListOp<Path>,
    translated: ListOp<Path>,
) -> Result<(), AllocError>
    ensures { OnOk result (ops.new ≡ with_op ops.old edits.now translated) }
{
    if edits.is_opinion() {
        ops.push(translated)?;
    } else {
        drop(translated);
    }
    Ok(())
}

/// What a property's specs say, the strongest first.
fn gather(
    alloc: Global,
    name: &Text,
    specs: &[PropertyAt<'_, '_, '_>],
) -> Result<Gathered, AllocError>
    ensures ops { IfOk result (λ g. g.ops ≡ ops_by specs.now) }
    ensures faults { IfOk result (λ g. g.faults ≡ faults_by name.now specs.now) }
{
    let mut ops = Items::new(alloc);
    let mut faults = Items::new(alloc);
    for opinion in specs {
        let edits = edits_of(opinion.property());
        let said = opinion.said();
        let there = translated_edits(alloc, said.site().maps.as_slice(), edits)?;
        push_op(&mut ops, edits, there.op)?;
        push_faults(&mut faults, name, said, there.lost.as_slice())?;
    }
    Ok(Gathered { ops, faults })
}

/// The targets or connections of a property of this name by the specs that count.
///
/// # Errors
///
/// Memory ran out.
pub fn resolve_targets_by(
    alloc: Global,
    name: &Text,
    specs: &[PropertyAt<'_, '_, '_>],
) -> Result<TargetList, AllocError>
    ensures targets { IfOk result (λ list. list.targets ≡ targets_by specs.now) }
    ensures faults { IfOk result (λ list. list.faults ≡ faults_by name.now specs.now) }
{
    let Gathered { ops, faults } = gather(alloc, name, specs)?;
    let targets = if_any(alloc, ops)?;
    Ok(TargetList { targets, faults })
}

/// The targets or connections of a property by the opinions on its prim.
///
/// # Errors
///
/// Memory ran out.
pub fn resolve_targets_of(
    alloc: Global,
    said: &[SaidAt<'_, '_>],
    name: &Text,
) -> Result<TargetList, AllocError>
    ensures targets { IfOk result (λ list. list.targets ≡ targets_by (counted name.now said.now)) }
    ensures faults { IfOk result (λ list. list.faults ≡ faults_by name.now (counted name.now said.now)) }
{
    let specs = specs_of(alloc, name, said)?;
    resolve_targets_by(alloc, name, specs.as_slice())
}

/// The targets or connections of a property of a prim with these sites, from strong to weak.
///
/// # Errors
///
/// Memory ran out.
pub fn resolve_targets(
    alloc: Global,
    world: &World,
    sites: &[Site],
    name: &Text,
) -> Result<TargetList, AllocError>
    ensures targets { IfOk result (λ list. list.targets ≡ targets_by (counted name.now (said_on (look_ups world.now) sites.now))) }
    ensures faults { IfOk result (λ list. list.faults ≡ faults_by name.now (counted name.now (said_on (look_ups world.now) sites.now))) }
{
    let said = opinions_on(alloc, world, sites)?;
    resolve_targets_of(alloc, said.as_slice(), name)
}
