ghost use Rattle.std.specs.Prelude.{◌≡◌, IfOk};
ghost use Rattle.std.specs.List.{filter_map};
ghost use Rattle.layer_set.specs.LookUps.{look_ups};
ghost use Rattle.arc_expand.specs.Arcs.{arc_of, fault_of, reads};
ghost use Rattle.arc_expand.specs.Authoring.{IsStackOf, authored};

use crate::authored::authored_at;
use crate::reads::reads;
use asset_names::AssetId;
use layer_set::{Key, World};
use layer_stack::LayerStack;
use path_maps::ArcKind;
use plain_data::{Items, copy_three, copy_two};
use prim_nodes::{Authored, Outcome};
use prim_view::{ArcFault, FaultItem, PrimFault, StackName};
use sdf_paths::Path;
use sdf_values::LayerOffset;
use std::alloc::{AllocError, Global};

/// An arc.
#[derive(Debug, Drop)]
pub struct ArcItem {
    /// The layer stack to which it leads.
    pub stack: StackName,
    /// The path in that stack.
    pub target: Path,
    /// How times of the target's stack become those of the author's.
    pub offset: LayerOffset,
    /// The strongest layer that gave the item.
    pub author: AssetId,
    /// The item of which it comes.
    pub item: FaultItem,
}

/// The arcs of a kind at a path of a stack.
#[derive(Debug, Drop)]
pub struct ArcsHere {
    /// The arcs, in the order of the items.
    pub items: Items<ArcItem>,
    /// The faults of the items that are no arcs, in their order.
    pub faults: Items<PrimFault>,
    /// The keys of the world that were read beyond the heads that the stack itself asks, each once.
    pub reads: Items<Key>,
}

/// The arc of an item, if it is one.
fn arc_of(one: &Authored) -> Result<Option<ArcItem>, AllocError>
    ensures { IfOk result (λ arc. arc ≡ arc_of one.now) }
{
    match &one.outcome {
        Outcome::Leads(lead) => {
            let (stack, target) = copy_two(&lead.stack, &lead.target)?;
            match copy_two(&one.author, &one.item) {
                Ok((author, item)) => Ok(Some(ArcItem {
                    stack,
                    target,
                    offset: lead.offset,
                    author,
                    item,
                })),
                Err(error) => {
                    drop((stack, target));
                    Err(error)
                }
            }
        }
        Outcome::GivesNoArc(_) => Ok(None),
    }
}

/// The arcs among items.
fn arcs(alloc: Global, all: &[Authored]) -> Result<Items<ArcItem>, AllocError>
    ensures { IfOk result (λ arcs. arcs ≡ filter_map arc_of all.now) }
{
    let mut arcs = Items::new(alloc);
    for one in all {
        if let Some(arc) = arc_of(one)? {
            arcs.push(arc)?;
        }
    }
    Ok(arcs)
}

/// The fault of an item that is no arc.
fn fault_of(at: &Path, kind: ArcKind, one: &Authored) -> Result<Option<PrimFault>, AllocError>
    ensures { IfOk result (λ fault. fault ≡ fault_of at.now kind one.now) }
{
    match &one.outcome {
        Outcome::Leads(_) => Ok(None),
        Outcome::GivesNoArc(reason) => {
            let (layer, site, item) = copy_three(&one.author, at, &one.item)?;
            Ok(Some(PrimFault::Arc(ArcFault {
                reason: *reason,
                layer,
                site,
                kind,
                item,
            })))
        }
    }
}

/// The faults of items.
fn faults(
    alloc: Global,
    at: &Path,
    kind: ArcKind,
    all: &[Authored],
) -> Result<Items<PrimFault>, AllocError>
    ensures { IfOk result (λ faults. faults ≡ filter_map (fault_of at.now kind) all.now) }
{
    let mut faults = Items::new(alloc);
    for one in all {
        if let Some(fault) = fault_of(at, kind, one)? {
            faults.push(fault)?;
        }
    }
    Ok(faults)
}

/// The arcs of a kind that the layers of a stack author at a path, the faults of items that are none, and the keys that were read beyond
/// the heads of the names that the stack itself asks.
///
/// # Errors
///
/// Memory ran out.
pub fn arcs_at(
    alloc: Global,
    world: &World,
    stack: &LayerStack,
    at: &Path,
    kind: ArcKind,
) -> Result<ArcsHere, AllocError>
    requires { IsStackOf (look_ups world.now) stack.now }
    ensures items { IfOk result (λ here. here.items ≡ filter_map arc_of (authored (look_ups world.now) stack.now.name at.now kind)) }
    ensures faults { IfOk result (λ here. here.faults ≡ filter_map (fault_of at.now kind) (authored (look_ups world.now) stack.now.name at.now kind)) }
    ensures reads { IfOk result (λ here. here.reads ≡ reads (look_ups world.now) stack.now.layers at.now kind (authored (look_ups world.now) stack.now.name at.now kind)) }
{
    let all = authored_at(alloc, world, stack, at, kind)?;
    Ok(ArcsHere {
        items: arcs(alloc, all.as_slice())?,
        faults: faults(alloc, at, kind, all.as_slice())?,
        reads: reads(alloc, world, stack, at, kind, all.as_slice())?,
    })
}
