use asset_names::AssetId;
use path_maps::ArcKind;
use prim_view::{ArcReason, FaultItem, StackName};
use sdf_paths::Path;
use sdf_values::LayerOffset;

/// Where an arc leads.
#[derive(Debug, Drop)]
pub struct Lead {
    /// The layer stack to which it leads.
    pub stack: StackName,
    /// The path in that stack.
    pub target: Path,
    /// How times of the target's stack become those of the author's.
    pub offset: LayerOffset,
}

/// What becomes of an item of a list of arcs.
#[derive(Debug, Drop)]
pub enum Outcome {
    /// It is an arc.
    Leads(Lead),
    /// It is none, for this reason.
    GivesNoArc(ArcReason),
}

/// An item that the layers of a stack author at a path.
#[derive(Debug, Drop)]
pub struct Authored {
    /// The item as it stands among those of all layers.
    pub item: FaultItem,
    /// The strongest layer that gave it.
    pub author: AssetId,
    /// What becomes of it.
    pub outcome: Outcome,
}

/// An arc of a node that has a child.
#[derive(Debug, Drop)]
pub struct Branch {
    /// What kind of arc it is.
    pub kind: ArcKind,
    /// How many names of the node's path stand below the arc's author.
    pub level: usize,
    /// Where it leads.
    pub lead: Lead,
    /// Whether it is a class that a child handed up, and no arc of the node's own.
    pub lifted: bool,
}
