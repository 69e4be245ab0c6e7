use path_maps::ArcMap;
use plain_data::Items;
use prim_view::{Choices, StackName};
use sdf_paths::Path;
use sdf_values::LayerOffset;

/// What holds at one level of a node.
#[derive(Debug, Drop)]
pub struct Frame {
    /// The variants that are chosen.
    pub choices: Choices,
    /// Whether payloads are followed.
    pub loaded: bool,
    /// Whether a listing from which the choices were made was overgrown.
    pub overgrown: bool,
}

/// A site that composition visits for a prim, and how it came there.
#[derive(Debug, Drop)]
pub struct Node {
    /// The layer stack of the site.
    pub stack: StackName,
    /// The path of the site in that stack.
    pub path: Path,
    /// One frame for each level of the path, from the path itself up.
    pub frames: Items<Frame>,
    /// The authors of the arcs on the way to the node: paths of stacks, without selections.
    pub chain: Items<(StackName, Path)>,
    /// How many arcs may still follow.
    pub depth: usize,
    /// How times of the node's stack become those of the stage.
    pub offset: LayerOffset,
    /// The arcs from the node to the stage, the nearest to the node first.
    pub maps: Items<ArcMap>,
}
