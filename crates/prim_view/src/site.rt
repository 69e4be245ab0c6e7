use crate::stack_name::StackName;
use path_maps::ArcMap;
use plain_data::Items;
use sdf_paths::Path;
use sdf_values::LayerOffset;

/// A place from which a prim of the stage has opinions: a path of a layer stack.
#[derive(Debug, Drop)]
pub struct Site {
    /// The layer stack.
    pub stack: StackName,
    /// The path in that stack, with its selections.
    pub path: Path,
    /// The arcs from the site to the stage, the nearest to the site first.
    pub maps: Items<ArcMap>,
    /// How times of the site's stack become those of the stage.
    pub offset: LayerOffset,
    /// Whether one of the arcs is to a class.
    pub by_class: bool,
    /// Whether the path is `/`, or a layer of the stack has a spec there.
    pub has_spec: bool,
}
