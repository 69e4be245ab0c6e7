use crate::arcs::Authored;
use path_maps::ArcKind;
use plain_data::{Items, Text};
use prim_view::{ArcReason, SublayerFault};
use sdf_paths::Path;

/// What became of an item of one level of a node.
#[derive(Debug, Drop)]
pub struct Tried {
    /// The kind of the arcs among which it stands.
    pub kind: ArcKind,
    /// How many names of the node's path stand below the path at which it is authored.
    pub level: usize,
    /// The item.
    pub authored: Authored,
    /// Why there is no child, where there is none.
    pub fault: Option<ArcReason>,
    /// The faults of the stack to which the arc leads.
    pub sublayers: Items<SublayerFault>,
}

/// A variant that a frame of a node decides: the level, and the author with the selection.
#[derive(Debug, Drop)]
pub struct Chosen {
    /// How many names of the node's path stand below the author.
    pub level: usize,
    /// The author's path with the selection behind it.
    pub target: Path,
}

/// What the layers of a node's stack say there: all that composition takes from the world.
#[derive(Debug, Drop)]
pub struct Here {
    /// The items of each kind, and within a kind of each level, the lowest first.
    pub arcs: Items<Tried>,
    /// The variants that are chosen, those of the lowest level first.
    pub variants: Items<Chosen>,
    /// The variant sets at the node itself.
    pub sets: Items<Text>,
    /// The variants that are selected at the node itself, the strongest opinions first.
    pub selections: Items<(Text, Text)>,
    /// Whether some layer has a spec at the node itself.
    pub has_spec: bool,
}
