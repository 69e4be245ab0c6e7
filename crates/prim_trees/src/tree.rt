use plain_data::Items;
use prim_nodes::{Branch, Here, Node};

/// A node with what stands below it.
#[cycle(tree)]
#[derive(Debug, Drop)]
pub struct Tree {
    /// The node.
    pub node: Node,
    /// What the layers of its stack say there.
    pub here: Here,
    /// The arcs of the node's own that are followed: inherits, variants, references, payloads, specializes.
    pub own: Items<Child>,
    /// Whether there was no room for further ones.
    pub own_cut: bool,
    /// The classes that children handed up and that are followed: inherits, then specializes.
    pub lifted: Items<Child>,
    /// Whether there was no room for further ones.
    pub lifted_cut: bool,
}

/// A followed arc, and the tree to which it leads.
#[cycle(tree)]
#[derive(Debug, Drop)]
pub struct Child {
    /// The arc.
    pub branch: Branch,
    /// The node to which it leads, with what stands below that.
    pub tree: Tree,
}
