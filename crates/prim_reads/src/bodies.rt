//! The bodies that a prim reads.
ghost use Rattle.std.specs.Prelude.{◌≡◌, ◌++◌, map, OnOk};
ghost use Rattle.layer_set.specs.LookUps.{look_ups};
ghost use Rattle.prim_reads.specs.Gathered.{led_bodies, nodes_bodies, own_bodies, sites_bodies};
ghost use Rattle.prim_trees.specs.Meant.{led, meant};

use crate::node::push_bodies_at;
use layer_set::{Key, World};
use plain_data::Items;
use prim_trees::{Child, Tree};
use prim_view::Site;
use site_order::{is_overgrown_on_the_way, sites};
use std::alloc::AllocError;

/// Appends the bodies at sites.
#[tactic(auto, unfolding(crate::specs::Gathered::sites_bodies))]
fn push_sites(out: &mut Items<Key>, world: &World, sites: &[Site]) -> Result<(), AllocError>
    ensures { OnOk result (out.new ≡ out.old ++ sites_bodies (look_ups world.now) sites.now) }
{
    for site in sites {
        push_bodies_at(out, world, &site.stack, &site.path)?;
    }
    Ok(())
}

/// Appends the bodies at the nodes of a tree.
#[cycle(bodies)]
fn push_tree(out: &mut Items<Key>, world: &World, tree: &Tree) -> Result<(), AllocError>
    ensures { OnOk result (out.new ≡ out.old ++ nodes_bodies (look_ups world.now) (meant tree.now)) }
{
    push_bodies_at(out, world, &tree.node.stack, &tree.node.path)?;
    push_children(out, world, tree.own.as_slice())?;
    push_children(out, world, tree.lifted.as_slice())?;
    Ok(())
}

/// Appends the bodies at the nodes below some children and at these.
#[cycle(bodies)]
#[tactic(auto, unfolding(crate::specs::Gathered::led_bodies))]
fn push_children(out: &mut Items<Key>, world: &World, children: &[Child]) -> Result<(), AllocError>
    ensures { OnOk result (out.new ≡ out.old ++ led_bodies (look_ups world.now) (map led children.now)) }
{
    for child in children {
        push_tree(out, world, &child.tree)?;
    }
    Ok(())
}

/// Appends the bodies that a prim reads, by its tree: those at its sites, or where it is overgrown those at the nodes of its listing.
#[tactic(auto, unfolding(crate::specs::Gathered::own_bodies))]
pub fn push_own_bodies(out: &mut Items<Key>, world: &World, tree: &Tree) -> Result<(), AllocError>
    ensures { OnOk result (out.new ≡ out.old ++ own_bodies (look_ups world.now) (meant tree.now)) }
{
    if is_overgrown_on_the_way(tree) {
        push_tree(out, world, tree)?;
        return Ok(());
    }
    let sites = sites(out.allocator(), tree)?;
    push_sites(out, world, sites.as_slice())?;
    Ok(())
}
