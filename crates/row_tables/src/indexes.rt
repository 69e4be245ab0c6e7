//! Calls on the index of a prim.

use crate::fault::CallFault;
use crate::printing::{
    kind_word, push_choices, push_faults, push_offset, push_path, push_site, push_sites,
};
use crate::words::{first_word, path_of};
use layer_set::World;
use path_maps::ArcMap;
use prim_index::{PrimIndex, index};
use prim_view::Site;
use std::alloc::{AllocError, Global};
use std::fmt::Write;

/// The index of the prim that a word is the path of.
pub(crate) fn index_of(alloc: Global, world: &World, word: &str) -> Result<PrimIndex, CallFault> {
    let path = path_of(alloc, word)?;
    let found = index(alloc, world, &path);
    drop(path);
    Ok(found?)
}

/// Appends all that an index tells.
fn push_index(out: &mut String, world: &World, found: &PrimIndex) -> Result<(), CallFault> {
    push_sites(out, world, found.sites())?;
    push_choices(out, "choice", found.choices().as_slice())?;
    push_faults(out, found.faults())?;
    if found.is_overgrown() {
        out.push_str("overgrown\n")?;
    }
    Ok(())
}

/// Appends the sites that have a spec.
fn push_spec_sites(out: &mut String, world: &World, sites: &[Site]) -> Result<(), CallFault> {
    for site in sites {
        if site.has_spec {
            push_site(out, world, site)?;
            out.push_str("\n")?;
        }
    }
    Ok(())
}

/// `index PATH`: sites, choices and faults, and whether it is overgrown.
pub(crate) fn push_index_call(
    alloc: Global,
    out: &mut String,
    world: &World,
    words: &str,
) -> Result<(), CallFault> {
    let found = index_of(alloc, world, words)?;
    let told = push_index(out, world, &found);
    drop(found);
    told
}

/// `sites PATH`: the sites that have a spec.
pub(crate) fn push_sites_call(
    alloc: Global,
    out: &mut String,
    world: &World,
    words: &str,
) -> Result<(), CallFault> {
    let found = index_of(alloc, world, words)?;
    let told = push_spec_sites(out, world, found.sites());
    drop(found);
    told
}

fn push_map(out: &mut String, map: &ArcMap) -> Result<(), AllocError> {
    out.push_str("map ")?;
    out.push_str(kind_word(map.kind))?;
    out.push_str(" ")?;
    push_path(out, &map.target)?;
    out.push_str(" -> ")?;
    push_path(out, &map.author)?;
    out.push_str("\n")
}

/// Appends a site with all that is known of it.
fn push_whole_site(out: &mut String, world: &World, site: &Site) -> Result<(), AllocError> {
    push_site(out, world, site)?;
    out.push_str(" offset ")?;
    push_offset(out, site.offset)?;
    let by_class = site.by_class;
    let has_spec = site.has_spec;
    writeln!(out, " by_class {by_class} has_spec {has_spec}")?;
    for map in site.maps.as_slice() {
        push_map(out, map)?;
    }
    Ok(())
}

/// Appends a site by its number.
fn push_numbered_site(
    out: &mut String,
    world: &World,
    sites: &[Site],
    number: usize,
) -> Result<(), CallFault> {
    match sites.get(number) {
        Some(site) => Ok(push_whole_site(out, world, site)?),
        None => Ok(out.push_str("no site\n")?),
    }
}

/// `site PATH N`: all that is known of a site, by its number from 0.
pub(crate) fn push_site_call(
    alloc: Global,
    out: &mut String,
    world: &World,
    words: &str,
) -> Result<(), CallFault> {
    let (path, number) = first_word(words);
    let Ok(number) = number.parse::<usize>() else {
        return Err(CallFault::Bad);
    };
    let found = index_of(alloc, world, path)?;
    let told = push_numbered_site(out, world, found.sites(), number);
    drop(found);
    told
}
