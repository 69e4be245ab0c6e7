//! Paths through the arcs between a site and the stage.
ghost use Rattle.std.specs.Prelude.{◌≡◌, ◌++◌, IfOk, OnOk, filter_map, filter, option_to_list};
ghost use Rattle.sdf_paths.specs.Paths.{IsPath};
ghost use Rattle.path_maps.specs.Prims.{IsOfPrim};
ghost use Rattle.target_resolve.specs.Translating.{through_arc, on_stage, is_lost, if_missing};

use path_maps::ArcMap;
use plain_data::{Items, copy};
use sdf_paths::{Path, PathFault};
use std::alloc::{AllocError, Global};

/// The path at which an arc was authored.
fn author_of(map: &ArcMap) -> &Path
    ensures author { result.now ≡ map.now.author }
    ensures path { IsPath map.now.author }
    ensures prim { IsOfPrim map.now.author }
{
    let author = &map.author;
    // By the contract of `elements` this is a path by the rules, as the clause `path` says.
    let _elements = author.elements();
    author
}

/// The path on the author's side of an arc; none where it has none there, or where it would pass a limit of paths.
fn through_arc(map: &ArcMap, path: &Path) -> Result<Option<Path>, AllocError>
    ensures { IfOk result (λ moved. moved ≡ through_arc map.now path.now) }
{
    // By the contracts of these two calls, the author is the path of a prim, and both are paths by the rules.
    let _author = author_of(map);
    let _elements = path.elements();
    match map.translate(path) {
        Ok(moved) => Ok(moved),
        Err(PathFault::Bad { at: _ }) => Ok(None),
        Err(PathFault::NoMemory) => Err(AllocError),
    }
}

/// The path on the stage that stands for a path at a site, through the arcs between them, the nearest to the site first.
pub fn on_stage(maps: &[ArcMap], path: &Path) -> Result<Option<Path>, AllocError>
    ensures { IfOk result (λ moved. moved ≡ on_stage maps.now path.now) }
{
    let mut moved = copy(path)?;
    for map in maps {
        match through_arc(map, &moved)? {
            Some(next) => moved = next,
            None => return Ok(None),
        }
    }
    Ok(Some(moved))
}

/// Paths that have a translation, translated, and the others as they are.
#[derive(Drop)]
pub struct Moved {
    /// What stands on the stage for the paths that have a translation, in their order.
    pub kept: Items<Path>,
    /// The paths that have none, in their order.
    pub lost: Items<Path>,
}

/// Appends a path where it leads, or to the paths that lead nowhere.
fn push_moved(
    kept: &mut Items<Path>,
    lost: &mut Items<Path>,
    path: &Path,
    there: Option<Path>,
) -> Result<(), AllocError>
    ensures kept { OnOk result (kept.new ≡ kept.old ++ option_to_list there) }
    ensures lost { OnOk result (lost.new ≡ lost.old ++ if_missing there path.now) }
{
    match there {
        Some(there) => kept.push(there),
        None => lost.push(copy(path)?),
    }
}

/// Translates each of some paths.
pub fn translated_paths(alloc: Global, maps: &[ArcMap], paths: &[Path]) -> Result<Moved, AllocError>
    ensures kept { IfOk result (λ moved. moved.kept ≡ filter_map (on_stage maps.now) paths.now) }
    ensures lost { IfOk result (λ moved. moved.lost ≡ filter (is_lost maps.now) paths.now) }
{
    let mut kept = Items::new(alloc);
    let mut lost = Items::new(alloc);
    for path in paths {
        let there = on_stage(maps, path)?;
        push_moved(&mut kept, &mut lost, path, there)?;
    }
    Ok(Moved { kept, lost })
}
