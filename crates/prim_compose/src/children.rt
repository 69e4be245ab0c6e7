//! The names of children: those that a path can have, and those whose paths would pass a limit.
ghost use Rattle.std.specs.Prelude.{◌≡◌, true, map, IfOk, OnOk};
ghost use Rattle.std.specs.List.{list_all};
ghost use Rattle.composition.specs.Faults.{child_too_long};
ghost use Rattle.composition.specs.Fields.{listed_children, unlisted_children};
ghost use Rattle.composition.specs.Paths.{limits};
ghost use Rattle.sdf_paths.specs.Paths.{is_prim_name, IsPath};
ghost use Rattle.prim_compose.specs.Room.{bytes_left, room_of, has_room, listed_in, too_long_in};

use plain_data::{Items, Text, copy};
use prim_view::PrimFault;
use sdf_paths::{MAX_BYTES, MAX_NAMES, Path};
use std::alloc::{AllocError, Global};

/// The children that a place lists, and a fault for each whose path would pass a limit.
#[derive(Drop)]
pub struct Children {
    /// The names of the children whose paths keep the limits, in their order.
    pub names: Items<Text>,
    /// A fault for each other name.
    pub faults: Items<PrimFault>,
}

/// How many bytes a path leaves for what stands below it.
fn bytes_left(place: &Path) -> Result<usize, AllocError>
    ensures left { IfOk result (λ left. left ≡ bytes_left place.now) }
    ensures path { OnOk result (IsPath place.now) }
{
    let elements = place.elements();
    if elements.is_empty() {
        return Ok(MAX_BYTES);
    }
    let text = place.print()?;
    Ok(MAX_BYTES - text.len())
}

/// The room that a path leaves for the name of a child: none where no child fits, else one more than the bytes of the longest name.
fn room_below(place: &Path) -> Result<usize, AllocError>
    ensures room { IfOk result (λ room. room ≡ room_of place.now) }
    ensures path { OnOk result (IsPath place.now) }
{
    let left = bytes_left(place)?;
    if place.depth() >= MAX_NAMES {
        return Ok(0);
    }
    Ok(left)
}

/// Whether a name fits.
fn has_room(room: usize, name: &Text) -> bool
    ensures { result ≡ has_room room name.now }
{
    name.len() < room
}

/// The names that fit.
fn listed_in(alloc: Global, room: usize, names: &[Text]) -> Result<Items<Text>, AllocError>
    ensures { IfOk result (λ listed. listed ≡ listed_in room names.now) }
{
    let mut listed = Items::new(alloc);
    for name in names {
        if has_room(room, name) {
            listed.push(copy(name)?)?;
        }
    }
    Ok(listed)
}

/// A fault for each name that does not fit.
fn too_long_in(alloc: Global, room: usize, names: &[Text]) -> Result<Items<PrimFault>, AllocError>
    ensures { IfOk result (λ faults. faults ≡ too_long_in room names.now) }
{
    let mut faults = Items::new(alloc);
    for name in names {
        if !has_room(room, name) {
            faults.push(PrimFault::ChildTooLong(copy(name)?))?;
        }
    }
    Ok(faults)
}

/// The children of these names below a plain prim path or `/`.
pub fn children_below(alloc: Global, place: &Path, names: &[Text]) -> Result<Children, AllocError>
    requires { list_all is_prim_name place.now ≡ true }
    ensures names { IfOk result (λ children. children.names ≡ listed_children limits place.now names.now) }
    ensures faults { IfOk result (λ children. children.faults ≡ map child_too_long (unlisted_children limits place.now names.now)) }
{
    let room = room_below(place)?;
    Ok(Children {
        names: listed_in(alloc, room, names)?,
        faults: too_long_in(alloc, room, names)?,
    })
}
