//! Each call with ample memory. What is made stands in a function of its own and is looked at by reference in another one, so that
//! each way out of the first lets go of it once.
use plain_data::{Text, copy, same};
use sdf_paths::{Path, PathFault};
use sdf_specs::{Head, Layer, PutRefused, Spec, Specifier};
use shared_tables::SharedTable;
use std::alloc::Global;
use std::mem;
use std::test::Fail;

fn path(alloc: Global, text: &str) -> Result<Path, Fail> {
    match Path::parse(alloc, text) {
        Ok(path) => Ok(path),
        Err(PathFault::Bad { .. }) => Err(Fail::from("no path")),
        Err(PathFault::NoMemory) => Err(Fail::from("no memory")),
    }
}

/// Puts a class at a path, and answers whether it was put; the only other answer is that its owner is missing.
fn put(layer: &mut Layer, path: &Path, alloc: Global) -> Result<bool, Fail> {
    if path.is_property() || path.is_root() {
        return Err(Fail::from("no prim"));
    }
    match layer.put(path, Spec::blank(alloc, Specifier::Class)) {
        Ok(()) => Ok(true),
        Err(PutRefused::NoParent) => Ok(false),
        Err(PutRefused::NoMemory) => Err(Fail::from("no memory")),
    }
}

fn is_blank(layer: &Layer, head: &Head) -> bool {
    layer.is_empty() && layer.len() == 0 && same(layer.head(), head)
}

#[test]
fn a_new_layer_has_no_spec(rt: HostRuntime) -> Result<(), Fail> {
    let layer = Layer::new(rt.alloc());
    let head = Head::blank(rt.alloc());
    let is_new = is_blank(&layer, &head);
    drop(layer);
    drop(head);
    assert!(rt; is_new);
    Ok(())
}

/// Whether a class that is put is found.
fn is_found(alloc: Global, layer: &mut Layer, place: &Path) -> Result<bool, Fail> {
    let is_put = put(layer, place, alloc)?;
    match layer.get(place) {
        Some(spec) => Ok(is_put && layer.has(place) && spec.body.specifier == Specifier::Class),
        None => Ok(false),
    }
}

fn is_found_in_a_new_layer(alloc: Global, text: &str) -> Result<bool, Fail> {
    let place = path(alloc, text)?;
    let mut layer = Layer::new(alloc);
    let answer = is_found(alloc, &mut layer, &place);
    drop(layer);
    drop(place);
    answer
}

#[test]
fn a_spec_that_is_put_is_found(rt: HostRuntime) -> Result<(), Fail> {
    assert!(rt; is_found_in_a_new_layer(rt.alloc(), "/A")?);
    Ok(())
}

/// Whether nothing is put at a path.
fn is_left_empty(alloc: Global, layer: &mut Layer, place: &Path) -> Result<bool, Fail> {
    Ok(!put(layer, place, alloc)? && layer.is_empty())
}

fn has_no_owner_in_a_new_layer(alloc: Global, text: &str) -> Result<bool, Fail> {
    let place = path(alloc, text)?;
    let mut layer = Layer::new(alloc);
    let answer = is_left_empty(alloc, &mut layer, &place);
    drop(layer);
    drop(place);
    answer
}

#[test]
fn an_owner_has_to_be_there(rt: HostRuntime) -> Result<(), Fail> {
    assert!(rt; has_no_owner_in_a_new_layer(rt.alloc(), "/A/B")?);
    Ok(())
}

fn put_at(alloc: Global, layer: &mut Layer, text: &str) -> Result<(), Fail> {
    let place = path(alloc, text)?;
    let is_put = put(layer, &place, alloc);
    drop(place);
    if is_put? {
        Ok(())
    } else {
        Err(Fail::from("no owner"))
    }
}

/// A layer of `/A`, `/A/B` and `/AB`.
fn three(alloc: Global) -> Result<Layer, Fail> {
    let mut layer = Layer::new(alloc);
    match put_three(alloc, &mut layer) {
        Ok(()) => Ok(layer),
        Err(fail) => {
            drop(layer);
            Err(fail)
        }
    }
}

fn put_three(alloc: Global, layer: &mut Layer) -> Result<(), Fail> {
    put_at(alloc, layer, "/AB")?;
    put_at(alloc, layer, "/A")?;
    put_at(alloc, layer, "/A/B")
}

/// Whether the tree at `place` is removed, once, and the spec at `other` is left.
fn is_removed(layer: &mut Layer, place: &Path, other: &Path) -> Result<bool, Fail> {
    Ok(
        layer.remove_tree(place)?
            && layer.len() == 1
            && layer.has(other)
            && !layer.remove_tree(place)?,
    )
}

fn is_removed_beside(alloc: Global, layer: &mut Layer, place: &Path) -> Result<bool, Fail> {
    let other = path(alloc, "/AB")?;
    let answer = is_removed(layer, place, &other);
    drop(other);
    answer
}

fn is_removed_of(alloc: Global, layer: &mut Layer) -> Result<bool, Fail> {
    let place = path(alloc, "/A")?;
    let answer = is_removed_beside(alloc, layer, &place);
    drop(place);
    answer
}

fn is_removed_of_three(alloc: Global) -> Result<bool, Fail> {
    let mut layer = three(alloc)?;
    let answer = is_removed_of(alloc, &mut layer);
    drop(layer);
    answer
}

#[test]
fn a_tree_is_removed(rt: HostRuntime) -> Result<(), Fail> {
    assert!(rt; is_removed_of_three(rt.alloc())?);
    Ok(())
}

/// A head that names a default prim.
fn naming(alloc: Global) -> Result<Head, Fail> {
    let name = Text::of(alloc, "A")?;
    let mut head = Head::blank(alloc);
    drop(mem::replace(&mut head.default_prim, Some(name)));
    Ok(head)
}

fn is_set(layer: &mut Layer, head: &Head) -> Result<bool, Fail> {
    layer.set_head(copy(head)?);
    Ok(same(layer.head(), head))
}

fn is_replaced(layer: &mut Layer, head: &Head, blank: Head) -> bool {
    let before = layer.replace_head(blank);
    let is_same = same(&before, head);
    drop(before);
    is_same && layer.head().default_prim.is_none()
}

fn is_set_and_replaced(alloc: Global, layer: &mut Layer, head: &Head) -> Result<bool, Fail> {
    Ok(is_set(layer, head)? && is_replaced(layer, head, Head::blank(alloc)))
}

fn head_changes(alloc: Global) -> Result<bool, Fail> {
    let head = naming(alloc)?;
    let mut layer = Layer::new(alloc);
    let answer = is_set_and_replaced(alloc, &mut layer, &head);
    drop(layer);
    drop(head);
    answer
}

#[test]
fn the_head_changes_alone(rt: HostRuntime) -> Result<(), Fail> {
    assert!(rt; head_changes(rt.alloc())?);
    Ok(())
}

fn is_copied(layer: &Layer, new: &Layer) -> Result<bool, Fail> {
    let again = copy(layer)?;
    let is_same = same(layer, &again);
    drop(again);
    Ok(is_same && !same(layer, new))
}

fn layer_is_copied(alloc: Global) -> Result<bool, Fail> {
    let head = naming(alloc)?;
    let layer = Layer::from_parts(alloc, head, SharedTable::new(alloc));
    let new = Layer::new(alloc);
    let answer = is_copied(&layer, &new);
    drop(layer);
    drop(new);
    answer
}

#[test]
fn a_copy_is_its_original(rt: HostRuntime) -> Result<(), Fail> {
    assert!(rt; layer_is_copied(rt.alloc())?);
    Ok(())
}
