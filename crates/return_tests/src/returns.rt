//! Layers that are written and read again, with ample memory.
use plain_data::{Items, Text, same};
use proper_layers::read_back;
use sdf_paths::{Path, PathFault};
use sdf_specs::{Head, Layer, PutRefused, Spec, Specifier};
use sdf_values::RefusalKind;
use std::alloc::Global;
use std::test::Fail;
use usda_reader::LayerFault;

fn path(alloc: Global, text: &str) -> Result<Path, Fail> {
    match Path::parse(alloc, text) {
        Ok(path) => Ok(path),
        Err(PathFault::Bad { .. }) => Err(Fail::from("no path")),
        Err(PathFault::NoMemory) => Err(Fail::from("no memory")),
    }
}

/// Puts a class at a path.
fn put_class(alloc: Global, layer: &mut Layer, place: &Path) -> Result<(), Fail> {
    if place.is_property() || place.is_root() {
        return Err(Fail::from("no prim"));
    }
    match layer.put(place, Spec::blank(alloc, Specifier::Class)) {
        Ok(()) => Ok(()),
        Err(PutRefused::NoParent) => Err(Fail::from("no parent")),
        Err(PutRefused::NoMemory) => Err(Fail::from("no memory")),
    }
}

/// Puts a class at `/A`.
fn put_one(alloc: Global, layer: &mut Layer) -> Result<(), Fail> {
    let place = path(alloc, "/A")?;
    put_class(alloc, layer, &place)
}

/// A layer of the class `/A`.
fn one_class(alloc: Global) -> Result<Layer, Fail> {
    let mut layer = Layer::new(alloc);
    match put_one(alloc, &mut layer) {
        Ok(()) => Ok(layer),
        Err(fault) => {
            drop(layer);
            Err(fault)
        }
    }
}

fn push_names(alloc: Global, names: &mut Items<Text>, times: u32) -> Result<(), Fail> {
    for _time in 0..times {
        names.push(Text::of(alloc, "A")?)?;
    }
    Ok(())
}

/// A head that names the prim `/A` so often.
fn head_naming(alloc: Global, times: u32) -> Result<Head, Fail> {
    let name = Text::of(alloc, "A")?;
    let mut head = Head::blank(alloc);
    head.default_prim = Some(name);
    match push_names(alloc, &mut head.root_names, times) {
        Ok(()) => Ok(head),
        Err(fault) => {
            drop(head);
            Err(fault)
        }
    }
}

/// A layer of the class `/A`, which its head names so often.
fn naming(alloc: Global, times: u32) -> Result<Layer, Fail> {
    let mut layer = one_class(alloc)?;
    match head_naming(alloc, times) {
        Ok(head) => {
            layer.set_head(head);
            Ok(layer)
        }
        Err(fault) => {
            drop(layer);
            Err(fault)
        }
    }
}

fn comes_back(alloc: Global, layer: &Layer) -> bool {
    match read_back(alloc, layer) {
        Ok(read) => {
            let is_same = same(&read, layer);
            drop(read);
            is_same
        }
        Err(_) => false,
    }
}

fn named_layer_comes_back(alloc: Global) -> Result<bool, Fail> {
    let layer = naming(alloc, 1)?;
    let answer = comes_back(alloc, &layer);
    drop(layer);
    Ok(answer)
}

#[test]
fn a_proper_layer_comes_back(rt: HostRuntime) -> Result<(), Fail> {
    assert!(rt; named_layer_comes_back(rt.alloc())?);
    Ok(())
}

fn comes_back_empty(alloc: Global, layer: &Layer) -> bool {
    match read_back(alloc, layer) {
        Ok(read) => {
            let is_empty = read.is_empty();
            drop(read);
            is_empty
        }
        Err(_) => false,
    }
}

fn unnamed_prim_is_left_out(alloc: Global) -> Result<bool, Fail> {
    let layer = naming(alloc, 0)?;
    let answer = comes_back_empty(alloc, &layer);
    drop(layer);
    Ok(answer)
}

#[test]
fn a_prim_that_is_not_named_is_left_out(rt: HostRuntime) -> Result<(), Fail> {
    assert!(rt; unnamed_prim_is_left_out(rt.alloc())?);
    Ok(())
}

fn is_refused(alloc: Global, layer: &Layer) -> bool {
    match read_back(alloc, layer) {
        Err(LayerFault::Refused(refusal)) => refusal.kind == RefusalKind::DuplicateSpec,
        other => {
            drop(other);
            false
        }
    }
}

fn twice_named_prim_is_refused(alloc: Global) -> Result<bool, Fail> {
    let layer = naming(alloc, 2)?;
    let answer = is_refused(alloc, &layer);
    drop(layer);
    Ok(answer)
}

#[test]
fn a_prim_that_is_named_twice_is_refused(rt: HostRuntime) -> Result<(), Fail> {
    assert!(rt; twice_named_prim_is_refused(rt.alloc())?);
    Ok(())
}
