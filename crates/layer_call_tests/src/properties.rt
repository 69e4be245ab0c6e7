//! Each call with ample memory.
use list_ops::ListOp;
use plain_data::{Text, copy, same};
use sdf_values::{TypeName, Value};
use spec_properties::{Meta, Properties, Property, Samples, Selections};
use std::alloc::Global;
use std::test::Fail;

fn bool_type() -> Result<TypeName, Fail> {
    match TypeName::find("bool", false) {
        Some(ty) => Ok(ty),
        None => Err(Fail::new("bool is a type")),
    }
}

/// An attribute of one truth value.
fn truth(alloc: Global, name: Text, ty: TypeName, custom: bool) -> Property {
    Property::Attr {
        name,
        ty,
        custom,
        uniform: false,
        default: Some(Value::Bool(true)),
        samples: Samples::new(alloc),
        connections: ListOp::new(alloc),
        meta: Meta::new(alloc),
    }
}

fn attribute(alloc: Global, name: &str, custom: bool) -> Result<Property, Fail> {
    let ty = bool_type()?;
    let name = Text::of(alloc, name)?;
    Ok(truth(alloc, name, ty, custom))
}

/// Whether an attribute is put where none of its name stood.
fn is_new(alloc: Global, properties: &mut Properties, name: &str) -> Result<bool, Fail> {
    let before = properties.insert(attribute(alloc, name, false)?)?;
    let is_new = before.is_none();
    drop(before);
    Ok(is_new)
}

fn are_new(alloc: Global, properties: &mut Properties) -> Result<bool, Fail> {
    Ok(
        properties.is_empty()
            && is_new(alloc, properties, "size")?
            && is_new(alloc, properties, "kind")?,
    )
}

fn names_are_new(alloc: Global) -> Result<bool, Fail> {
    let mut properties = Properties::new(alloc);
    let answer = are_new(alloc, &mut properties);
    drop(properties);
    answer
}

#[test]
fn new_names_are_put(rt: HostRuntime) -> Result<(), Fail> {
    assert!(rt; names_are_new(rt.alloc())?);
    Ok(())
}

/// The attributes `size` and `kind`.
fn two(alloc: Global) -> Result<Properties, Fail> {
    let mut properties = Properties::new(alloc);
    match are_new(alloc, &mut properties) {
        Ok(_are_new) => Ok(properties),
        Err(fail) => {
            drop(properties);
            Err(fail)
        }
    }
}

fn is_copied(properties: &Properties) -> Result<bool, Fail> {
    let again = copy(properties)?;
    let is_same = same(properties, &again);
    drop(again);
    Ok(is_same)
}

fn two_are_copied(alloc: Global) -> Result<bool, Fail> {
    let properties = two(alloc)?;
    let answer = is_copied(&properties);
    drop(properties);
    answer
}

#[test]
fn a_copy_is_its_original(rt: HostRuntime) -> Result<(), Fail> {
    assert!(rt; two_are_copied(rt.alloc())?);
    Ok(())
}

fn is_first(alloc: Global, was: &Option<Property>) -> Result<bool, Fail> {
    let first = Some(attribute(alloc, "size", false)?);
    let is_first = *was == first;
    drop(first);
    Ok(is_first)
}

/// Makes `size` a custom attribute, and answers whether it was none.
fn is_customized(alloc: Global, properties: &mut Properties) -> Result<bool, Fail> {
    let was = properties.insert(attribute(alloc, "size", true)?)?;
    let answer = is_first(alloc, &was);
    drop(was);
    answer
}

fn stands_once(
    alloc: Global,
    properties: &mut Properties,
    before: &Properties,
) -> Result<bool, Fail> {
    Ok(is_customized(alloc, properties)? && !same(properties, before))
}

fn of_two_stands_once(alloc: Global, properties: &mut Properties) -> Result<bool, Fail> {
    let before = copy(properties)?;
    let answer = stands_once(alloc, properties, &before);
    drop(before);
    answer
}

fn name_stands_once(alloc: Global) -> Result<bool, Fail> {
    let mut properties = two(alloc)?;
    let answer = of_two_stands_once(alloc, &mut properties);
    drop(properties);
    answer
}

#[test]
fn a_name_stands_once(rt: HostRuntime) -> Result<(), Fail> {
    assert!(rt; name_stands_once(rt.alloc())?);
    Ok(())
}

/// The attributes `size`, which is a custom one, and `kind`.
fn customized(alloc: Global) -> Result<Properties, Fail> {
    let mut properties = two(alloc)?;
    match is_customized(alloc, &mut properties) {
        Ok(_is_customized) => Ok(properties),
        Err(fail) => {
            drop(properties);
            Err(fail)
        }
    }
}

fn are_in_order(properties: &Properties, size: &Text, first: &Property) -> bool {
    properties.len() == 2
        && properties.as_slice().len() == 2
        && properties.at(0) == properties.get(size)
        && properties.at(2).is_none()
        && properties.iter().next() == Some(first)
}

fn keep_order(alloc: Global, properties: &Properties) -> Result<bool, Fail> {
    let size = Text::of(alloc, "size")?;
    let first = attribute(alloc, "size", true)?;
    let answer = are_in_order(properties, &size, &first);
    drop(first);
    Ok(answer)
}

fn customized_keep_order(alloc: Global) -> Result<bool, Fail> {
    let properties = customized(alloc)?;
    let answer = keep_order(alloc, &properties);
    drop(properties);
    answer
}

#[test]
fn properties_keep_their_order(rt: HostRuntime) -> Result<(), Fail> {
    assert!(rt; customized_keep_order(rt.alloc())?);
    Ok(())
}

fn has(alloc: Global, properties: &Properties, name: &str) -> Result<bool, Fail> {
    let name = Text::of(alloc, name)?;
    Ok(properties.has(&name))
}

fn are_found(alloc: Global, properties: &Properties) -> Result<bool, Fail> {
    Ok(has(alloc, properties, "kind")? && !has(alloc, properties, "other")?)
}

fn customized_are_found(alloc: Global) -> Result<bool, Fail> {
    let properties = customized(alloc)?;
    let answer = are_found(alloc, &properties);
    drop(properties);
    answer
}

#[test]
fn names_are_found(rt: HostRuntime) -> Result<(), Fail> {
    assert!(rt; customized_are_found(rt.alloc())?);
    Ok(())
}

/// Whether this is the attribute of a name.
fn is_attribute(
    alloc: Global,
    found: Option<&Property>,
    name: &str,
    custom: bool,
) -> Result<bool, Fail> {
    let wanted = attribute(alloc, name, custom)?;
    let answer = found == Some(&wanted);
    drop(wanted);
    Ok(answer)
}

fn is_removed(alloc: Global, properties: &mut Properties, size: &Text) -> Result<bool, Fail> {
    let removed = properties.remove(size);
    let answer = is_attribute(alloc, removed.as_ref(), "size", true);
    drop(removed);
    answer
}

fn is_gone(alloc: Global, properties: &mut Properties, size: &Text) -> Result<bool, Fail> {
    let removed = properties.remove(size);
    let is_none = removed.is_none();
    drop(removed);
    Ok(is_none && is_attribute(alloc, properties.at(0), "kind", false)?)
}

fn is_removed_once(alloc: Global, properties: &mut Properties) -> Result<bool, Fail> {
    let size = Text::of(alloc, "size")?;
    Ok(is_removed(alloc, properties, &size)? && is_gone(alloc, properties, &size)?)
}

fn size_is_removed_once(alloc: Global) -> Result<bool, Fail> {
    let mut properties = customized(alloc)?;
    let answer = is_removed_once(alloc, &mut properties);
    drop(properties);
    answer
}

#[test]
fn a_property_is_removed_once(rt: HostRuntime) -> Result<(), Fail> {
    assert!(rt; size_is_removed_once(rt.alloc())?);
    Ok(())
}

/// Whether a property of a name is taken out, this one stands in its place, and comes out where it is put back.
fn is_put_back(properties: &mut Properties, name: &Text, blank: &Property) -> Result<bool, Fail> {
    let Some(taken) = properties.take(name)? else {
        return Ok(false);
    };
    let stands_there = properties.at(0) == Some(blank);
    let stood = properties.replace(taken);
    let comes_out = match &stood {
        Ok(stood) => stood == blank,
        Err(_stranger) => false,
    };
    drop(stood);
    Ok(stands_there && comes_out)
}

/// Whether a blank relationship stands in the place of `size` while that is taken out.
fn size_is_put_back(alloc: Global, properties: &mut Properties) -> Result<bool, Fail> {
    let size = Text::of(alloc, "size")?;
    let blank = Property::blank_relationship(alloc, copy(&size)?);
    let is_named = blank.name() == &size;
    let answer = is_put_back(properties, &size, &blank);
    drop(blank);
    let comes_back = answer?;
    Ok(is_named && comes_back)
}

/// Whether nothing is taken of a name that no property has.
fn no_other_is_taken(alloc: Global, properties: &mut Properties) -> Result<bool, Fail> {
    let other = Text::of(alloc, "other")?;
    let taken = properties.take(&other)?;
    let is_none = taken.is_none();
    drop(taken);
    Ok(is_none)
}

/// Whether an attribute is given back that has the name of no property.
fn stranger_is_given_back(alloc: Global, properties: &mut Properties) -> Result<bool, Fail> {
    let answer = properties.replace(attribute(alloc, "other", false)?);
    let is_given_back = match &answer {
        Ok(_stood) => Ok(false),
        Err(stranger) => is_attribute(alloc, Some(stranger), "other", false),
    };
    drop(answer);
    is_given_back
}

fn stay_as_they_were(
    alloc: Global,
    properties: &mut Properties,
    before: &Properties,
) -> Result<bool, Fail> {
    Ok(
        size_is_put_back(alloc, properties)?
            && same(properties, before)
            && no_other_is_taken(alloc, properties)?
            && stranger_is_given_back(alloc, properties)?
            && same(properties, before),
    )
}

fn of_two_stay_as_they_were(alloc: Global, properties: &mut Properties) -> Result<bool, Fail> {
    let before = copy(properties)?;
    let answer = stay_as_they_were(alloc, properties, &before);
    drop(before);
    answer
}

fn two_stay_as_they_were(alloc: Global) -> Result<bool, Fail> {
    let mut properties = two(alloc)?;
    let answer = of_two_stay_as_they_were(alloc, &mut properties);
    drop(properties);
    answer
}

#[test]
fn a_property_is_taken_out_and_put_back_in_its_place(rt: HostRuntime) -> Result<(), Fail> {
    assert!(rt; two_stay_as_they_were(rt.alloc())?);
    Ok(())
}

#[test]
fn the_small_tables_begin_empty(rt: HostRuntime) -> Result<(), Fail> {
    assert!(rt; Meta::new(rt.alloc()).is_empty() && Samples::new(rt.alloc()).is_empty());
    Ok(())
}

/// Whether a selection that is made was none before, and is found.
fn is_selected(alloc: Global, selections: &mut Selections) -> Result<bool, Fail> {
    let size = Text::of(alloc, "size")?;
    let big = Text::of(alloc, "big")?;
    let before = selections.insert(copy(&size)?, copy(&big)?)?;
    Ok(before.is_none() && selections.get(&size) == Some(&big))
}

#[test]
fn a_selection_is_found(rt: HostRuntime) -> Result<(), Fail> {
    let mut selections = Selections::new(rt.alloc());
    let answer = is_selected(rt.alloc(), &mut selections);
    drop(selections);
    assert!(rt; answer?);
    Ok(())
}

/// Names of more properties than are found by going over them.
const MANY: [&str; 12] = ["a", "b", "c", "d", "e", "f", "g", "h", "i", "j", "k", "l"];

fn all_are_new(alloc: Global, properties: &mut Properties) -> Result<bool, Fail> {
    for name in &MANY {
        if !is_new(alloc, properties, name)? {
            return Ok(false);
        }
    }
    Ok(true)
}

fn all_are_found(alloc: Global, properties: &Properties) -> Result<bool, Fail> {
    for name in &MANY {
        if !has(alloc, properties, name)? {
            return Ok(false);
        }
    }
    Ok(true)
}

fn many_stand(alloc: Global, properties: &mut Properties) -> Result<bool, Fail> {
    Ok(
        all_are_new(alloc, properties)?
            && all_are_found(alloc, properties)?
            && is_copied(properties)?,
    )
}

/// Whether the first of many is removed, and those behind it are found in their places.
fn others_move(alloc: Global, properties: &mut Properties) -> Result<bool, Fail> {
    drop(properties.remove(&Text::of(alloc, "a")?));
    let is_gone = !has(alloc, properties, "a")? && has(alloc, properties, "l")?;
    Ok(is_gone && is_attribute(alloc, properties.at(10), "l", false)?)
}

fn keep_their_order(alloc: Global, properties: &mut Properties) -> Result<bool, Fail> {
    Ok(many_stand(alloc, properties)? && others_move(alloc, properties)?)
}

fn many_keep_order(alloc: Global) -> Result<bool, Fail> {
    let mut properties = Properties::new(alloc);
    let answer = keep_their_order(alloc, &mut properties);
    drop(properties);
    answer
}

#[test]
fn many_properties_keep_their_order(rt: HostRuntime) -> Result<(), Fail> {
    assert!(rt; many_keep_order(rt.alloc())?);
    Ok(())
}
