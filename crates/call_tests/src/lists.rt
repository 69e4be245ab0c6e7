//! Each call with ample memory.
use plain_data::{Items, Text, copy, same};
use std::alloc::Global;
use std::test::Fail;

/// The list of 3 and 5.
fn two_items(alloc: Global) -> Result<Items<u64>, Fail> {
    let mut list = Items::new(alloc);
    list.push(3)?;
    list.push(5)?;
    Ok(list)
}

fn has_two_items(list: &Items<u64>) -> bool {
    list.len() == 2
        && list.as_slice() == [3, 5].as_slice()
        && list.get(1) == Some(&5)
        && list.get(2).is_none()
        && list.iter().count() == 2
}

#[test]
fn a_list_keeps_its_items_in_order(rt: HostRuntime) -> Result<(), Fail> {
    let list = two_items(rt.alloc())?;
    let has_them = has_two_items(&list);
    drop(list);
    let none: Items<u64> = Items::new(rt.alloc());
    let is_empty = none.is_empty();
    drop(none);
    assert!(rt; has_them && is_empty);
    Ok(())
}

/// Whether both copies of a list have its items.
fn are_its_copies(list: &Items<u64>) -> Result<bool, Fail> {
    let again = list.copy()?;
    let is_same = list.same(&again);
    drop(again);
    let copied = copy(list)?;
    let is_copied = same(list, &copied);
    drop(copied);
    Ok(is_same && is_copied)
}

/// Whether a list with room for the items of another has them.
fn has_room_alone(list: &Items<u64>) -> Result<bool, Fail> {
    let roomy: Items<u64> = Items::with_room_of(list)?;
    let is_same = list.same(&roomy);
    drop(roomy);
    Ok(!is_same)
}

fn its_items_are_copied(list: &Items<u64>) -> Result<bool, Fail> {
    Ok(are_its_copies(list)? && has_room_alone(list)?)
}

#[test]
fn a_copy_of_a_list_has_its_items(rt: HostRuntime) -> Result<(), Fail> {
    let list = two_items(rt.alloc())?;
    let are_copied = its_items_are_copied(&list);
    drop(list);
    assert!(rt; are_copied?);
    Ok(())
}

/// Whether a list of two items gives them back.
fn gives_two_back(list: &mut Items<u64>) -> bool {
    list.pop() == Some(5)
        && list.as_slice() == [3].as_slice()
        && list.pop() == Some(3)
        && list.pop().is_none()
}

/// Whether a copy of a list of two items gives them back.
fn a_copy_gives_two_back(list: &Items<u64>) -> Result<bool, Fail> {
    let mut shorter = list.copy()?;
    let given = gives_two_back(&mut shorter);
    drop(shorter);
    Ok(given)
}

#[test]
fn a_list_gives_its_items_back_from_the_end(rt: HostRuntime) -> Result<(), Fail> {
    let list = two_items(rt.alloc())?;
    let given = a_copy_gives_two_back(&list);
    let items = list.into_vec();
    let keeps_two = items.len() == 2;
    drop(items);
    assert!(rt; given? && keeps_two);
    Ok(())
}

fn push_scene(text: &mut Text) -> Result<(), Fail> {
    text.push_str("sce")?;
    text.push('n')?;
    text.push('e')?;
    Ok(())
}

fn is_scene(text: &Text) -> bool {
    text.as_str() == "scene" && text.as_bytes() == b"scene".as_slice() && text.len() == 5
}

#[test]
fn a_text_keeps_its_bytes(rt: HostRuntime) -> Result<(), Fail> {
    let mut text = Text::new(rt.alloc());
    let begins_empty = text.is_empty();
    let pushed = push_scene(&mut text);
    let ends_as_scene = is_scene(&text);
    drop(text);
    pushed?;
    assert!(rt; begins_empty && ends_as_scene);
    Ok(())
}

/// Whether a copy of a text, and one that was a string, have its bytes.
fn are_copies_of(alloc: Global, text: &Text) -> Result<bool, Fail> {
    let copied = copy(text)?;
    let is_copied = same(text, &copied);
    drop(copied);
    let again = Text::from_string(Text::of(alloc, "scene")?.into_string());
    let is_same = same(text, &again);
    drop(again);
    Ok(is_copied && is_same)
}

#[test]
fn a_copy_of_a_text_has_its_bytes(rt: HostRuntime) -> Result<(), Fail> {
    let text = Text::of(rt.alloc(), "scene")?;
    let are_copies = are_copies_of(rt.alloc(), &text);
    drop(text);
    assert!(rt; are_copies?);
    Ok(())
}
