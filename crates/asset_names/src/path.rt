//! Segments of names, one after another.
ghost use Rattle.std.specs.Prelude.{◌≡◌, ◌++◌, ℕ, reverse, IfOk, OnOk, MatchOption, [], List};
ghost use Rattle.asset_names.specs.Anchoring.{is_absolute, walk, step, step_up, segments, normal_name, anchored_name, all_but_first, name_of, joined, IsBad, IsClean};

use plain_data::Text;
use std::alloc::{AllocError, Global};

/// The first character below space, or 0 where the text is empty.
pub fn first_fault(text: &str) -> Option<usize>
    ensures { MatchOption result (IsClean text.now) (λ at. (name : List ℕ) → IsBad text.now name at) }
{
    let bytes = text.as_bytes();
    if bytes.is_empty() {
        return Some(0);
    }
    for at in 0..bytes.len() {
        if bytes[at] < b' ' {
            return Some(at);
        }
    }
    None
}

fn is_absolute(text: &[u8]) -> bool
    ensures { result ≡ is_absolute text.now }
{
    match text {
        [] => false,
        [first, ..] => *first == b'/',
    }
}

/// The name that a text gives by itself.
pub fn normal_name(alloc: Global, word: &str) -> Result<Text, AllocError>
    ensures { IfOk result (λ name. name ≡ normal_name word.now) }
{
    let absolute = is_absolute(word.as_bytes());
    let folders = walk(absolute, Vec::new(alloc), alloc, word)?;
    name_of(alloc, absolute, folders.as_slice())
}

/// The name that an asset has in a layer.
pub fn anchored_name(alloc: Global, layer: &str, asset: &str) -> Result<Text, AllocError>
    ensures { IfOk result (λ name. name ≡ anchored_name layer.now asset.now) }
{
    if is_absolute(asset.as_bytes()) {
        return normal_name(alloc, asset);
    }
    let absolute = is_absolute(layer.as_bytes());
    let inside = folder(alloc, absolute, layer)?;
    let folders = walk(absolute, inside, alloc, asset)?;
    name_of(alloc, absolute, folders.as_slice())
}

/// The segments of a layer but the last.
fn folder(alloc: Global, absolute: bool, layer: &str) -> Result<Vec<Text>, AllocError>
    ensures { IfOk result (λ v. reverse v.items ≡ all_but_first (walk absolute [] (segments layer.now))) }
{
    let mut folders = walk(absolute, Vec::new(alloc), alloc, layer)?;
    drop(folders.pop());
    Ok(folders)
}

/// Goes from some folders along the segments of a text. The innermost folder is the last one.
fn walk(
    absolute: bool,
    folders: Vec<Text>,
    alloc: Global,
    text: &str,
) -> Result<Vec<Text>, AllocError>
    ensures { IfOk result (λ v. reverse v.items ≡ walk absolute (reverse folders.items) (segments text.now)) }
{
    let mut folders = folders;
    let bytes = text.as_bytes();
    let mut start = 0;
    for i in 0..bytes.len() {
        if bytes[i] == b'/' {
            step(&mut folders, alloc, absolute, &text[start..i])?;
            start = i + 1;
        }
    }
    step(&mut folders, alloc, absolute, &text[start..])?;
    Ok(folders)
}

fn step(
    folders: &mut Vec<Text>,
    alloc: Global,
    absolute: bool,
    segment: &str,
) -> Result<(), AllocError>
    ensures { OnOk result (reverse folders.new.items ≡ step absolute (reverse folders.old.items) segment.now) }
{
    if segment == "" || segment == "." {
        return Ok(());
    }
    if segment == ".." {
        return step_up(folders, alloc, absolute);
    }
    folders.push(Text::of(alloc, segment)?)?;
    Ok(())
}

fn step_up(folders: &mut Vec<Text>, alloc: Global, absolute: bool) -> Result<(), AllocError>
    ensures { OnOk result (reverse folders.new.items ≡ step_up absolute (reverse folders.old.items)) }
{
    match folders.pop() {
        None => {
            if !absolute {
                folders.push(Text::of(alloc, "..")?)?;
            }
        }
        Some(folder) => {
            if folder.as_str() == ".." {
                folders.push(folder)?;
                folders.push(Text::of(alloc, "..")?)?;
            }
        }
    }
    Ok(())
}

/// The name of some folders, of which the last is the innermost.
fn name_of(alloc: Global, absolute: bool, folders: &[Text]) -> Result<Text, AllocError>
    ensures { IfOk result (λ name. name ≡ name_of absolute (reverse folders.now)) }
{
    let mut name = Text::new(alloc);
    if absolute {
        name.push_str("/")?;
    }
    push_joined(&mut name, folders)?;
    Ok(name)
}

fn push_joined(name: &mut Text, segments: &[Text]) -> Result<(), AllocError>
    ensures { OnOk result (name.new ≡ name.old ++ joined segments.now) }
{
    let mut is_first = true;
    for segment in segments {
        if !is_first {
            name.push_str("/")?;
        }
        is_first = false;
        name.push_str(segment.as_str())?;
    }
    Ok(())
}
