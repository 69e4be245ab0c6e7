//! Calls on the names of layers.

use crate::fault::CallFault;
use crate::printing::{is_copied, push_word};
use asset_names::{AssetFault, AssetId};
use std::alloc::Global;
use std::fmt::Write;

/// Appends a name, or where it is refused.
fn push_named(out: &mut String, named: Result<AssetId, AssetFault>) -> Result<(), CallFault> {
    match named {
        Ok(name) => Ok(push_word(out, name.text())?),
        Err(AssetFault::BadAsset { at }) => Ok(writeln!(out, "bad at {at}")?),
        Err(AssetFault::NoMemory) => Err(CallFault::NoMemory),
    }
}

/// The name that a word is.
fn name_of(alloc: Global, word: &str) -> Result<AssetId, CallFault> {
    match AssetId::of_word(alloc, word) {
        Ok(name) => Ok(name),
        Err(AssetFault::BadAsset { at: _ }) => Err(CallFault::Bad),
        Err(AssetFault::NoMemory) => Err(CallFault::NoMemory),
    }
}

/// `name`: the name that the text is, or where it is refused.
pub(crate) fn push_name_call(alloc: Global, out: &mut String, text: &str) -> Result<(), CallFault> {
    push_named(out, AssetId::of_word(alloc, text))
}

/// `anchored LAYER`: the name that the text is in a layer of this name, or where it is refused.
pub(crate) fn push_anchored_call(
    alloc: Global,
    out: &mut String,
    words: &str,
    text: &str,
) -> Result<(), CallFault> {
    let layer = name_of(alloc, words)?;
    push_named(out, AssetId::anchor(alloc, &layer, text))
}

/// `kind`: whether the name that the text is is that of a plain layer, of a crate or of a package.
pub(crate) fn push_kind_call(alloc: Global, out: &mut String, text: &str) -> Result<(), CallFault> {
    let kind = name_of(alloc, text)?.name_kind();
    Ok(writeln!(out, "{kind:?}")?)
}

fn sameness(is_same: bool) -> &'static str {
    if is_same {
        "the same name"
    } else {
        "another name"
    }
}

/// Appends how a name stands to another one, and whether its copy is the name.
fn push_compared(out: &mut String, name: &AssetId, other: &AssetId) -> Result<(), CallFault> {
    let order = name.cmp(other);
    let one = sameness(name == other);
    let two = sameness(is_copied(name)?);
    Ok(writeln!(out, "{order:?}, {one}; its copy is {two}")?)
}

/// The same of a word for the other name.
fn push_compared_with(
    alloc: Global,
    out: &mut String,
    name: &AssetId,
    other: &str,
) -> Result<(), CallFault> {
    let other = name_of(alloc, other)?;
    let told = push_compared(out, name, &other);
    drop(other);
    told
}

/// `compared NAME`: how the name that the text is stands to another one, and whether its copy is the name.
pub(crate) fn push_compared_call(
    alloc: Global,
    out: &mut String,
    words: &str,
    text: &str,
) -> Result<(), CallFault> {
    let name = name_of(alloc, text)?;
    let told = push_compared_with(alloc, out, &name, words);
    drop(name);
    told
}
