//! Calls on paths as they are written in a layer, list edits, offsets, references and sublayers.

use crate::fault::CallFault;
use crate::printing::{push_path_or_none, push_word};
use crate::words::{first_word, path_of};
use list_ops::ListOp;
use plain_data::{Items, Text};
use sdf_paths::Path;
use sdf_values::LayerOffset;
use spec_parts::{RefItem, SubLayer};
use std::alloc::{AllocError, Global};
use std::fmt::Write;
use usda_lists::{
    GivenLists, ListEdit, absolute_from, asset_item, close_items, close_paths, close_texts,
    offset_key, open_list, path_from, path_item, push_item, push_sublayer, set_last_offset,
    set_last_path, set_offset, set_sublayer_offset, target_from,
};
use usda_values::PartFault;

/// The path that a text means from a prim, as a path or as that of a target.
fn path_meant(
    alloc: Global,
    word: &str,
    base: &Path,
    text: &str,
) -> Result<Option<Path>, CallFault> {
    match word {
        "target" => Ok(target_from(alloc, base, text)?),
        _ => Ok(path_from(alloc, base, text)?),
    }
}

/// Appends a path, or `none`; or whether there is one.
fn push_meant(out: &mut String, word: &str, path: &Option<Path>) -> Result<(), CallFault> {
    if word == "is_path" {
        return Ok(push_word(out, if path.is_some() { "yes" } else { "no" })?);
    }
    push_path_or_none(out, path)?;
    Ok(push_word(out, "")?)
}

/// `from BASE`, `is_path BASE` and `target BASE`: the path that the text means from a prim, or `none`; whether there is one; the path of a target.
pub(crate) fn push_from_call(
    alloc: Global,
    out: &mut String,
    word: &str,
    words: &str,
    text: &str,
) -> Result<(), CallFault> {
    let base = path_of(alloc, words)?;
    let path = path_meant(alloc, word, &base, text);
    drop(base);
    let path = path?;
    let told = push_meant(out, word, &path);
    drop(path);
    told
}

/// `token BASE`: the token of the path that the text means from a prim, or `none`.
pub(crate) fn push_token_call(
    alloc: Global,
    out: &mut String,
    words: &str,
    text: &str,
) -> Result<(), CallFault> {
    let base = path_of(alloc, words)?;
    let token = absolute_from(alloc, &base, text);
    drop(base);
    match token? {
        Some(token) => Ok(push_word(out, token.as_str())?),
        None => Ok(push_word(out, "none")?),
    }
}

/// Appends why something is refused, if it is.
fn push_refused(out: &mut String, done: Result<(), PartFault>) -> Result<(), CallFault> {
    match done {
        Ok(()) => Ok(()),
        Err(PartFault::Refused(kind)) => Ok(writeln!(out, "{kind:?}")?),
        Err(PartFault::NoMemory) => Err(CallFault::NoMemory),
    }
}

/// `edit WORD`: the edit that a word is.
pub(crate) fn push_edit_call(out: &mut String, word: &str) -> Result<(), CallFault> {
    let edit = ListEdit::of_word(word);
    Ok(writeln!(out, "{edit:?}")?)
}

/// `edits WORD ..`: why the last of those lists is refused that are, of lists of a field that the words give one after the other; or `taken`.
pub(crate) fn push_edits_call(out: &mut String, words: &str) -> Result<(), CallFault> {
    let mut given = GivenLists::none();
    let mut refused = None;
    for word in words.split(' ') {
        if let Err(fault) = given.give(ListEdit::of_word(word)) {
            refused = Some(fault);
        }
    }
    match refused {
        Some(fault) => push_refused(out, Err(fault)),
        None => Ok(push_word(out, "taken")?),
    }
}

/// An offset of 7 and a scale of 3, of which one is set.
fn set(key: &str, number: &str) -> Result<LayerOffset, PartFault> {
    let key = offset_key(key)?;
    let moved = set_offset(offset_key("offset")?, "7", LayerOffset::identity())?;
    let given = set_offset(offset_key("scale")?, "3", moved)?;
    set_offset(key, number, given)
}

/// `offset KEY NUMBER`: what a key and a number make of an offset of 7 and a scale of 3, or why they are refused.
pub(crate) fn push_offset_call(out: &mut String, words: &str) -> Result<(), CallFault> {
    let (key, number) = first_word(words);
    match set(key, number) {
        Ok(offset) => Ok(writeln!(out, "{} {}", offset.offset, offset.scale)?),
        Err(fault) => push_refused(out, Err(fault)),
    }
}

/// Takes a line of a list of references: an item by its token, or what its word says of the last item.
fn take_item(
    alloc: Global,
    op: &mut ListOp<RefItem>,
    base: &Path,
    line: &str,
) -> Result<(), PartFault> {
    let (word, token) = first_word(line);
    match word {
        "asset" => Ok(push_item(op, ListEdit::Add, asset_item(alloc, token)?)?),
        "path" => {
            let item = path_item(alloc, base, token)?;
            Ok(push_item(op, ListEdit::Add, item)?)
        }
        "behind" => set_last_path(alloc, op, ListEdit::Add, base, token),
        _ => set_last_offset(op, ListEdit::Add, offset_key(word)?, token),
    }
}

/// Appends an item: its asset, its path, and whether it has an offset.
fn push_ref(out: &mut String, item: &RefItem) -> Result<(), AllocError> {
    match &item.asset {
        Some(asset) => out.push_str(asset.as_str())?,
        None => out.push_str("-")?,
    }
    out.push_str(" ")?;
    match &item.path {
        Some(path) => out.push_str(path.print()?.as_str())?,
        None => out.push_str("-")?,
    }
    let is_mapped = item.offset != LayerOffset::identity();
    push_word(out, if is_mapped { " mapped" } else { "" })
}

/// Takes the lines of a list of references, and appends its items, each once, behind why lines are refused.
fn push_items(
    alloc: Global,
    out: &mut String,
    op: &mut ListOp<RefItem>,
    base: &Path,
    text: &str,
) -> Result<(), CallFault> {
    for line in text.lines() {
        let taken = take_item(alloc, op, base, line);
        push_refused(out, taken)?;
    }
    close_items(alloc, op, ListEdit::Add)?;
    for item in op.added.as_slice() {
        push_ref(out, item)?;
    }
    Ok(())
}

/// `references BASE`: the items of a list that is read line by line, each once, behind why lines are refused.
pub(crate) fn push_references_call(
    alloc: Global,
    out: &mut String,
    words: &str,
    text: &str,
) -> Result<(), CallFault> {
    let base = path_of(alloc, words)?;
    let mut op = ListOp::new(alloc);
    open_list(&mut op, ListEdit::Add);
    push_items(alloc, out, &mut op, &base, text)
}

/// Takes lines as an explicit list.
fn take_texts(alloc: Global, op: &mut ListOp<Text>, text: &str) -> Result<(), CallFault> {
    for line in text.lines() {
        push_item(op, ListEdit::Explicit, Text::of(alloc, line)?)?;
    }
    Ok(close_texts(alloc, op, ListEdit::Explicit)?)
}

/// Appends the texts of an explicit list.
fn push_kept(out: &mut String, op: &ListOp<Text>) -> Result<(), CallFault> {
    let Some(kept) = &op.explicit else {
        return Ok(push_word(out, "no list")?);
    };
    for text in kept.as_slice() {
        push_word(out, text.as_str())?;
    }
    Ok(())
}

/// `texts`: the lines, each once.
pub(crate) fn push_texts_call(
    alloc: Global,
    out: &mut String,
    text: &str,
) -> Result<(), CallFault> {
    let mut op = ListOp::new(alloc);
    take_texts(alloc, &mut op, text)?;
    push_kept(out, &op)
}

/// Takes lines as a list of paths.
fn take_paths(alloc: Global, op: &mut ListOp<Path>, text: &str) -> Result<(), CallFault> {
    for line in text.lines() {
        push_item(op, ListEdit::Add, path_of(alloc, line)?)?;
    }
    Ok(close_paths(alloc, op, ListEdit::Add)?)
}

/// Appends paths, a line each.
fn push_added(out: &mut String, paths: &[Path]) -> Result<(), CallFault> {
    for path in paths {
        push_word(out, path.print()?.as_str())?;
    }
    Ok(())
}

/// `paths`: the paths, a line each, each once.
pub(crate) fn push_paths_call(
    alloc: Global,
    out: &mut String,
    text: &str,
) -> Result<(), CallFault> {
    let mut op = ListOp::new(alloc);
    take_paths(alloc, &mut op, text)?;
    push_added(out, op.added.as_slice())
}

/// Takes a line of a list of sublayers: one by its token, or an offset or a scale of the last one.
fn take_sublayer(
    alloc: Global,
    sublayers: &mut Items<SubLayer>,
    line: &str,
) -> Result<(), PartFault> {
    let (word, token) = first_word(line);
    if word == "asset" {
        return Ok(push_sublayer(alloc, sublayers, token)?);
    }
    set_sublayer_offset(sublayers, offset_key(word)?, token)
}

/// `sublayers`: sublayers that are read line by line, each with its scale; or why the first line that is refused is.
pub(crate) fn push_sublayers_call(
    alloc: Global,
    out: &mut String,
    text: &str,
) -> Result<(), CallFault> {
    let mut sublayers = Items::new(alloc);
    for line in text.lines() {
        if let Err(fault) = take_sublayer(alloc, &mut sublayers, line) {
            return push_refused(out, Err(fault));
        }
    }
    for sublayer in sublayers.as_slice() {
        let asset = sublayer.asset.as_str();
        writeln!(out, "{asset} {}", sublayer.offset.scale)?;
    }
    Ok(())
}
