//! Calls on paths.

use crate::fault::CallFault;
use crate::printing::{is_copied, push_path_or_none, push_word};
use crate::words::path_of;
use sdf_paths::{Path, PathFault};
use std::alloc::{AllocError, Global};
use std::fmt::Write;
use std::mem;

/// Appends a path, or where it is refused.
fn push_made(out: &mut String, made: Result<Path, PathFault>) -> Result<(), CallFault> {
    match made {
        Ok(path) => Ok(push_word(out, path.print()?.as_str())?),
        Err(PathFault::Bad { at }) => Ok(writeln!(out, "bad at {at}")?),
        Err(PathFault::NoMemory) => Err(CallFault::NoMemory),
    }
}

/// `path`: the path that the text is, or where it is refused.
pub(crate) fn push_path_call(alloc: Global, out: &mut String, text: &str) -> Result<(), CallFault> {
    push_made(out, Path::parse(alloc, text))
}

/// Appends the path above a path, or `none`.
fn push_parent(out: &mut String, path: &Path) -> Result<(), CallFault> {
    let parent = path.parent()?;
    let told = push_path_or_none(out, &parent);
    drop(parent);
    Ok(told?)
}

/// Appends a path that was made, behind a blank.
fn push_behind(out: &mut String, made: Path) -> Result<(), CallFault> {
    let text = made.print();
    drop(made);
    Ok(write!(out, " {}", text?)?)
}

/// Appends what stands above a path, its plain form, its owner and its last name.
fn push_looks(out: &mut String, path: &Path) -> Result<(), CallFault> {
    push_parent(out, path)?;
    push_behind(out, path.plain()?)?;
    push_behind(out, path.owner()?)?;
    let last = path.last().unwrap_or("none");
    Ok(writeln!(out, " {last}")?)
}

/// `looks`: what stands above the path, its plain form, its owner and its last name.
pub(crate) fn push_looks_call(
    alloc: Global,
    out: &mut String,
    text: &str,
) -> Result<(), CallFault> {
    let path = path_of(alloc, text)?;
    let told = push_looks(out, &path);
    drop(path);
    told
}

/// `up LEVELS`: the path so many levels above the path.
pub(crate) fn push_up_call(
    alloc: Global,
    out: &mut String,
    levels: &str,
    text: &str,
) -> Result<(), CallFault> {
    let Ok(levels) = levels.parse::<usize>() else {
        return Err(CallFault::Bad);
    };
    let path = path_of(alloc, text)?;
    let above = path.up(levels);
    drop(path);
    push_made(out, Ok(above?))
}

/// Appends a word where something holds.
fn push_if(out: &mut String, holds: bool, word: &str) -> Result<(), AllocError> {
    if holds {
        push_word(out, word)?;
    }
    Ok(())
}

/// Appends the names and the elements of a path, and of what sort it is.
fn push_sort(out: &mut String, path: &Path) -> Result<(), CallFault> {
    let names = path.depth();
    let elements = path.elements().len();
    writeln!(out, "{names} names, {elements} elements")?;
    push_if(out, path.is_root(), "root")?;
    push_if(out, path.is_plain(), "plain")?;
    push_if(out, path.is_property(), "property")?;
    let is_another = !is_copied(path)?;
    Ok(push_if(out, is_another, "its copy is another path")?)
}

/// `sort` and `sort root`: the names and the elements of the path, or of the root's, and of what sort it is.
pub(crate) fn push_sort_call(
    alloc: Global,
    out: &mut String,
    words: &str,
    text: &str,
) -> Result<(), CallFault> {
    let path = if words == "root" {
        Path::root(alloc)
    } else {
        path_of(alloc, text)?
    };
    let told = push_sort(out, &path);
    drop(path);
    told
}

/// `append NAME`: the path of a child of the path, or where it is refused.
pub(crate) fn push_append_call(
    alloc: Global,
    out: &mut String,
    name: &str,
    text: &str,
) -> Result<(), CallFault> {
    let path = path_of(alloc, text)?;
    if path.is_property() {
        return Err(CallFault::Bad);
    }
    push_made(out, path.append(name))
}

/// A path with another front, where that is a prim's path other than `/`.
fn moved(path: &Path, front: &Path, by: &Path) -> Result<Option<Path>, PathFault> {
    if by.is_property() {
        return Ok(None);
    }
    if by.is_root() {
        return Ok(None);
    }
    path.replace_prefix(front, by)
}

/// Appends a path with another front, or why there is none.
fn push_moved(out: &mut String, path: &Path, front: &Path, by: &Path) -> Result<(), CallFault> {
    match moved(path, front, by) {
        Ok(Some(there)) => push_made(out, Ok(there)),
        Ok(None) => Ok(push_word(out, "-")?),
        Err(fault) => push_made(out, Err(fault)),
    }
}

/// The same of a path for the other front.
fn push_moved_by(
    alloc: Global,
    out: &mut String,
    path: &Path,
    front: &Path,
    by: &str,
) -> Result<(), CallFault> {
    let by = path_of(alloc, by)?;
    let told = push_moved(out, path, front, &by);
    drop(by);
    told
}

/// The same of words for both fronts.
fn push_moved_from(
    alloc: Global,
    out: &mut String,
    path: &Path,
    front: &str,
    by: &str,
) -> Result<(), CallFault> {
    let front = path_of(alloc, front)?;
    let told = push_moved_by(alloc, out, path, &front, by);
    drop(front);
    told
}

/// `move FRONT`: of the two paths, a line each, the first with the second for its front, or where that is refused; `-` where it does not begin with
/// the front.
pub(crate) fn push_move_call(
    alloc: Global,
    out: &mut String,
    front: &str,
    text: &str,
) -> Result<(), CallFault> {
    let (text, by) = text.split_once('\n').unwrap_or((text, ""));
    let path = path_of(alloc, text)?;
    let told = push_moved_from(alloc, out, &path, front, by);
    drop(path);
    told
}

/// Whether the path of a line is below the one of the line above it, which it replaces.
fn is_below_next(alloc: Global, lower: &mut Path, line: &str) -> Result<bool, CallFault> {
    let upper = path_of(alloc, line)?;
    let is_below = *lower > upper;
    drop(mem::replace(lower, upper));
    Ok(is_below)
}

/// Appends the lines whose paths are below the one above them, and how many there are.
fn push_ordered(
    alloc: Global,
    out: &mut String,
    lower: &mut Path,
    text: &str,
) -> Result<(), CallFault> {
    let mut paths: u64 = 0;
    for line in text.lines() {
        let is_below = is_below_next(alloc, lower, line)?;
        push_if(out, is_below, line)?;
        paths = paths.saturating_add(1);
    }
    Ok(writeln!(out, "{paths} paths")?)
}

/// `ordered`: the paths, a line each, that are below the path of the line above them; the first is compared with the root.
pub(crate) fn push_ordered_call(
    alloc: Global,
    out: &mut String,
    text: &str,
) -> Result<(), CallFault> {
    let mut lower = Path::root(alloc);
    let told = push_ordered(alloc, out, &mut lower, text);
    drop(lower);
    told
}

/// How a path begins with a front.
fn prefix_word(path: &Path, front: &Path) -> &'static str {
    if path.has_prefix(front) {
        "exactly"
    } else if path.has_plain_prefix(front) {
        "by plain names"
    } else {
        "neither"
    }
}

/// The same of a word for the front.
fn prefix_of(alloc: Global, path: &Path, front: &str) -> Result<&'static str, CallFault> {
    let front = path_of(alloc, front)?;
    let word = prefix_word(path, &front);
    drop(front);
    Ok(word)
}

/// `prefix FRONT`: whether the path begins with a front, exactly, by plain names or not at all.
pub(crate) fn push_prefix_call(
    alloc: Global,
    out: &mut String,
    front: &str,
    text: &str,
) -> Result<(), CallFault> {
    let path = path_of(alloc, text)?;
    let word = prefix_of(alloc, &path, front);
    drop(path);
    Ok(push_word(out, word?)?)
}
