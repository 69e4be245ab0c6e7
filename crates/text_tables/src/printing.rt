//! What answers are made of, in print.

use sdf_paths::Path;
use std::alloc::AllocError;

/// Whether the copy of a value is the value.
pub(crate) fn is_copied<T: Clone + PartialEq + Drop>(value: &T) -> Result<bool, AllocError> {
    let copied = value.clone()?;
    let is_same = copied == *value;
    drop(copied);
    Ok(is_same)
}

/// Appends a word and a line feed.
pub(crate) fn push_word(out: &mut String, word: &str) -> Result<(), AllocError> {
    out.push_str(word)?;
    out.push_str("\n")
}

/// Appends a path, or `none`.
pub(crate) fn push_path_or_none(out: &mut String, path: &Option<Path>) -> Result<(), AllocError> {
    match path {
        Some(path) => out.push_str(path.print()?.as_str()),
        None => out.push_str("none"),
    }
}
