//! The words of a call, and its text.

use crate::fault::CallFault;
use crate::table::Row;
use sdf_paths::{Path, PathFault};
use sdf_values::TypeName;
use std::alloc::Global;
use std::str;

/// The first word, and what stands behind the blank after it.
pub(crate) fn first_word(text: &str) -> (&str, &str) {
    text.split_once(' ').unwrap_or((text, ""))
}

/// The text of a row, where its bytes are UTF-8.
pub(crate) fn text_of(row: &Row) -> Result<&str, CallFault> {
    match str::from_utf8(row.given.as_slice()) {
        Ok(text) => Ok(text),
        Err(_) => Err(CallFault::Bad),
    }
}

/// The path that a word is.
pub(crate) fn path_of(alloc: Global, word: &str) -> Result<Path, CallFault> {
    match Path::parse(alloc, word) {
        Ok(path) => Ok(path),
        Err(PathFault::Bad { at: _ }) => Err(CallFault::Bad),
        Err(PathFault::NoMemory) => Err(CallFault::NoMemory),
    }
}

/// The type that a word is.
pub(crate) fn type_of(word: &str) -> Result<TypeName, CallFault> {
    let ty = match word.strip_suffix("[]") {
        Some(element) => TypeName::find(element, true),
        None => TypeName::find(word, false),
    };
    ty.ok_or(CallFault::Bad)
}
