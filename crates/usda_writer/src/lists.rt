//! Lists by their edits.
ghost use Rattle.std.specs.Prelude.{◌≡◌, ◌++◌, List, ℕ, OnOk, string_bytes};
ghost use Rattle.usda_writer.specs.Texts.{listed, bracketed, explicit_list};
ghost use Rattle.usda_writer.specs.Fields.{edit_line, explicit_line, edit_lines, list_lines};

use crate::texts::{push_reference, push_sublayer};
use list_ops::ListOp;
use plain_data::{Items, Text};
use sdf_paths::{Path, push_path_text};
use sdf_values::{push_blanks, push_string};
use spec_parts::{RefItem, SubLayer};
use std::alloc::AllocError;

/// An item of a list.
pub trait Item {
    /// The text of an item.
    ghost text: { Self → List ℕ };

    /// Appends the text of the item.
    fn push_to(&self, out: &mut String) -> Result<(), AllocError>
        ensures { OnOk result (string_bytes out.new ≡ string_bytes out.old ++ text self.now) };
}

impl Item for Text {
    ghost use Rattle.sdf_values.specs.Print.{quoted};

    ghost text = { quoted };

    fn push_to(&self, out: &mut String) -> Result<(), AllocError> {
        push_string(out, self.as_str())
    }
}

impl Item for Path {
    ghost use Rattle.sdf_paths.specs.Paths.{path_text};

    ghost text = { path_text };

    fn push_to(&self, out: &mut String) -> Result<(), AllocError> {
        push_path_text(out, self)
    }
}

impl Item for RefItem {
    ghost use Rattle.usda_writer.specs.Texts.{reference_text};

    ghost text = { reference_text };

    fn push_to(&self, out: &mut String) -> Result<(), AllocError> {
        push_reference(out, self)
    }
}

impl Item for SubLayer {
    ghost use Rattle.usda_writer.specs.Texts.{sublayer_text};

    ghost text = { sublayer_text };

    fn push_to(&self, out: &mut String) -> Result<(), AllocError> {
        push_sublayer(out, self)
    }
}

/// Appends items with a comma and a blank between them.
fn push_items<T: Item>(out: &mut String, items: &[T]) -> Result<(), AllocError>
    ensures { OnOk result (string_bytes out.new ≡ string_bytes out.old ++ listed T.text items.now) }
{
    let mut is_first = true;
    for item in items {
        if !is_first {
            out.push_str(", ")?;
        }
        is_first = false;
        item.push_to(out)?;
    }
    Ok(())
}

/// Appends a list in its brackets.
pub fn push_bracketed<T: Item>(out: &mut String, items: &[T]) -> Result<(), AllocError>
    ensures { OnOk result (string_bytes out.new ≡ string_bytes out.old ++ bracketed T.text items.now) }
{
    out.push_str("[")?;
    push_items(out, items)?;
    out.push_str("]")
}

/// Appends an explicit list.
pub fn push_explicit<T: Item>(out: &mut String, items: &[T]) -> Result<(), AllocError>
    ensures { OnOk result (string_bytes out.new ≡ string_bytes out.old ++ explicit_list T.text items.now) }
{
    if items.is_empty() {
        return out.push_str("None");
    }
    push_bracketed(out, items)
}

/// Appends the line of one edit.
pub fn push_edit<T: Item>(
    out: &mut String,
    level: usize,
    word: &str,
    name: &str,
    items: &[T],
) -> Result<(), AllocError>
    ensures { OnOk result (string_bytes out.new ≡ string_bytes out.old ++ edit_line level word.now name.now T.text items.now) }
{
    if items.is_empty() {
        return Ok(());
    }
    push_blanks(out, level)?;
    out.push_str(word)?;
    out.push_str(name)?;
    out.push_str(" = ")?;
    push_bracketed(out, items)?;
    out.push_str("\n")
}

/// Appends the line of an explicit list.
fn push_explicit_line<T: Item>(
    out: &mut String,
    level: usize,
    name: &str,
    explicit: &Option<Items<T>>,
) -> Result<(), AllocError>
    ensures { OnOk result (string_bytes out.new ≡ string_bytes out.old ++ explicit_line level name.now T.text explicit.now) }
{
    match explicit {
        None => Ok(()),
        Some(items) => {
            push_blanks(out, level)?;
            out.push_str(name)?;
            out.push_str(" = ")?;
            push_explicit(out, items.as_slice())?;
            out.push_str("\n")
        }
    }
}

/// Appends a line for each edit of a list.
pub fn push_edits<T: Item>(
    out: &mut String,
    level: usize,
    name: &str,
    op: &ListOp<T>,
) -> Result<(), AllocError>
    ensures { OnOk result (string_bytes out.new ≡ string_bytes out.old ++ edit_lines level name.now T.text op.now) }
{
    push_edit(out, level, "delete ", name, op.deleted.as_slice())?;
    push_edit(out, level, "add ", name, op.added.as_slice())?;
    push_edit(out, level, "prepend ", name, op.prepended.as_slice())?;
    push_edit(out, level, "append ", name, op.appended.as_slice())?;
    push_edit(out, level, "reorder ", name, op.ordered.as_slice())
}

/// Appends the lines of a list.
pub fn push_list<T: Item>(
    out: &mut String,
    level: usize,
    name: &str,
    op: &ListOp<T>,
) -> Result<(), AllocError>
    ensures { OnOk result (string_bytes out.new ≡ string_bytes out.old ++ list_lines level name.now T.text op.now) }
{
    push_explicit_line(out, level, name, &op.explicit)?;
    push_edits(out, level, name, op)
}
