//! The texts of which a layer's text is put together.
ghost use Rattle.std.specs.Prelude.{◌≡◌, ◌++◌, OnOk, string_bytes};
ghost use Rattle.usda_writer.specs.Texts.{quoted_name, target_text, reference_text, sublayer_text, specifier_text, metadata_block};
ghost use Rattle.usda_writer.specs.Fields.{line};
ghost use Rattle.usda_writer.specs.Properties.{flag_text};

use plain_data::Text;
use sdf_paths::{Path, push_path_text};
use sdf_values::{push_asset, push_blanks, push_offset};
use spec_parts::{RefItem, Specifier, SubLayer};
use std::alloc::AllocError;

/// Appends a line at a level.
pub fn push_line(out: &mut String, level: usize, text: &str) -> Result<(), AllocError>
    ensures { OnOk result (string_bytes out.new ≡ string_bytes out.old ++ line level text.now) }
{
    push_blanks(out, level)?;
    out.push_str(text)?;
    out.push_str("\n")
}

/// Appends a name between quotes.
pub fn push_name(out: &mut String, name: &Text) -> Result<(), AllocError>
    ensures { OnOk result (string_bytes out.new ≡ string_bytes out.old ++ quoted_name name.now) }
{
    out.push_str("\"")?;
    out.push_str(name.as_str())?;
    out.push_str("\"")
}

/// Appends a word where the flag holds.
pub fn push_flag(out: &mut String, flag: bool, word: &str) -> Result<(), AllocError>
    ensures { OnOk result (string_bytes out.new ≡ string_bytes out.old ++ flag_text flag word.now) }
{
    if flag {
        out.push_str(word)?;
    }
    Ok(())
}

/// Appends the word of a specifier.
pub fn push_specifier(out: &mut String, specifier: Specifier) -> Result<(), AllocError>
    ensures { OnOk result (string_bytes out.new ≡ string_bytes out.old ++ specifier_text specifier) }
{
    match specifier {
        Specifier::Def => out.push_str("def"),
        Specifier::Over => out.push_str("over"),
        Specifier::Class => out.push_str("class"),
    }
}

/// Appends what an item names, as far as it does, or `<>`.
fn push_target(
    out: &mut String,
    asset: &Option<Text>,
    path: &Option<Path>,
) -> Result<(), AllocError>
    ensures { OnOk result (string_bytes out.new ≡ string_bytes out.old ++ target_text asset.now path.now) }
{
    match (asset, path) {
        (None, None) => out.push_str("<>"),
        (None, Some(path)) => push_path_text(out, path),
        (Some(asset), None) => push_asset(out, asset.as_str()),
        (Some(asset), Some(path)) => {
            push_asset(out, asset.as_str())?;
            push_path_text(out, path)
        }
    }
}

/// Appends an item of references or payloads.
pub fn push_reference(out: &mut String, item: &RefItem) -> Result<(), AllocError>
    ensures { OnOk result (string_bytes out.new ≡ string_bytes out.old ++ reference_text item.now) }
{
    push_target(out, &item.asset, &item.path)?;
    push_offset(out, item.offset.offset, item.offset.scale)
}

/// Appends a sublayer.
pub fn push_sublayer(out: &mut String, item: &SubLayer) -> Result<(), AllocError>
    ensures { OnOk result (string_bytes out.new ≡ string_bytes out.old ++ sublayer_text item.now) }
{
    push_asset(out, item.asset.as_str())?;
    push_offset(out, item.offset.offset, item.offset.scale)
}

/// Appends lines of metadata between brackets, where there are any.
pub fn push_block(out: &mut String, level: usize, lines: &str) -> Result<(), AllocError>
    ensures { OnOk result (string_bytes out.new ≡ string_bytes out.old ++ metadata_block level lines.now) }
{
    if lines.is_empty() {
        return Ok(());
    }
    out.push_str(" (\n")?;
    out.push_str(lines)?;
    push_blanks(out, level)?;
    out.push_str(")")
}
