//! Lines of lists and sublayers.
ghost use Rattle.script_words.specs.Answers.{Finds, FindsAs};
ghost use Rattle.script_lines.specs.FieldLines.{paths_list, references_list, texts_list, targets_in, field_list, edit_word_at, edit_at, list_line, sublayers_in, sublayers_line};

use crate::line::Line;
use crate::meta_lines::{is_path_field, is_reference_field, is_text_field};
use crate::places::{prim_base, target_at};
use edit_batches::{
    FieldList, ListEdit, Op, PathField, ReferenceField, TextField, WrittenSubLayer,
};
use plain_data::Items;
use script_words::{
    LineFault, ListItems, ListPlace, behind_word, first_references, layer_at, list_in, name_at,
};
use sdf_paths::Path;
use std::alloc::Global;
use usda_lists::{first_paths, first_texts};

#[tactic(auto, unfolding(crate::specs::FieldLines::paths_list))]
fn paths_list(alloc: Global, word: &str, base: &Path, bytes: &[u8]) -> Result<FieldList, LineFault>
    ensures { Finds result (paths_list word.now base.now bytes.now) }
{
    let empty = ListItems::Paths(Items::new(alloc));
    let items = list_in(alloc, base, ListPlace::Start, empty, bytes)?.paths()?;
    Ok(FieldList::Paths {
        field: PathField::of_word(word),
        items: first_paths(alloc, items)?,
    })
}

#[tactic(auto, unfolding(crate::specs::FieldLines::references_list))]
fn references_list(
    alloc: Global,
    word: &str,
    base: &Path,
    bytes: &[u8],
) -> Result<FieldList, LineFault>
    ensures { Finds result (references_list word.now base.now bytes.now) }
{
    let empty = ListItems::References(Items::new(alloc));
    let items = list_in(alloc, base, ListPlace::Start, empty, bytes)?.references()?;
    Ok(FieldList::References {
        field: ReferenceField::of_word(word),
        items: first_references(alloc, items)?,
    })
}

#[tactic(auto, unfolding(crate::specs::FieldLines::texts_list))]
fn texts_list(alloc: Global, word: &str, base: &Path, bytes: &[u8]) -> Result<FieldList, LineFault>
    ensures { Finds result (texts_list word.now base.now bytes.now) }
{
    let empty = ListItems::Texts(Items::new(alloc));
    let items = list_in(alloc, base, ListPlace::Start, empty, bytes)?.texts()?;
    Ok(FieldList::Texts {
        field: TextField::of_word(word),
        items: first_texts(alloc, items)?,
    })
}

/// Targets or connections, without selections.
#[tactic(auto, unfolding(crate::specs::FieldLines::targets_in))]
fn targets_in(alloc: Global, base: &Path, bytes: &[u8]) -> Result<Items<Path>, LineFault>
    ensures { Finds result (targets_in base.now bytes.now) }
{
    let empty = ListItems::Targets(Items::new(alloc));
    let items = list_in(alloc, base, ListPlace::Start, empty, bytes)?.targets()?;
    Ok(first_paths(alloc, items)?)
}

/// The list of the field that a word names.
#[tactic(auto, unfolding(crate::specs::FieldLines::field_list))]
fn field_list(alloc: Global, word: &str, base: &Path, bytes: &[u8]) -> Result<FieldList, LineFault>
    ensures { Finds result (field_list word.now base.now bytes.now) }
{
    if is_path_field(word) {
        paths_list(alloc, word, base, bytes)
    } else if is_reference_field(word) {
        references_list(alloc, word, base, bytes)
    } else if is_text_field(word) {
        texts_list(alloc, word, base, bytes)
    } else if word == "targets" {
        let items = targets_in(alloc, base, bytes)?;
        Ok(FieldList::Targets { items })
    } else if word == "connect" {
        let items = targets_in(alloc, base, bytes)?;
        Ok(FieldList::Connections { items })
    } else {
        Err(LineFault::Bad)
    }
}

/// An edit word, and the bytes behind it.
#[tactic(auto, unfolding(crate::specs::FieldLines::edit_word_at))]
fn edit_word_at(bytes: &[u8]) -> Result<(ListEdit, &[u8]), LineFault>
    ensures { FindsAs (λ x. (x.0, x.1.now)) result (edit_word_at bytes.now) }
{
    let (word, rest) = name_at(bytes)?;
    match ListEdit::of_word(word) {
        ListEdit::Explicit => Err(LineFault::Bad),
        edit => Ok((edit, rest)),
    }
}

/// An edit word or none, and then `=`.
#[tactic(auto, unfolding(crate::specs::FieldLines::edit_at))]
fn edit_at(bytes: &[u8]) -> Result<(ListEdit, &[u8]), LineFault>
    ensures { FindsAs (λ x. (x.0, x.1.now)) result (edit_at bytes.now) }
{
    match behind_word("=", bytes) {
        Some(rest) => Ok((ListEdit::Explicit, rest)),
        None => {
            let (edit, rest) = edit_word_at(bytes)?;
            let rest = behind_word("=", rest).ok_or(LineFault::Bad)?;
            Ok((edit, rest))
        }
    }
}

/// Behind `list`: a layer, a path, a field, an edit word or none, `=` and a list.
#[tactic(auto, unfolding(crate::specs::FieldLines::list_line))]
pub fn list_line(alloc: Global, bytes: &[u8]) -> Result<Line, LineFault>
    ensures { Finds result (list_line bytes.now) }
{
    let (layer, path, rest) = target_at(alloc, bytes)?;
    let (field, rest) = read_or_drop!(name_at(rest), (layer, path));
    let (edit, rest) = read_or_drop!(edit_at(rest), (layer, path));
    let base = read_or_drop!(prim_base(&path), (layer, path), LineFault::NoMemory);
    let list = read_or_drop!(field_list(alloc, field, &base, rest), (layer, path, base));
    Ok(Line::Change(Op::SetList {
        layer,
        path,
        edit,
        list,
    }))
}

/// Sublayers in brackets, in which repeats stay.
#[tactic(auto, unfolding(crate::specs::FieldLines::sublayers_in))]
fn sublayers_in(alloc: Global, bytes: &[u8]) -> Result<Items<WrittenSubLayer>, LineFault>
    ensures { Finds result (sublayers_in bytes.now) }
{
    let root = Path::root(alloc);
    let empty = ListItems::SubLayers(Items::new(alloc));
    list_in(alloc, &root, ListPlace::Bracket, empty, bytes)?.sublayers()
}

/// Behind `sublayers`: a layer, `=` and sublayers in brackets.
#[tactic(auto, unfolding(crate::specs::FieldLines::sublayers_line))]
pub fn sublayers_line(alloc: Global, bytes: &[u8]) -> Result<Line, LineFault>
    ensures { Finds result (sublayers_line bytes.now) }
{
    let (layer, rest) = layer_at(alloc, bytes)?;
    let rest = read_or_drop!(behind_word("=", rest).ok_or(LineFault::Bad), layer);
    let sublayers = read_or_drop!(sublayers_in(alloc, rest), layer);
    Ok(Line::Change(Op::SetSublayers { layer, sublayers }))
}
