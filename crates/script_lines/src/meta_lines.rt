//! Lines of metadata, selections, orders and load rules.
ghost use Rattle.std.specs.Prelude.{◌≡◌};
ghost use Rattle.script_words.specs.Answers.{Finds, FindsAs};
ghost use Rattle.script_lines.specs.MetaLines.{is_path_field, is_reference_field, is_text_field, is_no_key, key_at, meta_line, unmeta_line, set_at, select_line, unselect_line, order_of, names_in, order_line, load_line, unload_line, unrule_line};

use crate::line::Line;
use crate::places::{changed, prim_base, target_at};
use edit_batches::{Op, OrderWord};
use plain_data::{Items, Text};
use script_words::{
    LineFault, ListItems, ListPlace, behind_word, list_in, name_at, path_at, text_at, value_in,
};
use sdf_paths::Path;
use std::alloc::Global;
use usd_names::is_identifier;

/// The words of list fields whose items are paths of classes.
pub fn is_path_field(word: &str) -> bool
    ensures { result ≡ is_path_field word.now }
{
    word == "inherits" || word == "specializes"
}

/// The words of list fields whose items are references.
pub fn is_reference_field(word: &str) -> bool
    ensures { result ≡ is_reference_field word.now }
{
    word == "references" || word == "payload"
}

/// The words of list fields whose items are texts.
pub fn is_text_field(word: &str) -> bool
    ensures { result ≡ is_text_field word.now }
{
    word == "variantSets" || word == "apiSchemas" || word == "clipSets"
}

/// Words that a layer's text gives another meaning, so that they are no keys.
#[tactic(auto, unfolding(crate::specs::MetaLines::is_no_key))]
fn is_no_key(word: &str) -> bool
    ensures { result ≡ is_no_key word.now }
{
    is_path_field(word)
        || is_reference_field(word)
        || is_text_field(word)
        || word == "variants"
        || word == "subLayers"
        || word == "relocates"
}

/// A key, and the bytes behind it.
#[tactic(auto, unfolding(crate::specs::MetaLines::key_at))]
fn key_at(bytes: &[u8]) -> Result<(&str, &[u8]), LineFault>
    ensures { FindsAs (λ x. (x.0.now, x.1.now)) result (key_at bytes.now) }
{
    let (name, rest) = name_at(bytes)?;
    if is_no_key(name) {
        Err(LineFault::Bad)
    } else {
        Ok((name, rest))
    }
}

/// Behind `meta`: a layer, a path, a key, `=` and a value.
#[tactic(auto, unfolding(crate::specs::MetaLines::meta_line))]
pub fn meta_line(alloc: Global, bytes: &[u8]) -> Result<Line, LineFault>
    ensures { Finds result (meta_line bytes.now) }
{
    let (layer, path, rest) = target_at(alloc, bytes)?;
    let (key, rest) = read_or_drop!(key_at(rest), (layer, path));
    let rest = read_or_drop!(behind_word("=", rest).ok_or(LineFault::Bad), (layer, path));
    let base = read_or_drop!(prim_base(&path), (layer, path), LineFault::NoMemory);
    let value = read_or_drop!(value_in(alloc, &base, rest), (layer, path, base));
    let key = read_or_drop!(
        Text::of(alloc, key),
        (layer, path, base, value),
        LineFault::NoMemory
    );
    Ok(Line::Change(Op::SetMeta {
        layer,
        path,
        key,
        value,
    }))
}

/// Behind `unmeta`: a layer, a path and any name.
#[tactic(auto, unfolding(crate::specs::MetaLines::unmeta_line))]
pub fn unmeta_line(alloc: Global, bytes: &[u8]) -> Result<Line, LineFault>
    ensures { Finds result (unmeta_line bytes.now) }
{
    let (layer, path, rest) = target_at(alloc, bytes)?;
    let (key, rest) = read_or_drop!(name_at(rest), (layer, path));
    let key = read_or_drop!(Text::of(alloc, key), (layer, path), LineFault::NoMemory);
    changed(Op::ClearMeta { layer, path, key }, rest)
}

/// The name of a variant set, and the bytes behind it.
#[tactic(auto, unfolding(crate::specs::MetaLines::set_at))]
fn set_at(bytes: &[u8]) -> Result<(&str, &[u8]), LineFault>
    ensures { FindsAs (λ x. (x.0.now, x.1.now)) result (set_at bytes.now) }
{
    let (name, rest) = name_at(bytes)?;
    if is_identifier(name) {
        Ok((name, rest))
    } else {
        Err(LineFault::Bad)
    }
}

/// Behind `select`: a layer, a path, a variant set, `=` and a variant.
#[tactic(auto, unfolding(crate::specs::MetaLines::select_line))]
pub fn select_line(alloc: Global, bytes: &[u8]) -> Result<Line, LineFault>
    ensures { Finds result (select_line bytes.now) }
{
    let (layer, path, rest) = target_at(alloc, bytes)?;
    let (set, rest) = read_or_drop!(set_at(rest), (layer, path));
    let rest = read_or_drop!(behind_word("=", rest).ok_or(LineFault::Bad), (layer, path));
    let (variant, rest) = read_or_drop!(text_at(alloc, rest), (layer, path));
    let set = read_or_drop!(
        Text::of(alloc, set),
        (layer, path, variant),
        LineFault::NoMemory
    );
    changed(
        Op::Select {
            layer,
            path,
            set,
            variant,
        },
        rest,
    )
}

/// Behind `unselect`: a layer, a path and a variant set.
#[tactic(auto, unfolding(crate::specs::MetaLines::unselect_line))]
pub fn unselect_line(alloc: Global, bytes: &[u8]) -> Result<Line, LineFault>
    ensures { Finds result (unselect_line bytes.now) }
{
    let (layer, path, rest) = target_at(alloc, bytes)?;
    let (set, rest) = read_or_drop!(set_at(rest), (layer, path));
    let set = read_or_drop!(Text::of(alloc, set), (layer, path), LineFault::NoMemory);
    changed(Op::Unselect { layer, path, set }, rest)
}

#[tactic(auto, unfolding(crate::specs::MetaLines::order_of))]
fn order_of(word: &str) -> Option<OrderWord>
    ensures { result ≡ order_of word.now }
{
    match word {
        "nameChildren" => Some(OrderWord::NameChildren),
        "properties" => Some(OrderWord::PropertyNames),
        _ => None,
    }
}

/// Names in brackets, in which repeats stay.
#[tactic(auto, unfolding(crate::specs::MetaLines::names_in))]
fn names_in(alloc: Global, bytes: &[u8]) -> Result<Items<Text>, LineFault>
    ensures { Finds result (names_in bytes.now) }
{
    let root = Path::root(alloc);
    let empty = ListItems::Texts(Items::new(alloc));
    list_in(alloc, &root, ListPlace::Bracket, empty, bytes)?.texts()
}

/// Behind `order`: a layer, a path, what is ordered, `=` and names.
#[tactic(auto, unfolding(crate::specs::MetaLines::order_line))]
pub fn order_line(alloc: Global, bytes: &[u8]) -> Result<Line, LineFault>
    ensures { Finds result (order_line bytes.now) }
{
    let (layer, path, rest) = target_at(alloc, bytes)?;
    let (word, rest) = read_or_drop!(name_at(rest), (layer, path));
    let word = read_or_drop!(order_of(word).ok_or(LineFault::Bad), (layer, path));
    let rest = read_or_drop!(behind_word("=", rest).ok_or(LineFault::Bad), (layer, path));
    let names = read_or_drop!(names_in(alloc, rest), (layer, path));
    Ok(Line::Change(Op::SetOrder {
        layer,
        path,
        word,
        names,
    }))
}

/// Behind `load`: a path.
#[tactic(auto, unfolding(crate::specs::MetaLines::load_line))]
pub fn load_line(alloc: Global, bytes: &[u8]) -> Result<Line, LineFault>
    ensures { Finds result (load_line bytes.now) }
{
    let (path, rest) = path_at(alloc, bytes)?;
    changed(Op::Load { path }, rest)
}

/// Behind `unload`: a path.
#[tactic(auto, unfolding(crate::specs::MetaLines::unload_line))]
pub fn unload_line(alloc: Global, bytes: &[u8]) -> Result<Line, LineFault>
    ensures { Finds result (unload_line bytes.now) }
{
    let (path, rest) = path_at(alloc, bytes)?;
    changed(Op::Unload { path }, rest)
}

/// Behind `unrule`: a path.
#[tactic(auto, unfolding(crate::specs::MetaLines::unrule_line))]
pub fn unrule_line(alloc: Global, bytes: &[u8]) -> Result<Line, LineFault>
    ensures { Finds result (unrule_line bytes.now) }
{
    let (path, rest) = path_at(alloc, bytes)?;
    changed(Op::Unrule { path }, rest)
}
