//! Lines that add and remove layers, prims, variants and properties.
ghost use Rattle.std.specs.Prelude.{◌≡◌};
ghost use Rattle.script_words.specs.Answers.{Finds, FindsAs};
ghost use Rattle.script_lines.specs.SpecLines.{new_layer_of, new_layer_line, specifier_of, prim_type_at, spec_line, variant_line, type_of, brackets_at, type_at, attribute_line, relationship_line, remove_line};

use crate::line::Line;
use crate::places::{changed, target_at};
use asset_names::AssetId;
use edit_batches::Op;
use plain_data::Text;
use script_words::{LineFault, behind_word, flag_at, is_end, layer_at, name_at, text_at};
use sdf_values::{ELEMENTS, ElementType, TypeName, find_element};
use spec_parts::Specifier;
use std::alloc::Global;

#[tactic(auto, unfolding(crate::specs::SpecLines::new_layer_of))]
fn new_layer_of(alloc: Global, layer: AssetId, bytes: &[u8]) -> Result<Line, LineFault>
    ensures { Finds result (new_layer_of layer bytes.now) }
{
    if is_end(bytes) {
        return changed(Op::NewLayer { layer, text: None }, bytes);
    }
    let (text, rest) = text_at(alloc, bytes)?;
    changed(
        Op::NewLayer {
            layer,
            text: Some(text),
        },
        rest,
    )
}

/// Behind `newlayer`: a layer, and its text or none.
#[tactic(auto, unfolding(crate::specs::SpecLines::new_layer_line))]
pub fn new_layer_line(alloc: Global, bytes: &[u8]) -> Result<Line, LineFault>
    ensures { Finds result (new_layer_line bytes.now) }
{
    let (layer, rest) = layer_at(alloc, bytes)?;
    new_layer_of(alloc, layer, rest)
}

#[tactic(auto, unfolding(crate::specs::SpecLines::specifier_of))]
fn specifier_of(word: &str) -> Option<Specifier>
    ensures { result ≡ specifier_of word.now }
{
    match word {
        "def" => Some(Specifier::Def),
        "over" => Some(Specifier::Over),
        "class" => Some(Specifier::Class),
        _ => None,
    }
}

/// A type of a prim or none, and the bytes behind it.
#[tactic(auto, unfolding(crate::specs::SpecLines::prim_type_at))]
fn prim_type_at(alloc: Global, bytes: &[u8]) -> Result<(Option<Text>, &[u8]), LineFault>
    ensures { FindsAs (λ x. (x.0, x.1.now)) result (prim_type_at bytes.now) }
{
    if is_end(bytes) {
        return Ok((None, bytes));
    }
    let (name, rest) = name_at(bytes)?;
    let name = Text::of(alloc, name)?;
    Ok((Some(name), rest))
}

/// Behind `spec`: a specifier, a layer, a path, and a type or none.
#[tactic(auto, unfolding(crate::specs::SpecLines::spec_line))]
pub fn spec_line(alloc: Global, bytes: &[u8]) -> Result<Line, LineFault>
    ensures { Finds result (spec_line bytes.now) }
{
    let (word, rest) = name_at(bytes)?;
    let specifier = specifier_of(word).ok_or(LineFault::Bad)?;
    let (layer, path, rest) = target_at(alloc, rest)?;
    let (type_name, rest) = read_or_drop!(prim_type_at(alloc, rest), (layer, path));
    changed(
        Op::AddPrim {
            layer,
            path,
            specifier,
            type_name,
        },
        rest,
    )
}

/// Behind `variant`: a layer and a path.
#[tactic(auto, unfolding(crate::specs::SpecLines::variant_line))]
pub fn variant_line(alloc: Global, bytes: &[u8]) -> Result<Line, LineFault>
    ensures { Finds result (variant_line bytes.now) }
{
    let (layer, path, rest) = target_at(alloc, bytes)?;
    changed(Op::AddVariant { layer, path }, rest)
}

fn type_of(array: bool, element: Option<ElementType>) -> Option<TypeName>
    ensures { result ≡ type_of array element }
{
    match element {
        Some(element) => Some(TypeName { element, array }),
        None => None,
    }
}

/// Whether a pair of brackets stands in front, and the bytes behind it or else all.
#[tactic(auto, unfolding(crate::specs::SpecLines::brackets_at))]
fn brackets_at(bytes: &[u8]) -> Result<(bool, &[u8]), LineFault>
    ensures { FindsAs (λ x. (x.0, x.1.now)) result (brackets_at bytes.now) }
{
    match behind_word("[", bytes) {
        Some(inside) => {
            let rest = behind_word("]", inside).ok_or(LineFault::Bad)?;
            Ok((true, rest))
        }
        None => Ok((false, bytes)),
    }
}

/// A type of attributes, if what is written is one, and the bytes behind it.
#[tactic(auto, unfolding(crate::specs::SpecLines::type_at))]
fn type_at(bytes: &[u8]) -> Result<(Option<TypeName>, &[u8]), LineFault>
    ensures { FindsAs (λ x. (x.0, x.1.now)) result (type_at bytes.now) }
{
    let (name, rest) = name_at(bytes)?;
    let (array, rest) = brackets_at(rest)?;
    let ty = type_of(array, find_element(&ELEMENTS, name));
    Ok((ty, rest))
}

/// Behind `attr`: a layer, a path, a type, and `custom` and `uniform` or not.
#[tactic(auto, unfolding(crate::specs::SpecLines::attribute_line))]
pub fn attribute_line(alloc: Global, bytes: &[u8]) -> Result<Line, LineFault>
    ensures { Finds result (attribute_line bytes.now) }
{
    let (layer, path, rest) = target_at(alloc, bytes)?;
    let (ty, rest) = read_or_drop!(type_at(rest), (layer, path));
    let (custom, rest) = flag_at("custom", rest);
    let (uniform, rest) = flag_at("uniform", rest);
    changed(
        Op::AddAttribute {
            layer,
            path,
            ty,
            custom,
            uniform,
        },
        rest,
    )
}

/// Behind `rel`: a layer, a path, and `custom` or not.
#[tactic(auto, unfolding(crate::specs::SpecLines::relationship_line))]
pub fn relationship_line(alloc: Global, bytes: &[u8]) -> Result<Line, LineFault>
    ensures { Finds result (relationship_line bytes.now) }
{
    let (layer, path, rest) = target_at(alloc, bytes)?;
    let (custom, rest) = flag_at("custom", rest);
    changed(
        Op::AddRelationship {
            layer,
            path,
            custom,
        },
        rest,
    )
}

/// Behind `remove`: a layer and a path.
#[tactic(auto, unfolding(crate::specs::SpecLines::remove_line))]
pub fn remove_line(alloc: Global, bytes: &[u8]) -> Result<Line, LineFault>
    ensures { Finds result (remove_line bytes.now) }
{
    let (layer, path, rest) = target_at(alloc, bytes)?;
    changed(Op::Remove { layer, path }, rest)
}
