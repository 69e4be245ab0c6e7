//! What a list of elements tells.
ghost use Rattle.std.specs.Prelude.{◌≡◌, ◌<◌, ◌+◌, ◌++◌, ◌∷◌, [], false, IfOk, string_bytes};
ghost use Rattle.std.specs.Option.{option_map, option_copied};
ghost use Rattle.sdf_paths.specs.Paths.{printed, written, is_property, is_plain, is_selection, depth, last_name, rest_after, same_element, is_prim_name, is_property_part, plain, has_prefix};

use crate::element::Element;
use std::alloc::{AllocError, Global};

/// Appends the text of an element, which stands directly after a selection if `after`.
fn write_element(out: &mut String, after: bool, element: &Element) -> Result<(), AllocError>
    ensures { IfOk result (λ _. string_bytes out.new ≡ string_bytes out.old ++ written after element.now) }
{
    match element {
        Element::Prim(name) => {
            if !after {
                out.push('/')?;
            }
            out.push_str(name.as_str())
        }
        Element::Property(name) => {
            out.push('.')?;
            out.push_str(name.as_str())
        }
        Element::Selection { set, variant } => {
            out.push('{')?;
            out.push_str(set.as_str())?;
            out.push('=')?;
            out.push_str(variant.as_str())?;
            out.push('}')
        }
    }
}

/// Whether an element selects a variant.
pub fn is_selection(element: &Element) -> bool
    ensures { result ≡ is_selection element.now }
{
    match element {
        Element::Selection { .. } => true,
        _ => false,
    }
}

/// The printed text of elements.
pub fn print(alloc: Global, elements: &[Element]) -> Result<String, AllocError>
    ensures { IfOk result (λ s. string_bytes s ≡ printed elements.now) }
{
    let mut out = String::new(alloc);
    if elements.is_empty() {
        out.push('/')?;
    }
    let mut after = false;
    for element in elements {
        write_element(&mut out, after, element)?;
        after = is_selection(element);
    }
    Ok(out)
}

/// Whether some element is the name of a property. In a path it is the last.
pub fn is_property(elements: &[Element]) -> bool
    ensures { result ≡ is_property elements.now }
{
    elements.iter().any(is_property_part)
}

/// Whether an element is the name of a property.
pub fn is_property_part(element: &Element) -> bool
    ensures { result ≡ is_property_part element.now }
{
    match element {
        Element::Property(_) => true,
        _ => false,
    }
}

/// Whether no element selects a variant.
pub fn is_plain(elements: &[Element]) -> bool
    ensures { result ≡ is_plain elements.now }
{
    elements.iter().all(|element| !is_selection(element))
}

/// How many elements are names of prims.
pub fn depth(elements: &[Element]) -> usize
    ensures { result ≡ depth elements.now }
{
    elements.iter().filter(|element| is_prim(element)).count()
}

/// Whether an element is the name of a prim.
pub fn is_prim(element: &Element) -> bool
    ensures { result ≡ is_prim_name element.now }
{
    match element {
        Element::Prim(_) => true,
        _ => false,
    }
}

/// The name of the last element.
pub fn last_name(elements: &[Element]) -> Option<&str>
    ensures { option_copied result ≡ last_name elements.now }
{
    match elements.last()? {
        Element::Prim(name) => Some(name.as_str()),
        Element::Property(name) => Some(name.as_str()),
        Element::Selection { variant, .. } => Some(variant.as_str()),
    }
}

fn same_element(a: &Element, b: &Element) -> bool
    ensures { result ≡ same_element a.now b.now }
{
    match (a, b) {
        (Element::Prim(x), Element::Prim(y)) => x.as_str() == y.as_str(),
        (Element::Property(x), Element::Property(y)) => x.as_str() == y.as_str(),
        (
            Element::Selection { set, variant },
            Element::Selection {
                set: other_set,
                variant: other,
            },
        ) => { set.as_str() == other_set.as_str() && variant.as_str() == other.as_str() }
        _ => false,
    }
}

/// The elements of `path` after those of `front`, where it begins with them.
pub fn rest_after<'a>(front: &[Element], path: &'a [Element]) -> Option<&'a [Element]>
    ensures { option_map (λ rest. rest.now) result ≡ rest_after front.now path.now }
{
    if front.len() > path.len() {
        return None;
    }
    for i in 0..front.len() {
        if !same_element(&front[i], &path[i]) {
            return None;
        }
    }
    Some(&path[front.len()..])
}

/// What follows the first element of `path` that is no selection, where that is `element`.
fn after_plain<'a>(element: &Element, path: &'a [Element]) -> Option<&'a [Element]>
    requires { is_selection element.now ≡ false }
    ensures { option_map (λ rest. plain rest.now) result ≡ rest_after (element.now ∷ []) (plain path.now) }
{
    for i in 0..path.len() {
        if !is_selection(&path[i]) {
            if same_element(element, &path[i]) {
                return Some(&path[i + 1..]);
            }
            return None;
        }
    }
    None
}

/// Whether `path` begins with `front` where the selections of both are passed over.
pub fn has_plain_prefix(front: &[Element], path: &[Element]) -> bool
    ensures { result ≡ has_prefix (plain front.now) (plain path.now) }
{
    let mut rest = path;
    for element in front {
        if !is_selection(element) {
            match after_plain(element, rest) {
                Some(more) => rest = more,
                None => return false,
            }
        }
    }
    true
}
