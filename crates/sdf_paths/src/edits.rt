//! Lists of elements made of other lists.
ghost use Rattle.std.specs.Prelude.{◌≡◌, ◌≤◌, ◌<◌, ◌+◌, ◌^◌, ◌↔◌, ◌++◌, ◌∷◌, [], IfOk, IfErr, OnOk, IsTrue, false, length, cond};
ghost use Rattle.usd_names.specs.Names.{is_identifier};
ghost use Rattle.sdf_paths.specs.Paths.{written, written_all, is_selection, is_property, ends_selected, depth, plain, IsPath};

use crate::element::Element;
use crate::fault::PathFault;
use crate::looks::{depth, is_plain, is_selection};
use crate::reader::{MAX_BYTES, MAX_NAMES};
use crate::shared::SharedItems;
use crate::variants::is_variant;
use plain_data::{Items, Text, copy};
use std::alloc::{AllocError, Global};
use usd_names::is_identifier;

/// Appends copies.
fn push_all(out: &mut Items<Element>, elements: &[Element]) -> Result<(), AllocError>
    ensures { OnOk result (out.new ≡ out.old ++ elements.now) }
{
    for element in elements {
        out.push(copy(element)?)?;
    }
    Ok(())
}

/// An empty list with room for so many elements.
fn with_room(alloc: Global, room: usize) -> Result<Items<Element>, AllocError>
    ensures { IfOk result (λ out. out ≡ []) }
{
    Ok(Items::from_vec(Vec::with_capacity(alloc, room)?))
}

/// The elements, and then those of `rest`.
pub fn joined(
    by: &SharedItems<Element>,
    rest: &[Element],
) -> Result<SharedItems<Element>, PathFault>
    ensures err { IfErr result (λ e. e ≡ PathFault.NoMemory) }
    ensures ok { IfOk result (λ out. out ≡ by.now ++ rest.now) }
{
    if rest.is_empty() {
        return Ok(copy(by)?);
    }
    let elements = by.as_slice();
    let mut out = with_room(by.allocator(), elements.len() + rest.len())?;
    push_all(&mut out, elements)?;
    push_all(&mut out, rest)?;
    Ok(SharedItems::of(out)?)
}

/// The elements, and then one more.
fn pushed(by: &SharedItems<Element>, element: Element) -> Result<SharedItems<Element>, AllocError>
    ensures { IfOk result (λ out. out ≡ by.now ++ element ∷ []) }
{
    let elements = by.as_slice();
    let mut out = with_room(by.allocator(), elements.len() + 1)?;
    push_all(&mut out, elements)?;
    out.push(element)?;
    SharedItems::of(out)
}

/// The elements, and then a prim's name.
pub fn appended(by: &SharedItems<Element>, name: &str) -> Result<SharedItems<Element>, PathFault>
    ensures err { IfErr result (λ e. e ≡ PathFault.NoMemory) }
    ensures ok { IfOk result (λ out. out ≡ by.now ++ Element.Prim name.now ∷ []) }
{
    let name = Text::of(by.allocator(), name)?;
    Ok(pushed(by, Element::Prim(name))?)
}

/// The elements, and then a selection.
pub fn selected(
    by: &SharedItems<Element>,
    set: &str,
    variant: &str,
) -> Result<SharedItems<Element>, PathFault>
    ensures err { IfErr result (λ e. e ≡ PathFault.NoMemory) }
    ensures ok { IfOk result (λ out. out ≡ by.now ++ Element.Selection set.now variant.now ∷ []) }
{
    let alloc = by.allocator();
    let set = Text::of(alloc, set)?;
    let variant = Text::of(alloc, variant)?;
    Ok(pushed(by, Element::Selection { set, variant })?)
}

/// How many elements are no selections.
fn plain_len(elements: &[Element]) -> usize {
    elements
        .iter()
        .filter(|element| !is_selection(element))
        .count()
}

/// The elements but for the selections. Where there is none no memory is taken.
#[tactic(auto, using(crate::proofs::Shapes::plain_itself))]
pub fn plain(elements: &SharedItems<Element>) -> Result<SharedItems<Element>, AllocError>
    ensures { IfOk result (λ out. out ≡ plain elements.now) }
{
    if is_plain(elements.as_slice()) {
        return copy(elements);
    }
    without_selections(elements.allocator(), elements.as_slice())
}

/// A list of the elements that are no selections.
fn without_selections(
    alloc: Global,
    elements: &[Element],
) -> Result<SharedItems<Element>, AllocError>
    ensures { IfOk result (λ out. out ≡ plain elements.now) }
{
    let mut out = with_room(alloc, plain_len(elements))?;
    for element in elements {
        if !is_selection(element) {
            out.push(copy(element)?)?;
        }
    }
    SharedItems::of(out)
}

/// How many bytes an element has in print.
fn element_len(after: bool, element: &Element) -> usize
    requires { length (written after element.now) ≤ 8192 }
    ensures { result ≡ length (written after element.now) }
{
    match element {
        Element::Prim(name) => { if after { name.len() } else { name.len() + 1 } }
        Element::Property(name) => name.len() + 1,
        Element::Selection { set, variant } => set.len() + variant.len() + 3,
    }
}

/// How many bytes the elements have in print, and whether a selection stands last.
fn measure(start: bool, elements: &[Element]) -> (usize, bool)
    requires { length (written_all start elements.now) ≤ 8192 }
    ensures bytes { result.0 ≡ length (written_all start elements.now) }
    ensures small { result.0 ≤ 8192 }
    ensures last { result.1 ≡ ends_selected start elements.now }
{
    let mut bytes = 0;
    let mut after = start;
    for element in elements {
        bytes += element_len(after, element);
        after = is_selection(element);
    }
    (bytes, after)
}

/// Whether a prim's name may follow the elements of a prim's path.
pub fn may_append(elements: &[Element], name: &str) -> bool
    requires path { IsPath elements.now }
    requires prim { is_property elements.now ≡ false }
    ensures { IsTrue result ↔ IsPath (elements.now ++ Element.Prim name.now ∷ []) }
{
    if !is_identifier(name) {
        return false;
    }
    if depth(elements) >= MAX_NAMES {
        return false;
    }
    if name.len() > MAX_BYTES {
        return false;
    }
    let (bytes, after) = measure(false, elements);
    let slash = slash_len(after);
    bytes + slash + name.len() <= MAX_BYTES
}

/// Whether a selection may follow the elements of a path.
pub fn may_select(elements: &[Element], set: &str, variant: &str) -> bool
    requires path { IsPath elements.now }
    requires prim { is_property elements.now ≡ false }
    ensures { IsTrue result ↔ IsPath (elements.now ++ Element.Selection set.now variant.now ∷ []) }
{
    if elements.is_empty() || !is_identifier(set) || !is_variant(variant) {
        return false;
    }
    if set.len() > MAX_BYTES || variant.len() > MAX_BYTES {
        return false;
    }
    let (bytes, _) = measure(false, elements);
    bytes + 3 + set.len() + variant.len() <= MAX_BYTES
}

/// How many bytes stand before a prim's name.
fn slash_len(after: bool) -> usize
    ensures { result ≡ cond after 0 1 }
{
    if after { 0 } else { 1 }
}

/// Whether `rest` may follow `by` within the limits.
pub fn fits(by: &[Element], rest: &[Element]) -> bool
    requires by { length (written_all false by.now) ≤ 4096 }
    requires rest { length (written_all false rest.now) ≤ 4096 + 1 }
    requires names { depth by.now + depth rest.now < 2 ^ 32 }
    ensures few { IsTrue result → depth by.now + depth rest.now ≤ 64 }
    ensures short { IsTrue result → length (written_all false (by.now ++ rest.now)) ≤ 4096 }
    ensures fits { depth by.now + depth rest.now ≤ 64 → length (written_all false (by.now ++ rest.now)) ≤ 4096 → IsTrue result }
{
    if depth(by) + depth(rest) > MAX_NAMES {
        return false;
    }
    let (bytes, after) = measure(false, by);
    let (more, _) = measure(after, rest);
    bytes + more <= MAX_BYTES
}
