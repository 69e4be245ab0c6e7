//! Names in quotes, and the paths of prims and variants below their owners.
ghost use Rattle.std.specs.Prelude.{◌≡◌, ◌++◌, ◌∷◌, [], false, true, IfOk, OnOk};
ghost use Rattle.sdf_paths.specs.Paths.{IsPath, ends_selected, is_property, printed, written, written_all};
ghost use Rattle.usd_names.specs.Names.{is_identifier, is_variant};
ghost use Rattle.usda_lists.specs.Acts.{Gives};
ghost use Rattle.usda_fields.specs.Names.{text_of, identifier_of, variant_of, prim_path, prim_below, has_variants, variant_path, variant_below};

use plain_data::Text;
use sdf_paths::{Element, MAX_BYTES, MAX_NAMES, Path, PathFault, is_variant};
use sdf_values::RefusalKind;
use std::alloc::{AllocError, Global};
use usd_names::is_identifier;
use usda_lexer::string_text;
use usda_values::PartFault;

/// The text of a string token. `NotUtf8` where its escapes make bytes that are not UTF-8.
pub fn text_of(alloc: Global, token: &str) -> Result<Text, PartFault>
    ensures { Gives result (text_of token.now) }
{
    match string_text(alloc, token)? {
        Some(text) => Ok(text),
        None => Err(PartFault::Refused(RefusalKind::NotUtf8)),
    }
}

/// The name of a prim or of a variant set that a string token is: an identifier, else `Syntax`.
pub fn identifier_of(alloc: Global, token: &str) -> Result<Text, PartFault>
    ensures { Gives result (identifier_of token.now) }
{
    let Some(name) = string_text(alloc, token)? else {
        return Err(PartFault::Refused(RefusalKind::Syntax));
    };
    if is_identifier(name.as_str()) {
        Ok(name)
    } else {
        Err(PartFault::Refused(RefusalKind::Syntax))
    }
}

/// The name of a variant that a string token is, else `Syntax`.
pub fn variant_of(alloc: Global, token: &str) -> Result<Text, PartFault>
    ensures { Gives result (variant_of token.now) }
{
    let Some(name) = string_text(alloc, token)? else {
        return Err(PartFault::Refused(RefusalKind::Syntax));
    };
    if is_variant(name.as_str()) {
        Ok(name)
    } else {
        Err(PartFault::Refused(RefusalKind::Syntax))
    }
}

/// Whether the path ends with a selection.
fn ends_selected(path: &Path) -> bool
    ensures ends { result ≡ ends_selected false path.now }
    ensures path { IsPath path.now }
{
    let elements = path.elements();
    let mut after = false;
    for element in elements {
        after = matches!(element, Element::Selection { .. });
    }
    after
}

/// The text of a path, to which more is added.
#[tactic(auto, using(crate::proofs::Below::printed_some))]
fn owner_text(alloc: Global, owner: &Path) -> Result<Text, AllocError>
    ensures { IfOk result (λ text. text ≡ written_all false owner.now) }
{
    if owner.is_root() {
        Ok(Text::new(alloc))
    } else {
        Ok(Text::from_string(owner.print()?))
    }
}

fn push_prim(text: &mut Text, after: bool, name: &str) -> Result<(), AllocError>
    ensures { OnOk result (text.new ≡ text.old ++ written after (Element.Prim name.now)) }
{
    if !after {
        text.push('/')?;
    }
    text.push_str(name)
}

fn push_selection(text: &mut Text, set: &str, variant: &str) -> Result<(), AllocError>
    ensures { OnOk result (text.new ≡ text.old ++ written false (Element.Selection set.now variant.now)) }
{
    text.push('{')?;
    text.push_str(set)?;
    text.push('=')?;
    text.push_str(variant)?;
    text.push('}')
}

/// The text of the path of a prim below its owner.
#[tactic(auto, using(crate::proofs::Below::printed_more))]
fn prim_text(alloc: Global, owner: &Path, name: &str) -> Result<Text, AllocError>
    ensures text { IfOk result (λ text. text ≡ printed (owner.now ++ Element.Prim name.now ∷ [])) }
    ensures path { OnOk result (IsPath owner.now) }
{
    let mut text = owner_text(alloc, owner)?;
    push_prim(&mut text, ends_selected(owner), name)?;
    Ok(text)
}

fn prim_path(alloc: Global, owner: &Path, name: &str) -> Result<Option<Path>, PartFault>
    requires owner { is_property owner.now ≡ false }
    requires name { is_identifier name.now ≡ true }
    ensures { Gives result (prim_path owner.now name.now) }
{
    if prim_text(alloc, owner, name)?.len() > MAX_BYTES {
        return Err(PartFault::Refused(RefusalKind::TooLong));
    }
    if owner.depth() >= MAX_NAMES {
        return Ok(None);
    }
    match owner.append(name) {
        Ok(path) => Ok(Some(path)),
        Err(PathFault::Bad { .. }) => unreachable!(),
        Err(PathFault::NoMemory) => Err(PartFault::NoMemory),
    }
}

/// The path of a prim below its owner; nothing where it would be a 65th prim inside each other. `TooLong` where it has more than 4,096
/// bytes in print, `Syntax` where the name is no identifier or the owner a property.
pub fn prim_below(alloc: Global, owner: &Path, name: &str) -> Result<Option<Path>, PartFault>
    ensures { Gives result (prim_below owner.now name.now) }
{
    if owner.is_property() || !is_identifier(name) {
        return Err(PartFault::Refused(RefusalKind::Syntax));
    }
    prim_path(alloc, owner, name)
}

/// The text of the path of a variant.
#[tactic(auto, using(crate::proofs::Below::printed_more))]
fn variant_text(alloc: Global, owner: &Path, set: &str, variant: &str) -> Result<Text, AllocError>
    ensures text { IfOk result (λ text. text ≡ printed (owner.now ++ Element.Selection set.now variant.now ∷ [])) }
    ensures path { OnOk result (IsPath owner.now) }
{
    let _ends_selected = ends_selected(owner);
    let mut text = owner_text(alloc, owner)?;
    push_selection(&mut text, set, variant)?;
    Ok(text)
}

fn variant_path(alloc: Global, owner: &Path, set: &str, variant: &str) -> Result<Path, PartFault>
    requires owner { has_variants owner.now ≡ true }
    requires set { is_identifier set.now ≡ true }
    requires variant { is_variant variant.now ≡ true }
    ensures { Gives result (variant_path owner.now set.now variant.now) }
{
    let text = variant_text(alloc, owner, set, variant)?;
    if text.len() > MAX_BYTES {
        return Err(PartFault::Refused(RefusalKind::TooLong));
    }
    match Path::parse(alloc, text.as_str()) {
        Ok(path) => Ok(path),
        Err(PathFault::Bad { .. }) => unreachable!(),
        Err(PathFault::NoMemory) => Err(PartFault::NoMemory),
    }
}

fn has_variants(owner: &Path) -> bool
    ensures { result ≡ has_variants owner.now }
{
    !owner.is_root() && !owner.is_property()
}

/// The path of a variant of an owner. `TooLong` where it has more than 4,096 bytes in print, `Syntax` where the set or the variant has
/// not its form, or the owner is `/` or a property.
pub fn variant_below(
    alloc: Global,
    owner: &Path,
    set: &str,
    variant: &str,
) -> Result<Path, PartFault>
    ensures { Gives result (variant_below owner.now set.now variant.now) }
{
    if has_variants(owner) && is_identifier(set) && is_variant(variant) {
        variant_path(alloc, owner, set, variant)
    } else {
        Err(PartFault::Refused(RefusalKind::Syntax))
    }
}
