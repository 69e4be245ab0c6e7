//! Kinds of paths.
ghost use Rattle.std.specs.Prelude.{◌≡◌};
ghost use Rattle.sdf_paths.specs.Paths.{IsPath};
ghost use Rattle.layer_edit.specs.Places.{is_prim_path, is_variant_path, is_spec_path, is_property_path, is_plain_prim};

use sdf_paths::{Element, Path};

/// Whether a path ends in the name of a prim.
pub fn is_prim_path(path: &Path) -> bool
    ensures { result ≡ is_prim_path path.now }
{
    match path.elements().last() {
        Some(Element::Prim(_)) => true,
        Some(Element::Property(_)) => false,
        Some(Element::Selection { .. }) => false,
        None => false,
    }
}

/// Whether a path ends in the selection of a variant.
pub fn is_variant_path(path: &Path) -> bool
    ensures { result ≡ is_variant_path path.now }
{
    match path.elements().last() {
        Some(Element::Prim(_)) => false,
        Some(Element::Property(_)) => false,
        Some(Element::Selection { .. }) => true,
        None => false,
    }
}

/// Whether a path is that of a prim or of a variant.
pub fn is_spec_path(path: &Path) -> bool
    ensures { result ≡ is_spec_path path.now }
{
    match path.elements().last() {
        Some(Element::Prim(_)) => true,
        Some(Element::Property(_)) => false,
        Some(Element::Selection { .. }) => true,
        None => false,
    }
}

/// Whether a path ends in the name of a property.
pub fn is_property_path(path: &Path) -> bool
    ensures { result ≡ is_property_path path.now }
{
    match path.elements().last() {
        Some(Element::Prim(_)) => false,
        Some(Element::Property(_)) => true,
        Some(Element::Selection { .. }) => false,
        None => false,
    }
}

/// Whether a path is a plain prim path: neither `/` nor a property's, without selections.
pub fn is_plain_prim(path: &Path) -> bool
    ensures { result ≡ is_plain_prim path.now }
{
    !path.is_root() && !path.is_property() && path.is_plain()
}

/// A path is one by its rules.
pub fn follows_rules(path: &Path)
    ensures { IsPath path.now }
{
    let _elements = path.elements();
}
