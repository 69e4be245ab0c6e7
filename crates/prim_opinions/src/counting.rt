//! The specs of a property that count.
ghost use Rattle.std.specs.Prelude.{◌≡◌, ◌↔◌, IsTrue, IfOk, OnOk};
ghost use Rattle.sdf_values.specs.TypeNames.{type_text};
ghost use Rattle.spec_properties.specs.Properties.{property_at};
ghost use Rattle.composition.specs.Texts.{same_text};
ghost use Rattle.composition.specs.Values.{same_sort};
ghost use Rattle.prim_opinions.specs.Counting.{counts, with_counting, with_property_of, counted};

use crate::property::PropertyAt;
use crate::said::SaidAt;
use plain_data::{Items, Text};
use sdf_values::TypeName;
use spec_properties::Property;
use std::alloc::{AllocError, Global};

/// Whether two types have one name.
fn same_type(a: TypeName, b: TypeName) -> bool
    ensures { result ≡ same_text (type_text a) (type_text b) }
{
    if a.array != b.array {
        return false;
    }
    same_words(a.element.name(), b.element.name())
}

fn same_words(a: &str, b: &str) -> bool
    ensures { IsTrue result ↔ (a.now ≡ b.now) }
{
    a == b
}

/// Whether two properties are of one kind: two relationships, or two attributes of one type.
fn same_sort(a: &Property, b: &Property) -> bool
    ensures { result ≡ same_sort a.now b.now }
{
    match a {
        Property::Attr { ty: a, .. } => match b {
            Property::Attr { ty: b, .. } => same_type(*a, *b),
            Property::Rel { .. } => false,
        },
        Property::Rel { .. } => match b {
            Property::Attr { .. } => false,
            Property::Rel { .. } => true,
        },
    }
}

/// Whether a property counts beside stronger ones.
fn counts(stronger: &[PropertyAt<'_, '_, '_>], property: &Property) -> bool
    ensures { result ≡ counts stronger.now property.now }
{
    match stronger.first() {
        Some(strongest) => same_sort(strongest.property(), property),
        None => true,
    }
}

/// Appends a property if it counts beside those that are there.
fn push_if_counts<'o, 'w, 's>(
    out: &mut Items<PropertyAt<'o, 'w, 's>>,
    said: &'o SaidAt<'w, 's>,
    property: &'w Property,
) -> Result<(), AllocError>
    ensures { OnOk result (out.new ≡ with_counting out.old (record { said = said.now; property = property.now })) }
{
    if counts(out.as_slice(), property) {
        out.push(PropertyAt::new(said, property))?;
    }
    Ok(())
}

/// Appends the property of a name that a layer has at a site, if there is one and it counts.
fn push_property_of<'o, 'w, 's>(
    out: &mut Items<PropertyAt<'o, 'w, 's>>,
    name: &Text,
    said: &'o SaidAt<'w, 's>,
) -> Result<(), AllocError>
    ensures { OnOk result (out.new ≡ with_property_of out.old said.now (property_at name.now said.now.spec.body.properties)) }
{
    match said.spec().body.properties.get(name) {
        Some(property) => push_if_counts(out, said, property),
        None => Ok(()),
    }
}

/// The specs of a property that count: those of the kind and type of the strongest.
///
/// # Errors
///
/// Memory ran out.
pub fn specs_of<'o, 'w, 's>(
    alloc: Global,
    name: &Text,
    said: &'o [SaidAt<'w, 's>],
) -> Result<Items<PropertyAt<'o, 'w, 's>>, AllocError>
    ensures { IfOk result (λ specs. specs ≡ counted name.now said.now) }
{
    let mut specs = Items::new(alloc);
    for opinion in said {
        push_property_of(&mut specs, name, opinion)?;
    }
    Ok(specs)
}
