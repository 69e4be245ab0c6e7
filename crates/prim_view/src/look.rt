//! Looking at a composed prim.
ghost use Rattle.std.specs.Prelude.{◌≡◌};
ghost use Rattle.std.specs.Option.{option_copied};
ghost use Rattle.prim_view.specs.Looks.{view_name, property_of};

use crate::view::{PrimView, PropertyView};
use plain_data::Text;

impl PropertyView {
    /// The name of the property.
    pub fn name(&self) -> &Text
        ensures { result.now ≡ view_name self.now }
    {
        match self {
            PropertyView::Attr { name, .. } => name,
            PropertyView::Rel { name, .. } => name,
        }
    }
}

/// The first property of this name.
fn property_named<'v>(properties: &'v [PropertyView], name: &str) -> Option<&'v PropertyView>
    ensures { option_copied result ≡ property_of name.now properties.now }
{
    for property in properties {
        if property.name().as_str() == name {
            return Some(property);
        }
    }
    None
}

impl PrimView {
    /// The property of this name.
    pub fn property(&self, name: &str) -> Option<&PropertyView>
        ensures { option_copied result ≡ property_of name.now self.now.properties }
    {
        property_named(self.properties.as_slice(), name)
    }
}
