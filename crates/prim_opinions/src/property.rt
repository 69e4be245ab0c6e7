ghost use Rattle.std.specs.Prelude.{◌≡◌};

use crate::said::SaidAt;
use spec_properties::Property;
use std::marker::Model;

/// A property of one name, as one layer has it at one site.
#[derive(Drop)]
pub struct PropertyAt<'o, 'w, 's> {
    said: &'o SaidAt<'w, 's>,
    property: &'w Property,
}

impl<'o, 'w, 's> Model for PropertyAt<'o, 'w, 's> {
    ghost use Rattle.composition.specs.Values.{PropertySaid};
    ghost use Rattle.std.specs.Coded.{codes};
    ghost use Rattle.prim_view.specs.contracts.site.Site as of_site;
    ghost use Rattle.spec_parts.specs.contracts.spec.Spec as of_spec;
    ghost use Rattle.spec_properties.specs.contracts.property.Property as of_property;

    ghost Value = { PropertySaid };

    ghost coded = { Prim.hlevel (codes, of_site.the_row.coded, of_spec.the_row.coded, of_property.the_row.coded) };

    ghost view = { λ p. record { said = p.said.now; property = p.property.now } };
}

impl<'o, 'w, 's> PropertyAt<'o, 'w, 's> {
    /// A property of what a layer says at a site.
    pub fn new(said: &'o SaidAt<'w, 's>, property: &'w Property) -> PropertyAt<'o, 'w, 's>
        ensures { result ≡ record { said = said.now; property = property.now } }
    {
        PropertyAt { said, property }
    }

    /// What the layer says there.
    pub fn said(&self) -> &'o SaidAt<'w, 's>
        ensures { result.now ≡ self.now.said }
    {
        self.said
    }

    /// What it says of the property.
    pub fn property(&self) -> &'w Property
        ensures { result.now ≡ self.now.property }
    {
        self.property
    }
}
