ghost use Rattle.std.specs.Prelude.{◌≡◌, ◌↔◌, IsTrue};
ghost use Rattle.spec_properties.specs.Properties.{property_name, blank_relationship};

use crate::small::{Meta, Samples};
use list_ops::ListOp;
use plain_data::{ExactClone, ExactEq, Text, copy_three, same};
use sdf_paths::Path;
use sdf_values::{TypeName, Value};
use spec_tables::OrderedTable;
use std::alloc::{AllocError, Global};

/// What a spec says of one of its properties.
#[derive(Debug, Drop)]
pub enum Property {
    /// An attribute.
    Attr {
        /// Its name.
        name: Text,
        /// The type of its values.
        ty: TypeName,
        /// Whether the spec says `custom`.
        custom: bool,
        /// Whether the spec says `uniform`: the value is meant to be one for all times.
        uniform: bool,
        /// The default, where one is given; a block is one.
        default: Option<Value>,
        /// The samples by time.
        samples: Samples,
        /// The edits of its connections.
        connections: ListOp<Path>,
        /// The other metadata, by key.
        meta: Meta,
    },
    /// A relationship.
    Rel {
        /// Its name.
        name: Text,
        /// Whether the spec says `custom`.
        custom: bool,
        /// The edits of its targets.
        targets: ListOp<Path>,
        /// The other metadata, by key.
        meta: Meta,
    },
}

impl Property {
    /// The name of the property.
    pub fn name(&self) -> &Text
        ensures { result.now ≡ property_name self.now }
    {
        match self {
            Property::Attr { name, .. } => name,
            Property::Rel { name, .. } => name,
        }
    }

    /// The relationship of this name that says nothing. Takes no memory.
    pub fn blank_relationship(alloc: Global, name: Text) -> Property
        ensures { result ≡ blank_relationship name }
    {
        Property::Rel {
            name,
            custom: false,
            targets: ListOp::new(alloc),
            meta: OrderedTable::new(alloc),
        }
    }
}

impl Clone for Property {
    ghost use Rattle.std.specs.Prelude.{◌≡◌};

    ghost is_clone = { λ x y. y ≡ x };

    fn clone(&self) -> Result<Property, AllocError> {
        match self {
            Property::Attr {
                name,
                ty,
                custom,
                uniform,
                default,
                samples,
                connections,
                meta,
            } => {
                let (name, default, samples) = copy_three(name, default, samples)?;
                match copy_three(ty, connections, meta) {
                    Ok((ty, connections, meta)) => Ok(Property::Attr {
                        name,
                        ty,
                        custom: *custom,
                        uniform: *uniform,
                        default,
                        samples,
                        connections,
                        meta,
                    }),
                    Err(error) => {
                        drop((name, default, samples));
                        Err(error)
                    }
                }
            }
            Property::Rel {
                name,
                custom,
                targets,
                meta,
            } => {
                let (name, targets, meta) = copy_three(name, targets, meta)?;
                Ok(Property::Rel {
                    name,
                    custom: *custom,
                    targets,
                    meta,
                })
            }
        }
    }
}

impl ExactClone for Property {
    ghost copy_is_same = { λ x y h. h };
}

impl PartialEq for Property {
    ghost use Rattle.std.specs.Cmp.{partial_equiv_from_equiv};
    ghost use Rattle.sdf_values.specs.Equality.{same_value, value_equiv};
    ghost use Rattle.spec_properties.specs.contracts.property.Property.{the_row};

    ghost eq = { same_value the_row.coded };

    ghost laws = { partial_equiv_from_equiv (value_equiv the_row.coded) };

    fn eq(&self, other: &Self) -> bool {
        same_property(self, other)
    }
}

impl Eq for Property {
    ghost use Rattle.sdf_values.specs.Equality.{value_equiv};
    ghost use Rattle.spec_properties.specs.contracts.property.Property.{the_row};

    ghost laws = { value_equiv the_row.coded };
}

impl ExactEq for Property {
    ghost use Rattle.sdf_values.specs.Equality.{value_same};
    ghost use Rattle.spec_properties.specs.contracts.property.Property.{the_row};

    ghost equal_is_same = { value_same the_row.coded };
}

/// Whether the two are one, field by field.
fn same_property(a: &Property, b: &Property) -> bool
    ensures { IsTrue result ↔ (a.now ≡ b.now) }
{
    match a {
        Property::Attr {
            name,
            ty,
            custom,
            uniform,
            default,
            samples,
            connections,
            meta,
        } => match b {
            Property::Attr {
                name: name_b,
                ty: ty_b,
                custom: custom_b,
                uniform: uniform_b,
                default: default_b,
                samples: samples_b,
                connections: connections_b,
                meta: meta_b,
            } => {
                same(name, name_b)
                    && same(ty, ty_b)
                    && custom == custom_b
                    && uniform == uniform_b
                    && same(default, default_b)
                    && same(samples, samples_b)
                    && same(connections, connections_b)
                    && same(meta, meta_b)
            }
            Property::Rel { .. } => false,
        },
        Property::Rel {
            name,
            custom,
            targets,
            meta,
        } => match b {
            Property::Attr { .. } => false,
            Property::Rel {
                name: name_b,
                custom: custom_b,
                targets: targets_b,
                meta: meta_b,
            } => {
                same(name, name_b)
                    && custom == custom_b
                    && same(targets, targets_b)
                    && same(meta, meta_b)
            }
        },
    }
}
