//! What is expected of a value at its place.
ghost use Rattle.std.specs.Prelude.{◌≡◌};
ghost use Rattle.sdf_values.specs.Conforms.{members_of, one};
ghost use Rattle.usda_values.specs.Shapes.{entry_shape, tuple_members, array_members, takes_dictionary};

use sdf_values::{DictType, TypeName, members_of};

/// What a value is to be.
#[derive(Clone, Copy, Debug, PartialEq, Eq)]
pub enum Shape {
    /// Any value; a number is whole where it is written without a point and an exponent and is within 128 signed bits.
    Untyped,
    /// Any value; a number is whole where its value is and is within 128 signed bits.
    Metadata,
    /// A value of this type.
    Typed(TypeName),
    /// A dictionary.
    Dictionary,
}

/// What an entry of a dictionary expects.
pub fn entry_shape(ty: DictType) -> Shape
    ensures { result ≡ entry_shape ty }
{
    match ty {
        DictType::Plain(ty) => Shape::Typed(ty),
        DictType::Dictionary => Shape::Dictionary,
    }
}

/// What the members of a tuple are to be, and how many; nothing where no tuple can stand there.
pub fn tuple_members(shape: Shape) -> Option<(Shape, Option<usize>)>
    ensures { result ≡ tuple_members shape }
{
    match shape {
        Shape::Untyped | Shape::Metadata => Some((shape, None)),
        Shape::Typed(ty) => {
            if ty.array {
                return None;
            }
            match members_of(ty.element) {
                Some((member, count)) => Some((Shape::Typed(TypeName::one(member)), Some(count))),
                None => None,
            }
        }
        Shape::Dictionary => None,
    }
}

/// What the members of an array are to be; nothing where no array can stand there.
pub fn array_members(shape: Shape) -> Option<(Shape, Option<usize>)>
    ensures { result ≡ array_members shape }
{
    match shape {
        Shape::Untyped | Shape::Metadata => Some((shape, None)),
        Shape::Typed(ty) => {
            if ty.array {
                Some((Shape::Typed(TypeName::one(ty.element)), None))
            } else {
                None
            }
        }
        Shape::Dictionary => None,
    }
}

/// Whether a dictionary can stand there.
pub fn takes_dictionary(shape: Shape) -> bool
    ensures { result ≡ takes_dictionary shape }
{
    match shape {
        Shape::Typed(_) => false,
        _ => true,
    }
}
