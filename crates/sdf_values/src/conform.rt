//! Which values a type takes.
ghost use Rattle.std.specs.Prelude.{◌≡◌, map};
ghost use Rattle.sdf_values.specs.Conforms.{conforms, holds, all_hold, is_block, count_of, role_width, matrix_width, whole_bounds, is_between, members_of, are_members, one};

use crate::type_name::{ElementType, Matrix, Precision, Role, TypeName, Width};
use crate::value::{DictItem, Value};

/// Whether the value is one of the type. The block stands for a value of any type, and does not stand inside a value.
pub fn conforms(ty: TypeName, v: &Value) -> bool
    ensures { result ≡ conforms v.now ty }
{
    v.is_block() || holds(ty, v)
}

impl Value {
    /// Whether this is `None`.
    pub fn is_block(&self) -> bool
        ensures { result ≡ is_block self.now }
    {
        is_block(self)
    }
}

fn is_block(value: &Value) -> bool
    ensures { result ≡ is_block value.now }
{
    match value {
        Value::Block => true,
        _ => false,
    }
}

#[cycle(holds)]
fn holds(ty: TypeName, value: &Value) -> bool
    ensures { result ≡ holds value.now ty }
{
    match value {
        Value::Array(items) => ty.array && all_hold(TypeName::one(ty.element), items.as_slice()),
        Value::Tuple(items) => !ty.array && are_members(ty.element, items.as_slice()),
        Value::Bool(_) => !ty.array && matches!(ty.element, ElementType::Bool),
        Value::Whole(n) => !ty.array && is_between(ty.element, *n),
        Value::Number(_) => !ty.array && matches!(ty.element, ElementType::Real(_)),
        Value::Time(_) => !ty.array && matches!(ty.element, ElementType::Timecode),
        Value::Text(_) => {
            !ty.array && matches!(ty.element, ElementType::String | ElementType::Token)
        }
        Value::Asset(_) => !ty.array && matches!(ty.element, ElementType::Asset),
        _ => false,
    }
}

#[cycle(holds)]
fn are_members(element: ElementType, values: &[Value]) -> bool
    ensures { result ≡ are_members (members_of element) (map holds values.now) }
{
    match members_of(element) {
        None => false,
        Some((member, count)) => values.len() == count && all_hold(TypeName::one(member), values),
    }
}

#[cycle(holds)]
fn all_hold(ty: TypeName, values: &[Value]) -> bool
    ensures { result ≡ all_hold (map holds values.now) ty }
{
    for value in values {
        if !holds(ty, value) {
            return false;
        }
    }
    true
}

/// Whether a whole number is one that the type holds; false for a type that holds other values.
pub fn is_between(element: ElementType, n: i128) -> bool
    ensures { result ≡ is_between (whole_bounds element) n }
{
    match whole_bounds(element) {
        None => false,
        Some((least, most)) => least <= n && n <= most,
    }
}

fn whole_bounds(element: ElementType) -> Option<(i128, i128)>
    ensures { result ≡ whole_bounds element }
{
    match element {
        ElementType::Uchar => Some((0, 255)),
        ElementType::Int => Some((-2_147_483_648, 2_147_483_647)),
        ElementType::Uint => Some((0, 4_294_967_295)),
        ElementType::Int64 => Some((-9_223_372_036_854_775_808, 9_223_372_036_854_775_807)),
        ElementType::Uint64 => Some((0, 18_446_744_073_709_551_615)),
        _ => None,
    }
}

/// What the members of a tuple type are, and how many; nothing where the type is none of tuples. A matrix is a tuple of its rows.
pub fn members_of(element: ElementType) -> Option<(ElementType, usize)>
    ensures { result ≡ members_of element }
{
    match element {
        ElementType::Ints(width) => Some((ElementType::Int, count_of(width))),
        ElementType::Reals(precision, width) => {
            Some((ElementType::Real(precision), count_of(width)))
        }
        ElementType::Role(role, precision) => {
            Some((ElementType::Real(precision), count_of(role_width(role))))
        }
        ElementType::Matrix(matrix) => {
            let width = matrix_width(matrix);
            Some((
                ElementType::Reals(Precision::Double, width),
                count_of(width),
            ))
        }
        _ => None,
    }
}

fn count_of(width: Width) -> usize
    ensures { result ≡ count_of width }
{
    match width {
        Width::Two => 2,
        Width::Three => 3,
        Width::Four => 4,
    }
}

fn role_width(role: Role) -> Width
    ensures { result ≡ role_width role }
{
    match role {
        Role::TexCoord2 => Width::Two,
        Role::Color4 | Role::Quat => Width::Four,
        _ => Width::Three,
    }
}

fn matrix_width(matrix: Matrix) -> Width
    ensures { result ≡ matrix_width matrix }
{
    match matrix {
        Matrix::Matrix2 => Width::Two,
        Matrix::Matrix3 => Width::Three,
        Matrix::Matrix4 | Matrix::Frame4 => Width::Four,
    }
}
