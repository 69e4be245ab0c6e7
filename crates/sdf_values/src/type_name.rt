ghost use Rattle.std.specs.Prelude.{◌≡◌, ◌≢◌, IfSome, IsNone, Some};
ghost use Rattle.sdf_values.specs.Conforms.{one};
ghost use Rattle.sdf_values.specs.TypeNames.{element_name, find_element};
ghost use Rattle.sdf_values.specs.declared.type_name.ElementType.{ElementType};
ghost use Rattle.sdf_values.specs.declared.type_name.TypeName.{TypeName};

/// How finely a floating-point number is meant to be kept. Numbers are kept exactly whichever it is.
#[derive(Clone, Copy, Debug, PartialEq, Eq)]
pub enum Precision {
    /// `half`: 16 bits.
    Half,
    /// `float`: 32 bits.
    Float,
    /// `double`: 64 bits.
    Double,
}

/// How many numbers a tuple has.
#[derive(Clone, Copy, Debug, PartialEq, Eq)]
pub enum Width {
    /// Two.
    Two,
    /// Three.
    Three,
    /// Four.
    Four,
}

/// What a tuple of numbers means.
#[derive(Clone, Copy, Debug, PartialEq, Eq)]
pub enum Role {
    /// `point3`: a point in space.
    Point3,
    /// `vector3`: a direction with a length.
    Vector3,
    /// `normal3`: what stands upright on a surface.
    Normal3,
    /// `color3`: red, green and blue.
    Color3,
    /// `color4`: red, green, blue and opacity.
    Color4,
    /// `texCoord2`: a place in a texture of two dimensions.
    TexCoord2,
    /// `texCoord3`: a place in a texture of three dimensions.
    TexCoord3,
    /// `quat`: a quaternion, of four numbers.
    Quat,
}

/// A square of numbers, as a tuple of rows.
#[derive(Clone, Copy, Debug, PartialEq, Eq)]
pub enum Matrix {
    /// `matrix2d`: two rows of two.
    Matrix2,
    /// `matrix3d`: three rows of three.
    Matrix3,
    /// `matrix4d`: four rows of four.
    Matrix4,
    /// `frame4d`: four rows of four, which say a coordinate frame.
    Frame4,
}

/// The type of one value that is no array.
#[derive(Clone, Copy, Debug, PartialEq, Eq)]
pub enum ElementType {
    /// `bool`: true or false.
    Bool,
    /// `uchar`: a whole number of 8 bits, from 0.
    Uchar,
    /// `int`: a whole number of 32 bits with a sign.
    Int,
    /// `uint`: a whole number of 32 bits, from 0.
    Uint,
    /// `int64`: a whole number of 64 bits with a sign.
    Int64,
    /// `uint64`: a whole number of 64 bits, from 0.
    Uint64,
    /// `half`, `float` or `double`.
    Real(Precision),
    /// `timecode`: a time, which the offsets of layers move.
    Timecode,
    /// `string`: a text.
    String,
    /// `token`: a text that is a name or a word.
    Token,
    /// `asset`: the name of a layer or of another file, as it is written.
    Asset,
    /// Two to four whole numbers, as `int3`.
    Ints(Width),
    /// Two to four numbers, as `double3`.
    Reals(Precision, Width),
    /// Numbers with a meaning, as `color3f`.
    Role(Role, Precision),
    /// A square of numbers, as `matrix4d`.
    Matrix(Matrix),
}

/// The type of a value: that of one element, or of an array of them.
#[derive(Clone, Copy, Debug, PartialEq, Eq)]
pub struct TypeName {
    /// The type of one element.
    pub element: ElementType,
    /// Whether a value is an array of such elements.
    pub array: bool,
}

impl ElementType {
    /// The name that a layer writes.
    pub fn name(self) -> &'static str
        ensures { result.now ≡ element_name self }
    {
        match self {
            ElementType::Bool => "bool",
            ElementType::Uchar => "uchar",
            ElementType::Int => "int",
            ElementType::Uint => "uint",
            ElementType::Int64 => "int64",
            ElementType::Uint64 => "uint64",
            ElementType::Real(precision) => real_name(precision),
            ElementType::Timecode => "timecode",
            ElementType::String => "string",
            ElementType::Token => "token",
            ElementType::Asset => "asset",
            ElementType::Ints(width) => ints_name(width),
            ElementType::Reals(precision, width) => reals_name(precision, width),
            ElementType::Role(role, precision) => role_name(role, precision),
            ElementType::Matrix(matrix) => matrix_name(matrix),
        }
    }
}

fn real_name(precision: Precision) -> &'static str
    ensures { result.now ≡ element_name (ElementType.Real precision) }
{
    match precision {
        Precision::Half => "half",
        Precision::Float => "float",
        Precision::Double => "double",
    }
}

fn ints_name(width: Width) -> &'static str
    ensures { result.now ≡ element_name (ElementType.Ints width) }
{
    match width {
        Width::Two => "int2",
        Width::Three => "int3",
        Width::Four => "int4",
    }
}

fn matrix_name(matrix: Matrix) -> &'static str
    ensures { result.now ≡ element_name (ElementType.Matrix matrix) }
{
    match matrix {
        Matrix::Matrix2 => "matrix2d",
        Matrix::Matrix3 => "matrix3d",
        Matrix::Matrix4 => "matrix4d",
        Matrix::Frame4 => "frame4d",
    }
}

fn reals_name(precision: Precision, width: Width) -> &'static str
    ensures { result.now ≡ element_name (ElementType.Reals precision width) }
{
    match (precision, width) {
        (Precision::Half, Width::Two) => "half2",
        (Precision::Half, Width::Three) => "half3",
        (Precision::Half, Width::Four) => "half4",
        (Precision::Float, Width::Two) => "float2",
        (Precision::Float, Width::Three) => "float3",
        (Precision::Float, Width::Four) => "float4",
        (Precision::Double, Width::Two) => "double2",
        (Precision::Double, Width::Three) => "double3",
        (Precision::Double, Width::Four) => "double4",
    }
}

fn role_name(role: Role, precision: Precision) -> &'static str
    ensures { result.now ≡ element_name (ElementType.Role role precision) }
{
    match precision {
        Precision::Half => half_role_name(role),
        Precision::Float => float_role_name(role),
        Precision::Double => double_role_name(role),
    }
}

fn half_role_name(role: Role) -> &'static str
    ensures { result.now ≡ element_name (ElementType.Role role Precision.Half) }
{
    match role {
        Role::Point3 => "point3h",
        Role::Vector3 => "vector3h",
        Role::Normal3 => "normal3h",
        Role::Color3 => "color3h",
        Role::Color4 => "color4h",
        Role::TexCoord2 => "texCoord2h",
        Role::TexCoord3 => "texCoord3h",
        Role::Quat => "quath",
    }
}

fn float_role_name(role: Role) -> &'static str
    ensures { result.now ≡ element_name (ElementType.Role role Precision.Float) }
{
    match role {
        Role::Point3 => "point3f",
        Role::Vector3 => "vector3f",
        Role::Normal3 => "normal3f",
        Role::Color3 => "color3f",
        Role::Color4 => "color4f",
        Role::TexCoord2 => "texCoord2f",
        Role::TexCoord3 => "texCoord3f",
        Role::Quat => "quatf",
    }
}

fn double_role_name(role: Role) -> &'static str
    ensures { result.now ≡ element_name (ElementType.Role role Precision.Double) }
{
    match role {
        Role::Point3 => "point3d",
        Role::Vector3 => "vector3d",
        Role::Normal3 => "normal3d",
        Role::Color3 => "color3d",
        Role::Color4 => "color4d",
        Role::TexCoord2 => "texCoord2d",
        Role::TexCoord3 => "texCoord3d",
        Role::Quat => "quatd",
    }
}

impl TypeName {
    /// The type of one element, which is no array.
    pub fn one(element: ElementType) -> TypeName
        ensures { result ≡ one element }
    {
        TypeName {
            element,
            array: false,
        }
    }

    /// The type of that name, or of arrays of it; `None` exactly where there is no type of that name. No two types have
    /// one name, so a type is found by its own.
    pub fn find(name: &str, array: bool) -> Option<TypeName>
        ensures found { IfSome result (λ t. (element_name t.element ≡ name.now) × (t.array ≡ array)) }
        ensures own { (t : TypeName) → element_name t.element ≡ name.now → t.array ≡ array → result ≡ Some t }
        // `None` only where no type has the name
        ensures none { IsNone result → (e : ElementType) → element_name e ≢ name.now }
    {
        let element = find_element(&ELEMENTS, name)?;
        Some(TypeName { element, array })
    }
}

/// The first of the types of one element that has the name.
pub fn find_element(elements: &[ElementType], name: &str) -> Option<ElementType>
    ensures { result ≡ find_element elements.now name.now }
{
    for element in elements {
        if element.name() == name {
            return Some(*element);
        }
    }
    None
}

/// Every type of one element.
pub static ELEMENTS: [ElementType; 53] = [
    ElementType::Bool,
    ElementType::Uchar,
    ElementType::Int,
    ElementType::Uint,
    ElementType::Int64,
    ElementType::Uint64,
    ElementType::Real(Precision::Half),
    ElementType::Real(Precision::Float),
    ElementType::Real(Precision::Double),
    ElementType::Timecode,
    ElementType::String,
    ElementType::Token,
    ElementType::Asset,
    ElementType::Ints(Width::Two),
    ElementType::Ints(Width::Three),
    ElementType::Ints(Width::Four),
    ElementType::Reals(Precision::Half, Width::Two),
    ElementType::Reals(Precision::Half, Width::Three),
    ElementType::Reals(Precision::Half, Width::Four),
    ElementType::Reals(Precision::Float, Width::Two),
    ElementType::Reals(Precision::Float, Width::Three),
    ElementType::Reals(Precision::Float, Width::Four),
    ElementType::Reals(Precision::Double, Width::Two),
    ElementType::Reals(Precision::Double, Width::Three),
    ElementType::Reals(Precision::Double, Width::Four),
    ElementType::Role(Role::Point3, Precision::Half),
    ElementType::Role(Role::Point3, Precision::Float),
    ElementType::Role(Role::Point3, Precision::Double),
    ElementType::Role(Role::Vector3, Precision::Half),
    ElementType::Role(Role::Vector3, Precision::Float),
    ElementType::Role(Role::Vector3, Precision::Double),
    ElementType::Role(Role::Normal3, Precision::Half),
    ElementType::Role(Role::Normal3, Precision::Float),
    ElementType::Role(Role::Normal3, Precision::Double),
    ElementType::Role(Role::Color3, Precision::Half),
    ElementType::Role(Role::Color3, Precision::Float),
    ElementType::Role(Role::Color3, Precision::Double),
    ElementType::Role(Role::Color4, Precision::Half),
    ElementType::Role(Role::Color4, Precision::Float),
    ElementType::Role(Role::Color4, Precision::Double),
    ElementType::Role(Role::TexCoord2, Precision::Half),
    ElementType::Role(Role::TexCoord2, Precision::Float),
    ElementType::Role(Role::TexCoord2, Precision::Double),
    ElementType::Role(Role::TexCoord3, Precision::Half),
    ElementType::Role(Role::TexCoord3, Precision::Float),
    ElementType::Role(Role::TexCoord3, Precision::Double),
    ElementType::Role(Role::Quat, Precision::Half),
    ElementType::Role(Role::Quat, Precision::Float),
    ElementType::Role(Role::Quat, Precision::Double),
    ElementType::Matrix(Matrix::Matrix2),
    ElementType::Matrix(Matrix::Matrix3),
    ElementType::Matrix(Matrix::Matrix4),
    ElementType::Matrix(Matrix::Frame4),
];
