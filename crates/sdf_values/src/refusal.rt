/// Why a layer's text is refused.
#[derive(Clone, Copy, Debug, PartialEq, Eq)]
pub enum RefusalKind {
    /// A layer of more than 67,108,864 bytes, or an owner's path of more than 4,096.
    TooLong,
    /// The bytes of a binary layer.
    Crate,
    /// The bytes of a package of layers.
    Package,
    /// Bytes, of the layer or of a string's escapes, that are not UTF-8.
    NotUtf8,
    /// The first line is not that of a text layer.
    BadHeader,
    /// A token, or the end of the text, with which no layer's text goes on; edits beside an explicit list.
    Syntax,
    /// A number of more than 34 digits or with an exponent beyond 400.
    NumberTooLong,
    /// A type that there is not.
    UnknownType,
    /// A value that the type, the key or the dictionary cannot take there.
    ValueShape,
    /// A time more than 10^12 away from 0 or with more than 18 decimals.
    TimeRange,
    /// An offset or a scale out of its bounds.
    OffsetRange,
    /// A second one of what an owner has once.
    DuplicateSpec,
    /// The key `relocates`.
    Relocates,
    /// A spline.
    Spline,
    /// Another key than `offset` and `scale` on a reference, a payload or a sublayer.
    ReferenceData,
    /// More than 64 nested prims or values.
    TooDeep,
}
