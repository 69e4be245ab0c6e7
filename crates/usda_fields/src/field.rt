//! The fields that are edited by lists.
ghost use Rattle.std.specs.Prelude.{◌≡◌};
ghost use Rattle.usda_fields.specs.Fields.{path_field, reference_field, text_field};

/// A field whose items are paths.
#[derive(Clone, Copy, Debug, PartialEq, Eq)]
pub enum PathField {
    /// `inherits`.
    Inherits,
    /// `specializes`.
    Specializes,
}

/// A field whose items are references.
#[derive(Clone, Copy, Debug, PartialEq, Eq)]
pub enum ReferenceField {
    /// `references`.
    References,
    /// `payload`.
    Payload,
}

/// A field whose items are texts.
#[derive(Clone, Copy, Debug, PartialEq, Eq)]
pub enum TextField {
    /// `variantSets`.
    VariantSets,
    /// `apiSchemas`.
    ApiSchemas,
    /// `clipSets`.
    ClipSets,
}

/// A field that is edited by lists.
#[derive(Clone, Copy, Debug, PartialEq, Eq)]
pub enum ListField {
    /// A field of paths.
    Paths(PathField),
    /// A field of references.
    References(ReferenceField),
    /// A field of texts.
    Texts(TextField),
}

impl PathField {
    /// The field of the word `inherits`, and for any other word `specializes`.
    pub fn of_word(word: &str) -> PathField
        ensures { result ≡ path_field word.now }
    {
        if word == "inherits" {
            PathField::Inherits
        } else {
            PathField::Specializes
        }
    }
}

impl ReferenceField {
    /// The field of the word `references`, and for any other word `payload`.
    pub fn of_word(word: &str) -> ReferenceField
        ensures { result ≡ reference_field word.now }
    {
        if word == "references" {
            ReferenceField::References
        } else {
            ReferenceField::Payload
        }
    }
}

impl TextField {
    /// The field of the word `variantSets` or `apiSchemas`, and for any other word `clipSets`.
    pub fn of_word(word: &str) -> TextField
        ensures { result ≡ text_field word.now }
    {
        if word == "variantSets" {
            TextField::VariantSets
        } else if word == "apiSchemas" {
            TextField::ApiSchemas
        } else {
            TextField::ClipSets
        }
    }
}
