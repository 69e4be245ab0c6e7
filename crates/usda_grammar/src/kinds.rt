//! What a word is to the grammar.
ghost use Rattle.std.specs.Prelude.{◌≡◌};
ghost use Rattle.usda_grammar.specs.Words.{keyword_of, kind_of_word, layer_word, prim_word, field_word, property_word};

/// Words that the grammar names, and all other ones.
///
/// Where the grammar has a word of its own at a place, the word is that one and no name.
#[derive(Clone, Copy, Debug, PartialEq, Eq)]
pub enum Keyword {
    /// `def`, `over` or `class`.
    Specifier,
    /// `variantSets`, `apiSchemas` or `clipSets`: a field that is a list of strings.
    StringField,
    /// `inherits` or `specializes`: a field that is a list of paths.
    PathField,
    /// `references` or `payload`: a field that is a list of references.
    ReferenceField,
    /// `delete`, `add`, `prepend` or `append`.
    Edit,
    /// `reorder`.
    Reorder,
    /// `variants`.
    Variants,
    /// `variantSet`.
    VariantSet,
    /// `subLayers`.
    SubLayers,
    /// `rootPrims`.
    RootPrims,
    /// `nameChildren` or `properties`.
    OrderedField,
    /// `custom`.
    Custom,
    /// `uniform` or `varying`.
    Variability,
    /// `rel`.
    Rel,
    /// `timeSamples`.
    TimeSamples,
    /// `connect`.
    Connect,
    /// `spline`.
    Spline,
    /// `None`.
    NoneWord,
    /// `dictionary`.
    Dictionary,
    /// Any other name.
    Other,
}

/// What a word is to the grammar: the kind of its token, and of a name which word it is.
#[derive(Clone, Copy, Debug, PartialEq, Eq)]
pub enum WordKind {
    /// A name, by the word that it is.
    Word(Keyword),
    /// A number.
    Number,
    /// A string in quotes.
    Quoted,
    /// An asset between `@`.
    Asset,
    /// A path between `<` and `>`.
    Path,
    /// `(`.
    OpenParen,
    /// `)`.
    CloseParen,
    /// `{`.
    OpenBrace,
    /// `}`.
    CloseBrace,
    /// `[`.
    OpenBracket,
    /// `]`.
    CloseBracket,
    /// `=`.
    Equals,
    /// `,`.
    Comma,
    /// `;`.
    Semicolon,
    /// `:`.
    Colon,
    /// `.`.
    Dot,
    /// What no text goes on with wherever it stands: what is no token, and a `.` with a blank beside it, or the word
    /// behind that blank.
    Fault,
}

/// The kind of a token that is a name.
pub fn kind_of_word(text: &str) -> WordKind
    ensures { result ≡ kind_of_word text.now }
{
    WordKind::Word(keyword_of(text))
}

/// The word that a name is.
pub fn keyword_of(text: &str) -> Keyword
    ensures { result ≡ keyword_of text.now }
{
    if let Some(word) = prim_word(text) {
        word
    } else if let Some(word) = property_word(text) {
        word
    } else if let Some(word) = field_word(text) {
        word
    } else if let Some(word) = layer_word(text) {
        word
    } else {
        Keyword::Other
    }
}

fn prim_word(text: &str) -> Option<Keyword>
    ensures { result ≡ prim_word text.now }
{
    if text == "def" || text == "over" || text == "class" {
        Some(Keyword::Specifier)
    } else if text == "delete" || text == "add" || text == "prepend" || text == "append" {
        Some(Keyword::Edit)
    } else if text == "reorder" {
        Some(Keyword::Reorder)
    } else if text == "variants" {
        Some(Keyword::Variants)
    } else if text == "variantSet" {
        Some(Keyword::VariantSet)
    } else {
        None
    }
}

fn property_word(text: &str) -> Option<Keyword>
    ensures { result ≡ property_word text.now }
{
    if text == "custom" {
        Some(Keyword::Custom)
    } else if text == "uniform" || text == "varying" {
        Some(Keyword::Variability)
    } else if text == "rel" {
        Some(Keyword::Rel)
    } else if text == "timeSamples" {
        Some(Keyword::TimeSamples)
    } else if text == "connect" {
        Some(Keyword::Connect)
    } else if text == "spline" {
        Some(Keyword::Spline)
    } else {
        None
    }
}

fn field_word(text: &str) -> Option<Keyword>
    ensures { result ≡ field_word text.now }
{
    if text == "variantSets" || text == "apiSchemas" || text == "clipSets" {
        Some(Keyword::StringField)
    } else if text == "inherits" || text == "specializes" {
        Some(Keyword::PathField)
    } else if text == "references" || text == "payload" {
        Some(Keyword::ReferenceField)
    } else if text == "nameChildren" || text == "properties" {
        Some(Keyword::OrderedField)
    } else {
        None
    }
}

fn layer_word(text: &str) -> Option<Keyword>
    ensures { result ≡ layer_word text.now }
{
    if text == "subLayers" {
        Some(Keyword::SubLayers)
    } else if text == "rootPrims" {
        Some(Keyword::RootPrims)
    } else if text == "None" {
        Some(Keyword::NoneWord)
    } else if text == "dictionary" {
        Some(Keyword::Dictionary)
    } else {
        None
    }
}
