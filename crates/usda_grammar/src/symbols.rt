//! What a layer's text goes on with. Written by tools/grammar.py.

/// What a text goes on with: a token, a part of a statement, or any number of them.
#[derive(Clone, Copy, Debug, PartialEq, Eq)]
pub enum Symbol {
    /// `=`.
    Equals,
    /// `:`.
    Colon,
    /// `.`.
    Dot,
    /// `)`.
    CloseParen,
    /// `{`.
    OpenBrace,
    /// `}`.
    CloseBrace,
    /// `]`.
    CloseBracket,
    /// The word `rootPrims`.
    RootPrims,
    /// The number of an offset or a scale.
    OffsetNumber,
    /// The `}` behind the statements of a prim or a variant.
    BodyEnd,
    /// The name of a prim, in quotes.
    PrimName,
    /// The name of a variant set, in quotes.
    SetName,
    /// `;`, or nothing.
    MaybeSemicolon,
    /// The metadata of the layer in brackets, or nothing.
    MaybeHead,
    /// The metadata of the layer.
    HeadItems,
    /// The list of sublayers.
    SubLayerList,
    /// The next of the sublayers, or the end of them.
    SubLayersOrEnd,
    /// What follows one of the sublayers.
    MoreSubLayers,
    /// Offset and scale in brackets, or nothing.
    MaybeOffsets,
    /// Offset and scale.
    OffsetItems,
    /// The root prims, and the orders of them.
    RootStatements,
    /// The type of a prim, or nothing.
    MaybeTypeName,
    /// The metadata of a prim or a variant in brackets, or nothing.
    MaybePrimMetadata,
    /// The metadata of a prim or a variant.
    PrimMetadata,
    /// What follows an edit word: a field and its list, or the value of a key of that name.
    EditedField,
    /// The strings of a list: none, one, or a list in brackets.
    StringList,
    /// The next of the strings of a list, or the end of them.
    StringsOrEnd,
    /// What follows one of the strings of a list.
    MoreStrings,
    /// The paths of a list: none, one, or a list in brackets.
    PathList,
    /// The next of the paths of a list, or the end of them.
    PathsOrEnd,
    /// What follows one of the paths of a list.
    MorePaths,
    /// The references or payloads of a list: none, one, or a list in brackets.
    ReferenceList,
    /// The next of the references or payloads of a list, or the end of them.
    ReferencesOrEnd,
    /// What follows one of the references or payloads of a list.
    MoreReferences,
    /// The path of a prim behind an asset, or nothing.
    MaybePath,
    /// The variants of a set.
    VariantList,
    /// The statements of a prim or a variant.
    PrimBody,
    /// What follows `custom`.
    AfterCustom,
    /// What follows `uniform` or `varying`.
    AfterVariability,
    /// What follows an edit word.
    AfterEdit,
    /// What follows `reorder`.
    AfterReorder,
    /// What follows an edit word and `custom`.
    AfterEditedCustom,
    /// What follows an edit word and `uniform` or `varying`.
    AfterEditedVariability,
    /// `[` and `]`, which make the type that of an array, or nothing.
    MaybeBrackets,
    /// The name of a property.
    PropertyName,
    /// The value of an attribute and its metadata, or its samples or connections, or nothing.
    MaybeAttributeTail,
    /// What follows the `.` behind an attribute's name.
    AfterDot,
    /// What follows the `.` behind the name of an attribute that is edited.
    ConnectWord,
    /// The next of the samples, or the end of them.
    SamplesOrEnd,
    /// What follows one of the samples.
    MoreSamples,
    /// The targets of a relationship, or nothing.
    MaybeTargets,
    /// The metadata of a property in brackets, or nothing.
    MaybePropertyMetadata,
    /// The metadata of a property.
    PropertyMetadata,
    /// A value.
    Value,
    /// The next of the members of a tuple, or the end of them.
    MembersOrEnd,
    /// What follows one of the members of a tuple.
    MoreMembers,
    /// The next of the elements of an array, or the end of them.
    ElementsOrEnd,
    /// What follows one of the elements of an array.
    MoreElements,
    /// A dictionary.
    Dictionary,
    /// The entries of a dictionary.
    DictionaryEntries,
    /// The key of an entry.
    EntryKey,
    /// `;` or `,`, or nothing.
    MaybeSeparator,
    /// A list of names in quotes.
    NameList,
    /// The next of the names, or the end of them.
    NamesOrEnd,
    /// What follows one of the names.
    MoreNames,
}
