//! The head of a prim, its metadata, and the lists that edit its fields. Written by tools/grammar.py.
ghost use Rattle.std.specs.Option.{option_map};
ghost use Rattle.std.specs.Prelude.{◌≡◌, List};
ghost use Rattle.usda_grammar.specs.Prims.{maybe_type_name, maybe_prim_metadata, prim_metadata, edited_field, string_list, strings_or_end, more_strings, path_list, paths_or_end, more_paths, reference_list, references_or_end, more_references, maybe_path, variant_list, prims_starts};

use crate::kinds::{Keyword, WordKind};
use crate::symbols::Symbol;

const NONE: &[Symbol] = &[];

/// The type of a prim, or nothing.
fn maybe_type_name(kind: WordKind) -> Option<&'static [Symbol]>
    ensures { option_map (λ s. s.now) result ≡ maybe_type_name kind }
{
    match kind {
        WordKind::Word(_) => Some(NONE),
        _ => None,
    }
}

/// The metadata of a prim or a variant in brackets, or nothing.
fn maybe_prim_metadata(kind: WordKind) -> Option<&'static [Symbol]>
    ensures { option_map (λ s. s.now) result ≡ maybe_prim_metadata kind }
{
    match kind {
        WordKind::OpenParen => Some(&[Symbol::PrimMetadata, Symbol::CloseParen]),
        _ => None,
    }
}

/// The metadata of a prim or a variant.
fn prim_metadata(kind: WordKind) -> Option<&'static [Symbol]>
    ensures { option_map (λ s. s.now) result ≡ prim_metadata kind }
{
    match kind {
        WordKind::Word(Keyword::StringField) => Some(&[
            Symbol::Equals,
            Symbol::StringList,
            Symbol::MaybeSemicolon,
            Symbol::PrimMetadata,
        ]),
        WordKind::Word(Keyword::PathField) => Some(&[
            Symbol::Equals,
            Symbol::PathList,
            Symbol::MaybeSemicolon,
            Symbol::PrimMetadata,
        ]),
        WordKind::Word(Keyword::ReferenceField) => Some(&[
            Symbol::Equals,
            Symbol::ReferenceList,
            Symbol::MaybeSemicolon,
            Symbol::PrimMetadata,
        ]),
        WordKind::Word(Keyword::Edit) => Some(&[
            Symbol::EditedField,
            Symbol::MaybeSemicolon,
            Symbol::PrimMetadata,
        ]),
        WordKind::Word(Keyword::Reorder) => Some(&[
            Symbol::EditedField,
            Symbol::MaybeSemicolon,
            Symbol::PrimMetadata,
        ]),
        WordKind::Word(Keyword::Variants) => Some(&[
            Symbol::Equals,
            Symbol::Dictionary,
            Symbol::MaybeSemicolon,
            Symbol::PrimMetadata,
        ]),
        WordKind::Word(_) => Some(&[
            Symbol::Equals,
            Symbol::Value,
            Symbol::MaybeSemicolon,
            Symbol::PrimMetadata,
        ]),
        WordKind::Quoted => Some(&[Symbol::MaybeSemicolon, Symbol::PrimMetadata]),
        _ => None,
    }
}

/// What follows an edit word: a field and its list, or the value of a key of that name.
fn edited_field(kind: WordKind) -> Option<&'static [Symbol]>
    ensures { option_map (λ s. s.now) result ≡ edited_field kind }
{
    match kind {
        WordKind::Word(Keyword::StringField) => Some(&[Symbol::Equals, Symbol::StringList]),
        WordKind::Word(Keyword::PathField) => Some(&[Symbol::Equals, Symbol::PathList]),
        WordKind::Word(Keyword::ReferenceField) => Some(&[Symbol::Equals, Symbol::ReferenceList]),
        WordKind::Equals => Some(&[Symbol::Value]),
        _ => None,
    }
}

/// The strings of a list: none, one, or a list in brackets.
fn string_list(kind: WordKind) -> Option<&'static [Symbol]>
    ensures { option_map (λ s. s.now) result ≡ string_list kind }
{
    match kind {
        WordKind::Word(Keyword::NoneWord) => Some(NONE),
        WordKind::Quoted => Some(NONE),
        WordKind::OpenBracket => Some(&[Symbol::StringsOrEnd]),
        _ => None,
    }
}

/// The next of the strings of a list, or the end of them.
fn strings_or_end(kind: WordKind) -> Option<&'static [Symbol]>
    ensures { option_map (λ s. s.now) result ≡ strings_or_end kind }
{
    match kind {
        WordKind::CloseBracket => Some(NONE),
        WordKind::Quoted => Some(&[Symbol::MoreStrings]),
        _ => None,
    }
}

/// What follows one of the strings of a list.
fn more_strings(kind: WordKind) -> Option<&'static [Symbol]>
    ensures { option_map (λ s. s.now) result ≡ more_strings kind }
{
    match kind {
        WordKind::Comma => Some(&[Symbol::StringsOrEnd]),
        WordKind::CloseBracket => Some(NONE),
        _ => None,
    }
}

/// The paths of a list: none, one, or a list in brackets.
fn path_list(kind: WordKind) -> Option<&'static [Symbol]>
    ensures { option_map (λ s. s.now) result ≡ path_list kind }
{
    match kind {
        WordKind::Word(Keyword::NoneWord) => Some(NONE),
        WordKind::Path => Some(NONE),
        WordKind::OpenBracket => Some(&[Symbol::PathsOrEnd]),
        _ => None,
    }
}

/// The next of the paths of a list, or the end of them.
fn paths_or_end(kind: WordKind) -> Option<&'static [Symbol]>
    ensures { option_map (λ s. s.now) result ≡ paths_or_end kind }
{
    match kind {
        WordKind::CloseBracket => Some(NONE),
        WordKind::Path => Some(&[Symbol::MorePaths]),
        _ => None,
    }
}

/// What follows one of the paths of a list.
fn more_paths(kind: WordKind) -> Option<&'static [Symbol]>
    ensures { option_map (λ s. s.now) result ≡ more_paths kind }
{
    match kind {
        WordKind::Comma => Some(&[Symbol::PathsOrEnd]),
        WordKind::CloseBracket => Some(NONE),
        _ => None,
    }
}

/// The references or payloads of a list: none, one, or a list in brackets.
fn reference_list(kind: WordKind) -> Option<&'static [Symbol]>
    ensures { option_map (λ s. s.now) result ≡ reference_list kind }
{
    match kind {
        WordKind::Word(Keyword::NoneWord) => Some(NONE),
        WordKind::Asset => Some(&[Symbol::MaybePath, Symbol::MaybeOffsets]),
        WordKind::Path => Some(&[Symbol::MaybeOffsets]),
        WordKind::OpenBracket => Some(&[Symbol::ReferencesOrEnd]),
        _ => None,
    }
}

/// The next of the references or payloads of a list, or the end of them.
fn references_or_end(kind: WordKind) -> Option<&'static [Symbol]>
    ensures { option_map (λ s. s.now) result ≡ references_or_end kind }
{
    match kind {
        WordKind::CloseBracket => Some(NONE),
        WordKind::Asset => Some(&[
            Symbol::MaybePath,
            Symbol::MaybeOffsets,
            Symbol::MoreReferences,
        ]),
        WordKind::Path => Some(&[Symbol::MaybeOffsets, Symbol::MoreReferences]),
        _ => None,
    }
}

/// What follows one of the references or payloads of a list.
fn more_references(kind: WordKind) -> Option<&'static [Symbol]>
    ensures { option_map (λ s. s.now) result ≡ more_references kind }
{
    match kind {
        WordKind::Comma => Some(&[Symbol::ReferencesOrEnd]),
        WordKind::CloseBracket => Some(NONE),
        _ => None,
    }
}

/// The path of a prim behind an asset, or nothing.
fn maybe_path(kind: WordKind) -> Option<&'static [Symbol]>
    ensures { option_map (λ s. s.now) result ≡ maybe_path kind }
{
    match kind {
        WordKind::Path => Some(NONE),
        _ => None,
    }
}

/// The variants of a set.
fn variant_list(kind: WordKind) -> Option<&'static [Symbol]>
    ensures { option_map (λ s. s.now) result ≡ variant_list kind }
{
    match kind {
        WordKind::Quoted => Some(&[
            Symbol::MaybePrimMetadata,
            Symbol::OpenBrace,
            Symbol::PrimBody,
            Symbol::BodyEnd,
            Symbol::VariantList,
        ]),
        _ => None,
    }
}

/// What follows a token that is the first of a symbol of this part, where it may be the first.
pub fn starts(symbol: Symbol, kind: WordKind) -> Option<&'static [Symbol]>
    ensures { option_map (λ s. s.now) result ≡ prims_starts symbol kind }
{
    match symbol {
        Symbol::MaybeTypeName => maybe_type_name(kind),
        Symbol::MaybePrimMetadata => maybe_prim_metadata(kind),
        Symbol::PrimMetadata => prim_metadata(kind),
        Symbol::EditedField => edited_field(kind),
        Symbol::StringList => string_list(kind),
        Symbol::StringsOrEnd => strings_or_end(kind),
        Symbol::MoreStrings => more_strings(kind),
        Symbol::PathList => path_list(kind),
        Symbol::PathsOrEnd => paths_or_end(kind),
        Symbol::MorePaths => more_paths(kind),
        Symbol::ReferenceList => reference_list(kind),
        Symbol::ReferencesOrEnd => references_or_end(kind),
        Symbol::MoreReferences => more_references(kind),
        Symbol::MaybePath => maybe_path(kind),
        Symbol::VariantList => variant_list(kind),
        _ => None,
    }
}
