//! The body of a prim: properties, variant sets, orders and children. Written by tools/grammar.py.
ghost use Rattle.std.specs.Option.{option_map};
ghost use Rattle.std.specs.Prelude.{◌≡◌, List};
ghost use Rattle.usda_grammar.specs.Properties.{prim_body, after_custom, after_variability, after_edit, after_reorder, after_edited_custom, after_edited_variability, maybe_brackets, property_name, maybe_attribute_tail, after_dot, connect_word, samples_or_end, more_samples, maybe_targets, maybe_property_metadata, property_metadata, properties_starts};

use crate::kinds::{Keyword, WordKind};
use crate::symbols::Symbol;

const NONE: &[Symbol] = &[];

/// The statements of a prim or a variant.
fn prim_body(kind: WordKind) -> Option<&'static [Symbol]>
    ensures { option_map (λ s. s.now) result ≡ prim_body kind }
{
    match kind {
        WordKind::Word(Keyword::Specifier) => Some(&[
            Symbol::MaybeTypeName,
            Symbol::PrimName,
            Symbol::MaybePrimMetadata,
            Symbol::OpenBrace,
            Symbol::PrimBody,
            Symbol::BodyEnd,
            Symbol::MaybeSemicolon,
            Symbol::PrimBody,
        ]),
        WordKind::Word(Keyword::Edit) => Some(&[
            Symbol::AfterEdit,
            Symbol::MaybeSemicolon,
            Symbol::PrimBody,
        ]),
        WordKind::Word(Keyword::Reorder) => Some(&[
            Symbol::AfterReorder,
            Symbol::MaybeSemicolon,
            Symbol::PrimBody,
        ]),
        WordKind::Word(Keyword::VariantSet) => Some(&[
            Symbol::SetName,
            Symbol::Equals,
            Symbol::OpenBrace,
            Symbol::VariantList,
            Symbol::CloseBrace,
            Symbol::MaybeSemicolon,
            Symbol::PrimBody,
        ]),
        WordKind::Word(Keyword::Custom) => Some(&[
            Symbol::AfterCustom,
            Symbol::MaybeSemicolon,
            Symbol::PrimBody,
        ]),
        WordKind::Word(Keyword::Variability) => Some(&[
            Symbol::AfterVariability,
            Symbol::MaybeSemicolon,
            Symbol::PrimBody,
        ]),
        WordKind::Word(Keyword::Rel) => Some(&[
            Symbol::PropertyName,
            Symbol::MaybeTargets,
            Symbol::MaybePropertyMetadata,
            Symbol::MaybeSemicolon,
            Symbol::PrimBody,
        ]),
        WordKind::Word(_) => Some(&[
            Symbol::MaybeBrackets,
            Symbol::PropertyName,
            Symbol::MaybeAttributeTail,
            Symbol::MaybeSemicolon,
            Symbol::PrimBody,
        ]),
        _ => None,
    }
}

/// What follows `custom`.
fn after_custom(kind: WordKind) -> Option<&'static [Symbol]>
    ensures { option_map (λ s. s.now) result ≡ after_custom kind }
{
    match kind {
        WordKind::Word(Keyword::Variability) => Some(&[Symbol::AfterVariability]),
        WordKind::Word(Keyword::Rel) => Some(&[
            Symbol::PropertyName,
            Symbol::MaybeTargets,
            Symbol::MaybePropertyMetadata,
        ]),
        WordKind::Word(_) => Some(&[
            Symbol::MaybeBrackets,
            Symbol::PropertyName,
            Symbol::MaybeAttributeTail,
        ]),
        _ => None,
    }
}

/// What follows `uniform` or `varying`.
fn after_variability(kind: WordKind) -> Option<&'static [Symbol]>
    ensures { option_map (λ s. s.now) result ≡ after_variability kind }
{
    match kind {
        WordKind::Word(Keyword::Rel) => Some(&[
            Symbol::PropertyName,
            Symbol::MaybeTargets,
            Symbol::MaybePropertyMetadata,
        ]),
        WordKind::Word(_) => Some(&[
            Symbol::MaybeBrackets,
            Symbol::PropertyName,
            Symbol::MaybeAttributeTail,
        ]),
        _ => None,
    }
}

/// What follows an edit word.
fn after_edit(kind: WordKind) -> Option<&'static [Symbol]>
    ensures { option_map (λ s. s.now) result ≡ after_edit kind }
{
    match kind {
        WordKind::Word(Keyword::Custom) => Some(&[Symbol::AfterEditedCustom]),
        WordKind::Word(Keyword::Variability) => Some(&[Symbol::AfterEditedVariability]),
        WordKind::Word(Keyword::Rel) => Some(&[
            Symbol::PropertyName,
            Symbol::MaybeTargets,
            Symbol::MaybePropertyMetadata,
        ]),
        WordKind::Word(_) => Some(&[
            Symbol::MaybeBrackets,
            Symbol::PropertyName,
            Symbol::Dot,
            Symbol::ConnectWord,
        ]),
        _ => None,
    }
}

/// What follows `reorder`.
fn after_reorder(kind: WordKind) -> Option<&'static [Symbol]>
    ensures { option_map (λ s. s.now) result ≡ after_reorder kind }
{
    match kind {
        WordKind::Word(Keyword::OrderedField) => Some(&[Symbol::Equals, Symbol::NameList]),
        WordKind::Word(Keyword::Custom) => Some(&[Symbol::AfterEditedCustom]),
        WordKind::Word(Keyword::Variability) => Some(&[Symbol::AfterEditedVariability]),
        WordKind::Word(Keyword::Rel) => Some(&[
            Symbol::PropertyName,
            Symbol::MaybeTargets,
            Symbol::MaybePropertyMetadata,
        ]),
        WordKind::Word(_) => Some(&[
            Symbol::MaybeBrackets,
            Symbol::PropertyName,
            Symbol::Dot,
            Symbol::ConnectWord,
        ]),
        _ => None,
    }
}

/// What follows an edit word and `custom`.
fn after_edited_custom(kind: WordKind) -> Option<&'static [Symbol]>
    ensures { option_map (λ s. s.now) result ≡ after_edited_custom kind }
{
    match kind {
        WordKind::Word(Keyword::Variability) => Some(&[Symbol::AfterEditedVariability]),
        WordKind::Word(Keyword::Rel) => Some(&[
            Symbol::PropertyName,
            Symbol::MaybeTargets,
            Symbol::MaybePropertyMetadata,
        ]),
        WordKind::Word(_) => Some(&[
            Symbol::MaybeBrackets,
            Symbol::PropertyName,
            Symbol::Dot,
            Symbol::ConnectWord,
        ]),
        _ => None,
    }
}

/// What follows an edit word and `uniform` or `varying`.
fn after_edited_variability(kind: WordKind) -> Option<&'static [Symbol]>
    ensures { option_map (λ s. s.now) result ≡ after_edited_variability kind }
{
    match kind {
        WordKind::Word(Keyword::Rel) => Some(&[
            Symbol::PropertyName,
            Symbol::MaybeTargets,
            Symbol::MaybePropertyMetadata,
        ]),
        WordKind::Word(_) => Some(&[
            Symbol::MaybeBrackets,
            Symbol::PropertyName,
            Symbol::Dot,
            Symbol::ConnectWord,
        ]),
        _ => None,
    }
}

/// `[` and `]`, which make the type that of an array, or nothing.
fn maybe_brackets(kind: WordKind) -> Option<&'static [Symbol]>
    ensures { option_map (λ s. s.now) result ≡ maybe_brackets kind }
{
    match kind {
        WordKind::OpenBracket => Some(&[Symbol::CloseBracket]),
        _ => None,
    }
}

/// The name of a property.
fn property_name(kind: WordKind) -> Option<&'static [Symbol]>
    ensures { option_map (λ s. s.now) result ≡ property_name kind }
{
    match kind {
        WordKind::Word(_) => Some(NONE),
        _ => None,
    }
}

/// The value of an attribute and its metadata, or its samples or connections, or nothing.
fn maybe_attribute_tail(kind: WordKind) -> Option<&'static [Symbol]>
    ensures { option_map (λ s. s.now) result ≡ maybe_attribute_tail kind }
{
    match kind {
        WordKind::Equals => Some(&[Symbol::Value, Symbol::MaybePropertyMetadata]),
        WordKind::OpenParen => Some(&[Symbol::PropertyMetadata, Symbol::CloseParen]),
        WordKind::Dot => Some(&[Symbol::AfterDot]),
        _ => None,
    }
}

/// What follows the `.` behind an attribute's name.
fn after_dot(kind: WordKind) -> Option<&'static [Symbol]>
    ensures { option_map (λ s. s.now) result ≡ after_dot kind }
{
    match kind {
        WordKind::Word(Keyword::TimeSamples) => Some(&[
            Symbol::Equals,
            Symbol::OpenBrace,
            Symbol::SamplesOrEnd,
        ]),
        WordKind::Word(Keyword::Connect) => Some(&[Symbol::Equals, Symbol::PathList]),
        WordKind::Word(Keyword::Spline) => Some(NONE),
        _ => None,
    }
}

/// What follows the `.` behind the name of an attribute that is edited.
fn connect_word(kind: WordKind) -> Option<&'static [Symbol]>
    ensures { option_map (λ s. s.now) result ≡ connect_word kind }
{
    match kind {
        WordKind::Word(Keyword::Connect) => Some(&[Symbol::Equals, Symbol::PathList]),
        WordKind::Word(Keyword::Spline) => Some(NONE),
        _ => None,
    }
}

/// The next of the samples, or the end of them.
fn samples_or_end(kind: WordKind) -> Option<&'static [Symbol]>
    ensures { option_map (λ s. s.now) result ≡ samples_or_end kind }
{
    match kind {
        WordKind::CloseBrace => Some(NONE),
        WordKind::Number => Some(&[Symbol::Colon, Symbol::Value, Symbol::MoreSamples]),
        _ => None,
    }
}

/// What follows one of the samples.
fn more_samples(kind: WordKind) -> Option<&'static [Symbol]>
    ensures { option_map (λ s. s.now) result ≡ more_samples kind }
{
    match kind {
        WordKind::Comma => Some(&[Symbol::SamplesOrEnd]),
        WordKind::CloseBrace => Some(NONE),
        _ => None,
    }
}

/// The targets of a relationship, or nothing.
fn maybe_targets(kind: WordKind) -> Option<&'static [Symbol]>
    ensures { option_map (λ s. s.now) result ≡ maybe_targets kind }
{
    match kind {
        WordKind::Equals => Some(&[Symbol::PathList]),
        _ => None,
    }
}

/// The metadata of a property in brackets, or nothing.
fn maybe_property_metadata(kind: WordKind) -> Option<&'static [Symbol]>
    ensures { option_map (λ s. s.now) result ≡ maybe_property_metadata kind }
{
    match kind {
        WordKind::OpenParen => Some(&[Symbol::PropertyMetadata, Symbol::CloseParen]),
        _ => None,
    }
}

/// The metadata of a property.
fn property_metadata(kind: WordKind) -> Option<&'static [Symbol]>
    ensures { option_map (λ s. s.now) result ≡ property_metadata kind }
{
    match kind {
        WordKind::Word(_) => Some(&[
            Symbol::Equals,
            Symbol::Value,
            Symbol::MaybeSemicolon,
            Symbol::PropertyMetadata,
        ]),
        WordKind::Quoted => Some(&[Symbol::MaybeSemicolon, Symbol::PropertyMetadata]),
        _ => None,
    }
}

/// What follows a token that is the first of a symbol of this part, where it may be the first.
pub fn starts(symbol: Symbol, kind: WordKind) -> Option<&'static [Symbol]>
    ensures { option_map (λ s. s.now) result ≡ properties_starts symbol kind }
{
    match symbol {
        Symbol::PrimBody => prim_body(kind),
        Symbol::AfterCustom => after_custom(kind),
        Symbol::AfterVariability => after_variability(kind),
        Symbol::AfterEdit => after_edit(kind),
        Symbol::AfterReorder => after_reorder(kind),
        Symbol::AfterEditedCustom => after_edited_custom(kind),
        Symbol::AfterEditedVariability => after_edited_variability(kind),
        Symbol::MaybeBrackets => maybe_brackets(kind),
        Symbol::PropertyName => property_name(kind),
        Symbol::MaybeAttributeTail => maybe_attribute_tail(kind),
        Symbol::AfterDot => after_dot(kind),
        Symbol::ConnectWord => connect_word(kind),
        Symbol::SamplesOrEnd => samples_or_end(kind),
        Symbol::MoreSamples => more_samples(kind),
        Symbol::MaybeTargets => maybe_targets(kind),
        Symbol::MaybePropertyMetadata => maybe_property_metadata(kind),
        Symbol::PropertyMetadata => property_metadata(kind),
        _ => None,
    }
}
