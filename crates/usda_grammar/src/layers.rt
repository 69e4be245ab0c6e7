//! Single tokens, and the statements of a layer: its head, its sublayers and its root prims. Written by tools/grammar.py.
ghost use Rattle.std.specs.Option.{option_map};
ghost use Rattle.std.specs.Prelude.{◌≡◌, List};
ghost use Rattle.usda_grammar.specs.Layers.{equals, colon, dot, close_paren, open_brace, close_brace, close_bracket, root_prims, offset_number, body_end, prim_name, set_name, maybe_semicolon, maybe_head, head_items, sub_layer_list, sub_layers_or_end, more_sub_layers, maybe_offsets, offset_items, root_statements, layers_starts};

use crate::kinds::{Keyword, WordKind};
use crate::symbols::Symbol;

const NONE: &[Symbol] = &[];

/// `=`.
fn equals(kind: WordKind) -> Option<&'static [Symbol]>
    ensures { option_map (λ s. s.now) result ≡ equals kind }
{
    match kind {
        WordKind::Equals => Some(NONE),
        _ => None,
    }
}

/// `:`.
fn colon(kind: WordKind) -> Option<&'static [Symbol]>
    ensures { option_map (λ s. s.now) result ≡ colon kind }
{
    match kind {
        WordKind::Colon => Some(NONE),
        _ => None,
    }
}

/// `.`.
fn dot(kind: WordKind) -> Option<&'static [Symbol]>
    ensures { option_map (λ s. s.now) result ≡ dot kind }
{
    match kind {
        WordKind::Dot => Some(NONE),
        _ => None,
    }
}

/// `)`.
fn close_paren(kind: WordKind) -> Option<&'static [Symbol]>
    ensures { option_map (λ s. s.now) result ≡ close_paren kind }
{
    match kind {
        WordKind::CloseParen => Some(NONE),
        _ => None,
    }
}

/// `{`.
fn open_brace(kind: WordKind) -> Option<&'static [Symbol]>
    ensures { option_map (λ s. s.now) result ≡ open_brace kind }
{
    match kind {
        WordKind::OpenBrace => Some(NONE),
        _ => None,
    }
}

/// `}`.
fn close_brace(kind: WordKind) -> Option<&'static [Symbol]>
    ensures { option_map (λ s. s.now) result ≡ close_brace kind }
{
    match kind {
        WordKind::CloseBrace => Some(NONE),
        _ => None,
    }
}

/// `]`.
fn close_bracket(kind: WordKind) -> Option<&'static [Symbol]>
    ensures { option_map (λ s. s.now) result ≡ close_bracket kind }
{
    match kind {
        WordKind::CloseBracket => Some(NONE),
        _ => None,
    }
}

/// The word `rootPrims`.
fn root_prims(kind: WordKind) -> Option<&'static [Symbol]>
    ensures { option_map (λ s. s.now) result ≡ root_prims kind }
{
    match kind {
        WordKind::Word(Keyword::RootPrims) => Some(NONE),
        _ => None,
    }
}

/// The number of an offset or a scale.
fn offset_number(kind: WordKind) -> Option<&'static [Symbol]>
    ensures { option_map (λ s. s.now) result ≡ offset_number kind }
{
    match kind {
        WordKind::Number => Some(NONE),
        _ => None,
    }
}

/// The `}` behind the statements of a prim or a variant.
fn body_end(kind: WordKind) -> Option<&'static [Symbol]>
    ensures { option_map (λ s. s.now) result ≡ body_end kind }
{
    match kind {
        WordKind::CloseBrace => Some(NONE),
        _ => None,
    }
}

/// The name of a prim, in quotes.
fn prim_name(kind: WordKind) -> Option<&'static [Symbol]>
    ensures { option_map (λ s. s.now) result ≡ prim_name kind }
{
    match kind {
        WordKind::Quoted => Some(NONE),
        _ => None,
    }
}

/// The name of a variant set, in quotes.
fn set_name(kind: WordKind) -> Option<&'static [Symbol]>
    ensures { option_map (λ s. s.now) result ≡ set_name kind }
{
    match kind {
        WordKind::Quoted => Some(NONE),
        _ => None,
    }
}

/// `;`, or nothing.
fn maybe_semicolon(kind: WordKind) -> Option<&'static [Symbol]>
    ensures { option_map (λ s. s.now) result ≡ maybe_semicolon kind }
{
    match kind {
        WordKind::Semicolon => Some(NONE),
        _ => None,
    }
}

/// The metadata of the layer in brackets, or nothing.
fn maybe_head(kind: WordKind) -> Option<&'static [Symbol]>
    ensures { option_map (λ s. s.now) result ≡ maybe_head kind }
{
    match kind {
        WordKind::OpenParen => Some(&[Symbol::HeadItems, Symbol::CloseParen]),
        _ => None,
    }
}

/// The metadata of the layer.
fn head_items(kind: WordKind) -> Option<&'static [Symbol]>
    ensures { option_map (λ s. s.now) result ≡ head_items kind }
{
    match kind {
        WordKind::Word(Keyword::SubLayers) => Some(&[
            Symbol::Equals,
            Symbol::SubLayerList,
            Symbol::MaybeSemicolon,
            Symbol::HeadItems,
        ]),
        WordKind::Word(_) => Some(&[
            Symbol::Equals,
            Symbol::Value,
            Symbol::MaybeSemicolon,
            Symbol::HeadItems,
        ]),
        WordKind::Quoted => Some(&[Symbol::MaybeSemicolon, Symbol::HeadItems]),
        _ => None,
    }
}

/// The list of sublayers.
fn sub_layer_list(kind: WordKind) -> Option<&'static [Symbol]>
    ensures { option_map (λ s. s.now) result ≡ sub_layer_list kind }
{
    match kind {
        WordKind::OpenBracket => Some(&[Symbol::SubLayersOrEnd]),
        _ => None,
    }
}

/// The next of the sublayers, or the end of them.
fn sub_layers_or_end(kind: WordKind) -> Option<&'static [Symbol]>
    ensures { option_map (λ s. s.now) result ≡ sub_layers_or_end kind }
{
    match kind {
        WordKind::CloseBracket => Some(NONE),
        WordKind::Asset => Some(&[Symbol::MaybeOffsets, Symbol::MoreSubLayers]),
        _ => None,
    }
}

/// What follows one of the sublayers.
fn more_sub_layers(kind: WordKind) -> Option<&'static [Symbol]>
    ensures { option_map (λ s. s.now) result ≡ more_sub_layers kind }
{
    match kind {
        WordKind::Comma => Some(&[Symbol::SubLayersOrEnd]),
        WordKind::CloseBracket => Some(NONE),
        _ => None,
    }
}

/// Offset and scale in brackets, or nothing.
fn maybe_offsets(kind: WordKind) -> Option<&'static [Symbol]>
    ensures { option_map (λ s. s.now) result ≡ maybe_offsets kind }
{
    match kind {
        WordKind::OpenParen => Some(&[Symbol::OffsetItems, Symbol::CloseParen]),
        _ => None,
    }
}

/// Offset and scale.
fn offset_items(kind: WordKind) -> Option<&'static [Symbol]>
    ensures { option_map (λ s. s.now) result ≡ offset_items kind }
{
    match kind {
        WordKind::Word(_) => Some(&[
            Symbol::Equals,
            Symbol::OffsetNumber,
            Symbol::MaybeSemicolon,
            Symbol::OffsetItems,
        ]),
        _ => None,
    }
}

/// The root prims, and the orders of them.
fn root_statements(kind: WordKind) -> Option<&'static [Symbol]>
    ensures { option_map (λ s. s.now) result ≡ root_statements kind }
{
    match kind {
        WordKind::Word(Keyword::Specifier) => Some(&[
            Symbol::MaybeTypeName,
            Symbol::PrimName,
            Symbol::MaybePrimMetadata,
            Symbol::OpenBrace,
            Symbol::PrimBody,
            Symbol::BodyEnd,
            Symbol::MaybeSemicolon,
            Symbol::RootStatements,
        ]),
        WordKind::Word(Keyword::Reorder) => Some(&[
            Symbol::RootPrims,
            Symbol::Equals,
            Symbol::NameList,
            Symbol::MaybeSemicolon,
            Symbol::RootStatements,
        ]),
        _ => None,
    }
}

/// What follows a token that is the first of a symbol of this part, where it may be the first.
pub fn starts(symbol: Symbol, kind: WordKind) -> Option<&'static [Symbol]>
    ensures { option_map (λ s. s.now) result ≡ layers_starts symbol kind }
{
    match symbol {
        Symbol::Equals => equals(kind),
        Symbol::Colon => colon(kind),
        Symbol::Dot => dot(kind),
        Symbol::CloseParen => close_paren(kind),
        Symbol::OpenBrace => open_brace(kind),
        Symbol::CloseBrace => close_brace(kind),
        Symbol::CloseBracket => close_bracket(kind),
        Symbol::RootPrims => root_prims(kind),
        Symbol::OffsetNumber => offset_number(kind),
        Symbol::BodyEnd => body_end(kind),
        Symbol::PrimName => prim_name(kind),
        Symbol::SetName => set_name(kind),
        Symbol::MaybeSemicolon => maybe_semicolon(kind),
        Symbol::MaybeHead => maybe_head(kind),
        Symbol::HeadItems => head_items(kind),
        Symbol::SubLayerList => sub_layer_list(kind),
        Symbol::SubLayersOrEnd => sub_layers_or_end(kind),
        Symbol::MoreSubLayers => more_sub_layers(kind),
        Symbol::MaybeOffsets => maybe_offsets(kind),
        Symbol::OffsetItems => offset_items(kind),
        Symbol::RootStatements => root_statements(kind),
        _ => None,
    }
}
