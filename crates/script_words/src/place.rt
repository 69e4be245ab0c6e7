//! Where a list stands that is being read, and which token may follow there.
ghost use Rattle.std.specs.Prelude.{◌≡◌};
ghost use Rattle.script_words.specs.Places.{behind_first, behind_item, behind_named, behind_asset, item_or_end, opening, begun, before_equals, key_or_end, behind_number, place_behind, may_end, is_in_brackets};

use usda_lexer::{Mark, TokenKind};
use usda_lists::OffsetKey;

/// What the items of a list are.
#[derive(Clone, Copy, Debug, PartialEq, Eq)]
pub enum ItemForm {
    /// Strings.
    Texts,
    /// Paths.
    Paths,
    /// An asset, a path, or both, with an offset or without.
    References,
    /// An asset, with an offset or without.
    SubLayers,
}

/// Where a list stands that is being read.
#[derive(Clone, Copy, Debug, PartialEq, Eq)]
pub enum ListPlace {
    /// Before a list in brackets, an item alone, or `None`.
    Start,
    /// Before a list in brackets.
    Bracket,
    /// Before an item in brackets, or their end.
    Item,
    /// Behind an asset, which a path or an offset may follow.
    Asset,
    /// Behind a path or an asset, which an offset may follow.
    Named,
    /// In the parentheses of an offset, before `offset`, `scale` or the end.
    Key,
    /// Before the `=` of one of the two.
    Equals(OffsetKey),
    /// Before its number.
    Number(OffsetKey),
    /// Behind the number, which a `;` may follow.
    BehindNumber,
    /// Behind a whole item.
    Behind,
    /// Behind the list.
    Complete,
}

fn behind_first(form: ItemForm, kind: TokenKind) -> Option<ListPlace>
    ensures { result ≡ behind_first form kind }
{
    match form {
        ItemForm::Texts => match kind {
            TokenKind::String => Some(ListPlace::Behind),
            _ => None,
        },
        ItemForm::Paths => match kind {
            TokenKind::Path => Some(ListPlace::Behind),
            _ => None,
        },
        ItemForm::References => match kind {
            TokenKind::Asset => Some(ListPlace::Asset),
            TokenKind::Path => Some(ListPlace::Named),
            _ => None,
        },
        ItemForm::SubLayers => match kind {
            TokenKind::Asset => Some(ListPlace::Named),
            _ => None,
        },
    }
}

fn behind_item(bracketed: bool, kind: TokenKind) -> Option<ListPlace>
    ensures { result ≡ behind_item bracketed kind }
{
    if !bracketed {
        return None;
    }
    match kind {
        TokenKind::Mark(Mark::Comma) => Some(ListPlace::Item),
        TokenKind::Mark(Mark::CloseBracket) => Some(ListPlace::Complete),
        _ => None,
    }
}

fn behind_named(bracketed: bool, kind: TokenKind) -> Option<ListPlace>
    ensures { result ≡ behind_named bracketed kind }
{
    match kind {
        TokenKind::Mark(Mark::OpenParen) => Some(ListPlace::Key),
        _ => behind_item(bracketed, kind),
    }
}

fn behind_asset(bracketed: bool, kind: TokenKind) -> Option<ListPlace>
    ensures { result ≡ behind_asset bracketed kind }
{
    match kind {
        TokenKind::Path => Some(ListPlace::Named),
        _ => behind_named(bracketed, kind),
    }
}

fn item_or_end(form: ItemForm, kind: TokenKind) -> Option<ListPlace>
    ensures { result ≡ item_or_end form kind }
{
    match kind {
        TokenKind::Mark(Mark::CloseBracket) => Some(ListPlace::Complete),
        _ => behind_first(form, kind),
    }
}

fn opening(kind: TokenKind) -> Option<ListPlace>
    ensures { result ≡ opening kind }
{
    match kind {
        TokenKind::Mark(Mark::OpenBracket) => Some(ListPlace::Item),
        _ => None,
    }
}

fn begun(form: ItemForm, kind: TokenKind, text: &str) -> Option<ListPlace>
    ensures { result ≡ begun form kind text.now }
{
    match kind {
        TokenKind::Mark(Mark::OpenBracket) => Some(ListPlace::Item),
        TokenKind::Name => {
            if text == "None" {
                Some(ListPlace::Complete)
            } else {
                None
            }
        }
        _ => behind_first(form, kind),
    }
}

fn before_equals(text: &str) -> Option<ListPlace>
    ensures { result ≡ before_equals text.now }
{
    match text {
        "offset" => Some(ListPlace::Equals(OffsetKey::Offset)),
        "scale" => Some(ListPlace::Equals(OffsetKey::Scale)),
        _ => None,
    }
}

fn key_or_end(kind: TokenKind, text: &str) -> Option<ListPlace>
    ensures { result ≡ key_or_end kind text.now }
{
    match kind {
        TokenKind::Mark(Mark::CloseParen) => Some(ListPlace::Behind),
        TokenKind::Name => before_equals(text),
        _ => None,
    }
}

fn behind_number(kind: TokenKind, text: &str) -> Option<ListPlace>
    ensures { result ≡ behind_number kind text.now }
{
    match kind {
        TokenKind::Mark(Mark::Semicolon) => Some(ListPlace::Key),
        _ => key_or_end(kind, text),
    }
}

/// The place behind a token; nothing where it may not follow.
pub fn place_behind(
    form: ItemForm,
    bracketed: bool,
    place: ListPlace,
    kind: TokenKind,
    text: &str,
) -> Option<ListPlace>
    ensures { result ≡ place_behind form bracketed place kind text.now }
{
    match place {
        ListPlace::Start => begun(form, kind, text),
        ListPlace::Bracket => opening(kind),
        ListPlace::Item => item_or_end(form, kind),
        ListPlace::Asset => behind_asset(bracketed, kind),
        ListPlace::Named => behind_named(bracketed, kind),
        ListPlace::Key => key_or_end(kind, text),
        ListPlace::Equals(key) => match kind {
            TokenKind::Mark(Mark::Equals) => Some(ListPlace::Number(key)),
            _ => None,
        },
        ListPlace::Number(_) => match kind {
            TokenKind::Number => Some(ListPlace::BehindNumber),
            _ => None,
        },
        ListPlace::BehindNumber => behind_number(kind, text),
        ListPlace::Behind => behind_item(bracketed, kind),
        ListPlace::Complete => None,
    }
}

/// Whether the list may end there.
pub fn may_end(bracketed: bool, place: ListPlace) -> bool
    ensures { result ≡ may_end bracketed place }
{
    match place {
        ListPlace::Complete => true,
        ListPlace::Asset | ListPlace::Named | ListPlace::Behind => !bracketed,
        _ => false,
    }
}

/// Whether the list is in brackets, where it was before this place or not.
pub fn is_in_brackets(bracketed: bool, place: ListPlace) -> bool
    ensures { result ≡ is_in_brackets bracketed place }
{
    match place {
        ListPlace::Item => true,
        _ => bracketed,
    }
}
