//! The items of a list that is being read, and what each token adds to them.
ghost use Rattle.std.specs.Prelude.{◌≡◌, IfOk};
ghost use Rattle.script_words.specs.Answers.{Finds, made};
ghost use Rattle.script_words.specs.Lists.{no_offset, with_part, asset_reference, behind_asset, item_with_part, sublayer_with_part, amend_last, with_text, with_path, with_target, put_path, put_number, with_reference, put_sublayer_number, with_sublayer, with_token, form_of};
ghost use Rattle.usda_lists.specs.References.{path_or_none};

use crate::fault::LineFault;
use crate::place::{ItemForm, ListPlace};
use edit_batches::{WrittenOffset, WrittenReference, WrittenSubLayer};
use plain_data::{Items, Text};
use sdf_paths::Path;
use sdf_values::{Decimal, Num};
use std::alloc::{AllocError, Global};
use usda_lexer::{TokenKind, asset_text, number_of, path_text, string_text};
use usda_lists::{OffsetKey, path_from, target_from};

/// The items of a list that is being read.
#[derive(Debug, Drop)]
pub enum ListItems {
    /// Texts.
    Texts(Items<Text>),
    /// Paths, with their selections.
    Paths(Items<Path>),
    /// Paths without selections.
    Targets(Items<Path>),
    /// References or payloads, with offsets in range or not.
    References(Items<WrittenReference>),
    /// Sublayers, with offsets in range or not.
    SubLayers(Items<WrittenSubLayer>),
}

impl ListItems {
    /// What the items are.
    pub fn form(&self) -> ItemForm
        ensures { result ≡ form_of self.now }
    {
        match self {
            ListItems::Texts(_) => ItemForm::Texts,
            ListItems::Paths(_) | ListItems::Targets(_) => ItemForm::Paths,
            ListItems::References(_) => ItemForm::References,
            ListItems::SubLayers(_) => ItemForm::SubLayers,
        }
    }
}

/// Times as they are.
fn no_offset() -> WrittenOffset
    ensures { result ≡ no_offset }
{
    WrittenOffset {
        offset: Num::Finite(Decimal { digits: 0, exp: 0 }),
        scale: Num::Finite(Decimal { digits: 1, exp: 0 }),
    }
}

fn with_part(key: OffsetKey, number: Num, offset: WrittenOffset) -> WrittenOffset
    ensures { result ≡ with_part key number offset }
{
    match key {
        OffsetKey::Offset => WrittenOffset {
            offset: number,
            scale: offset.scale,
        },
        OffsetKey::Scale => WrittenOffset {
            offset: offset.offset,
            scale: number,
        },
    }
}

fn with_text(
    alloc: Global,
    kind: TokenKind,
    text: &str,
    items: Items<Text>,
) -> Result<Items<Text>, LineFault>
    ensures { Finds result (with_text kind text.now items) }
{
    let mut items = items;
    if matches!(kind, TokenKind::String) {
        let item = string_text(alloc, text)?.ok_or(LineFault::Bad)?;
        items.push(item)?;
    }
    Ok(items)
}

fn with_path(
    alloc: Global,
    base: &Path,
    kind: TokenKind,
    text: &str,
    items: Items<Path>,
) -> Result<Items<Path>, LineFault>
    ensures { Finds result (with_path base.now kind text.now items) }
{
    let mut items = items;
    if matches!(kind, TokenKind::Path) {
        let item = path_from(alloc, base, path_text(text))?.ok_or(LineFault::Bad)?;
        items.push(item)?;
    }
    Ok(items)
}

fn with_target(
    alloc: Global,
    base: &Path,
    kind: TokenKind,
    text: &str,
    items: Items<Path>,
) -> Result<Items<Path>, LineFault>
    ensures { Finds result (with_target base.now kind text.now items) }
{
    let mut items = items;
    if matches!(kind, TokenKind::Path) {
        let item = target_from(alloc, base, path_text(text))?.ok_or(LineFault::Bad)?;
        items.push(item)?;
    }
    Ok(items)
}

/// An asset without a path; the empty asset is none.
fn asset_reference(alloc: Global, text: &str) -> Result<WrittenReference, AllocError>
    ensures { IfOk result (λ item. item ≡ asset_reference text.now) }
{
    let asset = asset_text(text);
    Ok(WrittenReference {
        asset: if asset.is_empty() {
            None
        } else {
            Some(Text::of(alloc, asset)?)
        },
        path: None,
        offset: no_offset(),
    })
}

/// The path of an item; `<>` is none.
fn path_or_none(alloc: Global, base: &Path, text: &str) -> Result<Option<Path>, LineFault>
    ensures { Finds result (made (path_or_none base.now text.now)) }
{
    if text.is_empty() {
        return Ok(None);
    }
    match path_from(alloc, base, text)? {
        Some(path) => Ok(Some(path)),
        None => Err(LineFault::Bad),
    }
}

/// Gives the last item a path.
fn amend_path(
    path: Option<Path>,
    items: Items<WrittenReference>,
) -> Result<Items<WrittenReference>, LineFault>
    ensures { Finds result (amend_last (behind_asset path) items) }
{
    let mut items = items;
    let WrittenReference { asset, offset, .. } = items.pop().ok_or(LineFault::Bad)?;
    items.push(WrittenReference {
        asset,
        path,
        offset,
    })?;
    Ok(items)
}

fn put_path(
    place: ListPlace,
    path: Option<Path>,
    items: Items<WrittenReference>,
) -> Result<Items<WrittenReference>, LineFault>
    ensures { Finds result (put_path place path items) }
{
    match place {
        ListPlace::Asset => amend_path(path, items),
        _ => {
            let mut items = items;
            items.push(WrittenReference {
                asset: None,
                path,
                offset: no_offset(),
            })?;
            Ok(items)
        }
    }
}

/// Gives the last item an offset or a scale.
fn amend_offset(
    key: OffsetKey,
    number: Num,
    items: Items<WrittenReference>,
) -> Result<Items<WrittenReference>, LineFault>
    ensures { Finds result (amend_last (item_with_part key number) items) }
{
    let mut items = items;
    let WrittenReference {
        asset,
        path,
        offset,
    } = items.pop().ok_or(LineFault::Bad)?;
    items.push(WrittenReference {
        asset,
        path,
        offset: with_part(key, number, offset),
    })?;
    Ok(items)
}

fn put_number(
    place: ListPlace,
    number: Num,
    items: Items<WrittenReference>,
) -> Result<Items<WrittenReference>, LineFault>
    ensures { Finds result (put_number place number items) }
{
    match place {
        ListPlace::Number(key) => amend_offset(key, number, items),
        _ => Ok(items),
    }
}

fn with_reference(
    alloc: Global,
    base: &Path,
    place: ListPlace,
    kind: TokenKind,
    text: &str,
    items: Items<WrittenReference>,
) -> Result<Items<WrittenReference>, LineFault>
    ensures { Finds result (with_reference base.now place kind text.now items) }
{
    match kind {
        TokenKind::Asset => {
            let mut items = items;
            items.push(asset_reference(alloc, text)?)?;
            Ok(items)
        }
        TokenKind::Path => {
            let path = path_or_none(alloc, base, path_text(text))?;
            put_path(place, path, items)
        }
        TokenKind::Number => {
            let number = number_of(text).ok_or(LineFault::Bad)?;
            put_number(place, number, items)
        }
        _ => Ok(items),
    }
}

/// Gives the last sublayer an offset or a scale.
fn amend_sublayer(
    key: OffsetKey,
    number: Num,
    items: Items<WrittenSubLayer>,
) -> Result<Items<WrittenSubLayer>, LineFault>
    ensures { Finds result (amend_last (sublayer_with_part key number) items) }
{
    let mut items = items;
    let WrittenSubLayer { asset, offset } = items.pop().ok_or(LineFault::Bad)?;
    items.push(WrittenSubLayer {
        asset,
        offset: with_part(key, number, offset),
    })?;
    Ok(items)
}

fn put_sublayer_number(
    place: ListPlace,
    number: Num,
    items: Items<WrittenSubLayer>,
) -> Result<Items<WrittenSubLayer>, LineFault>
    ensures { Finds result (put_sublayer_number place number items) }
{
    match place {
        ListPlace::Number(key) => amend_sublayer(key, number, items),
        _ => Ok(items),
    }
}

fn with_sublayer(
    alloc: Global,
    place: ListPlace,
    kind: TokenKind,
    text: &str,
    items: Items<WrittenSubLayer>,
) -> Result<Items<WrittenSubLayer>, LineFault>
    ensures { Finds result (with_sublayer place kind text.now items) }
{
    match kind {
        TokenKind::Asset => {
            let mut items = items;
            items.push(WrittenSubLayer {
                asset: Text::of(alloc, asset_text(text))?,
                offset: no_offset(),
            })?;
            Ok(items)
        }
        TokenKind::Number => {
            let number = number_of(text).ok_or(LineFault::Bad)?;
            put_sublayer_number(place, number, items)
        }
        _ => Ok(items),
    }
}

/// The items with what a token at a place adds. `Bad` where a string is not UTF-8, or a path is none or passes a limit.
pub fn with_token(
    alloc: Global,
    base: &Path,
    place: ListPlace,
    kind: TokenKind,
    text: &str,
    items: ListItems,
) -> Result<ListItems, LineFault>
    ensures { Finds result (with_token base.now place kind text.now items) }
{
    Ok(match items {
        ListItems::Texts(items) => ListItems::Texts(with_text(alloc, kind, text, items)?),
        ListItems::Paths(items) => ListItems::Paths(with_path(alloc, base, kind, text, items)?),
        ListItems::Targets(items) => {
            ListItems::Targets(with_target(alloc, base, kind, text, items)?)
        }
        ListItems::References(items) => {
            ListItems::References(with_reference(alloc, base, place, kind, text, items)?)
        }
        ListItems::SubLayers(items) => {
            ListItems::SubLayers(with_sublayer(alloc, place, kind, text, items)?)
        }
    })
}
