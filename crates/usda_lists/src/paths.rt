//! Paths between `<` and `>` in a layer, of which some go on from a prim.
ghost use Rattle.std.specs.Prelude.{◌≡◌, IfOk, Some};
ghost use Rattle.usda_lists.specs.Paths.{joins_directly, text_below, path_below, path_from, target_from, absolute_token, absolute_from};

use plain_data::{Text, copy};
use sdf_paths::{Path, path_of, push_path_text};
use std::alloc::{AllocError, Global};
use usda_values::begins_up;

/// Whether no `/` stands between the path of a prim and this text.
fn joins_directly(prim: &Path, text: &str) -> bool
    ensures { result ≡ joins_directly prim.now text.now }
{
    prim.is_root() || (!text.is_empty() && text.as_bytes()[0] == b'.')
}

/// The text of a path that goes on from a prim.
fn text_below(prim: &Path, text: &str) -> Result<Text, AllocError>
    ensures { IfOk result (λ whole. whole ≡ text_below prim.now text.now) }
{
    let mut whole = Text::from_string(prim.print()?);
    if !joins_directly(prim, text) {
        whole.push('/')?;
    }
    whole.push_str(text)?;
    Ok(whole)
}

fn path_below(alloc: Global, base: &Path, text: &str) -> Result<Option<Path>, AllocError>
    ensures { IfOk result (λ path. path ≡ path_below 0 (Some base.now) text.now) }
{
    let mut prim = copy(base)?;
    let mut rest = text;
    while begins_up(rest.as_bytes()) {
        let Some(above) = prim.parent()? else {
            return Ok(None);
        };
        prim = above;
        let (_, behind) = rest.split_at(3);
        rest = behind;
    }
    if rest.is_empty() {
        return Ok(None);
    }
    path_of(alloc, text_below(&prim, rest)?.as_str())
}

/// The path that a text between `<` and `>` means where `base` is the plain path of the prim that owns the statement, `/` in the head.
/// Nothing where it is no path, goes above `/`, or the whole path passes a limit.
#[tactic(auto, unfolding(crate::specs::Paths::path_from))]
pub fn path_from(alloc: Global, base: &Path, text: &str) -> Result<Option<Path>, AllocError>
    ensures { IfOk result (λ path. path ≡ path_from base.now text.now) }
{
    if !text.is_empty() && text.as_bytes()[0] == b'/' {
        path_of(alloc, text)
    } else {
        path_below(alloc, base, text)
    }
}

/// The same as a target, whose selections are dropped.
pub fn target_from(alloc: Global, base: &Path, text: &str) -> Result<Option<Path>, AllocError>
    ensures { IfOk result (λ path. path ≡ target_from base.now text.now) }
{
    match path_from(alloc, base, text)? {
        Some(path) => Ok(Some(path.plain()?)),
        None => Ok(None),
    }
}

/// The token of a path from the root down.
fn token_of(alloc: Global, path: &Path) -> Result<Text, AllocError>
    ensures { IfOk result (λ token. token ≡ absolute_token path.now) }
{
    let mut token = String::new(alloc);
    push_path_text(&mut token, path)?;
    Ok(Text::from_string(token))
}

/// The path token that means the same path wherever it stands.
pub fn absolute_from(alloc: Global, base: &Path, text: &str) -> Result<Option<Text>, AllocError>
    ensures { IfOk result (λ token. token ≡ absolute_from base.now text.now) }
{
    match path_from(alloc, base, text)? {
        Some(path) => {
            let token = token_of(alloc, &path);
            drop(path);
            Ok(Some(token?))
        }
        None => Ok(None),
    }
}
