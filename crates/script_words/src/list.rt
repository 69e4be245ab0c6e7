//! A list that goes to the end of a line.
ghost use Rattle.std.specs.Prelude.{false};
ghost use Rattle.usda_lexer.specs.Words.{left};
ghost use Rattle.script_words.specs.Answers.{Finds};
ghost use Rattle.script_words.specs.Values.{of_all};
ghost use Rattle.script_words.specs.Lists.{draft_behind, whole_list, list_from, list_in, texts_of, paths_of, targets_of, references_of, sublayers_of};

use crate::fault::LineFault;
use crate::items::{ListItems, with_token};
use crate::place::{ListPlace, is_in_brackets, may_end, place_behind};
use crate::words::tokens_of;
use edit_batches::{WrittenReference, WrittenSubLayer};
use plain_data::{Items, Text};
use sdf_paths::Path;
use std::alloc::Global;
use usda_lexer::{TokenKind, Tokens};

/// A list of which some tokens are read.
#[derive(Debug, Drop)]
pub struct ListDraft {
    /// Where it stands.
    pub place: ListPlace,
    /// Whether it is in brackets.
    pub bracketed: bool,
    /// Its items so far.
    pub items: ListItems,
}

/// The draft behind a token.
#[tactic(auto, unfolding(crate::specs::Lists::draft_behind))]
fn draft_behind(
    alloc: Global,
    base: &Path,
    kind: TokenKind,
    text: &str,
    draft: ListDraft,
) -> Result<ListDraft, LineFault>
    ensures { Finds result (draft_behind base.now kind text.now draft) }
{
    let ListDraft {
        place,
        bracketed,
        items,
    } = draft;
    match place_behind(items.form(), bracketed, place, kind, text) {
        Some(next) => {
            let items = with_token(alloc, base, place, kind, text, items)?;
            Ok(ListDraft {
                place: next,
                bracketed: is_in_brackets(bracketed, next),
                items,
            })
        }
        None => {
            drop(items);
            Err(LineFault::Bad)
        }
    }
}

/// The items, where the list may end.
fn whole_list(draft: ListDraft) -> Result<ListItems, LineFault>
    ensures { Finds result (whole_list draft) }
{
    if may_end(draft.bracketed, draft.place) {
        Ok(draft.items)
    } else {
        drop(draft);
        Err(LineFault::Bad)
    }
}

/// The items of the list that the tokens complete.
fn list_from(
    alloc: Global,
    base: &Path,
    draft: ListDraft,
    tokens: &mut Tokens<'_>,
) -> Result<ListItems, LineFault>
    ensures { Finds result (of_all (list_from base.now draft) (left tokens.old)) }
{
    let mut draft = draft;
    loop {
        match tokens.next() {
            Ok(Some(token)) => {
                draft = draft_behind(alloc, base, token.kind, token.text, draft)?;
            }
            Ok(None) => return whole_list(draft),
            Err(_) => {
                drop(draft);
                return Err(LineFault::Bad);
            }
        }
    }
}

/// The items of the list of all tokens of the bytes, which are put to these. A path that does not begin with `/` is taken from the prim
/// `base`. `Bad` where the bytes are no list, or not one alone.
#[tactic(auto, unfolding(crate::specs::Lists::list_in))]
pub fn list_in(
    alloc: Global,
    base: &Path,
    place: ListPlace,
    items: ListItems,
    bytes: &[u8],
) -> Result<ListItems, LineFault>
    ensures { Finds result (list_in base.now place items bytes.now) }
{
    match tokens_of(bytes) {
        Some(tokens) => {
            let mut tokens = tokens;
            let draft = ListDraft {
                place,
                bracketed: false,
                items,
            };
            list_from(alloc, base, draft, &mut tokens)
        }
        None => {
            drop(items);
            Err(LineFault::Bad)
        }
    }
}

impl ListItems {
    /// The texts.
    pub fn texts(self) -> Result<Items<Text>, LineFault>
        ensures { Finds result (texts_of self) }
    {
        match self {
            ListItems::Texts(items) => Ok(items),
            other => {
                drop(other);
                Err(LineFault::Bad)
            }
        }
    }

    /// The paths with selections.
    pub fn paths(self) -> Result<Items<Path>, LineFault>
        ensures { Finds result (paths_of self) }
    {
        match self {
            ListItems::Paths(items) => Ok(items),
            other => {
                drop(other);
                Err(LineFault::Bad)
            }
        }
    }

    /// The paths without selections.
    pub fn targets(self) -> Result<Items<Path>, LineFault>
        ensures { Finds result (targets_of self) }
    {
        match self {
            ListItems::Targets(items) => Ok(items),
            other => {
                drop(other);
                Err(LineFault::Bad)
            }
        }
    }

    /// The references or payloads.
    pub fn references(self) -> Result<Items<WrittenReference>, LineFault>
        ensures { Finds result (references_of self) }
    {
        match self {
            ListItems::References(items) => Ok(items),
            other => {
                drop(other);
                Err(LineFault::Bad)
            }
        }
    }

    /// The sublayers.
    pub fn sublayers(self) -> Result<Items<WrittenSubLayer>, LineFault>
        ensures { Finds result (sublayers_of self) }
    {
        match self {
            ListItems::SubLayers(items) => Ok(items),
            other => {
                drop(other);
                Err(LineFault::Bad)
            }
        }
    }
}
