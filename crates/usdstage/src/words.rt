//! The words that are a command.

ghost use Rattle.std.specs.Prelude.{◌≡◌, IfOk, map, string_bytes};
ghost use Rattle.script_words.specs.Words.{layer_named};
ghost use Rattle.usdstage.specs.Command.{begins_with_dash, verb_of, blank, with_root, with_session, wanting, with_word, take_word, take_words, finished, command_of};

use asset_names::AssetId;
use script_words::{LineFault, layer_named};
use std::alloc::{AllocError, Global};

/// What a command asks for.
#[derive(Clone, Copy, PartialEq, Eq)]
pub enum Verb {
    /// The flattened layer.
    Flatten,
    /// A session by a script.
    Session,
}

/// What is asked for, and the layers that the world is opened with.
#[derive(Drop)]
pub struct Command {
    /// What is asked for.
    pub verb: Verb,
    /// The root layer.
    pub root: AssetId,
    /// The session layer, where one is named.
    pub session: Option<AssetId>,
}

/// What was read of the words behind the first.
#[derive(Drop)]
pub struct Draft {
    /// The root layer, once it was named.
    pub root: Option<AssetId>,
    /// The session layer, once it was named.
    pub session: Option<AssetId>,
    /// Whether the next word names the session layer.
    pub wants_layer: bool,
}

/// What the first word asks for.
fn verb_of(word: &str) -> Option<Verb>
    ensures { result ≡ verb_of word.now }
{
    if word == "flatten" {
        Some(Verb::Flatten)
    } else if word == "session" {
        Some(Verb::Session)
    } else {
        None
    }
}

fn begins_with_dash(word: &[u8]) -> bool
    ensures { result ≡ begins_with_dash word.now }
{
    match word.first() {
        Some(c) => *c == b'-',
        None => false,
    }
}

/// The name of a layer that a word gives by itself.
fn name_of(alloc: Global, word: &str) -> Result<Option<AssetId>, AllocError>
    ensures { IfOk result (λ name. name ≡ layer_named word.now) }
{
    match layer_named(alloc, word) {
        Ok(name) => Ok(Some(name)),
        Err(LineFault::Bad) => Ok(None),
        Err(LineFault::NoMemory) => Err(AllocError),
    }
}

/// The root is named.
fn with_root(alloc: Global, draft: Draft, word: &str) -> Result<Option<Draft>, AllocError>
    ensures { IfOk result (λ next. next ≡ with_root draft word.now) }
{
    if draft.root.is_some() {
        drop(draft);
        return Ok(None);
    }
    match name_of(alloc, word) {
        Ok(Some(name)) => {
            let Draft { root, session, .. } = draft;
            drop(root);
            Ok(Some(Draft {
                root: Some(name),
                session,
                wants_layer: false,
            }))
        }
        Ok(None) => {
            drop(draft);
            Ok(None)
        }
        Err(error) => {
            drop(draft);
            Err(error)
        }
    }
}

/// The session layer is named.
fn with_session(alloc: Global, draft: Draft, word: &str) -> Result<Option<Draft>, AllocError>
    ensures { IfOk result (λ next. next ≡ with_session draft word.now) }
{
    if draft.session.is_some() {
        drop(draft);
        return Ok(None);
    }
    match name_of(alloc, word) {
        Ok(Some(name)) => {
            let Draft { root, session, .. } = draft;
            drop(session);
            Ok(Some(Draft {
                root,
                session: Some(name),
                wants_layer: false,
            }))
        }
        Ok(None) => {
            drop(draft);
            Ok(None)
        }
        Err(error) => {
            drop(draft);
            Err(error)
        }
    }
}

/// The next word names the session layer.
fn wanting(draft: Draft) -> Option<Draft>
    ensures { result ≡ wanting draft }
{
    if draft.session.is_some() {
        drop(draft);
        return None;
    }
    let Draft { root, session, .. } = draft;
    drop(session);
    Some(Draft {
        root,
        session: None,
        wants_layer: true,
    })
}

/// An option, or the root.
fn with_word(alloc: Global, draft: Draft, word: &str) -> Result<Option<Draft>, AllocError>
    ensures { IfOk result (λ next. next ≡ with_word draft word.now) }
{
    if word == "--session" {
        return Ok(wanting(draft));
    }
    if let Some(name) = word.strip_prefix("--session=") {
        return with_session(alloc, draft, name);
    }
    if begins_with_dash(word.as_bytes()) {
        drop(draft);
        return Ok(None);
    }
    with_root(alloc, draft, word)
}

/// One word more.
#[tactic(auto, unfolding(crate::specs::Command::take_word))]
fn take_word(alloc: Global, draft: Draft, word: &str) -> Result<Option<Draft>, AllocError>
    ensures { IfOk result (λ next. next ≡ take_word draft word.now) }
{
    if !draft.wants_layer {
        return with_word(alloc, draft, word);
    }
    if begins_with_dash(word.as_bytes()) {
        drop(draft);
        return Ok(None);
    }
    with_session(alloc, draft, word)
}

/// Word after word, from this one on.
#[tactic(auto, unfolding(crate::specs::Command::take_words))]
fn take_words(alloc: Global, words: &[String]) -> Result<Option<Draft>, AllocError>
    ensures { IfOk result (λ draft. draft ≡ take_words blank (map string_bytes words.now)) }
{
    let mut draft = Draft {
        root: None,
        session: None,
        wants_layer: false,
    };
    for word in words {
        match take_word(alloc, draft, word.as_str())? {
            Some(next) => draft = next,
            None => return Ok(None),
        }
    }
    Ok(Some(draft))
}

/// The command of which all was read.
fn finished(verb: Verb, draft: Draft) -> Option<Command>
    ensures { result ≡ finished verb draft }
{
    if draft.wants_layer {
        drop(draft);
        return None;
    }
    let Draft { root, session, .. } = draft;
    match root {
        Some(root) => Some(Command {
            verb,
            root,
            session,
        }),
        None => {
            drop(session);
            None
        }
    }
}

/// The command that the words are, if they are one.
///
/// # Errors
///
/// Memory ran out.
pub fn command_of(alloc: Global, words: &[String]) -> Result<Option<Command>, AllocError>
    ensures { IfOk result (λ command. command ≡ command_of (map string_bytes words.now)) }
{
    if words.is_empty() {
        return Ok(None);
    }
    let Some(verb) = verb_of(words[0].as_str()) else {
        return Ok(None);
    };
    match take_words(alloc, &words[1..])? {
        Some(draft) => Ok(finished(verb, draft)),
        None => Ok(None),
    }
}
