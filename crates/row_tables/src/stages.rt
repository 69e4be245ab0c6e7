//! Calls on the stage of a world.

use crate::fault::CallFault;
use crate::opening::{Opened, Stage};
use compose_api::{StageRefused, stage_items_within};
use flatten::flatten_text;
use layer_set::World;
use script_lines::{Line, read_line};
use stage_composer::UsdComposer;
use stage_publish::Edition;
use stage_questions::{Question, push_answer};
use std::alloc::{AllocError, Global};
use std::mem;

/// As many paths as a stage has at most.
const MAX_PATHS: usize = 262_144;

/// The stage of a world.
fn composed(alloc: Global, world: &World) -> Result<Stage, CallFault> {
    match stage_items_within(alloc, &UsdComposer::new(alloc), world, MAX_PATHS) {
        Ok(items) => Ok(Edition::build(alloc, 0, 0, items, None)?),
        Err(StageRefused::Full) => Err(CallFault::Bad),
        Err(StageRefused::NoMemory) => Err(CallFault::NoMemory),
    }
}

/// Composes the stage of the world that was opened, where it was not asked before.
fn compose_once(alloc: Global, opened: &mut Opened) -> Result<(), CallFault> {
    if opened.stage.is_none() {
        let stage = composed(alloc, &opened.world)?;
        drop(mem::replace(&mut opened.stage, Some(stage)));
    }
    Ok(())
}

/// The question of a line.
fn question_of(alloc: Global, line: &str) -> Result<Question, CallFault> {
    match read_line(alloc, line.as_bytes())? {
        Some(Line::Ask(question)) => Ok(question),
        other => {
            drop(other);
            Err(CallFault::Bad)
        }
    }
}

/// Appends bytes as text.
pub(crate) fn push_bytes(alloc: Global, out: &mut String, bytes: &[u8]) -> Result<(), AllocError> {
    let text = String::from_utf8_lossy(alloc, bytes)?;
    out.push_str(text.as_str())
}

/// Appends the answer to a question on the stage that was composed.
fn push_reply(
    alloc: Global,
    out: &mut String,
    opened: &Opened,
    question: &Question,
) -> Result<(), CallFault> {
    match &opened.stage {
        Some(stage) => {
            let mut answer = Vec::new(alloc);
            let root = opened.world.root();
            push_answer(alloc, &mut answer, root, &stage.view(), question)?;
            Ok(push_bytes(alloc, out, answer.as_slice())?)
        }
        None => Err(CallFault::Bad),
    }
}

/// `ask QUESTION`: the answer, as a session writes it.
pub(crate) fn push_ask_call(
    alloc: Global,
    out: &mut String,
    opened: &mut Opened,
    words: &str,
) -> Result<(), CallFault> {
    compose_once(alloc, opened)?;
    let question = question_of(alloc, words)?;
    let told = push_reply(alloc, out, opened, &question);
    drop(question);
    told
}

/// `flatten`: the text of the flattened layer.
pub(crate) fn push_flatten_call(
    alloc: Global,
    out: &mut String,
    opened: &mut Opened,
) -> Result<(), CallFault> {
    compose_once(alloc, opened)?;
    match &opened.stage {
        Some(stage) => {
            let text = flatten_text(alloc, &stage.view())?;
            Ok(push_bytes(alloc, out, text.as_slice())?)
        }
        None => Err(CallFault::Bad),
    }
}
