//! A question with its answer.
ghost use Rattle.std.specs.Prelude.{◌≡◌, ◌++◌, OnErr, OnOk};
ghost use Rattle.std.specs.Io.{StartsWith};
ghost use Rattle.stage_questions.specs.Answers.{line_of, flat_text, measured, answer, answer_line};

use crate::question::{Question, print_question};
use crate::told::{
    children_told, default_told, faults_told, samples_told, sites_told, targets_told, value_told,
};
use asset_names::AssetId;
use flatten::flatten_text;
use sdf_paths::Path;
use stage_entries::StageEntry;
use stage_publish::View;
use std::alloc::{AllocError, Global};

/// Appends a text and the end of its line.
fn push_line(out: &mut Vec<u8>, text: &str) -> Result<(), AllocError>
    ensures added { OnOk result (out.new.items ≡ out.old.items ++ line_of text.now) }
    ensures kept { OnErr result (StartsWith out.new.items out.old.items) }
{
    out.extend_from_slice(text.as_bytes())?;
    out.extend_from_slice(b"\n")
}

/// Appends a text behind its length.
fn push_measured(alloc: Global, out: &mut Vec<u8>, text: &[u8]) -> Result<(), AllocError>
    ensures added { OnOk result (out.new.items ≡ out.old.items ++ measured text.now) }
    ensures kept { OnErr result (StartsWith out.new.items out.old.items) }
{
    let length = text.len().to_string(alloc)?;
    out.extend_from_slice(length.as_bytes())?;
    out.extend_from_slice(b" bytes\n")?;
    out.extend_from_slice(text)
}

/// Appends the text of the flattened layer of a stage.
#[tactic(auto, unfolding(crate::specs::Answers::flat_text))]
fn push_flattened(
    alloc: Global,
    out: &mut Vec<u8>,
    view: &View<'_, Path, StageEntry>,
) -> Result<(), AllocError>
    ensures added { OnOk result (out.new.items ≡ out.old.items ++ measured (flat_text view.now.items)) }
    ensures kept { OnErr result (StartsWith out.new.items out.old.items) }
{
    let text = flatten_text(alloc, view)?;
    push_measured(alloc, out, text.as_slice())
}

/// Appends the answer to a question.
fn push_told(
    alloc: Global,
    out: &mut Vec<u8>,
    root: &AssetId,
    view: &View<'_, Path, StageEntry>,
    question: &Question,
) -> Result<(), AllocError>
    ensures added { OnOk result (out.new.items ≡ out.old.items ++ answer root.now view.now.items question.now) }
    ensures kept { OnErr result (StartsWith out.new.items out.old.items) }
{
    match question {
        Question::Value { path, time } => {
            push_line(out, value_told(alloc, view, path, *time)?.as_str())
        }
        Question::Default { path } => push_line(out, default_told(alloc, view, path)?.as_str()),
        Question::Samples { path } => push_line(out, samples_told(alloc, view, path)?.as_str()),
        Question::Targets { path } => push_line(out, targets_told(alloc, view, path)?.as_str()),
        Question::Children { path } => push_line(out, children_told(alloc, view, path)?.as_str()),
        Question::Faults { path } => push_line(out, faults_told(alloc, view, path)?.as_str()),
        Question::Sites { path } => push_line(out, sites_told(alloc, root, view, path)?.as_str()),
        Question::Flatten => push_flattened(alloc, out, view),
    }
}

/// Appends a question in its one spelling with its answer, on a stage of a world with this root layer.
///
/// # Errors
///
/// Memory ran out; `out` then has what stood there before, and may have a part of the answer behind it.
pub fn push_answer(
    alloc: Global,
    out: &mut Vec<u8>,
    root: &AssetId,
    view: &View<'_, Path, StageEntry>,
    question: &Question,
) -> Result<(), AllocError>
    ensures added { OnOk result (out.new.items ≡ out.old.items ++ answer_line root.now view.now.items question.now) }
    ensures kept { OnErr result (StartsWith out.new.items out.old.items) }
{
    let asked = print_question(alloc, question)?;
    out.extend_from_slice(asked.as_bytes())?;
    out.extend_from_slice(b": ")?;
    push_told(alloc, out, root, view, question)
}
