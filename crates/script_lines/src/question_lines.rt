//! Lines that ask.
ghost use Rattle.script_words.specs.Answers.{Finds, FindsAs};
ghost use Rattle.script_lines.specs.QuestionLines.{property_at, asked, value_line, default_line, samples_line, targets_line, children_line, faults_line, sites_line};

use crate::line::Line;
use script_words::{LineFault, ended, number_at, path_at};
use sdf_paths::Path;
use stage_questions::Question;
use std::alloc::Global;
use usda_values::finite_time;

/// The path of a property, and the bytes behind it.
#[tactic(auto, unfolding(crate::specs::QuestionLines::property_at))]
fn property_at(alloc: Global, bytes: &[u8]) -> Result<(Path, &[u8]), LineFault>
    ensures { FindsAs (λ x. (x.0, x.1.now)) result (property_at bytes.now) }
{
    let (path, rest) = path_at(alloc, bytes)?;
    if path.is_property() {
        Ok((path, rest))
    } else {
        Err(LineFault::Bad)
    }
}

/// A question, where nothing follows.
#[tactic(auto, unfolding(crate::specs::QuestionLines::asked))]
pub fn asked(question: Question, bytes: &[u8]) -> Result<Line, LineFault>
    ensures { Finds result (asked question bytes.now) }
{
    ended(Line::Ask(question), bytes)
}

/// Behind `value`: a property and a time.
#[tactic(auto, unfolding(crate::specs::QuestionLines::value_line))]
pub fn value_line(alloc: Global, bytes: &[u8]) -> Result<Line, LineFault>
    ensures { Finds result (value_line bytes.now) }
{
    let (path, rest) = property_at(alloc, bytes)?;
    let (number, rest) = read_or_drop!(number_at(rest), path);
    let time = read_or_drop!(finite_time(number).ok_or(LineFault::Bad), path);
    asked(Question::Value { path, time }, rest)
}

/// Behind `default`: a property.
#[tactic(auto, unfolding(crate::specs::QuestionLines::default_line))]
pub fn default_line(alloc: Global, bytes: &[u8]) -> Result<Line, LineFault>
    ensures { Finds result (default_line bytes.now) }
{
    let (path, rest) = property_at(alloc, bytes)?;
    asked(Question::Default { path }, rest)
}

/// Behind `samples`: a property.
#[tactic(auto, unfolding(crate::specs::QuestionLines::samples_line))]
pub fn samples_line(alloc: Global, bytes: &[u8]) -> Result<Line, LineFault>
    ensures { Finds result (samples_line bytes.now) }
{
    let (path, rest) = property_at(alloc, bytes)?;
    asked(Question::Samples { path }, rest)
}

/// Behind `targets`: a property.
#[tactic(auto, unfolding(crate::specs::QuestionLines::targets_line))]
pub fn targets_line(alloc: Global, bytes: &[u8]) -> Result<Line, LineFault>
    ensures { Finds result (targets_line bytes.now) }
{
    let (path, rest) = property_at(alloc, bytes)?;
    asked(Question::Targets { path }, rest)
}

/// Behind `children`: a path.
#[tactic(auto, unfolding(crate::specs::QuestionLines::children_line))]
pub fn children_line(alloc: Global, bytes: &[u8]) -> Result<Line, LineFault>
    ensures { Finds result (children_line bytes.now) }
{
    let (path, rest) = path_at(alloc, bytes)?;
    asked(Question::Children { path }, rest)
}

/// Behind `faults`: a path.
#[tactic(auto, unfolding(crate::specs::QuestionLines::faults_line))]
pub fn faults_line(alloc: Global, bytes: &[u8]) -> Result<Line, LineFault>
    ensures { Finds result (faults_line bytes.now) }
{
    let (path, rest) = path_at(alloc, bytes)?;
    asked(Question::Faults { path }, rest)
}

/// Behind `sites`: a path.
#[tactic(auto, unfolding(crate::specs::QuestionLines::sites_line))]
pub fn sites_line(alloc: Global, bytes: &[u8]) -> Result<Line, LineFault>
    ensures { Finds result (sites_line bytes.now) }
{
    let (path, rest) = path_at(alloc, bytes)?;
    asked(Question::Sites { path }, rest)
}
