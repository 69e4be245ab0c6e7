//! Questions, and how they are written.
ghost use Rattle.std.specs.Prelude.{◌≡◌, ◌++◌, IfOk, OnOk, string_bytes};
ghost use Rattle.stage_questions.specs.Answers.{asked_of, question_text};

use sdf_paths::{Path, push_path};
use sdf_values::{TimeCode, push_time};
use std::alloc::{AllocError, Global};

/// A question on the stage that was published last.
///
/// A property is asked for by the path of the property, a prim by its own path, and `/` is one.
#[derive(Debug, Drop)]
pub enum Question {
    /// The value of an attribute at a time.
    Value {
        /// The path of the attribute.
        path: Path,
        /// The time, on the stage.
        time: TimeCode,
    },
    /// The default of an attribute.
    Default {
        /// The path of the attribute.
        path: Path,
    },
    /// The samples of an attribute.
    Samples {
        /// The path of the attribute.
        path: Path,
    },
    /// The targets of a relationship, or the connections of an attribute.
    Targets {
        /// The path of the property.
        path: Path,
    },
    /// The names of the children of a prim.
    Children {
        /// The path of the prim.
        path: Path,
    },
    /// The faults of a prim.
    Faults {
        /// The path of the prim.
        path: Path,
    },
    /// The sites of a prim that have a spec.
    Sites {
        /// The path of the prim.
        path: Path,
    },
    /// The flattened layer of the stage.
    Flatten,
}

/// Appends a word and a path.
fn push_asked(out: &mut String, word: &str, path: &Path) -> Result<(), AllocError>
    ensures { OnOk result (string_bytes out.new ≡ string_bytes out.old ++ asked_of word.now path.now) }
{
    out.push_str(word)?;
    push_path(out, path)
}

/// Appends a question in its one spelling.
fn push_question(out: &mut String, question: &Question) -> Result<(), AllocError>
    ensures { OnOk result (string_bytes out.new ≡ string_bytes out.old ++ question_text question.now) }
{
    match question {
        Question::Value { path, time } => {
            push_asked(out, "value ", path)?;
            out.push_str(" ")?;
            push_time(out, *time)
        }
        Question::Default { path } => push_asked(out, "default ", path),
        Question::Samples { path } => push_asked(out, "samples ", path),
        Question::Targets { path } => push_asked(out, "targets ", path),
        Question::Children { path } => push_asked(out, "children ", path),
        Question::Faults { path } => push_asked(out, "faults ", path),
        Question::Sites { path } => push_asked(out, "sites ", path),
        Question::Flatten => out.push_str("flatten"),
    }
}

/// A question in its one spelling.
pub fn print_question(alloc: Global, question: &Question) -> Result<String, AllocError>
    ensures { IfOk result (λ text. string_bytes text ≡ question_text question.now) }
{
    let mut out = String::new(alloc);
    push_question(&mut out, question)?;
    Ok(out)
}
