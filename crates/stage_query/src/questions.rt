//! The questions.
ghost use Rattle.std.specs.Prelude.{◌≡◌};
ghost use Rattle.std.specs.Option.{option_copied};
ghost use Rattle.stage_query.specs.Answers.{answer_copied, view_at, value_answer, default_answer, samples_answer, targets_answer, children_answer, view_answer};

use crate::answer::Answer;
use crate::property::{default_value, samples_in, targets_in, value_of};
use plain_data::Text;
use prim_view::PrimView;
use sdf_paths::Path;
use sdf_values::{TimeCode, Value};
use spec_properties::Samples;
use stage_entries::StageEntry;
use stage_publish::View;

/// The prim at a path.
fn prim_at<'v>(view: &'v View<'_, Path, StageEntry>, prim: &Path) -> Option<&'v StageEntry>
    ensures { option_copied result ≡ view_at prim.now view.now.items }
{
    view.find(prim)
}

/// The value of an attribute at a time: that of the sample at the greatest time that is not after it, where there are samples, and
/// else the default. Before the first sample it is that of the first.
pub fn value_at<'v>(
    view: &'v View<'_, Path, StageEntry>,
    prim: &Path,
    property: &str,
    t: TimeCode,
) -> Answer<&'v Value>
    ensures { answer_copied result ≡ value_answer prim.now property.now t view.now.items }
{
    match prim_at(view, prim) {
        None => Answer::NoPrim,
        Some(found) => match found.view().property(property) {
            None => Answer::NoProperty,
            Some(property) => value_of(property, t),
        },
    }
}

/// The default of an attribute.
pub fn default_of<'v>(
    view: &'v View<'_, Path, StageEntry>,
    prim: &Path,
    property: &str,
) -> Answer<&'v Value>
    ensures { answer_copied result ≡ default_answer prim.now property.now view.now.items }
{
    match prim_at(view, prim) {
        None => Answer::NoPrim,
        Some(found) => match found.view().property(property) {
            None => Answer::NoProperty,
            Some(property) => default_value(property),
        },
    }
}

/// The samples of an attribute, where it has any; a sample may be a block.
pub fn samples_of<'v>(
    view: &'v View<'_, Path, StageEntry>,
    prim: &Path,
    property: &str,
) -> Answer<&'v Samples>
    ensures { answer_copied result ≡ samples_answer prim.now property.now view.now.items }
{
    match prim_at(view, prim) {
        None => Answer::NoPrim,
        Some(found) => match found.view().property(property) {
            None => Answer::NoProperty,
            Some(property) => samples_in(property),
        },
    }
}

/// The targets of a relationship, or the connections of an attribute.
pub fn targets_of<'v>(
    view: &'v View<'_, Path, StageEntry>,
    prim: &Path,
    property: &str,
) -> Answer<&'v [Path]>
    ensures { answer_copied result ≡ targets_answer prim.now property.now view.now.items }
{
    match prim_at(view, prim) {
        None => Answer::NoPrim,
        Some(found) => match found.view().property(property) {
            None => Answer::NoProperty,
            Some(property) => targets_in(property),
        },
    }
}

/// The names of the children of a prim, in their order.
pub fn children_of<'v>(view: &'v View<'_, Path, StageEntry>, prim: &Path) -> Answer<&'v [Text]>
    ensures { answer_copied result ≡ children_answer prim.now view.now.items }
{
    match prim_at(view, prim) {
        None => Answer::NoPrim,
        Some(found) => Answer::Is(found.view().children.as_slice()),
    }
}

/// All that the stage has of a prim.
pub fn view_of<'v>(view: &'v View<'_, Path, StageEntry>, prim: &Path) -> Answer<&'v PrimView>
    ensures { answer_copied result ≡ view_answer prim.now view.now.items }
{
    match prim_at(view, prim) {
        None => Answer::NoPrim,
        Some(found) => Answer::Is(found.view()),
    }
}
