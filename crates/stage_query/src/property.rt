//! What a property of a composed prim answers.
ghost use Rattle.std.specs.Prelude.{◌≡◌};
ghost use Rattle.std.specs.Option.{option_copied, option_map};
ghost use Rattle.composition.specs.Values.{held_sample, value_at};
ghost use Rattle.stage_query.specs.Answers.{answer_copied, decided, opinion, sampled, value_of, default_value, samples_in, targets_in};

use crate::answer::Answer;
use plain_data::Items;
use prim_view::PropertyView;
use sdf_paths::Path;
use sdf_values::{TimeCode, Value};
use spec_properties::Samples;

/// The sample that holds at a time: the last one that is not after it, and before the first sample the first.
fn held_sample(samples: &Samples, t: TimeCode) -> Option<(&TimeCode, &Value)>
    ensures { option_map (λ e. (e.0.now, e.1.now)) result ≡ held_sample samples.now t }
{
    match samples.last_until(&t) {
        Some(held) => Some(held),
        None => samples.at(0),
    }
}

/// The value at a time: that of the sample that holds, where there are any, and else the default.
fn at_time<'v>(default: &'v Option<Value>, samples: &'v Samples, t: TimeCode) -> Option<&'v Value>
    ensures { option_copied result ≡ value_at default.now samples.now t }
{
    if samples.is_empty() {
        return default.as_ref();
    }
    match held_sample(samples, t) {
        Some((_, value)) => Some(value),
        None => None,
    }
}

/// The value that decides; a block is told as such.
fn decided(value: Option<&Value>) -> Answer<&Value>
    ensures { answer_copied result ≡ decided (option_copied value.entry) }
{
    match value {
        None => Answer::NoValue,
        Some(value) => {
            if value.is_block() {
                Answer::Blocked
            } else {
                Answer::Is(value)
            }
        }
    }
}

/// A list of paths on which there may be no opinion.
fn opinion(paths: &Option<Items<Path>>) -> Answer<&[Path]>
    ensures { answer_copied result ≡ opinion paths.now }
{
    match paths {
        None => Answer::NoValue,
        Some(paths) => Answer::Is(paths.as_slice()),
    }
}

fn sampled(samples: &Samples) -> Answer<&Samples>
    ensures { answer_copied result ≡ sampled samples.now }
{
    if samples.is_empty() {
        return Answer::NoValue;
    }
    Answer::Is(samples)
}

/// The value at a time.
pub fn value_of(property: &PropertyView, t: TimeCode) -> Answer<&Value>
    ensures { answer_copied result ≡ value_of t property.now }
{
    match property {
        PropertyView::Attr {
            default,
            samples,
            ..
        } => decided(at_time(default, samples, t)),
        PropertyView::Rel { .. } => Answer::NoProperty,
    }
}

/// The default.
pub fn default_value(property: &PropertyView) -> Answer<&Value>
    ensures { answer_copied result ≡ default_value property.now }
{
    match property {
        PropertyView::Attr { default, .. } => decided(default.as_ref()),
        PropertyView::Rel { .. } => Answer::NoProperty,
    }
}

/// The samples.
pub fn samples_in(property: &PropertyView) -> Answer<&Samples>
    ensures { answer_copied result ≡ samples_in property.now }
{
    match property {
        PropertyView::Attr { samples, .. } => sampled(samples),
        PropertyView::Rel { .. } => Answer::NoProperty,
    }
}

/// The targets of a relationship, and the connections of an attribute.
pub fn targets_in(property: &PropertyView) -> Answer<&[Path]>
    ensures { answer_copied result ≡ targets_in property.now }
{
    match property {
        PropertyView::Attr { connections, .. } => opinion(connections),
        PropertyView::Rel { targets, .. } => opinion(targets),
    }
}
