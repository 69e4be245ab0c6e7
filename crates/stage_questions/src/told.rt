//! The answers to questions on a prim or a property.
ghost use Rattle.std.specs.Prelude.{◌≡◌, IfOk, string_bytes};
ghost use Rattle.stage_questions.specs.Answers.{absent_text, property_name, value_told, default_told, samples_told, targets_told, children_told, faults_told, sites_told};

use crate::lists::{print_faults, print_names, print_samples, print_sites, print_targets};
use asset_names::AssetId;
use sdf_paths::Path;
use sdf_values::{TimeCode, print_value};
use stage_entries::StageEntry;
use stage_publish::View;
use stage_query::{Answer, children_of, default_of, samples_of, targets_of, value_at, view_of};
use std::alloc::{AllocError, Global};

/// The word for why there is nothing.
fn absent_word<T>(answer: &Answer<T>) -> &'static str
    ensures { result.now ≡ absent_text answer.now }
{
    match answer {
        Answer::Is(_) => "",
        Answer::NoPrim => "NoPrim",
        Answer::NoProperty => "NoProperty",
        Answer::NoValue => "NoValue",
        Answer::Blocked => "Blocked",
    }
}

/// The name of the property of a path.
fn property_name(path: &Path) -> &str
    ensures { result.now ≡ property_name path.now }
{
    path.last().unwrap_or("")
}

/// The value of an attribute at a time.
pub fn value_told(
    alloc: Global,
    view: &View<'_, Path, StageEntry>,
    path: &Path,
    time: TimeCode,
) -> Result<String, AllocError>
    ensures { IfOk result (λ text. string_bytes text ≡ value_told path.now time view.now.items) }
{
    let prim = path.owner()?;
    match value_at(view, &prim, property_name(path), time) {
        Answer::Is(value) => print_value(alloc, value, 0),
        absent => String::from_str(alloc, absent_word(&absent)),
    }
}

/// The default of an attribute.
pub fn default_told(
    alloc: Global,
    view: &View<'_, Path, StageEntry>,
    path: &Path,
) -> Result<String, AllocError>
    ensures { IfOk result (λ text. string_bytes text ≡ default_told path.now view.now.items) }
{
    let prim = path.owner()?;
    match default_of(view, &prim, property_name(path)) {
        Answer::Is(value) => print_value(alloc, value, 0),
        absent => String::from_str(alloc, absent_word(&absent)),
    }
}

/// The samples of an attribute.
pub fn samples_told(
    alloc: Global,
    view: &View<'_, Path, StageEntry>,
    path: &Path,
) -> Result<String, AllocError>
    ensures { IfOk result (λ text. string_bytes text ≡ samples_told path.now view.now.items) }
{
    let prim = path.owner()?;
    match samples_of(view, &prim, property_name(path)) {
        Answer::Is(samples) => print_samples(alloc, samples),
        absent => String::from_str(alloc, absent_word(&absent)),
    }
}

/// The targets of a relationship, or the connections of an attribute.
pub fn targets_told(
    alloc: Global,
    view: &View<'_, Path, StageEntry>,
    path: &Path,
) -> Result<String, AllocError>
    ensures { IfOk result (λ text. string_bytes text ≡ targets_told path.now view.now.items) }
{
    let prim = path.owner()?;
    match targets_of(view, &prim, property_name(path)) {
        Answer::Is(paths) => print_targets(alloc, paths),
        absent => String::from_str(alloc, absent_word(&absent)),
    }
}

/// The names of the children of a prim.
pub fn children_told(
    alloc: Global,
    view: &View<'_, Path, StageEntry>,
    path: &Path,
) -> Result<String, AllocError>
    ensures { IfOk result (λ text. string_bytes text ≡ children_told path.now view.now.items) }
{
    match children_of(view, path) {
        Answer::Is(names) => print_names(alloc, names),
        absent => String::from_str(alloc, absent_word(&absent)),
    }
}

/// The faults of a prim.
pub fn faults_told(
    alloc: Global,
    view: &View<'_, Path, StageEntry>,
    path: &Path,
) -> Result<String, AllocError>
    ensures { IfOk result (λ text. string_bytes text ≡ faults_told path.now view.now.items) }
{
    match view_of(view, path) {
        Answer::Is(prim) => print_faults(alloc, prim),
        absent => String::from_str(alloc, absent_word(&absent)),
    }
}

/// The sites of a prim that have a spec.
pub fn sites_told(
    alloc: Global,
    root: &AssetId,
    view: &View<'_, Path, StageEntry>,
    path: &Path,
) -> Result<String, AllocError>
    ensures { IfOk result (λ text. string_bytes text ≡ sites_told root.now path.now view.now.items) }
{
    match view_of(view, path) {
        Answer::Is(prim) => print_sites(alloc, root, prim),
        absent => String::from_str(alloc, absent_word(&absent)),
    }
}
