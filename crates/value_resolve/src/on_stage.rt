//! What one opinion on an attribute gives on the stage.
ghost use Rattle.std.specs.Prelude.{◌≡◌, IfOk};
ghost use Rattle.composition.specs.Values.{is_timecode, given_default, given_by, given};
ghost use Rattle.value_resolve.specs.Deciding.{gives};

use crate::mapping::value_on_stage;
use crate::samples::samples_on_stage;
use prim_opinions::{PropertyAt, StageOffset};
use sdf_values::{ElementType, TypeName, Value};
use spec_properties::{Property, Samples};
use spec_tables::OrderedTable;
use std::alloc::{AllocError, Global};

/// What an opinion gives on the stage, and whether something of it leaves the range of times.
#[derive(Drop)]
pub struct OnStage {
    /// The default; none where there is none, or where a time in it leaves the range.
    pub default: Option<Value>,
    /// The samples that stay within the range, in the times of the stage.
    pub samples: Samples,
    /// Whether a default or a sample was left out since a time leaves the range.
    pub left_out: bool,
}

/// Whether values of a type are times.
fn is_timecode(ty: TypeName) -> bool
    ensures { result ≡ is_timecode ty.element }
{
    matches!(ty.element, ElementType::Timecode)
}

/// The default as it is on the stage.
fn default_on_stage(
    times: bool,
    offset: StageOffset,
    default: &Option<Value>,
) -> Result<Option<Value>, AllocError>
    ensures { IfOk result (λ v. v ≡ given_default times offset default.now) }
{
    match default {
        Some(value) => value_on_stage(times, offset, value),
        None => Ok(None),
    }
}

/// What an opinion of a default and samples gives.
fn given_by(
    alloc: Global,
    times: bool,
    offset: StageOffset,
    default: &Option<Value>,
    samples: &Samples,
) -> Result<OnStage, AllocError>
    ensures { IfOk result (λ g. gives g ≡ given_by times offset default.now samples.now) }
{
    let kept = samples_on_stage(alloc, times, offset, samples)?;
    let value = default_on_stage(times, offset, default)?;
    let left_out = (default.is_some() && value.is_none()) || kept.lost;
    Ok(OnStage {
        default: value,
        samples: kept.samples,
        left_out,
    })
}

/// What an opinion gives; a relationship gives nothing.
pub fn given(alloc: Global, opinion: &PropertyAt<'_, '_, '_>) -> Result<OnStage, AllocError>
    ensures { IfOk result (λ g. gives g ≡ given opinion.now) }
{
    match opinion.property() {
        Property::Attr {
            ty,
            default,
            samples,
            ..
        } => given_by(
            alloc,
            is_timecode(*ty),
            opinion.said().offset(),
            default,
            samples,
        ),
        Property::Rel { .. } => Ok(OnStage {
            default: None,
            samples: OrderedTable::new(alloc),
            left_out: false,
        }),
    }
}
