//! Samples on the stage.
ghost use Rattle.std.specs.Prelude.{◌≡◌, ◌||◌, Some, filter_map, IfOk, OnOk};
ghost use Rattle.std.specs.List.{list_any};
ghost use Rattle.composition.specs.Values.{mapped_sample, is_lost};
ghost use Rattle.value_resolve.specs.Missing.{is_missing, with_sample};

use crate::mapping::value_on_stage;
use prim_opinions::StageOffset;
use sdf_values::{TimeCode, Value};
use spec_properties::Samples;
use spec_tables::OrderedTable;
use std::alloc::{AllocError, Global};

/// The samples that are within the range of times, and whether others are not.
#[derive(Drop)]
pub struct Kept {
    /// Those within the range, in the times of the stage.
    pub samples: Samples,
    /// Whether there are others.
    pub lost: bool,
}

/// A sample as it is on the stage; none where its time or a time in its value leaves the range.
fn sample_on_stage(
    times: bool,
    offset: StageOffset,
    time: TimeCode,
    value: &Value,
) -> Result<Option<(TimeCode, Value)>, AllocError>
    ensures { IfOk result (λ sample. sample ≡ mapped_sample times offset (time, value.now)) }
{
    let Some(time) = offset.map(time) else {
        return Ok(None);
    };
    match value_on_stage(times, offset, value)? {
        Some(value) => Ok(Some((time, value))),
        None => Ok(None),
    }
}

/// Puts a sample that is there into a table, and answers whether it was missing.
fn put(kept: &mut Samples, sample: Option<(TimeCode, Value)>) -> Result<bool, AllocError>
    ensures kept { OnOk result (kept.new ≡ with_sample kept.old sample) }
    ensures missing { IfOk result (λ missing. missing ≡ is_missing sample) }
{
    match sample {
        Some((time, value)) => {
            drop(kept.insert(time, value)?);
            Ok(false)
        }
        None => Ok(true),
    }
}

/// Whether one of the two holds.
fn either(a: bool, b: bool) -> bool
    ensures { result ≡ (a || b) }
{
    a || b
}

/// The samples of an opinion as they are on the stage.
pub fn samples_on_stage(
    alloc: Global,
    times: bool,
    offset: StageOffset,
    samples: &Samples,
) -> Result<Kept, AllocError>
    ensures samples { IfOk result (λ kept. kept.samples ≡ filter_map (mapped_sample times offset) samples.now) }
    ensures lost { IfOk result (λ kept. kept.lost ≡ list_any (λ e. is_lost (Some e) (mapped_sample times offset e)) samples.now) }
{
    let mut kept = OrderedTable::new(alloc);
    let mut lost = false;
    let _forward = offset.scale;
    for (time, value) in samples.iter() {
        let sample = sample_on_stage(times, offset, *time, value)?;
        let missing = put(&mut kept, sample)?;
        lost = either(lost, missing);
    }
    Ok(Kept {
        samples: kept,
        lost,
    })
}
