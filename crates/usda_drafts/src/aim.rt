//! What the next value is for.
use plain_data::Text;
use sdf_values::TimeCode;
use usda_values::Shape;

/// Where a value goes when it is complete.
#[derive(Clone, Copy, Debug, PartialEq, Eq)]
pub enum Goal {
    /// Nowhere: no value is expected.
    Nothing,
    /// To a key of the metadata of a prim, a variant or the layer.
    OwnerKey,
    /// To the variants that are selected.
    Variants,
    /// To a key of the metadata of the property in hand.
    PropertyKey,
    /// To the default of the property in hand.
    Default,
    /// To a sample of the property in hand.
    Sample,
}

/// What the next value is for, and what is expected of it.
#[derive(Debug, Drop)]
pub struct Aim {
    /// Where it goes.
    pub goal: Goal,
    /// What it has to be.
    pub shape: Shape,
    /// The key, where it is one of metadata.
    pub key: Text,
    /// The time of a sample.
    pub time: TimeCode,
}
