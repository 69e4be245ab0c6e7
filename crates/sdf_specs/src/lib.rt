//! Layers of scene description as tables: a head, and specs by path.
//!
//! What heads and specs are made of comes from the crates below, so that users name this one alone.
#![tactic(auto)]

mod below;
mod keys;
mod layer;
mod put_refused;
mod trees;

pub use below::{prim_spec_below, stand_at_paths, variant_spec_below};
pub use keys::default_key;
pub use layer::Layer;
pub use put_refused::PutRefused;
pub use shared_tables::SharedTable;
pub use spec_parts::{
    ArcPart, BodyPart, Head, RefItem, Refusal, RefusalKind, Spec, Specifier, SubLayer, VariantSet,
};
pub use spec_properties::{Meta, Properties, Property, Samples, Selections};
pub use spec_tables::OrderedTable;
