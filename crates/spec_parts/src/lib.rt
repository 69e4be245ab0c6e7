//! What layers say: heads, and specs of prims and variants.
//!
//! A spec has the parts that composition follows, `ArcPart`, apart from those that it gathers, `BodyPart`.
#![tactic(auto)]

mod exact_items;
mod exact_specs;
mod items;
mod spec;

pub use items::{RefItem, Refusal, Specifier, SubLayer, VariantSet};
pub use sdf_values::RefusalKind;
pub use spec::{ArcPart, BodyPart, Head, Spec};
