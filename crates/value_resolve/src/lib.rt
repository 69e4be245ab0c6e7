//! Values of attributes: the opinions that count, their times on the stage, and the first that decides.
#![tactic(auto)]

mod attr;
mod decision;
mod mapping;
mod on_stage;
mod samples;

pub use attr::{AttrValue, resolve_attr, resolve_attr_by};
