//! What a prim or a variant says in its metadata, and what keys of metadata expect of their values.
#![tactic(auto)]

mod field;
mod items;
mod keys;
mod names;
mod owner;
mod variants;

pub use field::{ListField, PathField, ReferenceField, TextField};
pub use keys::{KeyRule, judge_key, put_comment, put_value, rule_shape};
pub use names::{identifier_of, prim_below, variant_below, variant_of};
pub use owner::{OrderWord, OwnerDraft, OwnerMarks};
pub use variants::give_selection_token;
