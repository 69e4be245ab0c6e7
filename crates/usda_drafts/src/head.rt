//! The head of a layer that has been read.
ghost use Rattle.std.specs.Prelude.{◌≡◌};
ghost use Rattle.usda_drafts.specs.Drafts.{text_of, head_with, head_from};

use crate::owner::Owner;
use plain_data::{Items, Text};
use sdf_values::Value;
use spec_parts::{BodyPart, Head, Spec, SubLayer};

/// The text of the value of a key, where it is one.
#[tactic(auto, unfolding(crate::specs::Drafts::text_of))]
fn text_of(value: Option<Value>) -> Option<Text>
    ensures { result ≡ text_of value }
{
    match value {
        Some(Value::Text(text)) => Some(text),
        other => {
            drop(other);
            None
        }
    }
}

/// What a spec says apart from its arcs.
fn body_of(spec: Spec) -> BodyPart
    ensures { result ≡ spec.body }
{
    let Spec { arcs, body } = spec;
    drop(arcs);
    body
}

/// The head of a layer of whose root this is said; the default prim stands at this key.
#[tactic(auto, unfolding(crate::specs::Drafts::head_with))]
fn head_with(key: &Text, body: BodyPart, sublayers: Items<SubLayer>) -> Head
    ensures { result ≡ head_with key.now body sublayers }
{
    let BodyPart {
        specifier: _,
        type_name,
        mut meta,
        api_schemas,
        clip_sets,
        children,
        child_order,
        properties,
        property_order,
        variant_names,
    } = body;
    drop((type_name, api_schemas, clip_sets));
    drop((properties, property_order, variant_names));
    let default_prim = text_of(meta.remove(key));
    Head {
        sublayers,
        default_prim,
        meta,
        root_names: children,
        root_order: child_order,
    }
}

/// The head of the layer: what its owner says, and its sublayers.
#[tactic(auto, unfolding(crate::specs::Drafts::head_from))]
pub fn head_from(key: &Text, owner: Owner, sublayers: Items<SubLayer>) -> Head
    ensures { result ≡ head_from key.now owner sublayers }
{
    head_with(key, body_of(owner.into_spec()), sublayers)
}
