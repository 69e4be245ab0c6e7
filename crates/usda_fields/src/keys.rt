//! The keys of metadata: what each expects, and where its value goes.
ghost use Rattle.std.specs.Prelude.{◌≡◌, Some, IfOk, OnErr};
ghost use Rattle.sdf_values.specs.Conforms.{one};
ghost use Rattle.usda_lists.specs.Acts.{AsksNoMemory, Does, Gives};
ghost use Rattle.usda_fields.specs.Keys.{is_boolean_key, key_rule, rule_shape, is_prim_path, is_default_prim, judged_prim, judged, unless_taken, key_act, value_act, comment_act};

use crate::names::text_of;
use plain_data::Text;
use sdf_paths::{Element, Path, path_of};
use sdf_values::{ElementType, RefusalKind, TypeName, Value};
use spec_properties::Meta;
use std::alloc::{AllocError, Global};
use usd_names::is_identifier;
use usda_values::{PartFault, Shape};

/// What a key of metadata expects.
#[derive(Clone, Copy, Debug, PartialEq, Eq)]
pub enum KeyRule {
    /// The key `relocates`, which is refused.
    Relocates,
    /// A string.
    Comment,
    /// `true`, `false`, 1 or 0.
    Boolean,
    /// A string that is an identifier or the path of a prim from the root down, whether the prim is there or not.
    DefaultPrim,
    /// Any value.
    Free,
}

fn is_boolean_key(key: &str) -> bool
    ensures { result ≡ is_boolean_key key.now }
{
    key == "active" || key == "hidden" || key == "instanceable"
}

impl KeyRule {
    /// The rule of a key; it is the same in the head of a layer, on prims and variants, and on properties.
    pub fn of_key(key: &str) -> KeyRule
        ensures { result ≡ key_rule key.now }
    {
        if key == "relocates" {
            KeyRule::Relocates
        } else if key == "comment" {
            KeyRule::Comment
        } else if is_boolean_key(key) {
            KeyRule::Boolean
        } else if key == "defaultPrim" {
            KeyRule::DefaultPrim
        } else {
            KeyRule::Free
        }
    }
}

fn plain_shape(element: ElementType) -> Shape
    ensures { result ≡ Shape.Typed (one element) }
{
    Shape::Typed(TypeName::one(element))
}

/// What the tokens of the value of a key are to be.
pub fn rule_shape(rule: KeyRule) -> Shape
    ensures { result ≡ rule_shape rule }
{
    match rule {
        KeyRule::Relocates | KeyRule::Free => Shape::Metadata,
        KeyRule::Comment | KeyRule::DefaultPrim => plain_shape(ElementType::String),
        KeyRule::Boolean => plain_shape(ElementType::Bool),
    }
}

fn ends_in_prim(path: &Path) -> bool
    ensures { result ≡ is_prim_path (Some path.now) }
{
    match path.elements().last() {
        Some(Element::Prim(_)) => true,
        _ => false,
    }
}

fn is_default_prim(alloc: Global, text: &str) -> Result<bool, AllocError>
    ensures { IfOk result (λ is. is ≡ is_default_prim text.now) }
{
    if is_identifier(text) {
        return Ok(true);
    }
    match path_of(alloc, text)? {
        Some(path) => Ok(ends_in_prim(&path)),
        None => Ok(false),
    }
}

fn judged_prim(alloc: Global, text: Text) -> Result<Value, PartFault>
    ensures { Gives result (judged_prim text) }
{
    if is_default_prim(alloc, text.as_str())? {
        Ok(Value::Text(text))
    } else {
        Err(PartFault::Refused(RefusalKind::ValueShape))
    }
}

fn judged(alloc: Global, rule: KeyRule, value: Value) -> Result<Value, PartFault>
    ensures { Gives result (judged rule value) }
{
    match (rule, value) {
        (KeyRule::Comment, Value::Text(text)) => Ok(Value::Text(text)),
        (KeyRule::Boolean, Value::Bool(b)) => Ok(Value::Bool(b)),
        (KeyRule::DefaultPrim, Value::Text(text)) => judged_prim(alloc, text),
        (KeyRule::Free, value) => Ok(value),
        other => {
            drop(other);
            Err(PartFault::Refused(RefusalKind::ValueShape))
        }
    }
}

fn unless_taken(taken: bool, rule: KeyRule) -> Result<KeyRule, PartFault>
    ensures answer { Gives result (unless_taken taken rule) }
    ensures sure { AsksNoMemory result }
{
    match rule {
        KeyRule::Relocates => Err(PartFault::Refused(RefusalKind::Relocates)),
        _ => {
            if taken {
                Err(PartFault::Refused(RefusalKind::DuplicateSpec))
            } else {
                Ok(rule)
            }
        }
    }
}

/// What a key expects, before its value is read. `DuplicateSpec` where it is there already, `Relocates` for the key of that name. Takes
/// no memory.
pub fn judge_key(meta: &Meta, key: &Text) -> Result<KeyRule, PartFault>
    ensures answer { Gives result (key_act key.now meta.now) }
    ensures sure { AsksNoMemory result }
{
    unless_taken(meta.has(key), KeyRule::of_key(key.as_str()))
}

/// Puts the whole value of a key. `ValueShape` where the key does not take it. After a fault the metadata is as before.
pub fn put_value(alloc: Global, meta: &mut Meta, key: Text, value: Value) -> Result<(), PartFault>
    ensures answer { Does result meta.new (value_act key value meta.old) }
    ensures kept { OnErr result (meta.new ≡ meta.old) }
{
    match judged(alloc, KeyRule::of_key(key.as_str()), value) {
        Ok(value) => {
            drop(meta.insert(key, value)?);
            Ok(())
        }
        Err(fault) => Err(fault),
    }
}

/// Puts a string token that stands alone, which is the value of the key `comment`. `NotUtf8` where its escapes make bytes that are not
/// UTF-8, `DuplicateSpec` where the key is there already. After a fault the metadata is as before.
pub fn put_comment(alloc: Global, meta: &mut Meta, token: &str) -> Result<(), PartFault>
    ensures answer { Does result meta.new (comment_act token.now meta.old) }
    ensures kept { OnErr result (meta.new ≡ meta.old) }
{
    let text = match text_of(alloc, token) {
        Ok(text) => text,
        Err(fault) => return Err(fault),
    };
    let key = Text::of(alloc, "comment")?;
    if meta.has(&key) {
        return Err(PartFault::Refused(RefusalKind::DuplicateSpec));
    }
    drop(meta.insert(key, Value::Text(text))?);
    Ok(())
}
