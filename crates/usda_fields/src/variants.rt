//! The variants that an owner selects: a dictionary of strings, one for each set.
ghost use Rattle.std.specs.Prelude.{◌≡◌, [], map, IfOk, OnOk};
ghost use Rattle.usda_lists.specs.Acts.{Does};
ghost use Rattle.usda_fields.specs.Variants.{is_behind_type, is_string, token_act, with_selection, with_selections, selections_of, said, entry_of};

use plain_data::{Items, Text};
use sdf_values::{DictItem, DictType, ElementType, RefusalKind, Value};
use spec_properties::Selections;
use std::alloc::{AllocError, Global};
use usda_lexer::TokenKind;
use usda_values::{PartFault, Place, ValueDraft};

fn is_behind_type(place: Place) -> bool
    ensures { result ≡ is_behind_type place }
{
    match place {
        Place::BehindType | Place::TypeEnd | Place::Key => true,
        _ => false,
    }
}

fn is_string(ty: DictType) -> bool
    ensures { result ≡ is_string ty }
{
    match ty {
        DictType::Dictionary => false,
        DictType::Plain(ty) => !ty.array && matches!(ty.element, ElementType::String),
    }
}

/// Reads one token more of the dictionary of `variants`, or tells why it is refused: as in any dictionary, and `ValueShape` at a type
/// other than `string`. After a fault the draft is of no use.
pub fn give_selection_token(
    draft: &mut ValueDraft,
    kind: TokenKind,
    text: &str,
) -> Result<(), PartFault>
    ensures { Does result draft.new (token_act kind text.now draft.old) }
{
    if let Err(fault) = draft.give(kind, text) {
        return Err(fault);
    }
    if is_behind_type(draft.place) && !is_string(draft.level.ty) {
        return Err(PartFault::Refused(RefusalKind::ValueShape));
    }
    Ok(())
}

fn put_selection(selections: &mut Selections, item: DictItem) -> Result<(), AllocError>
    ensures { OnOk result (selections.new ≡ with_selection item.key (said item.value).text selections.old) }
{
    let DictItem { key, value, .. } = item;
    match value {
        Value::Text(variant) => {
            drop(selections.insert(key, variant)?);
            Ok(())
        }
        other => {
            drop((key, other));
            Ok(())
        }
    }
}

fn put_selections(alloc: Global, items: Items<DictItem>) -> Result<Selections, AllocError>
    ensures { IfOk result (λ selections. selections ≡ with_selections (map entry_of items) []) }
{
    let mut selections = Selections::new(alloc);
    for item in items.into_vec() {
        put_selection(&mut selections, item)?;
    }
    Ok(selections)
}

/// The selections of a whole dictionary of `variants`.
pub fn selections_of(alloc: Global, value: Value) -> Result<Selections, AllocError>
    ensures { IfOk result (λ selections. selections ≡ selections_of value) }
{
    match value {
        Value::Dict(items) => put_selections(alloc, items),
        other => {
            drop(other);
            Ok(Selections::new(alloc))
        }
    }
}
