//! Changes of properties.
ghost use Rattle.std.specs.Prelude.{◌≡◌, IfOk};
ghost use Rattle.layer_edit.specs.Fields.{given_list, with_targets};
ghost use Rattle.layer_edit.specs.Metadata.{with_entry, with_property_entry};
ghost use Rattle.layer_edit.specs.Properties.{with_default, with_sample, without_sample};
ghost use Rattle.layer_edit.specs.Changes.{property_changed};

use crate::change::PropertyChange;
use list_ops::ListOp;
use plain_data::{Items, Text};
use sdf_paths::Path;
use sdf_specs::{Meta, Property};
use sdf_values::{TimeCode, Value};
use std::alloc::{AllocError, Global};
use std::mem;
use usda_lists::ListEdit;

/// An opinion with one list of it given. An explicit list clears the others, and another list clears the explicit one.
pub fn given_list<T: Drop>(
    alloc: Global,
    op: ListOp<T>,
    edit: ListEdit,
    items: Items<T>,
) -> ListOp<T>
    ensures { result ≡ given_list edit items op }
{
    let mut op = op;
    match edit {
        ListEdit::Explicit => {
            drop(mem::replace(&mut op, ListOp::new(alloc)));
            op.explicit = Some(items);
        }
        ListEdit::Delete => {
            op.explicit = None;
            op.deleted = items;
        }
        ListEdit::Add => {
            op.explicit = None;
            op.added = items;
        }
        ListEdit::Prepend => {
            op.explicit = None;
            op.prepended = items;
        }
        ListEdit::Append => {
            op.explicit = None;
            op.appended = items;
        }
        ListEdit::Reorder => {
            op.explicit = None;
            op.ordered = items;
        }
    }
    op
}

/// Metadata with a value at a key, or without one.
pub fn with_entry(meta: Meta, key: Text, value: Option<Value>) -> Result<Meta, AllocError>
    ensures { IfOk result (λ changed. changed ≡ with_entry key value meta) }
{
    let mut meta = meta;
    match value {
        Some(value) => match meta.insert(key, value) {
            Ok(before) => {
                drop(before);
                Ok(meta)
            }
            Err(error) => {
                drop(meta);
                Err(error)
            }
        },
        None => {
            drop(meta.remove(&key));
            drop(key);
            Ok(meta)
        }
    }
}

fn with_targets(alloc: Global, property: Property, edit: ListEdit, items: Items<Path>) -> Property
    ensures { result ≡ with_targets edit items property }
{
    match property {
        Property::Attr {
            name,
            ty,
            custom,
            uniform,
            default,
            samples,
            connections,
            meta,
        } => Property::Attr {
            name,
            ty,
            custom,
            uniform,
            default,
            samples,
            connections: given_list(alloc, connections, edit, items),
            meta,
        },
        Property::Rel {
            name,
            custom,
            targets,
            meta,
        } => Property::Rel {
            name,
            custom,
            targets: given_list(alloc, targets, edit, items),
            meta,
        },
    }
}

fn with_default(property: Property, value: Option<Value>) -> Property
    ensures { result ≡ with_default value property }
{
    match property {
        Property::Attr {
            name,
            ty,
            custom,
            uniform,
            default,
            samples,
            connections,
            meta,
        } => {
            drop(default);
            Property::Attr {
                name,
                ty,
                custom,
                uniform,
                default: value,
                samples,
                connections,
                meta,
            }
        }
        relationship => {
            drop(value);
            relationship
        }
    }
}

fn with_sample(property: Property, time: TimeCode, value: Value) -> Result<Property, AllocError>
    ensures { IfOk result (λ changed. changed ≡ with_sample time value property) }
{
    match property {
        Property::Attr {
            name,
            ty,
            custom,
            uniform,
            default,
            samples,
            connections,
            meta,
        } => {
            let mut samples = samples;
            match samples.insert(time, value) {
                Ok(before) => {
                    drop(before);
                    Ok(Property::Attr {
                        name,
                        ty,
                        custom,
                        uniform,
                        default,
                        samples,
                        connections,
                        meta,
                    })
                }
                Err(error) => {
                    drop((name, default, samples, connections, meta));
                    Err(error)
                }
            }
        }
        relationship => {
            drop(value);
            Ok(relationship)
        }
    }
}

fn without_sample(property: Property, time: TimeCode) -> Property
    ensures { result ≡ without_sample time property }
{
    match property {
        Property::Attr {
            name,
            ty,
            custom,
            uniform,
            default,
            samples,
            connections,
            meta,
        } => {
            let mut samples = samples;
            drop(samples.remove(&time));
            Property::Attr {
                name,
                ty,
                custom,
                uniform,
                default,
                samples,
                connections,
                meta,
            }
        }
        relationship => relationship,
    }
}

fn with_property_entry(
    property: Property,
    key: Text,
    value: Option<Value>,
) -> Result<Property, AllocError>
    ensures { IfOk result (λ changed. changed ≡ with_property_entry key value property) }
{
    match property {
        Property::Attr {
            name,
            ty,
            custom,
            uniform,
            default,
            samples,
            connections,
            meta,
        } => match with_entry(meta, key, value) {
            Ok(meta) => Ok(Property::Attr {
                name,
                ty,
                custom,
                uniform,
                default,
                samples,
                connections,
                meta,
            }),
            Err(error) => {
                drop((name, default, samples, connections));
                Err(error)
            }
        },
        Property::Rel {
            name,
            custom,
            targets,
            meta,
        } => match with_entry(meta, key, value) {
            Ok(meta) => Ok(Property::Rel {
                name,
                custom,
                targets,
                meta,
            }),
            Err(error) => {
                drop((name, targets));
                Err(error)
            }
        },
    }
}

/// A property after a change.
pub fn changed_property(
    alloc: Global,
    property: Property,
    change: PropertyChange,
) -> Result<Property, AllocError>
    ensures { IfOk result (λ changed. changed ≡ property_changed change property) }
{
    match change {
        PropertyChange::Targets { edit, items } => Ok(with_targets(alloc, property, edit, items)),
        PropertyChange::Default { value } => Ok(with_default(property, value)),
        PropertyChange::Sample { time, value } => with_sample(property, time, value),
        PropertyChange::NoSample { time } => Ok(without_sample(property, time)),
        PropertyChange::Meta { key, value } => with_property_entry(property, key, value),
    }
}
