use plain_data::{Items, Text};
use sdf_paths::Path;
use sdf_specs::{Property, RefItem};
use sdf_values::{TimeCode, Value};
use usda_fields::{OrderWord, PathField, ReferenceField, TextField};
use usda_lists::ListEdit;

/// A change of a list of names.
#[derive(Drop)]
pub enum NameChange {
    /// One name more, at the end.
    Add { name: Text },
    /// A name less.
    Drop { name: Text },
}

/// A change of the names of variants.
#[derive(Drop)]
pub enum VariantChange {
    /// One variant more, the last of its set.
    Add { set: Text, variant: Text },
    /// A variant less; the last of a set takes the set along.
    Drop { set: Text, variant: Text },
}

/// A change of a property, which keeps its name.
#[derive(Drop)]
pub enum PropertyChange {
    /// A list of the targets or the connections.
    Targets { edit: ListEdit, items: Items<Path> },
    /// The default, or none.
    Default { value: Option<Value> },
    /// The value at a time.
    Sample { time: TimeCode, value: Value },
    /// No value at a time.
    NoSample { time: TimeCode },
    /// The value of a key, or none.
    Meta { key: Text, value: Option<Value> },
}

/// A change of the spec of a prim or a variant.
#[derive(Drop)]
pub enum SpecChange {
    /// A list of classes.
    Paths {
        field: PathField,
        edit: ListEdit,
        items: Items<Path>,
    },
    /// A list of references or payloads.
    References {
        field: ReferenceField,
        edit: ListEdit,
        items: Items<RefItem>,
    },
    /// A list of texts.
    Texts {
        field: TextField,
        edit: ListEdit,
        items: Items<Text>,
    },
    /// The variant that is selected of a set, or none.
    Selection {
        set: Text,
        variant: Option<Text>,
    },
    /// The order of children or properties.
    Order {
        word: OrderWord,
        names: Items<Text>,
    },
    /// The value of a key, or none.
    Meta {
        key: Text,
        value: Option<Value>,
    },
    /// The names of children.
    Names {
        change: NameChange,
    },
    /// The names of variants.
    Variants {
        change: VariantChange,
    },
    /// A property, in the place of the one of its name or else at the end.
    PutProperty {
        property: Property,
    },
    /// No property of a name.
    DropProperty {
        name: Text,
    },
    /// A change of the property of a name, where there is one.
    ChangeProperty {
        name: Text,
        change: PropertyChange,
    },
}
