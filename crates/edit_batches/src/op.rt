use crate::written::{WrittenReference, WrittenSubLayer};
use asset_names::AssetId;
use layer_set::Held;
use plain_data::{Items, Text};
use sdf_paths::Path;
use sdf_specs::Specifier;
use sdf_values::{Num, TypeName, Value};
use usda_fields::{OrderWord, PathField, ReferenceField, TextField};
use usda_lists::ListEdit;

/// One edit of a world. Layers are named from the working folder.
///
/// Every operation on a layer but `NewLayer` and `PutLayer` is refused where the layer is not present, and every operation on a
/// path where the path is of another kind than the operation is for.
#[derive(Debug, Drop)]
pub enum Op {
    /// Adds an empty layer, or the layer of a text, at a name that has no layer.
    NewLayer {
        /// The name of the new layer.
        layer: AssetId,
        /// The text of the layer; none for an empty one.
        text: Option<Text>,
    },
    /// Adds a prim at a path that ends in a name. It becomes the last child of its owner.
    AddPrim {
        /// The name of the layer.
        layer: AssetId,
        /// The path of the new prim.
        path: Path,
        /// Its specifier.
        specifier: Specifier,
        /// Its type, if it has one.
        type_name: Option<Text>,
    },
    /// Adds a variant at a path that ends in a selection. It becomes the last variant of its set.
    AddVariant {
        /// The name of the layer.
        layer: AssetId,
        /// The path of the new variant.
        path: Path,
    },
    /// Adds an attribute at the path of a property. It becomes the last property of its owner.
    AddAttribute {
        /// The name of the layer.
        layer: AssetId,
        /// The path of the new attribute.
        path: Path,
        /// None where what is written is no type.
        ty: Option<TypeName>,
        /// Whether it is `custom`.
        custom: bool,
        /// Whether it is `uniform`.
        uniform: bool,
    },
    /// Adds a relationship at the path of a property. It becomes the last property of its owner.
    AddRelationship {
        /// The name of the layer.
        layer: AssetId,
        /// The path of the new relationship.
        path: Path,
        /// Whether it is `custom`.
        custom: bool,
    },
    /// Removes a prim, a variant or a property with all that stands below it.
    Remove {
        /// The name of the layer.
        layer: AssetId,
        /// The path of what is removed.
        path: Path,
    },
    /// Gives an attribute a default, as a value of its type.
    SetDefault {
        /// The name of the layer.
        layer: AssetId,
        /// The path of the attribute.
        path: Path,
        /// The value as it is written, without a type.
        value: Value,
    },
    /// Takes the default of an attribute away.
    ClearDefault {
        /// The name of the layer.
        layer: AssetId,
        /// The path of the attribute.
        path: Path,
    },
    /// Gives an attribute a value at a time.
    SetSample {
        /// The name of the layer.
        layer: AssetId,
        /// The path of the attribute.
        path: Path,
        /// The time, in range or not.
        time: Num,
        /// The value as it is written, without a type.
        value: Value,
    },
    /// Takes the value of an attribute at a time away.
    ClearSample {
        /// The name of the layer.
        layer: AssetId,
        /// The path of the attribute.
        path: Path,
        /// The time, in range or not.
        time: Num,
    },
    /// Gives metadata to a prim, a variant, a property or, at `/`, to the layer.
    SetMeta {
        /// The name of the layer.
        layer: AssetId,
        /// The path of what the metadata is of.
        path: Path,
        /// The key.
        key: Text,
        /// The value as it is written, without a type.
        value: Value,
    },
    /// Takes metadata away.
    ClearMeta {
        /// The name of the layer.
        layer: AssetId,
        /// The path of what the metadata is of.
        path: Path,
        /// The key.
        key: Text,
    },
    /// Gives one list of a field. An explicit list clears the others, and another list clears the explicit one.
    SetList {
        /// The name of the layer.
        layer: AssetId,
        /// The path of the prim, the variant or the property.
        path: Path,
        /// Which list of the field is given.
        edit: ListEdit,
        /// The field and the items.
        list: FieldList,
    },
    /// Selects a variant of a set; the empty variant selects none.
    Select {
        /// The name of the layer.
        layer: AssetId,
        /// The path of the prim or the variant that selects.
        path: Path,
        /// The name of the variant set.
        set: Text,
        /// The name of the variant, or the empty text.
        variant: Text,
    },
    /// Takes the selection of a set away.
    Unselect {
        /// The name of the layer.
        layer: AssetId,
        /// The path of the prim or the variant that selects.
        path: Path,
        /// The name of the variant set.
        set: Text,
    },
    /// Gives the order of the children or of the properties of a prim or a variant; at `/` of the root prims.
    SetOrder {
        /// The name of the layer.
        layer: AssetId,
        /// The path of the prim or the variant, or `/`.
        path: Path,
        /// Whether children or properties are ordered.
        word: OrderWord,
        /// The names, in their order.
        names: Items<Text>,
    },
    /// Gives the sublayers of a layer.
    SetSublayers {
        /// The name of the layer.
        layer: AssetId,
        /// The sublayers, the strongest first.
        sublayers: Items<WrittenSubLayer>,
    },
    /// Loads the prim at a plain prim path and what stands below it, whether or not the stage has a prim there.
    Load {
        /// The path of the prim.
        path: Path,
    },
    /// Unloads the prim at a plain prim path and what stands below it, whether or not the stage has a prim there.
    Unload {
        /// The path of the prim.
        path: Path,
    },
    /// Takes the load rule at a plain prim path away.
    Unrule {
        /// The path of the prim.
        path: Path,
    },
    /// Puts what stands at a name of a layer, as it was opened.
    PutLayer {
        /// The name of the layer.
        id: AssetId,
        /// What stands at the name from now on.
        held: Held,
    },
}

/// A list of a field, with the field that it is for.
#[derive(Debug, Drop)]
pub enum FieldList {
    /// Of a prim or a variant.
    Paths {
        /// The field.
        field: PathField,
        /// The paths.
        items: Items<Path>,
    },
    /// Of a prim or a variant.
    References {
        /// The field.
        field: ReferenceField,
        /// The items, as they are written.
        items: Items<WrittenReference>,
    },
    /// Of a prim or a variant.
    Texts {
        /// The field.
        field: TextField,
        /// The texts.
        items: Items<Text>,
    },
    /// The targets of a relationship, kept as given: whoever makes the operation drops variant selections.
    Targets {
        /// The paths.
        items: Items<Path>,
    },
    /// The connections of an attribute, kept as given: whoever makes the operation drops variant selections.
    Connections {
        /// The paths.
        items: Items<Path>,
    },
}
