ghost use Rattle.std.specs.Prelude.{◌≡◌};
ghost use Rattle.spec_parts.specs.Blank.{blank_head, blank_arcs, blank_body, blank_spec};

use crate::items::{RefItem, Specifier, SubLayer, VariantSet};
use list_ops::ListOp;
use plain_data::{Items, Text};
use sdf_paths::Path;
use spec_properties::{Meta, Properties, Selections};
use spec_tables::OrderedTable;
use std::alloc::Global;

/// What a layer says apart from its specs.
#[derive(Debug, Drop)]
pub struct Head {
    /// The layers below this one, the strongest first.
    pub sublayers: Items<SubLayer>,
    /// The prim that a reference without a path means: an identifier or an absolute path, as written, whether the prim is there or not.
    pub default_prim: Option<Text>,
    /// The other metadata.
    pub meta: Meta,
    /// The names of the root prims, in their order.
    pub root_names: Items<Text>,
    /// The order that the layer gives to root prims.
    pub root_order: Items<Text>,
}

/// What composition follows: the arcs of a spec, its variant sets and the variants that it selects.
#[derive(Debug, Drop)]
pub struct ArcPart {
    /// The classes that the prim inherits.
    pub inherits: ListOp<Path>,
    /// The classes that it specializes: their opinions are weaker than all others of the prim.
    pub specializes: ListOp<Path>,
    /// The prims that it refers to.
    pub references: ListOp<RefItem>,
    /// The prims that it refers to where the prim is loaded.
    pub payloads: ListOp<RefItem>,
    /// The names of its variant sets.
    pub variant_sets: ListOp<Text>,
    /// The variants that it selects, by the names of their sets.
    pub selections: Selections,
}

/// What composition gathers from a spec.
#[derive(Debug, Drop)]
pub struct BodyPart {
    /// Whether it defines the prim, makes it a class, or adds to it.
    pub specifier: Specifier,
    /// The type, where one is given.
    pub type_name: Option<Text>,
    /// The other metadata, by key.
    pub meta: Meta,
    /// The applied schemas.
    pub api_schemas: ListOp<Text>,
    /// The sets of value clips.
    pub clip_sets: ListOp<Text>,
    /// The names of the prims below, in their order.
    pub children: Items<Text>,
    /// The order that the spec gives to children.
    pub child_order: Items<Text>,
    /// The properties by name, in their order.
    pub properties: Properties,
    /// The order that the spec gives to properties.
    pub property_order: Items<Text>,
    /// The variant sets that stand in this spec, in their order, each with its variants.
    pub variant_names: Items<VariantSet>,
}

/// What a layer says of a prim or a variant.
#[derive(Debug, Drop)]
pub struct Spec {
    /// What composition follows.
    pub arcs: ArcPart,
    /// What composition gathers.
    pub body: BodyPart,
}

impl Head {
    /// The head that says nothing. Takes no memory.
    pub fn blank(alloc: Global) -> Head
        ensures { result ≡ blank_head }
    {
        Head {
            sublayers: Items::new(alloc),
            default_prim: None,
            meta: OrderedTable::new(alloc),
            root_names: Items::new(alloc),
            root_order: Items::new(alloc),
        }
    }
}

impl ArcPart {
    /// No arcs. Takes no memory.
    pub fn blank(alloc: Global) -> ArcPart
        ensures { result ≡ blank_arcs }
    {
        ArcPart {
            inherits: ListOp::new(alloc),
            specializes: ListOp::new(alloc),
            references: ListOp::new(alloc),
            payloads: ListOp::new(alloc),
            variant_sets: ListOp::new(alloc),
            selections: OrderedTable::new(alloc),
        }
    }
}

impl BodyPart {
    /// A body that says nothing but its specifier. Takes no memory.
    pub fn blank(alloc: Global, specifier: Specifier) -> BodyPart
        ensures { result ≡ blank_body specifier }
    {
        BodyPart {
            specifier,
            type_name: None,
            meta: OrderedTable::new(alloc),
            api_schemas: ListOp::new(alloc),
            clip_sets: ListOp::new(alloc),
            children: Items::new(alloc),
            child_order: Items::new(alloc),
            properties: Properties::new(alloc),
            property_order: Items::new(alloc),
            variant_names: Items::new(alloc),
        }
    }
}

impl Spec {
    /// A spec that says nothing but its specifier. Takes no memory.
    pub fn blank(alloc: Global, specifier: Specifier) -> Spec
        ensures { result ≡ blank_spec specifier }
    {
        Spec {
            arcs: ArcPart::blank(alloc),
            body: BodyPart::blank(alloc, specifier),
        }
    }
}
