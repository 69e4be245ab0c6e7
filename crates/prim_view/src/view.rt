use crate::fault::PrimFault;
use crate::site::Site;
use plain_data::{Items, Text};
use sdf_paths::Path;
use sdf_values::{TypeName, Value};
use spec_parts::Specifier;
use spec_properties::{Meta, Samples};
use variant_select::Choices;

/// A property as it is on the stage.
#[derive(Debug, Drop)]
pub enum PropertyView {
    /// An attribute.
    Attr {
        /// Its name.
        name: Text,
        /// The type of its values.
        ty: TypeName,
        /// Whether some spec says `custom`.
        custom: bool,
        /// Whether the strongest spec says `uniform`: the value is meant to be one for all times.
        uniform: bool,
        /// The default that decides; a block is one.
        default: Option<Value>,
        /// The samples that decide, in the times of the stage.
        samples: Samples,
        /// The connections; none where there is no opinion on them.
        connections: Option<Items<Path>>,
        /// The other metadata, by key.
        meta: Meta,
    },
    /// A relationship.
    Rel {
        /// Its name.
        name: Text,
        /// Whether some spec says `custom`.
        custom: bool,
        /// The targets; none where there is no opinion on them.
        targets: Option<Items<Path>>,
        /// The other metadata, by key.
        meta: Meta,
    },
}

/// What a prim is on the stage.
#[derive(Debug, Drop)]
pub struct PrimView {
    /// Whether the prim is defined, a class, or only spoken of.
    pub specifier: Specifier,
    /// The type, where one is given.
    pub type_name: Option<Text>,
    /// The other metadata, by key.
    pub meta: Meta,
    /// The applied schemas; none where there is no opinion on them.
    pub api_schemas: Option<Items<Text>>,
    /// The sets of value clips; none where there is no opinion on them.
    pub clip_sets: Option<Items<Text>>,
    /// The properties in their order, each name once.
    pub properties: Items<PropertyView>,
    /// The names of the children in their order, each once.
    pub children: Items<Text>,
    /// The variants that are chosen, in the order in which they were decided.
    pub choices: Choices,
    /// The sites from strong to weak.
    pub sites: Items<Site>,
    /// What composition found wrong, each fault once.
    pub faults: Items<PrimFault>,
    /// The version of the stage since which the prim is as it is.
    pub since: u64,
}
