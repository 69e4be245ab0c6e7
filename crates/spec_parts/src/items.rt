use plain_data::{Items, Text};
use sdf_paths::Path;
use sdf_values::{LayerOffset, RefusalKind};

/// What a spec says of its prim.
#[derive(Clone, Copy, Debug, PartialEq, Eq)]
pub enum Specifier {
    /// The prim is defined.
    Def,
    /// Nothing: the spec adds to a prim that is defined elsewhere.
    Over,
    /// The prim is a class.
    Class,
}

/// Why a text is no layer, and where: lines count line feeds from 1, columns bytes from 1.
#[derive(Clone, Copy, Debug, PartialEq, Eq)]
pub struct Refusal {
    /// Why it is none.
    pub kind: RefusalKind,
    /// The line, from 1.
    pub line: u64,
    /// The byte of the line, from 1.
    pub column: u64,
}

/// A sublayer: its asset as written, and how its times become those of the layer.
#[derive(Debug, Drop)]
pub struct SubLayer {
    /// The asset as it is written.
    pub asset: Text,
    /// How times of the sublayer become those of the layer that lists it.
    pub offset: LayerOffset,
}

/// An item of references or payloads.
#[derive(Debug, Drop)]
pub struct RefItem {
    /// The asset as written; none stands for the layer stack of the item itself.
    pub asset: Option<Text>,
    /// The target; none stands for the default prim of the target layer.
    pub path: Option<Path>,
    /// How the times of the target become those of the layer.
    pub offset: LayerOffset,
}

/// A variant set with its variants, in their order.
#[derive(Debug, Drop)]
pub struct VariantSet {
    /// The name of the set.
    pub set: Text,
    /// The names of its variants, in their order.
    pub variants: Items<Text>,
}
