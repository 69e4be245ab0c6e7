use asset_names::AssetId;

/// The name of a layer stack.
#[derive(Clone, Debug, Drop, PartialEq, Eq, PartialOrd, Ord)]
pub enum StackName {
    /// That of the world's root layer, with the session layer's before it. Without a session layer the root layer's own name means
    /// this one.
    Root,
    /// That of a layer.
    Asset(AssetId),
}
